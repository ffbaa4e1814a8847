//! What the operands of a line have told so far.
ghost use Rattle.std.specs.Prelude.{◌≡◌};
ghost use Rattle.std.specs.Option.{option_copied};
ghost use Rattle.hilti_typing.specs.Fits as fits;
ghost use Rattle.hilti_operands.specs.Names as names;
ghost use Rattle.hilti_operands.specs.Seen.{body_seen, known_of};

use crate::view::BodyView;
use hilti_row_types::{fields_of, object_of, overlay_fields, part_of, parts_of, rule_of};
use hilti_table::Part;
use hilti_types::{Inner, Member, OverlayField, OverlayFields, ValueType};

/// What the operands in front of one have told: a type, or the number of a function, a hook or an overlay.
#[derive(Debug, Drop)]
pub enum Known {
    Nothing,
    Of { kind: ValueType },
    Function { n: u32 },
    Hook { n: u32 },
    Overlay { n: u32 },
}

/// The known type.
pub fn known_type<'a>(body: &BodyView<'_>, known: &'a Known) -> Option<&'a ValueType>
    ensures { option_copied result ≡ fits.known_type (known_of (body_seen body.now) known.now) }
{
    match known {
        Known::Of { kind } => Some(kind),
        _ => None,
    }
}

/// The known object.
pub fn known_object<'a>(body: &BodyView<'_>, known: &'a Known) -> Option<&'a Inner>
    ensures { option_copied result ≡ fits.known_object (known_of (body_seen body.now) known.now) }
{
    match known_type(body, known) {
        Some(kind) => object_of(kind),
        None => None,
    }
}

/// A part of the known object.
pub fn known_part<'a>(body: &BodyView<'_>, part: Part, known: &'a Known) -> Option<&'a ValueType>
    ensures { option_copied result ≡ fits.known_part part (known_of (body_seen body.now) known.now) }
{
    match known_object(body, known) {
        Some(object) => part_of(part, object),
        None => None,
    }
}

/// The parts of the rules of the known classifier.
pub fn known_rule<'a>(body: &BodyView<'_>, known: &'a Known) -> Option<&'a [ValueType]>
    ensures { option_copied result ≡ fits.known_rule (known_of (body_seen body.now) known.now) }
{
    match known_object(body, known) {
        Some(object) => rule_of(object),
        None => None,
    }
}

/// The parts of a type that may be there, where it is one of tuples.
pub fn known_parts(kind: Option<&ValueType>) -> &[ValueType]
    ensures { result.now ≡ names.known_parts (option_copied kind.entry) }
{
    match kind {
        Some(kind) => parts_of(kind),
        None => &[],
    }
}

/// The fields of the known struct.
pub fn known_members<'a>(body: &BodyView<'a>, known: &Known) -> &'a [Member]
    ensures { result.now ≡ names.members body.now.tables.now.types
        (fits.known_object (known_of (body_seen body.now) known.now)) }
{
    match known_object(body, known) {
        Some(object) => fields_of(&body.tables.types, object),
        None => &[],
    }
}

/// The known overlay, by its fields.
pub fn known_overlay<'a>(body: &BodyView<'a>, known: &Known) -> Option<&'a OverlayFields>
    ensures { option_copied result
        ≡ fits.known_overlay (known_of (body_seen body.now) known.now) }
{
    match known {
        Known::Overlay { n } => overlay_fields(&body.tables.types, *n),
        _ => None,
    }
}

/// The fields of the known overlay.
pub fn known_fields<'a>(body: &BodyView<'a>, known: &Known) -> &'a [OverlayField]
    ensures { result.now ≡ names.read_fields
        (fits.known_overlay (known_of (body_seen body.now) known.now)) }
{
    match known_overlay(body, known) {
        Some(fields) => fields.as_slice(),
        None => &[],
    }
}
