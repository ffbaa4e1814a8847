//! Written operands where a kind is asked.
ghost use Rattle.std.specs.Prelude.{◌≡◌};
ghost use Rattle.hilti_operands.specs.Answers.{Told};
ghost use Rattle.hilti_operands.specs.Operands as spec;
ghost use Rattle.hilti_operands.specs.Seen.{body_seen, line_seen, known_of};

use crate::groups::read_group;
use crate::known::Known;
use crate::names::{
    exception_meant, function_meant, hook_meant, meaning_of, overlay_meant, read_field, read_index,
    read_label, read_mode, read_named, read_new, read_overlay_field,
};
use crate::own::{read_returned, read_tested};
use crate::values::read_of_kind;
use crate::view::LineView;
use hilti_base::Refusal;
use hilti_module::{Operand as Written, Simple};
use hilti_parts::Operand;
use hilti_table::Kind;
use std::alloc::Global;

/// An operand without parentheses.
fn read_simple(
    alloc: Global,
    line: &LineView<'_>,
    kind: Kind,
    known: &Known,
    simple: &Simple,
) -> Result<Operand, Refusal>
    ensures { Told result (spec.read_simple (line_seen line.now) kind
        (known_of (body_seen line.now.body) known.now) simple.now) }
{
    let body = &line.body;
    let meaning = meaning_of(body, simple);
    match kind {
        Kind::Own(test) => read_tested(alloc, line, test, simple),
        Kind::Returned => read_returned(alloc, line, simple),
        Kind::Function(which) => { read_named(body, function_meant(body, which, meaning), simple) }
        Kind::Hook => read_named(body, hook_meant(body, meaning), simple),
        Kind::Exception => read_named(body, exception_meant(body, meaning), simple),
        Kind::Overlay => read_named(body, overlay_meant(body, meaning), simple),
        Kind::New => read_new(alloc, body, simple),
        Kind::Label => read_label(body, simple),
        Kind::Mode => read_mode(body, simple),
        Kind::Index => read_index(body, known, simple),
        Kind::Field => read_field(body, known, simple),
        Kind::OverlayField => read_overlay_field(body, known, simple),
        _ => read_of_kind(alloc, line, kind, known, simple),
    }
}

/// The operand that a written one stands for where a kind is asked, behind what is known; or its first refusal: code 21
/// at a name that means nothing, 30 at the first token of an operand of another kind or type, 31 at the mnemonic for a
/// wrong number of operands in parentheses, 35 at one of a type that isn't sendable, 36 at a literal that doesn't fit.
pub fn read_operand(
    alloc: Global,
    line: &LineView<'_>,
    kind: Kind,
    known: &Known,
    operand: &Written,
) -> Result<Operand, Refusal>
    ensures { Told result (spec.read_operand (line_seen line.now) kind
        (known_of (body_seen line.now.body) known.now) operand.now) }
{
    match operand {
        Written::Simple(simple) => read_simple(alloc, line, kind, known, simple),
        Written::Group { place, items } => {
            read_group(alloc, line, kind, known, *place, items.as_slice())
        }
    }
}
