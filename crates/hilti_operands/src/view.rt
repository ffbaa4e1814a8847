//! What the lines of a body see.
use hilti_base::Place;
use hilti_link::{LinkedFunction, Tables};
use hilti_scope::{FirstPlaces, Scope};
use hilti_types::ValueType;

/// What the lines of a body see: what names mean in it, what the modules declare, the function or hook body itself, the
/// words of its labels with the numbers of their blocks, and the number of its blocks.
#[derive(Clone, Copy)]
pub struct BodyView<'a> {
    pub scope: &'a Scope<'a>,
    pub tables: &'a Tables,
    pub function: &'a LinkedFunction,
    pub labels: &'a FirstPlaces,
    pub blocks: usize,
}

/// A line of a body: the place of its mnemonic, the type of its target, the width of its numbers in bits, and the type
/// of its Null where no other is asked.
#[derive(Clone, Copy)]
pub struct LineView<'a> {
    pub body: BodyView<'a>,
    pub mnemonic: Place,
    pub target: &'a Option<ValueType>,
    pub width: u8,
    pub null: &'a Option<ValueType>,
}
