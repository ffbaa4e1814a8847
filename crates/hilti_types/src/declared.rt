use crate::value_type::ValueType;
use hilti_base::{Blob, Collection, Names};

/// The fields of a struct.
pub type Members = Collection<Member>;

/// The fields of an overlay.
pub type OverlayFields = Collection<OverlayField>;

/// A type that a module declares.
#[derive(Debug, Drop)]
pub enum Declared {
    Struct { name: Blob, fields: Members },
    Enum { name: Blob, words: Names },
    Overlay { name: Blob, fields: OverlayFields },
}

/// A field of a struct.
#[derive(Debug, Drop)]
pub struct Member {
    pub name: Blob,
    pub kind: ValueType,
}

/// A field of an overlay: its type, where it begins, the word of its form, the `n` of the form `Bytes(n)` and else 0,
/// and its bit range, the lowest bit first.
#[derive(Debug, Drop)]
pub struct OverlayField {
    pub name: Blob,
    pub kind: ValueType,
    pub offset: u64,
    pub form: Blob,
    pub size: u32,
    pub bits: Option<(u8, u8)>,
}
