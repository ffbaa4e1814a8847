use hilti_types::Inner;

/// What may stand for what is between the `<` and `>` of a reference or an iterator: an object's type, the word
/// `bytes`, or a name that means something else than a struct, which is no object's type.
#[derive(Debug, Drop)]
pub enum InnerValue {
    Object(Inner),
    BytesWord,
    NoObject,
}
