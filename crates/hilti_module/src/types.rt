//! Types as they are written, and the names in them.
use hilti_base::{Blob, Collection, Place};
use sqlite_items::Boxed;

/// A word and the place of its first byte.
#[derive(Debug, Drop)]
pub struct Word {
    pub place: Place,
    pub bytes: Blob,
}

/// Words in order.
pub type Words = Collection<Word>;

/// A word, or a module's word and a word in it, as `first::second`.
#[derive(Debug, Drop)]
pub struct Name {
    pub first: Word,
    pub second: Option<Word>,
}

/// A whole number and its place.
#[derive(Debug, Drop)]
pub struct Number {
    pub place: Place,
    pub value: u64,
}

/// A type of one word.
#[derive(Clone, Copy, Debug, PartialEq, Eq)]
pub enum PlainType {
    Bool,
    Text,
    Bytes,
    Addr,
    Net,
    Port,
    Time,
    Interval,
    Callable,
}

/// An inner type of one word.
#[derive(Clone, Copy, Debug, PartialEq, Eq)]
pub enum PlainInner {
    Bytes,
    Timer,
    /// A timer manager.
    Manager,
}

/// A container of one type.
#[derive(Clone, Copy, Debug, PartialEq, Eq)]
pub enum Single {
    List,
    Vector,
    Set,
}

/// A container of two types.
#[derive(Clone, Copy, Debug, PartialEq, Eq)]
pub enum Double {
    Map,
    Classifier,
}

/// Types in order.
pub type TypeTexts = Collection<TypeText>;

/// A type as it is written. A place is that of its first word.
#[derive(Debug, Drop)]
#[cycle(type_text)]
pub enum TypeText {
    Plain { place: Place, plain: PlainType },
    Parametric(Parametric),
    Named(Name),
}

/// A type with something between `<` and `>`.
#[derive(Debug, Drop)]
#[cycle(type_text)]
pub enum Parametric {
    Int { place: Place, bits: Number },
    Tuple { place: Place, parts: TypeTexts },
    Iterator { place: Place, over: InnerText },
    Ref { place: Place, to: InnerText },
}

/// What stands between the `<` and `>` of a reference or an iterator.
#[derive(Debug, Drop)]
#[cycle(type_text)]
pub enum InnerText {
    Word { place: Place, word: PlainInner },
    Container(Container),
    Declared(Name),
}

/// A container as it is written.
#[derive(Debug, Drop)]
#[cycle(type_text)]
pub enum Container {
    Single {
        place: Place,
        single: Single,
        item: Boxed<TypeText>,
    },
    Double {
        place: Place,
        double: Double,
        first: Boxed<TypeText>,
        second: Boxed<TypeText>,
    },
}
