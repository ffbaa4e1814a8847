//! The tree of a module: one type for each production of its grammar.
ghost use Rattle.std.specs.Prelude.{◌≤◌};
ghost use Rattle.hilti_module.specs.Counts.{module_count};

use crate::types::{Container, Name, Number, Parametric, PlainType, TypeText, Word, Words};
use hilti_base::{Blob, Collection, Place};

/// A module: its name, the number of its version where it is written, and its items in order. It has
/// at most 1,048,576 items, fields, constants, parameters, locals, labels, handlers, lines and
/// operands in all.
#[derive(Debug, Drop)]
pub struct Module {
    pub name: Word,
    pub version: Option<Number>,
    pub items: Items,
    ghost bounded: { module_count items ≤ 1048576 },
}

/// Items in order.
pub type Items = Collection<Item>;

/// What a module declares, or a body for one of its hooks.
#[derive(Debug, Drop)]
pub enum Item {
    Type {
        name: Word,
        shape: Shape,
    },
    Global {
        kind: TypeText,
        name: Word,
        value: Option<Literal>,
    },
    Hook {
        name: Word,
        parameters: Parameters,
    },
    HookBody {
        name: Name,
        parameters: Parameters,
        priority: Option<Number>,
        body: Body,
    },
    /// A function; without a result it is `void`.
    Function {
        result: Option<TypeText>,
        name: Word,
        parameters: Parameters,
        body: Body,
    },
}

/// A type and a word: a parameter, a local or a field of a struct.
#[derive(Debug, Drop)]
pub struct Parameter {
    pub kind: TypeText,
    pub name: Word,
}

/// Parameters in order.
pub type Parameters = Collection<Parameter>;

/// What a declared type is. A place is that of its first word.
#[derive(Debug, Drop)]
pub enum Shape {
    Struct { place: Place, fields: Parameters },
    Enum { place: Place, words: Words },
    Overlay { place: Place, fields: Fields },
    Exception { place: Place, parent: Option<Name> },
}

/// A field of an overlay: `name: kind at offset unpack form`.
#[derive(Debug, Drop)]
pub struct Field {
    pub name: Word,
    pub kind: TypeText,
    pub offset: Number,
    pub form: Form,
}

/// Fields in order.
pub type Fields = Collection<Field>;

/// How a field is read: `Bytes(length)`, or a word, which may have its lowest and highest bit.
#[derive(Debug, Drop)]
pub enum Form {
    Bytes { place: Place, length: Number },
    Word { word: Word, bits: Option<Bits> },
}

/// A range of bits.
#[derive(Debug, Drop)]
pub struct Bits {
    pub low: Number,
    pub high: Number,
}

/// The body of a function or a hook, up to its closing brace.
#[derive(Debug, Drop)]
pub struct Body {
    pub locals: Parameters,
    pub lines: Lines,
    pub close: Place,
}

/// Lines in order.
pub type Lines = Collection<Line>;

/// A label with its handlers, at its `@`, or an instruction.
#[derive(Debug, Drop)]
pub enum Line {
    Label {
        place: Place,
        name: Word,
        handlers: Handlers,
    },
    Instruction {
        target: Option<Name>,
        mnemonic: Mnemonic,
        operands: Operands,
    },
}

/// `catch exception @target slot`, at its `catch`.
#[derive(Debug, Drop)]
pub struct Handler {
    pub place: Place,
    pub exception: Name,
    pub target: Word,
    pub slot: Word,
}

/// Handlers in order.
pub type Handlers = Collection<Handler>;

/// One word, or two with a `.` between them. They may be reserved words.
#[derive(Debug, Drop)]
pub struct Mnemonic {
    pub first: Word,
    pub second: Option<Word>,
}

/// One operand, or some in parentheses, at the `(`.
#[derive(Debug, Drop)]
pub enum Operand {
    Simple(Simple),
    Group { place: Place, items: Simples },
}

/// Operands in order.
pub type Operands = Collection<Operand>;

/// An operand without parentheses. A place is that of its first token.
#[derive(Debug, Drop)]
pub enum Simple {
    Literal(Literal),
    Name(Name),
    /// `@name`
    Label { place: Place, name: Word },
    /// `*`
    Any { place: Place },
    Plain { place: Place, plain: PlainType },
    Parametric(Parametric),
    /// `timer`
    Timer { place: Place },
    /// `timer_mgr`
    Manager { place: Place },
    Container(Container),
}

/// Simple operands in order.
pub type Simples = Collection<Simple>;

/// A literal. A place is that of its first token.
#[derive(Debug, Drop)]
pub enum Literal {
    Number(Number),
    Address {
        place: Place,
        bits: u128,
    },
    Net {
        place: Place,
        bits: u128,
        length: u8,
    },
    Port {
        place: Place,
        number: u16,
        is_udp: bool,
    },
    Text {
        place: Place,
        bytes: Blob,
    },
    Bytes {
        place: Place,
        bytes: Blob,
    },
    True {
        place: Place,
    },
    False {
        place: Place,
    },
    Null {
        place: Place,
    },
    /// `name.constant`
    Constant {
        name: Name,
        constant: Word,
    },
    Time {
        place: Place,
        seconds: Seconds,
    },
    Interval {
        place: Place,
        seconds: Seconds,
    },
}

/// The number of a time or an interval: whole seconds, or seconds with a fraction in nanoseconds.
#[derive(Debug, Drop)]
pub enum Seconds {
    Whole {
        place: Place,
        seconds: u64,
    },
    Parts {
        place: Place,
        seconds: u64,
        nanoseconds: u32,
    },
}
