use hilti_base::Collection;
use sqlite_items::Boxed;

/// Types in order.
pub type ValueTypes = Collection<ValueType>;

/// The type of a value. A number `n` is a place in the table of the declared types.
#[derive(Debug, Drop)]
#[cycle(value_type)]
pub enum ValueType {
    Bool,
    /// An unsigned whole number of 8, 16, 32 or 64 bits.
    Int { bits: u8 },
    Text,
    Bytes,
    Addr,
    Net,
    Port,
    Time,
    /// An interval of time.
    Span,
    Callable,
    Enum { n: u32 },
    Tuple { parts: ValueTypes },
    /// An iterator over a container.
    Iter { over: Inner },
    /// A reference to an object.
    Ref { to: Inner },
}

/// The type of an object.
#[derive(Debug, Drop)]
#[cycle(value_type)]
pub enum Inner {
    Timer,
    /// A timer manager.
    Manager,
    Struct {
        n: u32,
    },
    List {
        item: Boxed<ValueType>,
    },
    Vector {
        item: Boxed<ValueType>,
    },
    Set {
        item: Boxed<ValueType>,
    },
    Map {
        key: Boxed<ValueType>,
        value: Boxed<ValueType>,
    },
    Classifier {
        rule: Boxed<ValueType>,
        value: Boxed<ValueType>,
    },
}
