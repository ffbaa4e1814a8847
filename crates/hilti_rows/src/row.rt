use hilti_base::{Collection, FnId};
use hilti_int::{IntCmp, IntOp, Width};
use hilti_parts::Variable;
use hilti_types::ValueType;
use hilti_values::Value;

pub type Sources = Collection<Source>;

pub type PrintedItems = Collection<Printed>;

/// Where an operand's value is: in a slot of the function, in a global of the program, or here.
#[derive(Debug, Drop)]
pub enum Source {
    Slot { n: u32 },
    Global { n: u32 },
    Constant { value: Value },
}

/// What is computed of one value.
#[derive(Clone, Copy, Debug, PartialEq, Eq)]
pub enum Unary {
    /// The value itself.
    Assign,
    Not,
    /// A whole number of any width, modulo 2 to this width.
    IntAs { width: Width },
    /// The same, but where it doesn't fit this width ValueError is raised.
    IntAsExact { width: Width },
}

/// What is computed of two values.
#[derive(Clone, Copy, Debug, PartialEq, Eq)]
pub enum Binary {
    And,
    Or,
    Int { op: IntOp, width: Width },
    Compare { op: IntCmp, width: Width },
}

/// A value that is printed, and its type.
#[derive(Debug, Drop)]
pub struct Printed {
    pub value: Source,
    pub kind: ValueType,
}

/// What is done with a struct. A field is told by its place.
#[derive(Debug, Drop)]
pub enum StructRow {
    /// Makes a struct of the declared type with this number, with all fields unset.
    New {
        target: Variable,
        declared: u32,
    },
    Get {
        target: Variable,
        object: Source,
        field: u32,
    },
    Set {
        object: Source,
        field: u32,
        value: Source,
    },
    Unset {
        object: Source,
        field: u32,
    },
    IsSet {
        target: Variable,
        object: Source,
        field: u32,
    },
}

/// An instruction as it is run.
#[derive(Debug, Drop)]
pub enum Row {
    Nop,
    Unary {
        op: Unary,
        target: Variable,
        a: Source,
    },
    Binary {
        op: Binary,
        target: Variable,
        a: Source,
        b: Source,
    },
    /// `yes` where `test` is True, else `no`.
    Select {
        target: Variable,
        test: Source,
        yes: Source,
        no: Source,
    },
    IsNull {
        target: Variable,
        object: Source,
    },
    Print {
        items: PrintedItems,
    },
    Yield,
    Call {
        function: FnId,
        arguments: Sources,
        target: Option<Variable>,
    },
    Bind {
        target: Variable,
        function: FnId,
        arguments: Sources,
    },
    /// Goes on at the beginning of a block of the function.
    Jump {
        to: u32,
    },
    IfElse {
        test: Source,
        yes: u32,
        no: u32,
    },
    ReturnVoid,
    ReturnResult {
        value: Source,
    },
    Throw {
        exception: u32,
        text: Source,
    },
    Struct {
        row: StructRow,
    },
}
