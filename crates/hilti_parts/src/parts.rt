use hilti_base::{Blob, Collection, FnId};
use hilti_tree::Tree;
use hilti_types::{Inner, Op, TypeTable, ValueType, ValueTypes};

pub type Blocks = Collection<Block>;

pub type Exceptions = Collection<Exception>;

pub type FnIds = Collection<FnId>;

pub type Functions = Collection<Function>;

pub type Globals = Collection<Global>;

pub type Handlers = Collection<Handler>;

pub type Hooks = Collection<Hook>;

pub type Instructions = Collection<Instruction>;

pub type Operands = Collection<Operand>;
/// The types of a function's slots, those of its parameters first.
pub type Slots = Collection<ValueType>;

/// The parts of a program. A number that names a part counts from 0 in its list.
#[derive(Debug, Drop)]
pub struct Parts {
    pub types: TypeTable,
    pub globals: Globals,
    pub functions: Functions,
    /// The seven built-in exceptions, and then the declared ones.
    pub exceptions: Exceptions,
    pub hooks: Hooks,
}

/// A variable of a program, with the value that it begins with.
#[derive(Debug, Drop)]
pub struct Global {
    pub name: Blob,
    pub kind: ValueType,
    pub first: Tree,
}

/// An exception, and the one that stands above it. `Exception` alone has none above it.
#[derive(Debug, Drop)]
pub struct Exception {
    pub name: Blob,
    pub parent: Option<u32>,
}

/// A hook, with its bodies in the order of running.
#[derive(Debug, Drop)]
pub struct Hook {
    pub name: Blob,
    pub params: ValueTypes,
    pub bodies: FnIds,
}

/// A function or a hook body. The first block is where it begins.
#[derive(Debug, Drop)]
pub struct Function {
    pub name: Blob,
    /// How many of the slots are parameters.
    pub params: u32,
    pub slots: Slots,
    /// `None` for a void function.
    pub result: Option<ValueType>,
    pub blocks: Blocks,
}

/// Instructions, and the handlers of what they raise.
#[derive(Debug, Drop)]
pub struct Block {
    pub handlers: Handlers,
    pub instructions: Instructions,
}

/// A raise of this exception, or of one below it, goes on at the block with its text in the slot.
#[derive(Clone, Copy, Debug, PartialEq, Eq)]
pub struct Handler {
    pub exception: u32,
    pub block: u32,
    pub slot: u32,
}

/// An instruction.
#[derive(Debug, Drop)]
pub struct Instruction {
    pub op: Op,
    /// Where its result goes.
    pub target: Option<Variable>,
    /// The type of the target, `None` without one.
    pub kind: Option<ValueType>,
    pub operands: Operands,
}

/// A place that holds a value: a slot of the function, or a global of the program.
#[derive(Clone, Copy, Debug, PartialEq, Eq)]
pub enum Variable {
    Slot { n: u32 },
    Global { n: u32 },
}

/// An operand of an instruction.
#[derive(Debug, Drop)]
pub enum Operand {
    /// A variable, and its type.
    Var { v: Variable, kind: ValueType },
    Literal { kind: ValueType, value: Tree },
    /// `*`, which matches everything.
    Star,
    Block { n: u32 },
    Function { f: FnId },
    Hook { n: u32 },
    Exception { n: u32 },
    Field { n: u32 },
    Overlay { n: u32 },
    New { what: Inner },
    /// Whether a look-up renews an element; else only its making counts.
    Mode { access: bool },
    /// Operands in parentheses.
    Group { items: Operands },
}
