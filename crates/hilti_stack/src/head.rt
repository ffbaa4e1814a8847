use hilti_base::FnId;
use hilti_parts::Variable;

/// Where a function is.
#[derive(Clone, Copy, Debug, PartialEq, Eq)]
pub struct Position {
    pub function: FnId,
    /// The number of its block, from 0.
    pub block: u32,
    /// How many instructions of the block are done.
    pub at: u32,
    /// The variable of its caller that takes its result, if one does.
    pub target: Option<Variable>,
}

/// What a frame is, beside its slots.
#[derive(Clone, Copy, Debug, PartialEq, Eq)]
pub enum Head {
    Function(Position),
    /// The run of a hook: the hook's number, and how many of its bodies were begun. Its slots are the arguments.
    Hook { hook: u32, next: u32 },
    /// The advance of a timer manager, which its one slot holds.
    Advance,
}
