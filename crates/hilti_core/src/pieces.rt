use hilti_base::{Blob, Collection, ThreadId};
use hilti_tree::Call;

/// What a segment does, in order.
pub type Items = Collection<Item>;

/// What a call does that others see.
#[derive(Debug, Drop)]
pub enum Item {
    /// A call is sent to a thread, which may be the sender.
    Send { to: ThreadId, call: Call },
    /// A line is printed, here without its line end.
    Line { text: Blob },
}

/// A part of a call that runs without giving back its worker.
#[derive(Debug, Drop)]
pub struct Segment {
    pub items: Items,
    pub end: End,
}

/// How a segment ends. Only the last segment of a call doesn't end `Yielded`.
#[derive(Clone, Copy, Debug, PartialEq, Eq)]
pub enum End {
    /// The call goes on with another segment.
    Yielded,
    Returned,
    /// An exception was raised that nothing handled.
    Raised { exception: u32 },
    OutOfFuel,
}
