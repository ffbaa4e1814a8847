use hilti_base::{Blob, ThreadId};
use hilti_tree::Call;

/// What a pool keeps of one virtual thread.
#[derive(Drop)]
pub(crate) struct Seat<T> {
    pub(crate) place: Place<T>,
    /// How many calls the thread started.
    pub(crate) calls: u64,
    pub(crate) log: Vec<Blob>,
}

/// Where a virtual thread is.
#[derive(Drop)]
pub(crate) enum Place<T> {
    /// It never ran.
    Fresh,
    /// It is at home, without a call in progress.
    Idle(T),
    /// It is at home, between two segments of a call.
    Suspended(T),
    Out { worker: u32 },
}

/// A call that waits.
#[derive(Drop)]
pub(crate) struct Posted {
    pub(crate) to: ThreadId,
    pub(crate) call: Call,
}

/// A worker that has a thread.
#[derive(Clone, Copy)]
pub(crate) struct Away {
    pub(crate) worker: u32,
    pub(crate) thread: ThreadId,
}
