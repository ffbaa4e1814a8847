use hilti_base::{Collection, ThreadId};

/// The events of a run in order.
pub type Journal = Collection<Event>;

/// One step of the core.
#[derive(Clone, Copy, Debug, PartialEq, Eq)]
pub enum Event {
    /// The next call of the capture goes to thread 0.
    Feed,
    /// A worker takes a virtual thread, to run one segment of its call.
    Take { worker: u32, thread: ThreadId },
    /// The worker gives back the virtual thread that it has, and what the segment did is posted.
    Put { worker: u32 },
}
