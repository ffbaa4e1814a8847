/// What workers come past while they have a thread. It promises nothing.
pub trait Gate {
    /// A worker has a thread, between taking it and giving it back.
    fn held(&self, worker: u32, thread: u64);
}

/// A gate that lets everyone through at once.
pub struct OpenGate;

impl Gate for OpenGate {
    fn held(&self, _worker: u32, _thread: u64) {}
}
