use crate::tree::Forest;
use hilti_base::{Collection, FnId};

/// Calls in order.
pub type Calls = Collection<Call>;

/// A call that is sent to a virtual thread: a function, and its arguments as trees of their own.
#[derive(Debug, Drop)]
pub struct Call {
    pub function: FnId,
    pub args: Forest,
}
