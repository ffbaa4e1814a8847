use hilti_parts::Variable;
use hilti_values::{SharedBytes, Value};

/// How a frame ends.
#[derive(Debug, Drop)]
pub enum Ending {
    /// With its result, if it has one, for the variable of its caller that takes it.
    Returned {
        target: Option<Variable>,
        value: Option<Value>,
    },
    /// A body of a hook ended the hook's run.
    Stopped,
    /// An exception that no handler of the frame took, and its text.
    Raised {
        exception: u32,
        text: SharedBytes,
    },
}
