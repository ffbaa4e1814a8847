use hilti_base::Blob;
use hilti_effects::Ending;

/// What an action did, beside its changes of the frames and the memory.
#[derive(Debug, Drop)]
pub enum Did {
    /// The top goes on.
    Went,
    /// It goes on, and printed a line.
    Said { text: Blob },
    /// It goes on behind a suspension.
    Yielded,
    /// A callee is the top.
    Called,
    /// The top ended. Its slots are still there.
    Left { ending: Ending },
}
