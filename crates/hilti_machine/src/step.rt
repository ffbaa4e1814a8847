use hilti_core::End;

/// What follows an instruction.
#[derive(Clone, Copy, Debug)]
pub enum Step {
    /// The call goes on.
    Goes,
    /// The segment ends, and the call goes on with another.
    Suspends,
    /// The call is over.
    Ends { end: End },
}
