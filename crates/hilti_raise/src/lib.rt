//! What a raise and a run of a hook go on with: the handler that catches the raise, and the bodies of the hook.
#![tactic(auto)]

mod raise;

pub use raise::{bodies, handler};
