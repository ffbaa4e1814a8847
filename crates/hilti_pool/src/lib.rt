//! The virtual threads of a run: their inboxes and logs, who has which, and the journal of what happened. A pool stands
//! for the core of its journal at every moment: calls are fed, and workers take threads that are ready, run one segment
//! of each, and put them back.
#![tactic(auto)]

mod entries;
mod hall;
mod job;
pub mod laws;
mod pool;
mod queries;
mod seat;
mod work;

pub use entries::{Entry, Subject};
pub use job::{Job, Taken};
pub use pool::Pool;
