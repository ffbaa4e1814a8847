//! Runs the calls of a typed program on virtual threads, an instruction after another, as the meaning of calls has it.
#![tactic(auto)]

mod calling;
mod leaving;
mod letting;
mod machine;
mod run;
mod step;
mod vthread;

pub use machine::Machine;
pub use vthread::Vthread;
