//! Tests of the crates of programs and of the machine, by their public calls.
#![tactic(auto)]

#[cfg(test)]
mod exceptions;
#[cfg(test)]
mod machine;
#[cfg(test)]
mod program;
