//! Typed states of a thread, and that the calls of a typed program keep them typed: definitions and laws.
#![tactic(auto)]

pub mod laws;
