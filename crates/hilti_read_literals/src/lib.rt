//! Reads literals.
#![tactic(auto)]

mod read_literals;

pub use read_literals::{
    TIME_WORDS, VALUES, read_literal, read_maybe_seconds, read_seconds, read_value, time_literal,
};
