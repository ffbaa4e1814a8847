//! Tests of the crates of instructions and of the values and objects that they compute with, by their public calls.
#![tactic(auto)]

#[cfg(test)]
mod bytes_ops;
#[cfg(test)]
mod heap;
#[cfg(test)]
mod heap_ops;
#[cfg(test)]
mod network_ops;
#[cfg(test)]
mod rows;
#[cfg(test)]
mod scalar_ops;
#[cfg(test)]
mod stack;
#[cfg(test)]
mod table;
#[cfg(test)]
mod time_ops;
#[cfg(test)]
mod values;
