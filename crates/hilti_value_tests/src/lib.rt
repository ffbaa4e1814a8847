//! Tests of the plain data and of the values that instructions compute with, by their public calls.
#![tactic(auto)]

#[cfg(test)]
mod addr;
#[cfg(test)]
mod base;
#[cfg(test)]
mod bytes;
#[cfg(test)]
mod classifier;
#[cfg(test)]
mod clock;
#[cfg(test)]
mod int;
#[cfg(test)]
mod keys;
#[cfg(test)]
mod map;
#[cfg(test)]
mod overlay;
#[cfg(test)]
mod print;
#[cfg(test)]
mod record;
#[cfg(test)]
mod seq;
#[cfg(test)]
mod timers;
#[cfg(test)]
mod tree;
#[cfg(test)]
mod types;
