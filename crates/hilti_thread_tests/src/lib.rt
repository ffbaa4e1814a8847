//! Tests of the crates of the threads, by their public calls: calls that count down, by hand, in a pool and by one
//! worker, the texts of what a pool did, and the turns of passes in threads of their own.
#![tactic(auto)]

#[cfg(test)]
mod countdown;
#[cfg(test)]
mod fixtures;
#[cfg(test)]
mod log;
#[cfg(test)]
mod one;
#[cfg(test)]
mod pool;
#[cfg(test)]
mod turn;
