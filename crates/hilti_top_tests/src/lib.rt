//! Tests of the commands, from the words of the command line to the bytes that are written.
#![tactic(auto)]

#[cfg(test)]
mod captures;
#[cfg(test)]
mod checks;
#[cfg(test)]
mod fixtures;
#[cfg(test)]
mod programs;
#[cfg(test)]
mod status;
