//! Tests of the crates that read texts, captures and the command line, by their public calls.
#![tactic(auto)]

#[cfg(test)]
mod captures;
#[cfg(test)]
mod feed;
#[cfg(test)]
mod lexer;
#[cfg(test)]
mod outside;
#[cfg(test)]
mod pcap;
#[cfg(test)]
mod pieces;
#[cfg(test)]
mod syntax;
#[cfg(test)]
mod words;
