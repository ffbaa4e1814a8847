//! The theory of reading tokens by a grammar with one token of lookahead: grammars as data, what they derive, what a
//! reader does, and that the one is exact for the other. It has no code but laws, whose clauses say the theorems.
#![tactic(auto)]

pub mod laws;
