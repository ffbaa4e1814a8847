//! Laws over the places in a module's tree: the textual order of its parts is the order of their
//! places. It has no code but laws, whose clauses say the theorems.
#![tactic(auto)]

pub mod laws;
