//! Laws over what a text is: at most one module, or refused once. It has no code but laws, whose
//! clauses say the theorems.
#![tactic(auto)]

pub mod laws;
