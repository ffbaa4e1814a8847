//! What the tokens of a text are by the grammar of modules: a module, or refused at a first place.
#![tactic(auto)]

pub mod laws;
