//! Reads the text of a module into its tree.
#![tactic(auto)]

mod module_text;
mod read_bodies;
mod read_hooks;
mod read_instructions;
mod read_items;
mod read_lines;

pub use module_text::read_module;
