//! Joins modules: every name and type in their declarations gets its meaning, or the first refusal answers.
#![tactic(auto)]

mod entries;
mod hooks;
mod items;
pub mod laws;
mod linking;
mod shapes;
mod standing;
mod tables;
mod typed_words;
mod versions;

pub use hilti_scope::Modules;
pub use linking::{Linked, link};
pub use standing::hide_all;
pub use tables::{
    LinkedException, LinkedExceptions, LinkedFunction, LinkedFunctions, LinkedGlobal,
    LinkedGlobals, LinkedHook, LinkedHooks, Site, Tables,
};
pub use versions::{Version, version_of};
