//! A record: a fixed list of fields, each of which holds an item or is unset.
#![tactic(auto)]

mod record;

pub use record::Record;
