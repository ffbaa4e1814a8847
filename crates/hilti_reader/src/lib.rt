//! The grammar of modules, and readers of single words and marks, and of names.
#![tactic(auto)]

mod cursor;
mod keyword;
pub mod laws;
mod names;
mod read_chosen;
mod read_marks;
mod stop;

pub use cursor::{Cursor, WORDS};
pub use keyword::Keyword;
pub use names::{read_behind, read_name};
pub use read_chosen::{read_close_brace, read_keyword, read_word_of};
pub use read_marks::{read_at_sign, read_open_paren, read_star};
pub use stop::Stop;
