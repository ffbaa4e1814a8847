//! The tokens of module texts, each with its place, or the first place where none begins: words, numerals (numbers in
//! decimal or hexadecimal digits, seconds with a fraction, IPv4 addresses, nets of them, and ports), addresses and nets
//! between brackets, strings, bytes literals, marks and line ends (`0a`), the longest at each place, between blanks and comments (`#` to the line's end).
#![tactic(auto)]

mod beginning;
mod characters;
mod fault;
mod front;
pub mod laws;
mod missing;
mod numeral;
mod reading;
mod runs;
mod string;
mod token;

pub use fault::LexicalFault;
pub use reading::lex;
pub use token::{Token, TokenKind, Tokens};
