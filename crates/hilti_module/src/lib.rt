//! The tree of a module, one type for each production of its grammar.
#![tactic(auto)]

mod module;
mod types;

pub use module::{
    Bits, Body, Field, Fields, Form, Handler, Handlers, Item, Items, Line, Lines, Literal,
    Mnemonic, Module, Operand, Operands, Parameter, Parameters, Seconds, Shape, Simple, Simples,
};
pub use types::{
    Container, Double, InnerText, Name, Number, Parametric, PlainInner, PlainType, Single,
    TypeText, TypeTexts, Word, Words,
};
