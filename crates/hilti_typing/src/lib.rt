//! What the lines of programs are typed by: the table of instructions, read over the types that a body can name. The
//! definitions stand in specs/; the laws here say what an instruction meets where its operands and its target fit.
#![tactic(auto)]

pub mod laws;
