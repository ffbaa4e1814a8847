//! The parts of a program: functions of blocks of instructions, with every name resolved. All of it is data.
#![tactic(auto)]

mod parts;

pub use parts::{
    Block, Blocks, Exception, Exceptions, FnIds, Function, Functions, Global, Globals, Handler,
    Handlers, Hook, Hooks, Instruction, Instructions, Operand, Operands, Parts, Slots, Variable,
};
