//! Writes actions as instructions.
#![tactic(auto)]

mod classes;
pub mod emit;
pub mod fault;
mod instr;
