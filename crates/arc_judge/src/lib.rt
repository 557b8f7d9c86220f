//! Finds the first rule that is broken in the functions and the methods of a source.
#![tactic(auto)]

mod body;
mod conversion;
mod field;
mod global;
mod judge;
mod method;
mod rule;
mod taken;
pub mod unit;
mod whole;
