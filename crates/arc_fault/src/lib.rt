//! What the stages between a source's tokens and its actions answer in place of a result: the faults, each with its number,
//! its name and its place.
#![tactic(auto)]

pub mod check;
pub mod class;
pub mod own;
pub mod parse;
