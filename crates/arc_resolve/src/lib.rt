//! Builds the resolved program of a source that breaks no rule.
#![tactic(auto)]

mod classes;
mod global;
mod made;
mod piece;
mod program;
mod resolution;
mod resolve;
pub mod unit;
