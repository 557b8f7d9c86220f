//! The file of a source.
#![tactic(auto)]

pub mod file;
