//! The tree of a source, as it is written: no name is resolved.
#![tactic(auto)]

pub mod tree;
pub mod types;
