//! The grammar: which tokens spell which tree.
#![tactic(auto)]

pub mod limits;
