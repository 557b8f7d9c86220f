//! A checked program, between a source's tree and its actions.
#![tactic(auto)]

pub mod program;
