//! Grammars as data: what their rules may be made of, how they are read, and what holds of all of them.
#![tactic(auto)]

pub mod fail;
pub mod made;
pub mod reader;
pub mod slice;
