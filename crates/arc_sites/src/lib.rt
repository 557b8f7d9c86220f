//! The sites of a source: each node of its tree with what surrounds it; and which of all broken rules is reported.
#![tactic(auto)]

pub mod message;
pub mod node;
pub mod parameter;
pub mod violation;
pub mod walk;
