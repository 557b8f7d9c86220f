//! What names mean at a place of a source, and kinds.
#![tactic(auto)]

pub mod callee;
pub mod field;
pub mod format;
pub mod kind;
pub mod message;
pub mod scope;
pub mod wanted;
