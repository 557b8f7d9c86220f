//! The steps of instructions that neither read nor write.
#![tactic(auto)]

pub mod answer;
pub mod calling;
pub mod clearing;
pub mod dropping;
pub mod field;
pub mod giving;
pub mod global;
pub mod holding;
pub mod number;
pub mod place;
pub mod releasing;
pub mod storing;
