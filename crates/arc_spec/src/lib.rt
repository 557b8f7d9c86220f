//! What several crates speak of: numbers, classes, events, faults, and in `specs/` what a program means.
#![tactic(auto)]

pub mod class;
pub mod event;
pub mod family;
pub mod law;
pub mod limits;
pub mod location;
pub mod number;
pub mod order;
pub mod signature;
pub mod sort_counts;
pub mod statics;
