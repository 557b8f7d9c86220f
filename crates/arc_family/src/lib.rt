//! Checks the rules of ownership, and finds the families of methods.
#![tactic(auto)]

pub mod family;
pub mod fault;
pub mod law;
pub mod owned;
mod rules;
pub mod signature;
