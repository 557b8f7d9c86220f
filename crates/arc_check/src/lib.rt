//! Finds what each name means and each expression's kind.
#![tactic(auto)]

pub mod check;
pub mod fault;
