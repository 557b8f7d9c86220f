//! A program as actions, between its tree and its code.
#![tactic(auto)]

pub mod action;
