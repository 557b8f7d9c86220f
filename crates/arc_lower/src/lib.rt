//! Writes a checked program as actions.
#![tactic(auto)]

mod call;
mod expression;
mod frame;
pub mod height;
mod jump;
mod known;
pub mod law;
pub mod list;
pub mod lower;
mod place;
mod print;
mod statement;
mod stub;
mod update;
mod variable;
