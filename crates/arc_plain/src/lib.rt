//! A plain, slow interpreter of checked programs, against which compiled ones are compared.
#![tactic(auto)]

mod call;
mod context;
mod expression;
mod format;
mod frame;
mod given;
mod halt;
pub mod interpret;
mod message;
mod object;
mod place;
mod progress;
mod sending;
mod statement;
mod update;
