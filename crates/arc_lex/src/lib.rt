//! Cuts a source into tokens.
#![tactic(auto)]

mod bytes;
pub mod fault;
pub mod lex;
pub mod mark;
mod number;
mod piece;
mod skipped;
mod text;
pub mod token;
pub mod word;
