//! The whole way from a source to what it prints, and the program's words.
#![tactic(auto)]

mod accept;
pub mod compile;
mod lines;
mod nowhere;
pub mod refusal;
pub mod report;
pub mod request;
pub mod run;
pub mod serve;
pub mod trace;
pub mod words;
