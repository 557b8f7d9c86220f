//! What the program is asked to do, and how that is read from its words.
#![tactic(auto)]

pub mod request;
pub mod words;
