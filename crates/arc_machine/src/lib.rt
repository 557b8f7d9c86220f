//! Runs code, an instruction a step.
#![tactic(auto)]

mod beginning;
mod engine;
pub mod fault;
pub mod machine;
mod number_loop;
mod number_sequences;
mod passing;
mod sequences;
pub mod stop;
mod walk;
mod whole_loop;
