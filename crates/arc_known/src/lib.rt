//! Sources whose meaning is known from the standards, taken from their bytes to their events. Nothing here is run.
#![tactic(auto)]

pub mod law;
