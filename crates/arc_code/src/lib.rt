//! Instructions, their listing, and devices: readers and writers whose failures are counted.
#![tactic(auto)]

pub mod code;
pub mod counted;
pub mod device;
pub mod effect;
pub mod fault;
pub mod instr;
pub mod law;
pub mod lines;
