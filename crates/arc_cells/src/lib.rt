//! What a machine keeps: objects in blocks of a store, numbers, and what is found of code before it runs.
#![tactic(auto)]

pub mod access;
pub mod block;
pub mod cell;
pub mod decoded;
pub mod found;
pub mod leaving;
pub mod number_ending;
pub mod objects;
pub mod order;
pub mod pattern;
pub mod root_init;
pub mod sequence;
pub mod shape;
pub mod span;
pub mod stack;
pub mod start;
pub mod waiting;
