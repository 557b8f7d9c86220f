//! Tests of what needs no tree: tokens, files, types, faults, numbers, code and blocks, one module for each crate. They need only
//! crates that stand on next to no others, so that they are proved early.
#![tactic(auto)]

#[cfg(test)]
mod ast;
#[cfg(test)]
mod code;
#[cfg(test)]
mod fault;
#[cfg(test)]
mod file;
#[cfg(test)]
mod heap;
#[cfg(test)]
mod lex;
#[cfg(test)]
mod spec;
