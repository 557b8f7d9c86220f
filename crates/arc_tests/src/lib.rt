//! Tests of the public calls of the crates from the parser up to arc_tool, one module for each crate: what a row of `arc_rows` can't
//! show, and one call of each kind. Those of what needs no tree are in `arc_unit_tests`.
#![tactic(auto)]

#[cfg(test)]
mod class;
#[cfg(test)]
mod devices;
#[cfg(test)]
mod emit;
#[cfg(test)]
mod family;
#[cfg(test)]
mod lower;
#[cfg(test)]
mod machine;
#[cfg(test)]
mod parse;
#[cfg(test)]
mod source;
#[cfg(test)]
mod tool;
