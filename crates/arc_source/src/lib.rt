//! When a source is a program, and what it means: definitions alone.
#![tactic(auto)]
