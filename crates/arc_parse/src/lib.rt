//! Reads the tokens of a source as its tree.
#![tactic(auto)]

mod class;
mod clauses;
mod expr;
pub mod fault;
mod field;
mod first;
mod full;
mod function;
mod global;
mod literal;
mod method;
mod name;
mod node;
mod operator;
mod parameter;
pub mod parse;
mod qualifier;
mod sign;
mod simple;
mod source;
mod stmt;
mod top;
mod type_name;
mod value_type;
mod variable;
