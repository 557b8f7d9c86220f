//! The limits of the grammar.

/// The deepest that a statement nests: a function's body counts as 1.
pub const DEEPEST: usize = 200;

/// The most tokens of a full-expression.
pub const MOST_TOKENS: usize = 1000;
