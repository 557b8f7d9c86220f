//! The limits of what runs.

/// How many calls of functions and methods, and ends of objects, may run within one another, the call of main being the
/// first.
pub const MOST_LEVELS: usize = 2000;
