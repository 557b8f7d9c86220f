//! What the program is asked to do.

pub use arc_words::request::{Command, Words, WordsFault};
