//! Reads the program's words.

pub use arc_words::words::words;
