//! The tokens of a source.

use crate::mark::Mark;
use crate::word::{AtWord, Word};
use smallvec::SmallVec;

/// The bytes that a token takes: from the first one up to the one after the last, counted from 0.
#[derive(Clone, Copy, Debug, PartialEq, Eq)]
pub struct Span {
    pub from: usize,
    pub to: usize,
}

/// The bytes of a name. Most names are short, and need no memory of their own.
pub type NameBytes = SmallVec<u8, 16>;

/// What a token is. A name holds its bytes, an integer its value and whether it has a suffix, and a character constant
/// and a text what they stand for, a byte and bytes. `Unused` is any word or mark of C or Objective-C that this project
/// doesn't use.
#[derive(Debug, Drop)]
pub enum TokenKind {
    Name(NameBytes),
    Integer(i64, bool),
    Character(u8),
    Text(Vec<u8>),
    Word(Word),
    At(AtWord),
    Mark(Mark),
    Unused,
}

/// A token, and where it stands.
#[derive(Debug, Drop)]
pub struct Token {
    pub kind: TokenKind,
    pub span: Span,
}
