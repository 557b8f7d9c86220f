//! The tokens that are left, and the steps by which every part of the parser takes them.
ghost use Rattle.std.specs.Prelude.{◌≡◌, ◌<◌, length, IfOk, IfSome, None};
ghost use Rattle.std.specs.Str.{bytes_eq};
ghost use Rattle.arc_lex.specs.Spellings.{mark_bytes, word_bytes, at_bytes};
ghost use Rattle.arc_lex.specs.Tokens.{toks};
ghost use Rattle.arc_form.specs.Kinds as kinds;
ghost use Rattle.arc_form.specs.Reader.{Gives, Taken, sees, sees_two, take_one, from, named};

use crate::fail::{Fail, Read};
use arc_lex::mark::Mark;
use arc_lex::token::{Token, TokenKind};
use arc_lex::word::{AtWord, Word};
use std::alloc::Global;

fn same_mark(found: Mark, mark: Mark) -> bool
    ensures { result ≡ bytes_eq (mark_bytes found) (mark_bytes mark) }
{
    found == mark
}

fn same_word(found: Word, word: Word) -> bool
    ensures { result ≡ bytes_eq (word_bytes found) (word_bytes word) }
{
    found == word
}

fn same_at(found: AtWord, word: AtWord) -> bool
    ensures { result ≡ bytes_eq (at_bytes found) (at_bytes word) }
{
    found == word
}

/// The tokens that are left.
#[derive(Drop)]
pub struct Reader<'a> {
    pub rest: &'a [Token],
}

impl<'a> Reader<'a> {
    /// Whether the first token is this mark.
    pub fn sees_mark(&self, mark: Mark) -> bool
        ensures { result ≡ sees (kinds.mark mark) (toks self.now.rest.now) }
    {
        match self.rest.first() {
            Some(
                Token {
                    kind: TokenKind::Mark(found),
                    ..
                },
            ) => same_mark(*found, mark),
            _ => false,
        }
    }

    /// Whether the first token is this word.
    pub fn sees_word(&self, word: Word) -> bool
        ensures { result ≡ sees (kinds.word word) (toks self.now.rest.now) }
    {
        match self.rest.first() {
            Some(
                Token {
                    kind: TokenKind::Word(found),
                    ..
                },
            ) => same_word(*found, word),
            _ => false,
        }
    }

    /// Whether the first token is this word with `@` before it.
    pub fn sees_at(&self, word: AtWord) -> bool
        ensures { result ≡ sees (kinds.at word) (toks self.now.rest.now) }
    {
        match self.rest.first() {
            Some(
                Token {
                    kind: TokenKind::At(found),
                    ..
                },
            ) => same_at(*found, word),
            _ => false,
        }
    }

    /// Whether the first token is a name.
    #[tactic(auto, using(crate::proofs::Sets::name_has))]
    pub fn sees_name(&self) -> bool
        ensures { result ≡ sees kinds.name (toks self.now.rest.now) }
    {
        matches!(
            self.rest.first(),
            Some(Token {
                kind: TokenKind::Name(_),
                ..
            })
        )
    }

    /// Whether the tokens begin with a name, and this mark after it.
    pub fn sees_name_and(&self, mark: Mark) -> bool
        ensures { result ≡ sees_two kinds.name (kinds.mark mark) (toks self.now.rest.now) }
    {
        match self.rest.split_first() {
            Some((_, rest)) => self.sees_name() && Reader { rest }.sees_mark(mark),
            None => false,
        }
    }

    /// Whether the tokens begin with this word, and a name after it.
    pub fn sees_word_and_name(&self, word: Word) -> bool
        ensures { result ≡ sees_two (kinds.word word) kinds.name (toks self.now.rest.now) }
    {
        match self.rest.split_first() {
            Some((_, rest)) => self.sees_word(word) && Reader { rest }.sees_name(),
            None => false,
        }
    }

    /// Whether the first token is an integer.
    pub fn sees_integer(&self) -> bool
        ensures { result ≡ sees kinds.integer (toks self.now.rest.now) }
    {
        matches!(
            self.rest.first(),
            Some(Token {
                kind: TokenKind::Integer(_, _),
                ..
            })
        )
    }

    /// Whether the first token is a character constant.
    pub fn sees_character(&self) -> bool
        ensures { result ≡ sees kinds.character (toks self.now.rest.now) }
    {
        matches!(
            self.rest.first(),
            Some(Token {
                kind: TokenKind::Character(_),
                ..
            })
        )
    }

    /// Whether the first token is a text.
    pub fn sees_text(&self) -> bool
        ensures { result ≡ sees kinds.text (toks self.now.rest.now) }
    {
        matches!(
            self.rest.first(),
            Some(Token {
                kind: TokenKind::Text(_),
                ..
            })
        )
    }

    /// Takes the first token where it is this mark: its place. Where it is not, nothing is taken.
    pub fn take(&mut self, mark: Mark) -> Option<usize>
        ensures taken { Taken result (kinds.mark mark) (toks self.old.rest.now) (toks self.new.rest.now) }
        ensures shorter { IfSome result (λ _. length self.new.rest.now < length self.old.rest.now) }
        ensures kept { result ≡ None → self.old.rest.now ≡ self.new.rest.now }
    {
        match self.rest.split_first() {
            Some(
                (
                    Token {
                        kind: TokenKind::Mark(found),
                        span,
                    },
                    rest,
                ),
            ) if same_mark(*found, mark) => {
                self.rest = rest;
                Some(span.from)
            }
            _ => None,
        }
    }

    /// Takes the first token, which is this mark: its place.
    ///
    /// `Unexpected` comes where it is not, and nothing is taken.
    pub fn expect(&mut self, mark: Mark) -> Read<usize>
        ensures gives { Gives (λ x. x) result (toks self.new.rest.now) (take_one (kinds.mark mark) from (toks self.old.rest.now)) }
        ensures shorter { IfOk result (λ _. length self.new.rest.now < length self.old.rest.now) }
    {
        match self.take(mark) {
            Some(at) => Ok(at),
            None => Err(Fail::Unexpected),
        }
    }

    /// Takes the first token where it is this word: its place. Where it is not, nothing is taken.
    pub fn take_word(&mut self, word: Word) -> Option<usize>
        ensures taken { Taken result (kinds.word word) (toks self.old.rest.now) (toks self.new.rest.now) }
        ensures shorter { IfSome result (λ _. length self.new.rest.now < length self.old.rest.now) }
        ensures kept { result ≡ None → self.old.rest.now ≡ self.new.rest.now }
    {
        match self.rest.split_first() {
            Some(
                (
                    Token {
                        kind: TokenKind::Word(found),
                        span,
                    },
                    rest,
                ),
            ) if same_word(*found, word) => {
                self.rest = rest;
                Some(span.from)
            }
            _ => None,
        }
    }

    /// Takes the first token, which is this word: its place.
    ///
    /// `Unexpected` comes where it is not, and nothing is taken.
    pub fn keyword(&mut self, word: Word) -> Read<usize>
        ensures gives { Gives (λ x. x) result (toks self.new.rest.now) (take_one (kinds.word word) from (toks self.old.rest.now)) }
        ensures shorter { IfOk result (λ _. length self.new.rest.now < length self.old.rest.now) }
    {
        match self.take_word(word) {
            Some(at) => Ok(at),
            None => Err(Fail::Unexpected),
        }
    }

    /// Takes the first token, which is this word with `@` before it: its place.
    ///
    /// `Unexpected` comes where it is not, and nothing is taken.
    pub fn directive(&mut self, word: AtWord) -> Read<usize>
        ensures gives { Gives (λ x. x) result (toks self.new.rest.now) (take_one (kinds.at word) from (toks self.old.rest.now)) }
        ensures shorter { IfOk result (λ _. length self.new.rest.now < length self.old.rest.now) }
    {
        match self.rest.split_first() {
            Some(
                (
                    Token {
                        kind: TokenKind::At(found),
                        span,
                    },
                    rest,
                ),
            ) if same_at(*found, word) => {
                self.rest = rest;
                Ok(span.from)
            }
            _ => Err(Fail::Unexpected),
        }
    }

    /// Takes the first token, which is a name: its place and its bytes.
    ///
    /// `Unexpected` comes where it is not, and nothing is taken.
    #[tactic(auto, using(crate::proofs::Sets::name_has))]
    pub fn name(&mut self, alloc: Global) -> Read<(usize, Vec<u8>)>
        ensures gives { Gives (λ x. (x.0, x.1.items)) result (toks self.new.rest.now) (take_one kinds.name named (toks self.old.rest.now)) }
        ensures shorter { IfOk result (λ _. length self.new.rest.now < length self.old.rest.now) }
    {
        match self.rest.split_first() {
            Some(
                (
                    Token {
                        kind: TokenKind::Name(bytes),
                        span,
                    },
                    rest,
                ),
            ) => {
                self.rest = rest;
                Ok((span.from, Vec::from_slice(alloc, bytes.as_slice())?))
            }
            _ => Err(Fail::Unexpected),
        }
    }
}
