//! The piece at the front of bytes: a blank, a comment, a skipped line, a token, or a broken rule.
ghost use Rattle.std.specs.Prelude.{◌≡◌, ◌∷◌, ◌<◌, ℕ, length, IfOk};
ghost use Rattle.arc_lex.specs.private.Pieces as spec;
ghost use Rattle.arc_lex.specs.Spellings.{unused};
ghost use Rattle.arc_lex.specs.private.Scans.{seen_value};

use crate::bytes::{Class, has, is_blank, run};
use crate::mark::{mark_at, mark_text};
use crate::number::integer;
use crate::skipped::{is_skipped, to_close};
use crate::text::{Scan, read_quoted};
use crate::token::{NameBytes, TokenKind};
use crate::word::{at_text, at_word_at, is_unused, unused_at, word_of};
use std::alloc::{AllocError, Global};

/// A rule about tokens that bytes break.
#[derive(Clone, Copy)]
pub enum Rule {
    BadByte,
    OpenComment,
    OpenLiteral,
    Literal,
    Directive,
}

/// What stands at the front of bytes.
#[derive(Drop)]
pub enum Piece {
    /// A blank, and whether it is a newline.
    Blank(bool),
    /// A comment or a skipped line, and how many bytes it takes.
    Skip(usize),
    /// A token, and how many bytes it takes.
    Whole(TokenKind, usize),
    Broken(Rule),
}

/// A name or a reserved word.
#[tactic(auto, unfolding(crate::specs::private::Pieces::name_piece))]
fn name_piece(alloc: Global, bytes: &[u8]) -> Result<Piece, AllocError>
    ensures { IfOk result (λ p. spec.seen p ≡ spec.name_piece bytes.now) }
{
    let n = run(Class::InName, bytes);
    let (name, _) = bytes.split_at(n);
    match word_of(name) {
        Some(word) => Ok(Piece::Whole(TokenKind::Word(word), name.len())),
        None if is_unused(name) => Ok(Piece::Whole(TokenKind::Unused, name.len())),
        None => Ok(Piece::Whole(
            TokenKind::Name(NameBytes::from_slice(alloc, name)?),
            name.len(),
        )),
    }
}

/// An integer: the letters, `_` and digits that stand there.
#[tactic(auto, unfolding(crate::specs::private::Pieces::number_piece))]
fn number_piece(bytes: &[u8]) -> Piece
    ensures { spec.seen result ≡ spec.number_piece bytes.now }
{
    let n = run(Class::InName, bytes);
    let (word, _) = bytes.split_at(n);
    match integer(word) {
        None => Piece::Broken(Rule::Literal),
        Some((value, suffixed)) => Piece::Whole(TokenKind::Integer(value, suffixed), word.len()),
    }
}

/// A text, after its opening quote.
#[tactic(auto, unfolding(crate::specs::private::Pieces::text_piece))]
fn text_piece(alloc: Global, bytes: &[u8]) -> Result<Piece, AllocError>
    ensures { IfOk result (λ p. (b : ℕ) → spec.seen p ≡ spec.text_piece (b ∷ bytes.now)) }
{
    match read_quoted(alloc, b'"', bytes)? {
        None => Ok(Piece::Broken(Rule::OpenLiteral)),
        Some(Scan { value: None, .. }) => Ok(Piece::Broken(Rule::Literal)),
        Some(
            Scan {
                len,
                value: Some(text),
            },
        ) => Ok(Piece::Whole(TokenKind::Text(text), len + 2)),
    }
}

/// The piece of what stands between two `'`, if it is right.
fn character_value(value: Option<Vec<u8>>, n: usize) -> Piece
    ensures { spec.seen result ≡ spec.character_value (seen_value value) n }
{
    match value {
        None => Piece::Broken(Rule::Literal),
        Some(bytes) => match bytes.as_slice() {
            [b] => Piece::Whole(TokenKind::Character(*b), n),
            _ => Piece::Broken(Rule::Literal),
        },
    }
}

/// A character, after its opening quote.
#[tactic(auto, unfolding(crate::specs::private::Pieces::character_piece))]
fn character_piece(alloc: Global, bytes: &[u8]) -> Result<Piece, AllocError>
    ensures { IfOk result (λ p. (b : ℕ) → spec.seen p ≡ spec.character_piece (b ∷ bytes.now)) }
{
    match read_quoted(alloc, b'\'', bytes)? {
        None => Ok(Piece::Broken(Rule::OpenLiteral)),
        Some(Scan { len, value }) => Ok(character_value(value, len + 2)),
    }
}

/// An unused word or mark, or else this rule is broken.
fn unused_or(rule: Rule, bytes: &[u8]) -> Piece
    ensures { spec.seen result ≡ spec.unused_or rule (spec.first_front spec.itself unused bytes.now) }
{
    match unused_at(bytes) {
        None => Piece::Broken(rule),
        Some(text) => Piece::Whole(TokenKind::Unused, text.len()),
    }
}

/// A word after `@`.
#[tactic(auto, unfolding(crate::specs::private::Pieces::at_piece))]
fn at_piece(bytes: &[u8]) -> Piece
    ensures { spec.seen result ≡ spec.at_piece bytes.now }
{
    match at_word_at(bytes) {
        None => unused_or(Rule::Directive, bytes),
        Some(word) => Piece::Whole(TokenKind::At(word), at_text(word).len()),
    }
}

/// A mark.
#[tactic(auto, unfolding(crate::specs::private::Pieces::mark_piece))]
fn mark_piece(bytes: &[u8]) -> Piece
    ensures { spec.seen result ≡ spec.mark_piece bytes.now }
{
    match mark_at(bytes) {
        None => unused_or(Rule::BadByte, bytes),
        Some(mark) => Piece::Whole(TokenKind::Mark(mark), mark_text(mark).len()),
    }
}

/// A `#`, by what is after it.
#[tactic(auto, unfolding(crate::specs::private::Pieces::line_piece))]
fn line_piece(starts: bool, bytes: &[u8]) -> Piece
    ensures { spec.seen result ≡ spec.line_piece starts bytes.now }
{
    if starts && is_skipped(bytes) {
        Piece::Skip(run(Class::InLine, bytes) + 1)
    } else {
        Piece::Broken(Rule::Directive)
    }
}

/// A comment or a mark.
#[tactic(auto, unfolding(crate::specs::private::Pieces::slash_piece))]
fn slash_piece(bytes: &[u8]) -> Piece
    ensures { spec.seen result ≡ spec.slash_piece bytes.now }
{
    match bytes {
        [b'/', b'/', line @ ..] => Piece::Skip(run(Class::InLine, line) + 2),
        [b'/', b'*', comment @ ..] => match to_close(comment) {
            None => Piece::Broken(Rule::OpenComment),
            Some(n) => Piece::Skip(n + 2),
        },
        _ => mark_piece(bytes),
    }
}

/// The piece at the front of the bytes. `starts` says whether only blanks stand in front on the line.
#[tactic(auto, unfolding(crate::specs::private::Pieces::piece))]
fn next_piece(alloc: Global, starts: bool, bytes: &[u8]) -> Result<Piece, AllocError>
    requires { 0 < length bytes.now }
    ensures value { IfOk result (λ p. spec.seen p ≡ spec.piece starts bytes.now) }
{
    let b = bytes[0];
    if has(Class::Letter, b) {
        name_piece(alloc, bytes)
    } else if has(Class::Digit, b) {
        Ok(number_piece(bytes))
    } else if b == b'"' {
        text_piece(alloc, &bytes[1..])
    } else if b == b'\'' {
        character_piece(alloc, &bytes[1..])
    } else if b == b'@' {
        Ok(at_piece(bytes))
    } else if b == b'#' {
        Ok(line_piece(starts, &bytes[1..]))
    } else if is_blank(b) {
        Ok(Piece::Blank(b == b'\n'))
    } else {
        Ok(slash_piece(bytes))
    }
}

/// The same, with what the definition says of it.
pub fn lawful_piece(alloc: Global, starts: bool, bytes: &[u8]) -> Result<Piece, AllocError>
    requires { 0 < length bytes.now }
    ensures law { IfOk result (λ p. spec.Law starts bytes.now (spec.seen p)) }
    ensures fits { IfOk result (λ p. spec.Fits (spec.seen p) (length bytes.now)) }
{
    next_piece(alloc, starts, bytes)
}
