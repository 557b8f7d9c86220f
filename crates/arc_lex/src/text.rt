//! What stands between the quotes of a text or a character.
ghost use Rattle.std.specs.Prelude.{◌≡◌, ◌<◌, length, IfOk, IfSome, false, [], Option};
ghost use Rattle.arc_lex.specs.Texts.{is_plain, escape_value};
ghost use Rattle.arc_lex.specs.private.Scans.{seen, seen_parts};
ghost use Rattle.arc_lex.specs.private.Pieces.{scan};

use std::alloc::{AllocError, Global};

/// A literal that is closed on its line.
#[derive(Drop)]
pub struct Scan {
    /// How many bytes stand in front of the closing quote.
    pub len: usize,
    /// The bytes that they stand for, if each is a right one.
    pub value: Option<Vec<u8>>,
}

/// Whether the byte stands for itself between such quotes.
fn is_plain(quote: u8, b: u8) -> bool
    ensures { result ≡ is_plain quote b }
{
    b >= 32 && b <= 126 && b != quote && b != b'\\' || quote == b'"' && (b == b'\t' || b >= 128)
}

/// The byte that a backslash and this byte stand for.
fn escape_value(b: u8) -> Option<u8>
    ensures { result ≡ escape_value b }
{
    match b {
        b'n' => Some(b'\n'),
        b't' => Some(b'\t'),
        b'r' => Some(b'\r'),
        b'0' => Some(0),
        b'\\' => Some(b'\\'),
        b'\'' => Some(b'\''),
        b'"' => Some(b'"'),
        _ => None,
    }
}

/// Reads a literal after its opening quote. `None`: it is not closed on its line.
pub fn read_quoted(alloc: Global, quote: u8, bytes: &[u8]) -> Result<Option<Scan>, AllocError>
    ensures value { IfOk result (λ found. seen found ≡ seen_parts quote (scan quote false [] bytes.now)) }
    ensures within { IfOk result (λ found. IfSome found (λ s. s.len < length bytes.now)) }
{
    let mut value = Vec::new(alloc);
    let mut right = true;
    let mut escaped = false;
    for (len, b) in bytes.iter().enumerate() {
        if *b == b'\n' {
            return Ok(None);
        }
        if escaped {
            escaped = false;
            match escape_value(*b) {
                Some(byte) => value.push(byte)?,
                None => right = false,
            }
        } else if *b == quote {
            let value = right.then_some(value);
            return Ok(Some(Scan { len, value }));
        } else if *b == b'\\' {
            escaped = true;
        } else if is_plain(quote, *b) {
            value.push(*b)?;
        } else {
            right = false;
        }
    }
    Ok(None)
}
