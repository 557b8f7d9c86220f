//! What `printf` prints.
ghost use Rattle.std.specs.Prelude.{◌≡◌, IfOk};
ghost use Rattle.arc_checked.specs.Checked as checked;
ghost use Rattle.arc_spec.specs.Meaning.{formatted, byte_count};
ghost use Rattle.arc_plain.specs.Views.{WritesPiece};

use arc_checked::program::Piece;
use arc_spec::event::NoMemory;
use arc_spec::number::{low_byte, low_half};
use itoa::Buffer;
use std::alloc::Global;

/// The bytes that a format prints, of which each number takes the next value.
pub fn format(alloc: Global, pieces: &[Piece], values: &[i64]) -> Result<Vec<u8>, NoMemory>
    ensures { IfOk result (λ text. text.items ≡ formatted (checked.pieces pieces.now) values.now) }
{
    let mut text = Vec::new(alloc);
    let mut rest = values;
    for piece in pieces {
        rest = format_piece(&mut text, piece, rest)?;
    }
    Ok(text)
}

/// Writes a piece after the text, and gives the values that it left.
fn format_piece<'a>(
    text: &mut Vec<u8>,
    piece: &Piece,
    values: &'a [i64],
) -> Result<&'a [i64], NoMemory>
    ensures { IfOk result (λ rest. WritesPiece (checked.piece piece.now) values.now text.old.items text.new.items rest.now) }
{
    match piece {
        Piece::Bytes(bytes) => {
            text.extend_from_slice(bytes)?;
            Ok(values)
        }
        Piece::Decimal => {
            let Some((value, rest)) = values.split_first() else {
                return Ok(values);
            };
            let mut buffer = Buffer::new();
            text.extend_from_slice(buffer.format(*value).as_bytes())?;
            Ok(rest)
        }
        Piece::Character => {
            let Some((value, rest)) = values.split_first() else {
                return Ok(values);
            };
            text.push(low_byte(*value))?;
            Ok(rest)
        }
    }
}

/// The number of the bytes, as an `int`.
pub fn count(bytes: &[u8]) -> i64
    ensures { result ≡ byte_count bytes.now }
{
    i64::from(low_half((bytes.len() as u64 % 4_294_967_296) as i64))
}
