//! What formats of printf print.
ghost use Rattle.std.specs.Prelude.{◌≡◌, IfOk};
ghost use Rattle.arc_checked.specs.Checked as checked;
ghost use Rattle.arc_scope.specs.Formats.{parts, printed};
ghost use Rattle.arc_scope.specs.declared.format.Begun.TheVariants.{Nothing};
ghost use Rattle.arc_resolve.specs.private.PlainByteRuns.{Ends, Adds};

use arc_checked::program::Piece;
use arc_scope::format::{Begun, Part, Reading, read};
use std::alloc::{AllocError, Global};

/// What is printed so far, and the plain bytes after it.
#[derive(Drop)]
struct Printed {
    pieces: Vec<Piece>,
    run: Vec<u8>,
}

impl Printed {
    /// Ends the run of plain bytes, if there are any.
    fn end_run(self, alloc: Global) -> Result<Printed, AllocError>
        ensures { IfOk result (λ new. Ends self new) }
    {
        let Printed { mut pieces, run } = self;
        if run.is_empty() {
            return Ok(Printed { pieces, run });
        }
        pieces.push(Piece::Bytes(run))?;
        Ok(Printed {
            pieces,
            run: Vec::new(alloc),
        })
    }

    /// Adds a part.
    fn with(self, alloc: Global, part: Part) -> Result<Printed, AllocError>
        ensures { IfOk result (λ new. Adds self part new) }
    {
        let piece = match part {
            Part::Plain(byte) => {
                let Printed { pieces, mut run } = self;
                run.push(byte)?;
                return Ok(Printed { pieces, run });
            }
            Part::Unknown => return Ok(self),
            Part::Decimal(_) => Piece::Decimal,
            Part::Character => Piece::Character,
        };
        let Printed { mut pieces, run } = self.end_run(alloc)?;
        pieces.push(piece)?;
        Ok(Printed { pieces, run })
    }
}

/// What the format prints.
pub fn pieces(alloc: Global, format: &[u8]) -> Result<Vec<Piece>, AllocError>
    ensures { IfOk result (λ all. checked.pieces all.items ≡ printed (parts Nothing format.now)) }
{
    let mut all = Printed {
        pieces: Vec::new(alloc),
        run: Vec::new(alloc),
    };
    let mut begun = Begun::Nothing;
    for byte in format {
        match read(begun, *byte) {
            Reading::Goes(next) => begun = next,
            Reading::Gives(part) => {
                begun = Begun::Nothing;
                all = all.with(alloc, part)?;
            }
        }
    }
    Ok(all.end_run(alloc)?.pieces)
}
