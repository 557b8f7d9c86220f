//! Reads the file of a source.
ghost use Rattle.std.specs.Prelude.{◌≤◌, ◌+◌, IfOk, vec_len};
ghost use Rattle.arc_lex.specs.declared.lex.TheConstants.{MOST_BYTES};

use arc_lex::lex::MOST_BYTES;
use std::fs;
use std::io::{ErrorKind, Read};
use std::rt::Files;

/// Why a source can't be read.
#[derive(Clone, Copy, Debug, PartialEq, Eq)]
pub enum FileFault {
    Failed,
    NoMemory,
}

/// One byte more than a source may have, so that the compiler sees that it is too long.
const ENOUGH_BYTES: usize = MOST_BYTES + 1;

/// The first bytes of a file, at most one more than a source may have. Fails with `NoMemory` where there is
/// no memory for them, and with `Failed` where the file can't be opened or read.
pub fn read_source<R: Files + AllocGlobal>(rt: &R, path: &str) -> Result<Vec<u8>, FileFault>
    ensures { IfOk result (λ bytes. vec_len bytes ≤ MOST_BYTES + 1) }
{
    let mut bytes = Vec::new(rt.alloc());
    let read = match fs::open(rt, path) {
        Ok(file) => file.take(ENOUGH_BYTES as u64).read_to_end(&mut bytes),
        Err(error) => Err(error),
    };
    match read {
        Ok(_) => {
            // The file gave no more, but the contracts of readers don't say so.
            bytes.truncate(ENOUGH_BYTES);
            Ok(bytes)
        }
        Err(error) if error.kind() == ErrorKind::OutOfMemory => Err(FileFault::NoMemory),
        Err(_) => Err(FileFault::Failed),
    }
}
