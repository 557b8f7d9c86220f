//! Devices, which are read and written: what one call of them answers.
ghost use Rattle.std.specs.Prelude.{◌≡◌, ◌↔◌, ℕ, List, Option};
ghost use Rattle.std.specs.Io.KnownBytes.{Keeps};
ghost use Rattle.arc_code.specs.DeviceCalls.{Gives, Takes, IsUndone};

use std::io::{ErrorKind, Read, Write};

/// What one call of a device answers.
#[derive(Clone, Copy, Debug, PartialEq, Eq)]
pub enum Attempt<T> {
    /// The call is done, with this.
    Done(T),
    /// The call was interrupted, and may be made again.
    Interrupted,
    /// The call failed.
    Failed,
}

/// A device that is read. Each reader of the library is one.
pub trait Input {
    ghost use Rattle.arc_code.specs.declared.device.Attempt.{Attempt};

    /// The bytes that it has left, where they are known.
    ghost remaining: { Self → Option (List ℕ) };

    /// A call of `read_byte` in the first state answered this and left the other state. Of a device
    /// that isn't known only its own `read_byte` says so; such a fact is the record of a call.
    ghost reads: { Self → Attempt (Option ℕ) → Self → Type 0 };

    /// The next byte, or None at the end.
    fn read_byte(&mut self) -> Attempt<Option<u8>>
        ensures called { reads self.old result self.new }
        ensures bytes { Gives result (remaining self.old) (remaining self.new) };
}

/// A device that is written. Each writer of the library is one.
pub trait Output {
    ghost use Rattle.arc_code.specs.declared.device.Attempt.{Attempt};

    /// The bytes that it holds, where they are known.
    ghost contents: { Self → Option (List ℕ) };

    /// A call of `write_some` with these bytes in the first state answered this and left the other
    /// state. Of a device that isn't known only its own `write_some` says so.
    ghost writes: { List ℕ → Self → Attempt ℕ → Self → Type 0 };

    /// The same of a call of `pass_on`.
    ghost flushes: { Self → Attempt (Unit {0}) → Self → Type 0 };

    /// Writes some of the first bytes: how many.
    fn write_some(&mut self, bytes: &[u8]) -> Attempt<usize>
        ensures called { writes bytes.now self.old result self.new }
        ensures bytes { Takes result bytes.now (contents self.old) (contents self.new) };

    /// Passes on what it holds back.
    fn pass_on(&mut self) -> Attempt<()>
        ensures called { flushes self.old result self.new }
        ensures bytes { Keeps (contents self.old) (contents self.new) };
}

impl<R: Read> Input for R {
    ghost remaining = { λ device. R.remaining device };

    ghost reads = { λ old answer new. Gives answer (R.remaining old) (R.remaining new) };

    fn read_byte(&mut self) -> Attempt<Option<u8>> {
        let mut byte = [0u8; 1];
        match self.read(&mut byte) {
            Ok(0) => Attempt::Done(None),
            Ok(_) => Attempt::Done(Some(byte[0])),
            Err(error) => unfinished(error.kind()),
        }
    }
}

impl<W: Write> Output for W {
    ghost contents = { λ device. W.contents device };

    ghost writes = { λ bytes old answer new. Takes answer bytes (W.contents old) (W.contents new) };

    ghost flushes = { λ old _ new. Keeps (W.contents old) (W.contents new) };

    fn write_some(&mut self, bytes: &[u8]) -> Attempt<usize> {
        match self.write(bytes) {
            Ok(taken) => Attempt::Done(taken),
            Err(error) => unfinished(error.kind()),
        }
    }

    fn pass_on(&mut self) -> Attempt<()> {
        match self.flush() {
            Ok(()) => Attempt::Done(()),
            Err(error) => unfinished(error.kind()),
        }
    }
}

/// What a call answers that ended in an error of this kind.
fn unfinished<T>(kind: ErrorKind) -> Attempt<T>
    ensures undone { IsUndone result }
    ensures kind { (result ≡ Attempt.Interrupted) ↔ (kind ≡ ErrorKind.Interrupted) }
{
    if kind == ErrorKind::Interrupted {
        Attempt::Interrupted
    } else {
        Attempt::Failed
    }
}
