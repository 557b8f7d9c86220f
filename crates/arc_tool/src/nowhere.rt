//! A writer that keeps nothing.
ghost use Rattle.std.specs.Prelude.{◌≡◌, None, length};
ghost use Rattle.arc_code.specs.declared.device.Attempt.TheVariants.{Done};

use arc_code::device::{Attempt, Output};

/// A writer that takes each byte, keeps none, and never fails.
#[derive(Drop)]
pub(crate) struct Nowhere;

impl Output for Nowhere {
    ghost contents = { λ _. None };

    ghost writes = { λ bytes _ answer _. answer ≡ Done (length bytes) };

    ghost flushes = { λ _ answer _. answer ≡ Done tt };

    fn write_some(&mut self, bytes: &[u8]) -> Attempt<usize> {
        Attempt::Done(bytes.len())
    }

    fn pass_on(&mut self) -> Attempt<()> {
        Attempt::Done(())
    }
}
