//! What the program is asked to do.
ghost use Rattle.std.specs.Prelude.{◌≡◌};

use std::alloc::{AllocError, AllocFailed};
use thiserror::Error;

/// What is to be done with the source.
#[derive(Clone, Copy, Debug, PartialEq, Eq)]
pub enum Command {
    /// Say whether it is accepted.
    Check,
    /// Run it.
    Run,
    /// Run it, and show what it does.
    Trace,
    /// List its code.
    Code,
}

/// What the program's words say.
#[derive(Drop)]
pub struct Words {
    pub command: Command,
    /// The path of the source.
    pub file: String,
    /// The words of 64 bits that the heap has. Not used yet.
    pub heap: usize,
    /// The most steps that a run makes.
    pub steps: u64,
    /// Whether holds that aren't needed are kept. Not used yet: all are.
    pub keep_holds: bool,
}

/// Why the words ask for nothing that can be done.
#[derive(Debug, Drop, Error)]
pub enum WordsFault {
    /// They are no command with its options.
    #[error("usage: check, run, trace or code, and FILE")]
    Usage,
    /// They ask for help, which is this text.
    #[error("help was asked for")]
    Help(String),
    /// Memory was asked for and refused.
    #[error("no memory")]
    Memory,
}

impl From<AllocError> for WordsFault {
    ghost use Rattle.arc_words.specs.declared.request.WordsFault.TheVariants as faults;

    ghost from_gives = { λ _ e. e ≡ faults.Memory };

    fn from(_error: AllocError) -> WordsFault {
        WordsFault::Memory
    }
}

impl<T: Drop> From<AllocFailed<T>> for WordsFault {
    ghost use Rattle.arc_words.specs.declared.request.WordsFault.TheVariants as faults;

    ghost from_gives = { λ _ e. e ≡ faults.Memory };

    fn from(_error: AllocFailed<T>) -> WordsFault {
        WordsFault::Memory
    }
}
