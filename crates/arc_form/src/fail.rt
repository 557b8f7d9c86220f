//! Why tokens were not read.
ghost use Rattle.std.specs.Prelude.{◌≡◌};
ghost use Rattle.arc_form.specs.declared.fail.Fail.TheVariants.{Memory};

use std::alloc::{AllocError, AllocFailed};

/// Want of memory, or the first of the tokens that are left does not fit, or passes a limit.
#[derive(Drop)]
pub enum Fail {
    Memory,
    Unexpected,
    TooDeep,
}

/// What a part of the parser returns: what it read, or why it read nothing.
pub type Read<T> = Result<T, Fail>;

impl From<AllocError> for Fail {
    ghost from_gives = { λ _ e. e ≡ Memory };

    fn from(_e: AllocError) -> Fail {
        Fail::Memory
    }
}

impl<T: Drop> From<AllocFailed<T>> for Fail {
    ghost from_gives = { λ _ e. e ≡ Memory };

    fn from(_e: AllocFailed<T>) -> Fail {
        Fail::Memory
    }
}
