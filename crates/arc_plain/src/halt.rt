//! Why an evaluation gave no value.
ghost use Rattle.std.specs.Prelude.{◌≡◌};
ghost use Rattle.arc_plain.specs.declared.halt.Halt.TheVariants.{Memory};

use arc_spec::event::{Fault, NoMemory};
use std::alloc::{AllocError, AllocFailed};

/// Why an evaluation gave no value.
#[derive(Drop)]
pub enum Halt {
    /// The program was stopped.
    Stopped(Fault),
    /// A loop would have made more turns than the bound.
    Cut,
    /// The interpreter itself had no memory.
    Memory,
}

impl From<NoMemory> for Halt {
    ghost from_gives = { λ _ e. e ≡ Memory };

    fn from(_error: NoMemory) -> Halt {
        Halt::Memory
    }
}

impl From<AllocError> for Halt {
    ghost from_gives = { λ _ e. e ≡ Memory };

    fn from(_error: AllocError) -> Halt {
        Halt::Memory
    }
}

impl<T: Drop> From<AllocFailed<T>> for Halt {
    ghost from_gives = { λ _ e. e ≡ Memory };

    fn from(_error: AllocFailed<T>) -> Halt {
        Halt::Memory
    }
}
