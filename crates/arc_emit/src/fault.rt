//! Why actions have no code.
ghost use Rattle.std.specs.Prelude.{◌≡◌};
ghost use Rattle.arc_emit.specs.Faults.{fault_number, fault_name};

use std::alloc::{AllocError, AllocFailed};
use thiserror::Error;

/// Why actions have no code.
#[derive(Clone, Copy, Debug, Drop, PartialEq, Eq, Error)]
pub enum EmitFault {
    /// The code would have over 16,777,216 instructions.
    #[error("the code is too large")]
    TooLarge,
    /// There was no memory for the code.
    #[error("no memory")]
    Memory,
}

impl EmitFault {
    /// The fault's number.
    pub fn number(&self) -> u8
        ensures { result ≡ fault_number self.now }
    {
        match self {
            EmitFault::TooLarge => 71,
            EmitFault::Memory => 72,
        }
    }

    /// The fault's name.
    pub fn name(&self) -> &'static str
        ensures { result.now ≡ fault_name self.now }
    {
        match self {
            EmitFault::TooLarge => "TooLarge",
            EmitFault::Memory => "Memory",
        }
    }
}

impl From<AllocError> for EmitFault {
    ghost use Rattle.arc_emit.specs.declared.fault.EmitFault.TheVariants as faults;

    ghost from_gives = { λ _ e. e ≡ faults.Memory };

    fn from(_error: AllocError) -> EmitFault {
        EmitFault::Memory
    }
}

impl<T: Drop> From<AllocFailed<T>> for EmitFault {
    ghost use Rattle.arc_emit.specs.declared.fault.EmitFault.TheVariants as faults;

    ghost from_gives = { λ _ e. e ≡ faults.Memory };

    fn from(_error: AllocFailed<T>) -> EmitFault {
        EmitFault::Memory
    }
}
