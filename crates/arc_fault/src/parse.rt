//! Why a source is not parsed.
ghost use Rattle.std.specs.Prelude.{◌≡◌};
ghost use Rattle.arc_fault.specs.Parse.{report};

use thiserror::Error;

/// A refusal, with the byte of the source where it is.
#[derive(Clone, Copy, Debug, Drop, PartialEq, Error)]
pub enum ParseFault {
    /// A token that does not fit; or the end of the tokens, where they are no whole unit.
    #[error("unexpected token at byte {0}")]
    Unexpected(usize),
    /// A statement that is nested too deep, or a token too many for one expression.
    #[error("nested too deep or too long at byte {0}")]
    TooDeep(usize),
    /// The memory did not suffice.
    #[error("not enough memory")]
    Memory,
}

impl ParseFault {
    /// The number of the refusal: 11, 12 or 13.
    pub fn number(&self) -> u8
        ensures { result ≡ (report self.now).number }
    {
        match self {
            ParseFault::Unexpected(_) => 11,
            ParseFault::TooDeep(_) => 12,
            ParseFault::Memory => 13,
        }
    }

    /// The name of the refusal.
    pub fn name(&self) -> &'static str
        ensures { result.now ≡ (report self.now).name }
    {
        match self {
            ParseFault::Unexpected(_) => "Unexpected",
            ParseFault::TooDeep(_) => "TooDeep",
            ParseFault::Memory => "Memory",
        }
    }

    /// The byte of the source where it is, counted from 0; 0 for want of memory.
    pub fn at(&self) -> usize
        ensures { result ≡ (report self.now).at }
    {
        match self {
            ParseFault::Unexpected(at) | ParseFault::TooDeep(at) => *at,
            ParseFault::Memory => 0,
        }
    }
}
