//! What a running program shows, and how it can stop.

use std::alloc::{AllocError, AllocFailed};
use thiserror::Error;

/// What a step of a running program shows.
#[derive(Clone, Copy, Debug, PartialEq, Eq)]
pub enum Event {
    /// This byte was printed.
    Byte(u8),
    /// The dealloc of this object began: its number, counted from 1 in the order of their making, and
    /// the number of its class.
    Dealloc(u64, usize),
}

impl Default for Event {
    fn default() -> Event {
        Event::Byte(0)
    }
}

/// Why a running program was stopped.
#[derive(Clone, Copy, Debug, PartialEq, Eq, Error)]
pub enum Fault {
    /// A division by zero, or one whose quotient has no place in its kind.
    #[error("a quotient that is no number of its kind")]
    Arithmetic,
    /// A message that no method answers.
    #[error("a message that no method answers")]
    Unrecognized,
    /// A field of nil.
    #[error("a field of nil")]
    NilField,
    /// A field of an object whose class doesn't have it.
    #[error("a field of an object of another class")]
    FieldClass,
    /// More than 2,000 calls of functions and methods and ends of objects were running.
    #[error("too many calls within one another")]
    Depth,
    /// An object was held again when its end was done, or a field that names objects was assigned of one
    /// whose fields were being destroyed.
    #[error("an object that is held after its dealloc")]
    Resurrected,
}

/// Memory was asked for and refused.
#[derive(Clone, Copy, Debug, PartialEq, Eq, Error)]
#[error("no memory")]
pub struct NoMemory;

impl From<AllocError> for NoMemory {
    fn from(_error: AllocError) -> NoMemory {
        NoMemory
    }
}

impl<T: Drop> From<AllocFailed<T>> for NoMemory {
    fn from(_error: AllocFailed<T>) -> NoMemory {
        NoMemory
    }
}
