//! How a run ends.

use arc_spec::event::Fault;

/// What a run answers, where no device failed.
#[derive(Clone, Copy, Debug, PartialEq, Eq)]
pub enum Stop {
    /// The program ended, with this number.
    Ended(i32),
    /// The program was stopped.
    Fault(Fault),
    /// The program goes on: the steps that the run was given are used.
    StepsUsed,
    /// The store had no block for a new object.
    NoHeap,
}
