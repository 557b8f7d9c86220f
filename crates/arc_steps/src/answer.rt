//! Whether a machine goes on.

use arc_code::code::IoFault;
use arc_spec::event::Fault;

/// Whether a machine goes on, and else why not.
#[derive(Clone, Copy, PartialEq, Eq)]
pub enum Answer {
    Going,
    Ended(i32),
    Faulted(Fault),
    /// A device broke a step.
    Broken(IoFault),
    /// The store had no block for a new object.
    NoHeap,
}
