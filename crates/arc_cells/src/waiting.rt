//! What waits for the running function.

/// A function that waits: its `self`, which is the place of a block, or 0 for nil, and how many
/// temporaries and variables that name objects it has.
#[derive(Clone, Copy)]
pub struct Waiter {
    pub receiver: u64,
    pub temporaries: usize,
    pub variables: usize,
}

/// A call, or the end of an object, after which the function that waits goes on at the instruction
/// `back`.
#[derive(Clone, Copy)]
pub enum Waiting {
    Call {
        back: usize,
        waiter: Waiter,
    },
    /// The end of the object of a block. It goes on with the dealloc of the next class, of so many
    /// that are left.
    End {
        back: usize,
        waiter: Waiter,
        object: u64,
        next: Option<usize>,
        left: usize,
    },
    /// The end of the object of a block. So many of its fields that name objects, the last ones in their
    /// order, are still to be destroyed.
    Clear {
        back: usize,
        waiter: Waiter,
        object: u64,
        left: usize,
    },
}
