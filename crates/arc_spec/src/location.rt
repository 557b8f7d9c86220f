//! Which variable expressions read and assign.

/// A variable; those that hold numbers and those that name objects are numbered apart.
#[derive(Clone, Copy)]
pub enum Location {
    /// That of the running function with this number.
    Local(usize),
    /// That of the whole program with this number.
    Global(usize),
}
