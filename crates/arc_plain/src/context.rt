//! What a running function is given in addition to the program's progress.

use arc_checked::program::Checked;

/// The program, how many turns each loop may make, and how many calls and ends of objects within one another
/// may still begin.
#[derive(Clone, Copy)]
pub struct Context<'p, 'a, 't> {
    pub program: &'p Checked<'a, 't>,
    pub bound: u64,
    pub levels: usize,
}
