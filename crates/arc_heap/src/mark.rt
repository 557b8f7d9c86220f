//! What stands at each row of four words.

/// What starts at a row: nothing, since the row lies inside of a block, or a block of a class, which
/// is out or free.
#[derive(Clone, Copy, Drop)]
pub enum Mark {
    Inside,
    Out(u8),
    Free(u8),
}
