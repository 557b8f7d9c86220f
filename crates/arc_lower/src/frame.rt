//! Where actions stand: what lies on the stack.

/// How many variables a function has that hold numbers, and how many that name objects; and how many
/// operands lie above the former.
#[derive(Clone, Copy)]
pub(crate) struct StackShape {
    pub slots: usize,
    pub names: usize,
    pub operands: usize,
}

/// A turn of a loop: the number of the action with which it begins, and of the one at which the loop
/// ends where its test left 0.
#[derive(Clone, Copy)]
pub(crate) struct Turn {
    pub begin: usize,
    pub out: usize,
}

/// A block's own variables that name objects: so many, from the first one on.
#[derive(Clone, Copy)]
pub(crate) struct Scope {
    pub first: usize,
    pub count: usize,
}

/// What is lowered, a function or the body of a loop in it: how many variables the function has that
/// hold numbers, how many that name objects, the number of the first of the actions that leave it, and
/// the loop's turn.
#[derive(Clone, Copy)]
pub(crate) struct Body {
    pub slots: usize,
    pub names: usize,
    pub exit: usize,
    pub turn: Option<Turn>,
}
