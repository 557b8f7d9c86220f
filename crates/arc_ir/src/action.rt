//! Actions, which are instructions before they become code: a program as one list of them.

ghost use Rattle.std.specs.Prelude.{◌≤◌, length};
ghost use Rattle.arc_code.specs.declared.code.TheConstants.{MOST_TEXT};

use arc_code::instr::Instr;
use arc_spec::class::Class;

/// A part of a text, of at most as many bytes as one instruction prints.
#[derive(Drop)]
pub struct TextPart {
    pub bytes: Vec<u8>,
    pub ghost short: { length bytes.items ≤ MOST_TEXT },
}

/// Where a jump goes on.
#[derive(Clone, Copy)]
pub enum Target {
    /// After the next actions, so many.
    Skip(u32),
    /// So many actions before the jump.
    Back(u32),
    /// At the action with this number.
    At(usize),
}

/// One action: a jump goes on at a target, and a call names the function with this number.
pub type Action = Instr<Target, usize, TextPart>;

/// A program: all actions, of which the first is where it begins; where each function begins; where
/// the ends of objects go on; the most numbers that the stack comes to hold, the most references and the
/// most strong places of functions that there come to be; what the variables of the whole program hold first
/// that hold numbers; how many of them name objects; and the classes, whose methods and deallocs run the
/// action with a number.
#[derive(Drop)]
pub struct Ir {
    pub actions: Vec<Action>,
    pub entries: Vec<usize>,
    pub end_step: usize,
    pub room: usize,
    pub names: usize,
    pub places: usize,
    pub globals: Vec<i64>,
    pub strong_globals: usize,
    pub classes: Vec<Class>,
}
