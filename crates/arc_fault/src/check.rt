//! Why a source is refused.
ghost use Rattle.std.specs.Prelude.{◌≡◌};
ghost use Rattle.arc_fault.specs.declared.check.CheckFault.TheVariants.{Memory};
ghost use Rattle.arc_fault.specs.Check.{report};

use std::alloc::AllocError;
use thiserror::Error;

/// Why a source is refused: the first rule that its functions and methods break, or what its global variables begin with, or no memory.
#[derive(Clone, Copy, Debug, Drop, Error)]
pub enum CheckFault {
    /// A name that means neither a variable nor a field, a field that the object's class hasn't, a call of a function that is not known or of `main`, or a `self`
    /// outside of methods; the place is that of the name.
    #[error("the name at {0} is not known")]
    UnknownName(usize),
    /// A message for which no method is known; the place is that of its selector's first part.
    #[error("no method is known for the message at {0}")]
    NoSuchMethod(usize),
    /// A text that is no format of a printf, no number or no object where one is needed, a value where none is, or a `self` of a class method that gets no
    /// message; the place is that of the expression.
    #[error("the expression at {0} is of the wrong kind")]
    KindMismatch(usize),
    /// The left side of an assignment is no variable, no field and not `self`; the place is that of its `=`. Or that of an update is no variable and no field, or
    /// holds an object; the place is that of its operator.
    #[error("the left side of the assignment at {0} is no variable")]
    NotAssignable(usize),
    /// A call with another number of arguments than its function takes, or a function with more than 16 parameters; the place is that of the name. Or a method with
    /// more than 16; the place is that of its `+` or `-`.
    #[error("the function at {0} takes another number of arguments")]
    ArgumentCount(usize),
    /// A call of `printf` without a format, with an unknown conversion, or with values that do not fit; the place is that of its name.
    #[error("the format and the values of the printf at {0} do not fit")]
    Format(usize),
    /// A `break` or a `continue` outside of loops; the place is that of its first byte.
    #[error("no loop is around the statement at {0}")]
    OutsideLoop(usize),
    /// A field that may not be named there; the place is that of its name.
    #[error("the field at {0} is hidden")]
    FieldHidden(usize),
    /// The 201st parameter or variable of a body, or a later one; the place is that of its name. Or the
    /// 201st place of a full-expression at which it takes an object.
    #[error("the variable or object at {0} is one too many")]
    TooManyLocals(usize),
    /// There was no memory for the checked program.
    #[error("no memory")]
    Memory,
}

impl CheckFault {
    /// The fault's number.
    pub fn number(&self) -> u8
        ensures { result ≡ (report self.now).number }
    {
        match self {
            CheckFault::UnknownName(_) => 41,
            CheckFault::NoSuchMethod(_) => 42,
            CheckFault::KindMismatch(_) => 43,
            CheckFault::NotAssignable(_) => 44,
            CheckFault::ArgumentCount(_) => 45,
            CheckFault::Format(_) => 46,
            CheckFault::OutsideLoop(_) => 48,
            CheckFault::FieldHidden(_) => 49,
            CheckFault::TooManyLocals(_) => 50,
            CheckFault::Memory => 51,
        }
    }

    /// The fault's name.
    pub fn name(&self) -> &'static str
        ensures { result.now ≡ (report self.now).name }
    {
        match self {
            CheckFault::UnknownName(_) => "UnknownName",
            CheckFault::NoSuchMethod(_) => "NoSuchMethod",
            CheckFault::KindMismatch(_) => "KindMismatch",
            CheckFault::NotAssignable(_) => "NotAssignable",
            CheckFault::ArgumentCount(_) => "ArgumentCount",
            CheckFault::Format(_) => "Format",
            CheckFault::OutsideLoop(_) => "OutsideLoop",
            CheckFault::FieldHidden(_) => "FieldHidden",
            CheckFault::TooManyLocals(_) => "TooManyLocals",
            CheckFault::Memory => "Memory",
        }
    }

    /// The byte of the source that the fault names, counted from 0: 0 for want of memory.
    pub fn at(&self) -> usize
        ensures { result ≡ (report self.now).at }
    {
        match self {
            CheckFault::UnknownName(at) => *at,
            CheckFault::NoSuchMethod(at) => *at,
            CheckFault::KindMismatch(at) => *at,
            CheckFault::NotAssignable(at) => *at,
            CheckFault::ArgumentCount(at) => *at,
            CheckFault::Format(at) => *at,
            CheckFault::OutsideLoop(at) => *at,
            CheckFault::FieldHidden(at) => *at,
            CheckFault::TooManyLocals(at) => *at,
            CheckFault::Memory => 0,
        }
    }
}

impl From<AllocError> for CheckFault {
    ghost from_gives = { λ _ fault. fault ≡ Memory };

    fn from(_error: AllocError) -> CheckFault {
        CheckFault::Memory
    }
}
