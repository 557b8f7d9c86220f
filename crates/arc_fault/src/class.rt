//! Why a source has no table.
ghost use Rattle.std.specs.Prelude.{◌≡◌};
ghost use Rattle.arc_fault.specs.declared.class.ClassFault.TheVariants.{Memory};
ghost use Rattle.arc_fault.specs.Class.{report};

use std::alloc::{AllocError, AllocFailed};
use thiserror::Error;

/// Why a source has no table: the first rule that its declarations break, or no memory.
#[derive(Clone, Copy, Debug, Drop, Error)]
pub enum ClassFault {
    /// A second body of a function, a declaration that differs from an earlier one, a function, a global variable or a class of a name of the library's, a
    /// second global variable, class or implementation of a name, a name for two of a function, a global variable and a class, a second variable or parameter
    /// of a name in a scope, or a second field of a name in a class and those above it, reported at the name; or a second method of an implementation of its
    /// sign with its selector, reported at its `+` or `-`.
    #[error("the name at {0} is declared in another way already")]
    Duplicate(usize),
    /// A superclass that no earlier interface declares, an implementation of a class without an interface, or a type that names such a
    /// class; the place is that of the name.
    #[error("the class at {0} is not known")]
    UnknownClass(usize),
    /// A method whose result or one of whose parameters is of another kind than that of an earlier one of its sign with its selector, or of the one
    /// that is built in; the place is that of its `+` or `-`.
    #[error("the method at {0} gives another kind of value than an earlier one")]
    SelectorKinds(usize),
    /// A class without an implementation; the place is that of its interface's name.
    #[error("the class at {0} has no implementation")]
    NoImplementation(usize),
    /// More than 120 fields in the objects of a class; the place is that of its interface's name.
    #[error("the class at {0} has more than 120 fields")]
    TooManyFields(usize),
    /// A class method `load`, `initialize` or `alloc`, or a method that says of an object's class, as `class` or `isKindOfClass:`; the place
    /// is that of its `+` or `-`.
    #[error("the method at {0} has a name that classes cannot take")]
    HookMethod(usize),
    /// No `main` has a body.
    #[error("no main has a body")]
    NoMain,
    /// A call of a function that is declared and has no body; the place is that of its name.
    #[error("the function that is called at {0} has no body")]
    UndefinedFunction(usize),
    /// There was no memory for the table.
    #[error("no memory")]
    Memory,
}

impl ClassFault {
    /// The fault's number.
    pub fn number(&self) -> u8
        ensures { result ≡ (report self.now).number }
    {
        match self {
            ClassFault::Duplicate(_) => 21,
            ClassFault::UnknownClass(_) => 22,
            ClassFault::SelectorKinds(_) => 24,
            ClassFault::NoImplementation(_) => 26,
            ClassFault::TooManyFields(_) => 27,
            ClassFault::HookMethod(_) => 28,
            ClassFault::NoMain => 29,
            ClassFault::UndefinedFunction(_) => 30,
            ClassFault::Memory => 31,
        }
    }

    /// The fault's name.
    pub fn name(&self) -> &'static str
        ensures { result.now ≡ (report self.now).name }
    {
        match self {
            ClassFault::Duplicate(_) => "Duplicate",
            ClassFault::UnknownClass(_) => "UnknownClass",
            ClassFault::SelectorKinds(_) => "SelectorKinds",
            ClassFault::NoImplementation(_) => "NoImplementation",
            ClassFault::TooManyFields(_) => "TooManyFields",
            ClassFault::HookMethod(_) => "HookMethod",
            ClassFault::NoMain => "NoMain",
            ClassFault::UndefinedFunction(_) => "UndefinedFunction",
            ClassFault::Memory => "Memory",
        }
    }

    /// The byte of the source that the fault names, counted from 0: 0 where no `main` has a body, and for want of memory.
    pub fn at(&self) -> usize
        ensures { result ≡ (report self.now).at }
    {
        match self {
            ClassFault::Duplicate(at) => *at,
            ClassFault::UnknownClass(at) => *at,
            ClassFault::SelectorKinds(at) => *at,
            ClassFault::NoImplementation(at) => *at,
            ClassFault::TooManyFields(at) => *at,
            ClassFault::HookMethod(at) => *at,
            ClassFault::NoMain => 0,
            ClassFault::UndefinedFunction(at) => *at,
            ClassFault::Memory => 0,
        }
    }
}

impl From<AllocError> for ClassFault {
    ghost from_gives = { λ _ fault. fault ≡ Memory };

    fn from(_error: AllocError) -> ClassFault {
        ClassFault::Memory
    }
}

impl<T: Drop> From<AllocFailed<T>> for ClassFault {
    ghost from_gives = { λ _ fault. fault ≡ Memory };

    fn from(_error: AllocFailed<T>) -> ClassFault {
        ClassFault::Memory
    }
}
