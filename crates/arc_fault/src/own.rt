//! Why a program is refused.
ghost use Rattle.std.specs.Prelude.{◌≡◌};
ghost use Rattle.arc_fault.specs.Own.{report};

use thiserror::Error;

/// Why a program is refused: the first rule of ownership that it breaks.
#[derive(Clone, Copy, Debug, Error)]
pub enum OwnFault {
    /// An assignment to `self` outside of the methods of the init family, at its `=`.
    #[error("self is assigned at {0}")]
    SelfConst(usize),
    /// A function, or a method outside of the families that own what they give, that gives an object, at its name or its `+` or `-`.
    #[error("an unretained object is given at {0}")]
    Unretained(usize),
    /// A method `retain`, `release`, `autorelease` or `retainCount`, at its `+` or `-`; or such a message, at the first part of its selector.
    #[error("references are counted by hand at {0}")]
    ManualMemory(usize),
    /// A message `dealloc`; the place is that of its selector.
    #[error("dealloc is sent at {0}")]
    DeallocSent(usize),
    /// A message of an init method to `self` or `super` in a method of objects that isn't of the init family; the place is that of its selector's first part.
    #[error("an init method is delegated at {0}")]
    DelegateInit(usize),
    /// A method of the init family that gives an object of a class that isn't related to its own, at its `-`.
    #[error("an init method gives another object at {0}")]
    InitResult(usize),
    /// A qualifier on what holds no object, or more than one, at the name of the variable, the parameter or the field.
    #[error("a wrong qualifier at {0}")]
    Qualifier(usize),
}

impl OwnFault {
    /// The fault's number.
    pub fn number(&self) -> u8
        ensures { result ≡ (report self.now).number }
    {
        match self {
            OwnFault::SelfConst(_) => 47,
            OwnFault::Unretained(_) => 60,
            OwnFault::ManualMemory(_) => 61,
            OwnFault::DeallocSent(_) => 62,
            OwnFault::DelegateInit(_) => 63,
            OwnFault::InitResult(_) => 66,
            OwnFault::Qualifier(_) => 67,
        }
    }

    /// The fault's name.
    pub fn name(&self) -> &'static str
        ensures { result.now ≡ (report self.now).name }
    {
        match self {
            OwnFault::SelfConst(_) => "SelfConst",
            OwnFault::Unretained(_) => "Unretained",
            OwnFault::ManualMemory(_) => "ManualMemory",
            OwnFault::DeallocSent(_) => "DeallocSent",
            OwnFault::DelegateInit(_) => "DelegateInit",
            OwnFault::InitResult(_) => "InitResult",
            OwnFault::Qualifier(_) => "Qualifier",
        }
    }

    /// The byte of the source that the fault names, counted from 0.
    pub fn at(&self) -> usize
        ensures { result ≡ (report self.now).at }
    {
        match self {
            OwnFault::SelfConst(at) => *at,
            OwnFault::Unretained(at) => *at,
            OwnFault::ManualMemory(at) => *at,
            OwnFault::DeallocSent(at) => *at,
            OwnFault::DelegateInit(at) => *at,
            OwnFault::InitResult(at) => *at,
            OwnFault::Qualifier(at) => *at,
        }
    }
}
