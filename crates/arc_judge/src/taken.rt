//! How many objects a full-expression takes.
ghost use Rattle.std.specs.Prelude.{◌≡◌, option_map};
ghost use Rattle.arc_class.specs.BrokenRules.{first};
ghost use Rattle.arc_judge.specs.Fault.{reported};
ghost use Rattle.arc_judge.specs.private.ExpressionJudgements.{counted, none_counted, one_counted};
ghost use Rattle.arc_judge.specs.Rules.{place_if};
ghost use Rattle.arc_sites.specs.Violations.{violates};

use arc_fault::check::CheckFault;

/// How many objects more an expression may take, and the first place past them at which it takes one.
#[derive(Clone, Copy)]
pub struct Taken {
    left: u8,
    past: Option<usize>,
}

/// How many objects a full-expression takes at most.
const MOST_TAKEN: u8 = 200;

impl Taken {
    /// Before a full-expression.
    pub fn none() -> Taken
        ensures { result ≡ none_counted }
    {
        Taken {
            left: MOST_TAKEN,
            past: None,
        }
    }

    /// One object more is taken, at the place.
    fn one(self, at: usize) -> Taken
        ensures { result ≡ one_counted self at }
    {
        if self.left > 0 {
            return Taken {
                left: self.left - 1,
                past: self.past,
            };
        }
        match self.past {
            Some(_) => self,
            None => Taken {
                left: 0,
                past: Some(at),
            },
        }
    }

    /// The same, if one is taken.
    pub fn one_if(self, so: bool, at: usize) -> Taken
        ensures { result ≡ counted self (place_if so at) }
    {
        if so { self.one(at) } else { self }
    }

    /// The rule that is broken where more are taken.
    pub fn fault(self) -> Option<CheckFault>
        ensures { option_map reported result ≡ first (violates 50 self.past) }
    {
        match self.past {
            None => None,
            Some(at) => Some(CheckFault::TooManyLocals(at)),
        }
    }
}
