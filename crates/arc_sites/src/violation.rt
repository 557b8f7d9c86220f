//! Violations of rules, of which the first is reported.
ghost use Rattle.std.specs.Prelude.{◌≡◌, option_map};
ghost use Rattle.arc_fault.specs.Check as check;
ghost use Rattle.arc_fault.specs.Class as class;
ghost use Rattle.arc_fault.specs.Own as own;
ghost use Rattle.arc_sites.specs.Violations as violations;
ghost use Rattle.arc_sites.specs.Violations.{earlier_of};

use arc_fault::check::CheckFault;
use arc_fault::class::ClassFault;
use arc_fault::own::OwnFault;

/// A rule, by its number, and the place where it is broken: a byte of the source, counted from 0.
#[derive(Clone, Copy, Debug, PartialEq, Eq)]
pub struct Violation {
    pub at: usize,
    pub number: u8,
}

/// A fault that reports a violation of a rule.
pub trait Report: Copy {
    ghost use Rattle.arc_sites.specs.declared.violation.Violation.{Violation};

    /// The violation that the fault reports.
    ghost violation: { Self → Violation };

    /// The violation that the fault reports.
    fn reported(&self) -> Violation
        ensures { result ≡ violation self.now };
}

impl Report for ClassFault {
    ghost violation = { λ fault. record { at = (class.report fault).at; number = (class.report fault).number } };

    fn reported(&self) -> Violation {
        Violation {
            at: self.at(),
            number: self.number(),
        }
    }
}

impl Report for CheckFault {
    ghost violation = { λ fault. record { at = (check.report fault).at; number = (check.report fault).number } };

    fn reported(&self) -> Violation {
        Violation {
            at: self.at(),
            number: self.number(),
        }
    }
}

impl Report for OwnFault {
    ghost violation = { λ fault. record { at = (own.report fault).at; number = (own.report fault).number } };

    fn reported(&self) -> Violation {
        Violation {
            at: self.at(),
            number: self.number(),
        }
    }
}

/// The fault of two that is reported: the one at the earlier place, and at one place the one with the lower number (this
/// project's own choice).
pub fn earlier<F: Report>(a: Option<F>, b: Option<F>) -> Option<F>
    ensures { option_map F.violation result ≡ earlier_of (option_map F.violation a) (option_map F.violation b) }
{
    match (a, b) {
        (None, b) => b,
        (a, None) => a,
        (Some(a), Some(b)) => {
            if is_before(b.reported(), a.reported()) {
                Some(b)
            } else {
                Some(a)
            }
        }
    }
}

/// Whether the first is reported before the second.
fn is_before(a: Violation, b: Violation) -> bool
    ensures { result ≡ violations.is_before a b }
{
    a.at < b.at || a.at == b.at && a.number < b.number
}
