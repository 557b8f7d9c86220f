//! Why a source has no table.
ghost use Rattle.std.specs.Prelude.{◌≡◌, option_map};
ghost use Rattle.arc_class.specs.BrokenRules.{broken_if, first};
ghost use Rattle.arc_fault.specs.Class.{report};
ghost use Rattle.arc_class.specs.Fault.{reported};

pub use arc_fault::class::ClassFault;

/// The fault, if the rule is broken.
pub(crate) fn fault_if(breaks: bool, fault: ClassFault) -> Option<ClassFault>
    ensures { option_map reported result ≡ first (broken_if breaks (report fault).at (report fault).number) }
{
    if breaks { Some(fault) } else { None }
}
