//! The numbers and the names of faults.
ghost use Rattle.std.specs.Prelude.{◌≡◌};
ghost use Rattle.arc_machine.specs.FaultNames.{report};

use arc_spec::event::Fault;

/// The number by which the fault is reported.
pub fn fault_number(fault: Fault) -> u8
    ensures { result ≡ (report fault).0 }
{
    match fault {
        Fault::Arithmetic => 81,
        Fault::Unrecognized => 82,
        Fault::NilField => 83,
        Fault::FieldClass => 84,
        Fault::Depth => 85,
        Fault::Resurrected => 86,
    }
}

/// The name by which the fault is reported.
pub fn fault_name(fault: Fault) -> &'static str
    ensures { result.now ≡ (report fault).1 }
{
    match fault {
        Fault::Arithmetic => "Arithmetic",
        Fault::Unrecognized => "Unrecognized",
        Fault::NilField => "NilField",
        Fault::FieldClass => "FieldClass",
        Fault::Depth => "Depth",
        Fault::Resurrected => "Resurrected",
    }
}
