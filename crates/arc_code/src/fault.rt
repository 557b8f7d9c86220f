//! The numbers and the names of faulty devices.
ghost use Rattle.std.specs.Prelude.{◌≡◌};
ghost use Rattle.arc_code.specs.DeviceFaults.{report};

use crate::code::IoFault;

impl IoFault {
    /// The number by which the fault is reported.
    pub fn number(self) -> u8
        ensures { result ≡ (report self).0 }
    {
        match self {
            IoFault::Read => 91,
            IoFault::Write => 92,
        }
    }

    /// The name by which the fault is reported.
    pub fn name(self) -> &'static str
        ensures { result.now ≡ (report self).1 }
    {
        match self {
            IoFault::Read => "Read",
            IoFault::Write => "Write",
        }
    }
}
