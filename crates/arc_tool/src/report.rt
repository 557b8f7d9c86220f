//! What is written on standard error, and the status with which the program ends.
ghost use Rattle.std.specs.Prelude.{◌≡◌, ◌+◌, ◌-◌, ◌^◌, ◌<◌, ◌++◌, codes, decimal, IfErr, OnOk, OnErr};
ghost use Rattle.std.specs.Io.KnownBytes.{Keeps};
ghost use Rattle.arc_code.specs.Attempts.{HasFailedToWrite, HasPassedOn};
ghost use Rattle.arc_code.specs.CountedDevices.{failures_of, inner_of, held_by};
ghost use Rattle.arc_code.specs.WrittenBytes.{Written};
ghost use Rattle.arc_code.specs.DeviceFaults as faulty;
ghost use Rattle.arc_machine.specs.FaultNames as stopped;
ghost use Rattle.arc_tool.specs.Status.{report, line_of, named};
ghost use Rattle.arc_code.specs.declared.code.IoFault.TheVariants as fault;

use crate::refusal::Refusal;
use crate::run::ToolFault;
use arc_code::code::IoFault;
use arc_code::counted::Counted;
use arc_code::device::Output;
use arc_machine::fault::{fault_name, fault_number};
use arc_spec::event::Fault;
use itoa::Buffer;

/// Why the program did not do what its words ask for.
#[derive(Clone, Copy, Debug, PartialEq, Eq)]
pub enum Trouble {
    /// The words ask for nothing that can be done.
    Usage,
    /// The source is refused.
    Refused(Refusal),
    /// Memory was asked for and refused.
    Memory,
    /// The source's program was stopped.
    Fault(Fault),
    /// There was no room for an object.
    NoHeap,
    /// All steps were made, and the source's program goes on.
    StepsUsed,
    /// Standard input or output failed.
    Io(IoFault),
    /// The source can't be read.
    File,
}

impl From<Refusal> for Trouble {
    ghost use Rattle.arc_tool.specs.Reports.{Becomes};
    ghost use Rattle.arc_tool.specs.declared.report.Trouble.TheVariants.{Memory, Refused};

    ghost from_gives = { λ r t. Becomes Memory Refused r t };

    fn from(refusal: Refusal) -> Trouble {
        if refusal.is_memory() {
            Trouble::Memory
        } else {
            Trouble::Refused(refusal)
        }
    }
}

impl From<ToolFault> for Trouble {
    ghost use Rattle.std.specs.Prelude.{◌≡◌};
    ghost use Rattle.arc_tool.specs.Status.{trouble_of};

    ghost from_gives = { λ f t. t ≡ trouble_of f };

    fn from(fault: ToolFault) -> Trouble {
        match fault {
            ToolFault::Refused(refusal) => Trouble::Refused(refusal),
            ToolFault::Memory => Trouble::Memory,
            ToolFault::Io(fault) => Trouble::Io(fault),
        }
    }
}

impl From<IoFault> for Trouble {
    ghost use Rattle.std.specs.Prelude.{◌≡◌};
    ghost use Rattle.arc_tool.specs.declared.report.Trouble.TheVariants.{Io};

    ghost from_gives = { λ f t. t ≡ Io f };

    fn from(fault: IoFault) -> Trouble {
        Trouble::Io(fault)
    }
}

/// The status with which the program ends.
pub fn status(trouble: &Trouble) -> u8
    ensures { result ≡ (report trouble.now).0 }
{
    match trouble {
        Trouble::Usage => 101,
        Trouble::Refused(_) | Trouble::Memory => 102,
        Trouble::Fault(_) => 103,
        Trouble::NoHeap => 104,
        Trouble::StepsUsed => 105,
        Trouble::Io(_) | Trouble::File => 106,
    }
}

/// Writes the trouble in one line. The error is a failure of the writer; then some of the first bytes are written,
/// and not all.
pub fn print_trouble<E: Output>(trouble: &Trouble, errors: &mut Counted<E>) -> Result<(), IoFault>
    requires { failures_of errors.old < 2 ^ 64 - 1 }
    ensures { Written result (line_of trouble.now)
        (held_by E.contents errors.old) (held_by E.contents errors.new)
        (failures_of errors.old) (failures_of errors.new)
        (HasFailedToWrite E.writes E.flushes (inner_of errors.new)) }
{
    put(b"arcc: ", errors)?;
    put_message(trouble, errors)?;
    put(b"\n", errors)
}

fn put_message<E: Output>(trouble: &Trouble, errors: &mut Counted<E>) -> Result<(), IoFault>
    requires { failures_of errors.old < 2 ^ 64 - 1 }
    ensures { Written result (report trouble.now).1
        (held_by E.contents errors.old) (held_by E.contents errors.new)
        (failures_of errors.old) (failures_of errors.new)
        (HasFailedToWrite E.writes E.flushes (inner_of errors.new)) }
{
    match trouble {
        Trouble::Usage => put(b"usage: check, run, trace or code, and FILE", errors),
        Trouble::Refused(refusal) => put_refusal(refusal, errors),
        Trouble::Memory => put(b"no memory", errors),
        Trouble::Fault(fault) => put_fault(*fault, errors),
        Trouble::NoHeap => put(b"no heap", errors),
        Trouble::StepsUsed => put(b"steps used", errors),
        Trouble::Io(fault) => put_broken(*fault, errors),
        Trouble::File => put_named(b"io ", 93, b"File", errors),
    }
}

/// Writes why a program was stopped.
pub(crate) fn put_fault<W: Output>(fault: Fault, writer: &mut Counted<W>) -> Result<(), IoFault>
    requires { failures_of writer.old < 2 ^ 64 - 1 }
    ensures { Written result (named (codes "fault ") (stopped.report fault).0 (stopped.report fault).1)
        (held_by W.contents writer.old) (held_by W.contents writer.new)
        (failures_of writer.old) (failures_of writer.new)
        (HasFailedToWrite W.writes W.flushes (inner_of writer.new)) }
{
    let name = fault_name(fault).as_bytes();
    put_named(b"fault ", fault_number(fault) as u64, name, writer)
}

/// Writes which device failed.
pub(crate) fn put_broken<W: Output>(fault: IoFault, writer: &mut Counted<W>) -> Result<(), IoFault>
    requires { failures_of writer.old < 2 ^ 64 - 1 }
    ensures { Written result (named (codes "io ") (faulty.report fault).0 (faulty.report fault).1)
        (held_by W.contents writer.old) (held_by W.contents writer.new)
        (failures_of writer.old) (failures_of writer.new)
        (HasFailedToWrite W.writes W.flushes (inner_of writer.new)) }
{
    let name = fault.name().as_bytes();
    put_named(b"io ", fault.number() as u64, name, writer)
}

fn put_refusal<E: Output>(refusal: &Refusal, errors: &mut Counted<E>) -> Result<(), IoFault>
    requires { failures_of errors.old < 2 ^ 64 - 1 }
    ensures { Written result (named (codes "refused ") refusal.now.number refusal.now.name.now ++ codes " at " ++ decimal refusal.now.at)
        (held_by E.contents errors.old) (held_by E.contents errors.new)
        (failures_of errors.old) (failures_of errors.new)
        (HasFailedToWrite E.writes E.flushes (inner_of errors.new)) }
{
    let name = refusal.name.as_bytes();
    put_named(b"refused ", refusal.number as u64, name, errors)?;
    put(b" at ", errors)?;
    put_number(refusal.at as u64, errors)
}

/// Writes what kind of thing it is, and its number and name.
pub(crate) fn put_named<W: Output>(
    kind: &[u8],
    number: u64,
    name: &[u8],
    writer: &mut Counted<W>,
) -> Result<(), IoFault>
    requires { failures_of writer.old < 2 ^ 64 - 1 }
    ensures { Written result (named kind.now number name.now)
        (held_by W.contents writer.old) (held_by W.contents writer.new)
        (failures_of writer.old) (failures_of writer.new)
        (HasFailedToWrite W.writes W.flushes (inner_of writer.new)) }
{
    put(kind, writer)?;
    put_number(number, writer)?;
    put(b" ", writer)?;
    put(name, writer)
}

fn put_number<E: Output>(number: u64, errors: &mut Counted<E>) -> Result<(), IoFault>
    requires { failures_of errors.old < 2 ^ 64 - 1 }
    ensures { Written result (decimal number)
        (held_by E.contents errors.old) (held_by E.contents errors.new)
        (failures_of errors.old) (failures_of errors.new)
        (HasFailedToWrite E.writes E.flushes (inner_of errors.new)) }
{
    put(Buffer::new().format(number).as_bytes(), errors)
}

/// Writes the bytes.
pub fn put<E: Output>(bytes: &[u8], writer: &mut Counted<E>) -> Result<(), IoFault>
    requires { failures_of writer.old < 2 ^ 64 - 1 }
    ensures { Written result bytes.now
        (held_by E.contents writer.old) (held_by E.contents writer.new)
        (failures_of writer.old) (failures_of writer.new)
        (HasFailedToWrite E.writes E.flushes (inner_of writer.new)) }
{
    match writer.put_all(bytes) {
        Ok(()) => Ok(()),
        Err(_) => Err(IoFault::Write),
    }
}

/// Has the device pass on what it holds back. The error is a failure of the device.
pub(crate) fn flush<W: Output>(writer: &mut Counted<W>) -> Result<(), IoFault>
    requires { failures_of writer.old < 2 ^ 64 - 1 }
    ensures kept { Keeps (held_by W.contents writer.old) (held_by W.contents writer.new) }
    ensures fine { OnOk result (failures_of writer.new ≡ failures_of writer.old) }
    ensures fault { IfErr result (λ f. f ≡ fault.Write) }
    ensures cause { OnErr result (failures_of writer.new ≡ failures_of writer.old + 1) }
    ensures failed { OnErr result (HasFailedToWrite W.writes W.flushes (inner_of writer.new)) }
    ensures passed_on { OnOk result (HasPassedOn W.flushes (inner_of writer.new)) }
{
    match writer.flush() {
        Ok(()) => Ok(()),
        Err(_) => Err(IoFault::Write),
    }
}
