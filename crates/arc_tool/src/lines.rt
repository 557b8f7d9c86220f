//! Writes what a run shows, in lines.
ghost use Rattle.std.specs.Prelude.{◌≡◌, ◌-◌, ◌^◌, ◌<◌, ◌++◌, codes, map, Ok};
ghost use Rattle.std.specs.Fmt.{signed_decimal};
ghost use Rattle.arc_code.specs.Attempts.{HasFailedToWrite};
ghost use Rattle.arc_code.specs.CountedDevices.{failures_of, inner_of, held_by};
ghost use Rattle.arc_code.specs.WrittenBytes.{Written};
ghost use Rattle.arc_tool.specs.CompiledCode.{bytes_of_name};
ghost use Rattle.arc_tool.specs.TraceLines.{digit, two_digits, name_at, dealloc_line, left_text, opening, closing, event_text, leaves_open, events_text, open_after, end_text};

use crate::report::{put, put_broken, put_fault, put_named};
use arc_code::code::IoFault;
use arc_code::counted::Counted;
use arc_code::device::Output;
use arc_machine::stop::Stop;
use arc_spec::event::Event;
use itoa::Buffer;

/// How a run was left.
#[derive(Clone, Copy)]
pub enum Left {
    Stopped(Stop),
    /// The reader failed.
    Unread,
}

/// Writes what the events add to the text: `out ` and two hexadecimal digits for each byte that is printed before
/// the next dealloc, and `dealloc ` with the object's number and its class for each dealloc. Where a line of
/// printed bytes is open, it is ended before a dealloc. The error is a failure of the writer; then some of the
/// first bytes are written, and not all.
pub fn put_events<W: Output>(
    events: &[Event],
    classes: &[Vec<u8>],
    begun: bool,
    writer: &mut Counted<W>,
) -> Result<(), IoFault>
    requires { failures_of writer.old < 2 ^ 64 - 1 }
    ensures { Written result (events_text (map bytes_of_name classes.now) begun events.now)
        (held_by W.contents writer.old) (held_by W.contents writer.new)
        (failures_of writer.old) (failures_of writer.new)
        (HasFailedToWrite W.writes W.flushes (inner_of writer.new)) }
{
    let mut line_is_open = begun;
    for event in events {
        put_event(event, classes, line_is_open, writer)?;
        line_is_open = leaves_open(event);
    }
    Ok(())
}

/// Whether a line of printed bytes is open after the events.
pub fn open_after(begun: bool, events: &[Event]) -> bool
    ensures { result ≡ open_after begun events.now }
{
    let mut line_is_open = begun;
    for event in events {
        line_is_open = leaves_open(event);
    }
    line_is_open
}

/// Whether a line of printed bytes is open after the event.
fn leaves_open(event: &Event) -> bool
    ensures { result ≡ leaves_open event.now }
{
    match event {
        Event::Byte(_) => true,
        Event::Dealloc(_, _) => false,
    }
}

fn put_event<W: Output>(
    event: &Event,
    classes: &[Vec<u8>],
    begun: bool,
    writer: &mut Counted<W>,
) -> Result<(), IoFault>
    requires { failures_of writer.old < 2 ^ 64 - 1 }
    ensures { Written result (event_text (map bytes_of_name classes.now) begun event.now)
        (held_by W.contents writer.old) (held_by W.contents writer.new)
        (failures_of writer.old) (failures_of writer.new)
        (HasFailedToWrite W.writes W.flushes (inner_of writer.new)) }
{
    match event {
        Event::Byte(byte) => put_byte(*byte, begun, writer),
        Event::Dealloc(object, class) => {
            close(begun, writer)?;
            put_dealloc(*object, *class, classes, writer)
        }
    }
}

/// Writes a printed byte, which begins a line where none is open.
fn put_byte<W: Output>(byte: u8, begun: bool, writer: &mut Counted<W>) -> Result<(), IoFault>
    requires { failures_of writer.old < 2 ^ 64 - 1 }
    ensures { Written result (opening begun ++ two_digits byte)
        (held_by W.contents writer.old) (held_by W.contents writer.new)
        (failures_of writer.old) (failures_of writer.new)
        (HasFailedToWrite W.writes W.flushes (inner_of writer.new)) }
{
    put(opening(begun), writer)?;
    put_digits(byte, writer)
}

/// The beginning of a line of printed bytes, where none is open.
fn opening(begun: bool) -> &'static [u8]
    ensures { result.now ≡ opening begun }
{
    if begun { b"" } else { b"out " }
}

/// Writes a byte in two hexadecimal digits.
fn put_digits<W: Output>(byte: u8, writer: &mut Counted<W>) -> Result<(), IoFault>
    requires { failures_of writer.old < 2 ^ 64 - 1 }
    ensures { Written result (two_digits byte)
        (held_by W.contents writer.old) (held_by W.contents writer.new)
        (failures_of writer.old) (failures_of writer.new)
        (HasFailedToWrite W.writes W.flushes (inner_of writer.new)) }
{
    put(&[digit(byte / 16), digit(byte % 16)], writer)
}

/// A hexadecimal digit.
fn digit(number: u8) -> u8
    requires { number < 16 }
    ensures { result ≡ digit number }
{
    let digits: &[u8; 16] = b"0123456789abcdef";
    digits[number as usize]
}

/// Ends the line of printed bytes where it is open.
fn close<W: Output>(begun: bool, writer: &mut Counted<W>) -> Result<(), IoFault>
    requires { failures_of writer.old < 2 ^ 64 - 1 }
    ensures { Written result (closing begun)
        (held_by W.contents writer.old) (held_by W.contents writer.new)
        (failures_of writer.old) (failures_of writer.new)
        (HasFailedToWrite W.writes W.flushes (inner_of writer.new)) }
{
    let end: &[u8] = if begun { b"\n" } else { b"" };
    put(end, writer)
}

/// Writes the line of a dealloc.
fn put_dealloc<W: Output>(
    object: u64,
    class: usize,
    classes: &[Vec<u8>],
    writer: &mut Counted<W>,
) -> Result<(), IoFault>
    requires { failures_of writer.old < 2 ^ 64 - 1 }
    ensures { Written result (dealloc_line (map bytes_of_name classes.now) object class)
        (held_by W.contents writer.old) (held_by W.contents writer.new)
        (failures_of writer.old) (failures_of writer.new)
        (HasFailedToWrite W.writes W.flushes (inner_of writer.new)) }
{
    put_named(b"dealloc ", object, name_at(classes, class), writer)?;
    put(b"\n", writer)
}

/// The name of a class; a number that no class has stands for no name.
fn name_at(classes: &[Vec<u8>], class: usize) -> &[u8]
    ensures { result.now ≡ name_at (map bytes_of_name classes.now) class }
{
    match classes.get(class) {
        Some(name) => name,
        None => &[],
    }
}

/// Ends the text with the line that says how the run was left: `end ` with the number with which it ended,
/// `fault ` with the fault's number and name, `noheap`, `steps`, or `io ` with the number and the name of the
/// reader's failure. The error is a failure of the writer; then some of the first bytes are written, and not all.
pub fn put_end<W: Output>(left: Left, begun: bool, writer: &mut Counted<W>) -> Result<(), IoFault>
    requires { failures_of writer.old < 2 ^ 64 - 1 }
    ensures { Written result (end_text begun left)
        (held_by W.contents writer.old) (held_by W.contents writer.new)
        (failures_of writer.old) (failures_of writer.new)
        (HasFailedToWrite W.writes W.flushes (inner_of writer.new)) }
{
    close(begun, writer)?;
    put_last_line(left, writer)
}

fn put_last_line<W: Output>(left: Left, writer: &mut Counted<W>) -> Result<(), IoFault>
    requires { failures_of writer.old < 2 ^ 64 - 1 }
    ensures { Written result (left_text left ++ codes "\n")
        (held_by W.contents writer.old) (held_by W.contents writer.new)
        (failures_of writer.old) (failures_of writer.new)
        (HasFailedToWrite W.writes W.flushes (inner_of writer.new)) }
{
    put_left(left, writer)?;
    put(b"\n", writer)
}

fn put_left<W: Output>(left: Left, writer: &mut Counted<W>) -> Result<(), IoFault>
    requires { failures_of writer.old < 2 ^ 64 - 1 }
    ensures { Written result (left_text left)
        (held_by W.contents writer.old) (held_by W.contents writer.new)
        (failures_of writer.old) (failures_of writer.new)
        (HasFailedToWrite W.writes W.flushes (inner_of writer.new)) }
{
    match left {
        Left::Stopped(Stop::Ended(number)) => put_ended(number, writer),
        Left::Stopped(Stop::Fault(fault)) => put_fault(fault, writer),
        Left::Stopped(Stop::NoHeap) => put(b"noheap", writer),
        Left::Stopped(Stop::StepsUsed) => put(b"steps", writer),
        Left::Unread => put_broken(IoFault::Read, writer),
    }
}

fn put_ended<W: Output>(number: i32, writer: &mut Counted<W>) -> Result<(), IoFault>
    requires { failures_of writer.old < 2 ^ 64 - 1 }
    ensures { Written result (codes "end " ++ signed_decimal number)
        (held_by W.contents writer.old) (held_by W.contents writer.new)
        (failures_of writer.old) (failures_of writer.new)
        (HasFailedToWrite W.writes W.flushes (inner_of writer.new)) }
{
    put(b"end ", writer)?;
    put(Buffer::new().format(number).as_bytes(), writer)
}
