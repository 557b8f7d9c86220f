//! Writes what the plain interpreter reports in the lines of a trace.

use arc_ast::tree::TranslationUnit;
use arc_machine::fault::{fault_name, fault_number};
use arc_plain::interpret::{Answer, PlainStop};
use arc_spec::event::Event;
use std::alloc::Global;
use std::io;
use std::io::Write;

/// The text of the trace of a program with this tree, of which this is reported.
pub fn trace_lines(alloc: Global, answer: &Answer, unit: &TranslationUnit) -> io::Result<Vec<u8>> {
    let mut text = Vec::new(alloc);
    for event in &answer.trace {
        write_event(&mut text, event, unit)?;
    }
    write_stop(&mut text, answer.stop)?;
    Ok(text)
}

/// Whether the text leaves a line open.
pub fn is_open(text: &[u8]) -> bool {
    match text.last() {
        Some(byte) => *byte != b'\n',
        None => false,
    }
}

/// Ends the text's line where it is open.
fn end_line(text: &mut Vec<u8>) -> io::Result<()> {
    if is_open(text) {
        text.write_all(b"\n")?;
    }
    Ok(())
}

/// Writes what an event adds to a trace.
fn write_event(text: &mut Vec<u8>, event: &Event, unit: &TranslationUnit) -> io::Result<()> {
    match event {
        Event::Byte(byte) => {
            if !is_open(text) {
                text.write_all(b"out ")?;
            }
            write!(text, "{byte:02x}")
        }
        Event::Dealloc(object, class) => {
            end_line(text)?;
            write!(text, "dealloc {object} ")?;
            text.write_all(class_name(unit, *class))?;
            text.write_all(b"\n")
        }
    }
}

/// The name of the class with this number. The root, which no source declares, has the number 0.
fn class_name(unit: &TranslationUnit, class: usize) -> &[u8] {
    if class == 0 {
        return b"NSObject";
    }
    match unit.interfaces.get(class - 1) {
        Some(interface) => &interface.name,
        None => b"",
    }
}

/// Writes how a run stopped.
fn write_stop(text: &mut Vec<u8>, stop: PlainStop) -> io::Result<()> {
    end_line(text)?;
    match stop {
        PlainStop::Ended(number) => writeln!(text, "end {number}"),
        PlainStop::Fault(fault) => {
            writeln!(text, "fault {} {}", fault_number(fault), fault_name(fault))
        }
        PlainStop::Cut => writeln!(text, "cut"),
    }
}
