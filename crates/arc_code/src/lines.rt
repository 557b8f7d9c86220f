//! Lists code, an instruction a line.
#![tactic(auto, using(crate::proofs::WritesCompose::joined, crate::proofs::WritesCompose::stops))]

ghost use Rattle.std.specs.Prelude.{◌≡◌, ◌-◌, ◌^◌, ◌<◌, ◌++◌, codes, decimal};
ghost use Rattle.std.specs.Fmt.{signed_decimal};
ghost use Rattle.arc_code.specs.Attempts.{HasFailedToWrite};
ghost use Rattle.arc_code.specs.CountedDevices.{failures_of, inner_of, held_by};
ghost use Rattle.arc_code.specs.WrittenBytes.{Written};
ghost use Rattle.arc_code.specs.InstructionTable.{operand};
ghost use Rattle.arc_code.specs.Listing.{line, listing, operands_text};

use crate::code::{Code, Instruction, IoFault};
use crate::counted::Counted;
use crate::device::Output;
use crate::instr::Operands;
use itoa::Buffer;

/// Writes a line for each instruction: its number, counted from 0, its name, and its operands in
/// decimal, with single spaces between them. An operator and a kind are written as their number in
/// their order, counted from 0. The error is `IoFault::Write`, where the writer failed; then some
/// of the first bytes are written, and not all.
pub fn list<W: Output>(code: &Code, writer: &mut Counted<W>) -> Result<(), IoFault>
    requires { failures_of writer.old < 2 ^ 64 - 1 }
    ensures { Written result (listing code.now.instrs.items)
        (held_by W.contents writer.old) (held_by W.contents writer.new)
        (failures_of writer.old) (failures_of writer.new)
        (HasFailedToWrite W.writes W.flushes (inner_of writer.new)) }
{
    for (number, instr) in code.instrs.iter().enumerate() {
        put_line(number, *instr, writer)?;
    }
    Ok(())
}

fn put_line<W: Output>(
    number: usize,
    instr: Instruction,
    writer: &mut Counted<W>,
) -> Result<(), IoFault>
    requires { failures_of writer.old < 2 ^ 64 - 1 }
    ensures { Written result (line number instr)
        (held_by W.contents writer.old) (held_by W.contents writer.new)
        (failures_of writer.old) (failures_of writer.new)
        (HasFailedToWrite W.writes W.flushes (inner_of writer.new)) }
{
    put_number(number as u64, writer)?;
    let (name, operands) = instr.parts();
    put_word(name.as_bytes(), writer)?;
    put_operands(operands, writer)?;
    put(b"\n", writer)
}

fn put_operands<W: Output>(operands: Operands, writer: &mut Counted<W>) -> Result<(), IoFault>
    requires { failures_of writer.old < 2 ^ 64 - 1 }
    ensures { Written result (operands_text operands)
        (held_by W.contents writer.old) (held_by W.contents writer.new)
        (failures_of writer.old) (failures_of writer.new)
        (HasFailedToWrite W.writes W.flushes (inner_of writer.new)) }
{
    match operands {
        Operands::Nothing => put(b"", writer),
        Operands::Signed(number) => put_signed(number, writer),
        Operands::One(number) => put_operand(number, writer),
        Operands::Two(first, second) => put_pair(first, second, writer),
        Operands::Four(first, second, third, fourth) => {
            put_four(first, second, third, fourth, writer)
        }
        Operands::Five(first, second, third, fourth, fifth) => {
            put_five(first, second, third, fourth, fifth, writer)
        }
    }
}

fn put_pair<W: Output>(first: u64, second: u64, writer: &mut Counted<W>) -> Result<(), IoFault>
    requires { failures_of writer.old < 2 ^ 64 - 1 }
    ensures { Written result (operand first ++ operand second)
        (held_by W.contents writer.old) (held_by W.contents writer.new)
        (failures_of writer.old) (failures_of writer.new)
        (HasFailedToWrite W.writes W.flushes (inner_of writer.new)) }
{
    put_operand(first, writer)?;
    put_operand(second, writer)
}

fn put_three<W: Output>(
    first: u64,
    second: u64,
    third: u64,
    writer: &mut Counted<W>,
) -> Result<(), IoFault>
    requires { failures_of writer.old < 2 ^ 64 - 1 }
    ensures { Written result (operand first ++ (operand second ++ operand third))
        (held_by W.contents writer.old) (held_by W.contents writer.new)
        (failures_of writer.old) (failures_of writer.new)
        (HasFailedToWrite W.writes W.flushes (inner_of writer.new)) }
{
    put_operand(first, writer)?;
    put_pair(second, third, writer)
}

fn put_four<W: Output>(
    first: u64,
    second: u64,
    third: u64,
    fourth: u64,
    writer: &mut Counted<W>,
) -> Result<(), IoFault>
    requires { failures_of writer.old < 2 ^ 64 - 1 }
    ensures { Written result (operand first ++ (operand second ++ (operand third ++ operand fourth)))
        (held_by W.contents writer.old) (held_by W.contents writer.new)
        (failures_of writer.old) (failures_of writer.new)
        (HasFailedToWrite W.writes W.flushes (inner_of writer.new)) }
{
    put_operand(first, writer)?;
    put_three(second, third, fourth, writer)
}

fn put_five<W: Output>(
    first: u64,
    second: u64,
    third: u64,
    fourth: u64,
    fifth: u64,
    writer: &mut Counted<W>,
) -> Result<(), IoFault>
    requires { failures_of writer.old < 2 ^ 64 - 1 }
    ensures { Written result (operand first ++ (operand second ++ (operand third ++ (operand fourth ++ operand fifth))))
        (held_by W.contents writer.old) (held_by W.contents writer.new)
        (failures_of writer.old) (failures_of writer.new)
        (HasFailedToWrite W.writes W.flushes (inner_of writer.new)) }
{
    put_operand(first, writer)?;
    put_four(second, third, fourth, fifth, writer)
}

fn put_operand<W: Output>(number: u64, writer: &mut Counted<W>) -> Result<(), IoFault>
    requires { failures_of writer.old < 2 ^ 64 - 1 }
    ensures { Written result (operand number)
        (held_by W.contents writer.old) (held_by W.contents writer.new)
        (failures_of writer.old) (failures_of writer.new)
        (HasFailedToWrite W.writes W.flushes (inner_of writer.new)) }
{
    put_word(Buffer::new().format(number).as_bytes(), writer)
}

fn put_signed<W: Output>(number: i64, writer: &mut Counted<W>) -> Result<(), IoFault>
    requires { failures_of writer.old < 2 ^ 64 - 1 }
    ensures { Written result (codes " " ++ signed_decimal number)
        (held_by W.contents writer.old) (held_by W.contents writer.new)
        (failures_of writer.old) (failures_of writer.new)
        (HasFailedToWrite W.writes W.flushes (inner_of writer.new)) }
{
    put_word(Buffer::new().format(number).as_bytes(), writer)
}

fn put_number<W: Output>(number: u64, writer: &mut Counted<W>) -> Result<(), IoFault>
    requires { failures_of writer.old < 2 ^ 64 - 1 }
    ensures { Written result (decimal number)
        (held_by W.contents writer.old) (held_by W.contents writer.new)
        (failures_of writer.old) (failures_of writer.new)
        (HasFailedToWrite W.writes W.flushes (inner_of writer.new)) }
{
    put(Buffer::new().format(number).as_bytes(), writer)
}

/// Writes a space and the word.
fn put_word<W: Output>(word: &[u8], writer: &mut Counted<W>) -> Result<(), IoFault>
    requires { failures_of writer.old < 2 ^ 64 - 1 }
    ensures { Written result (codes " " ++ word.now)
        (held_by W.contents writer.old) (held_by W.contents writer.new)
        (failures_of writer.old) (failures_of writer.new)
        (HasFailedToWrite W.writes W.flushes (inner_of writer.new)) }
{
    put(b" ", writer)?;
    put(word, writer)
}

#[tactic(auto, using(crate::proofs::WritesCompose::front_part))]
fn put<W: Output>(bytes: &[u8], writer: &mut Counted<W>) -> Result<(), IoFault>
    requires { failures_of writer.old < 2 ^ 64 - 1 }
    ensures { Written result bytes.now
        (held_by W.contents writer.old) (held_by W.contents writer.new)
        (failures_of writer.old) (failures_of writer.new)
        (HasFailedToWrite W.writes W.flushes (inner_of writer.new)) }
{
    match writer.put_all(bytes) {
        Ok(()) => Ok(()),
        Err(_) => Err(IoFault::Write),
    }
}
