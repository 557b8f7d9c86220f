//! The instruction of one action, and its text.
ghost use Rattle.std.specs.Prelude.{◌≡◌, ◌≤◌, ◌++◌, length, OnOk};
ghost use Rattle.arc_code.specs.declared.code.TheConstants.{MOST_TEXT};
ghost use Rattle.arc_ir.specs.ActionSteps.{program_of, lands, entry};
ghost use Rattle.arc_emit.specs.EmittedCode.{instr_of, text_of};

use arc_code::code::{Instruction, Piece};
use arc_code::instr::Instr;
use arc_ir::action::{Action, Ir, Target};
use std::alloc::AllocError;

/// The instruction of the action with the number `at` of this program; `from` is where the action's
/// text begins among all texts.
pub fn instr_of(ir: &Ir, at: u32, from: u32, action: &Action) -> Instruction
    ensures { result ≡ instr_of (program_of ir.now) at from action.now }
{
    match action {
        Instr::Plain(op) => Instr::Plain(*op),
        Instr::PrintText(part) => Instr::PrintText(Piece {
            from,
            len: part.bytes.len() as u8,
        }),
        Instr::Jump(target) => Instr::Jump(lands(at, *target)),
        Instr::JumpZero(target) => Instr::JumpZero(lands(at, *target)),
        Instr::Call(function, gives) => Instr::Call(entry(ir, *function), *gives),
        Instr::Send(selector, takes, objects, gives) => {
            Instr::Send(*selector, *takes, *objects, *gives)
        }
        Instr::SendSuper(from, selector, takes, objects, gives) => {
            Instr::SendSuper(*from, *selector, *takes, *objects, *gives)
        }
        Instr::SendTo(selector, takes, objects, gives) => {
            Instr::SendTo(*selector, *takes, *objects, *gives)
        }
        Instr::SendToSuper(from, selector, takes, objects, gives) => {
            Instr::SendToSuper(*from, *selector, *takes, *objects, *gives)
        }
        Instr::StoreStrong(number) => Instr::StoreStrong(*number),
        Instr::StoreGlobal(number) => Instr::StoreGlobal(*number),
        Instr::StoreField(class, index) => Instr::StoreField(*class, *index),
        Instr::Empty(number) => Instr::Empty(*number),
        Instr::DropAll => Instr::DropAll,
        Instr::Settle => Instr::Settle,
        Instr::Give => Instr::Give,
        Instr::Return => Instr::Return,
        Instr::EndStep => Instr::EndStep,
    }
}

/// Where a jump goes on that is the action with the number `at`.
fn lands(at: u32, target: Target) -> usize
    ensures { result ≡ lands at target }
{
    match target {
        Target::Skip(count) => at as usize + 1 + count as usize,
        Target::Back(count) => (at as usize).saturating_sub(count as usize),
        Target::At(to) => to,
    }
}

/// Where the function with this number begins. One that doesn't exist begins after the last action.
fn entry(ir: &Ir, function: usize) -> usize
    ensures { result ≡ entry (program_of ir.now) function }
{
    match ir.entries.get(function) {
        Some(number) => *number,
        None => ir.actions.len(),
    }
}

/// Appends the text that an action prints, of at most `MOST_TEXT` bytes; of an action without a text it is empty.
pub fn append_text(texts: &mut Vec<u8>, action: &Action) -> Result<(), AllocError>
    ensures appended { OnOk result (texts.new.items ≡ texts.old.items ++ text_of action.now) }
    ensures short { length (text_of action.now) ≤ MOST_TEXT }
{
    match action {
        Instr::PrintText(part) => texts.extend_from_slice(&part.bytes),
        _ => Ok(()),
    }
}
