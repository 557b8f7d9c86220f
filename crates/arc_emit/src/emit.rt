//! Writes actions as instructions, one for each.
ghost use Rattle.std.specs.Prelude.{◌≡◌, ◌<◌, ◌≤◌, length, IfOk, IfErr, IsErrOf};
ghost use Rattle.arc_spec.specs.Correctness.{Refines, Steady};
ghost use Rattle.arc_ir.specs.ActionSteps as acting;
ghost use Rattle.arc_code.specs.CodeSteps as running;
ghost use Rattle.arc_code.specs.CodeSteps.{program_of};
ghost use Rattle.arc_emit.specs.EmittedCode.{code_of, IsLarge};

use crate::classes::copy_classes;
use crate::fault::EmitFault;
use crate::instr::{append_text, instr_of};
use arc_class::table::ClassTable;
use arc_code::code::Code;
use arc_ir::action::Ir;
use std::alloc::Global;

/// The most instructions that code may have.
pub const MOST_INSTRS: usize = 16_777_216;

/// The code of a program. Each action is the instruction with the same number, so functions, methods
/// and the ends of objects go on at the same numbers, and a jump names the one where it goes on. The texts stand one after another.
/// The table isn't used yet: the actions name all that the code does.
/// TooLarge: there would be over 16,777,216 instructions. Memory: memory was refused.
pub fn emit(alloc: Global, ir: &Ir, _table: &ClassTable) -> Result<Code, EmitFault>
    requires { acting.IsSound (acting.program_of ir.now) }
    ensures code { IfOk result (λ code. program_of code ≡ code_of (acting.program_of ir.now)) }
    ensures sound { IfOk result (λ code. running.IsSound (program_of code)) }
    ensures refines { IfOk result (λ code. Refines (acting.seen (acting.program_of ir.now)) (running.seen (program_of code))) }
    ensures steady { IfOk result (λ code. Steady (running.seen (program_of code))) }
    ensures few_instrs { IfOk result (λ code. length code.instrs.items ≤ MOST_INSTRS) }
    ensures large { IsErrOf result EmitFault.TooLarge → IsLarge (acting.program_of ir.now) }
{
    write_code(alloc, ir)
}

/// Whether code may have so many instructions. TooLarge: there would be over 16,777,216.
pub fn fits(instrs: usize) -> Result<(), EmitFault>
    ensures few { IfOk result (λ _. instrs ≤ MOST_INSTRS) }
    ensures large { IfErr result (λ fault. (fault ≡ EmitFault.TooLarge) × (MOST_INSTRS < instrs)) }
{
    if instrs > MOST_INSTRS {
        Err(EmitFault::TooLarge)
    } else {
        Ok(())
    }
}

/// The code of a program, whether it is sound or not.
fn write_code(alloc: Global, ir: &Ir) -> Result<Code, EmitFault>
    ensures code { IfOk result (λ code. program_of code ≡ code_of (acting.program_of ir.now)) }
    ensures few_instrs { IfOk result (λ code. length code.instrs.items ≤ MOST_INSTRS) }
    ensures large { IsErrOf result EmitFault.TooLarge → IsLarge (acting.program_of ir.now) }
{
    fits(ir.actions.len())?;
    let mut instrs = Vec::with_capacity(alloc, ir.actions.len())?;
    let mut texts = Vec::new(alloc);
    for action in &ir.actions {
        let at = instrs.len() as u32;
        instrs.push(instr_of(ir, at, texts.len() as u32, action))?;
        append_text(&mut texts, action)?;
    }
    let globals = Vec::from_slice(alloc, &ir.globals)?;
    let classes = copy_classes(alloc, &ir.classes)?;
    Ok(Code {
        instrs,
        texts,
        end_step: ir.end_step,
        room: ir.room,
        names: ir.names,
        places: ir.places,
        globals,
        strong_globals: ir.strong_globals,
        classes,
    })
}
