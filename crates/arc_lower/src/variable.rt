//! Actions for variables. Those of a function lie on the stack below the operands.
ghost use Rattle.std.specs.Prelude.{◌≡◌, ◌++◌, ◌+◌, suc, OnOk, IfOk};
ghost use Rattle.arc_spec.specs.declared.location.Location.TheVariants.{Local};
ghost use Rattle.arc_lower.specs.PlainActions.{plain_actions};
ghost use Rattle.arc_lower.specs.Lowered.{get_actions, set_actions, zero_actions};

use crate::expression::append;
use arc_code::instr::{Instr, Op};
use arc_ir::action::Action;
use arc_spec::event::NoMemory;
use arc_spec::location::Location;

/// A number of operands or temporaries, and some more. NoMemory: no stack has so many.
pub(crate) fn add_operands(depth: usize, more: usize) -> Result<usize, NoMemory>
    ensures { IfOk result (λ sum. sum ≡ depth + more) }
{
    match depth.checked_add(more) {
        Some(sum) => Ok(sum),
        None => Err(NoMemory),
    }
}

/// One operand or temporary more. NoMemory: no stack has so many.
pub(crate) fn one_more(depth: usize) -> Result<usize, NoMemory>
    ensures { IfOk result (λ sum. sum ≡ suc depth) }
{
    add_operands(depth, 1)
}

/// Appends the action that puts the number of a variable on the stack, above `depth` operands.
#[inline(always)]
pub(crate) fn append_get(
    actions: &mut Vec<Action>,
    slots: usize,
    depth: usize,
    location: Location,
) -> Result<(), NoMemory>
    ensures { OnOk result (plain_actions actions.new.items ≡ plain_actions actions.old.items ++ get_actions slots depth location) }
{
    match location {
        Location::Global(number) => append(actions, Instr::Plain(Op::GetGlobal(number))),
        Location::Local(index) => append_get_local(actions, slots, depth, index),
    }
}

/// The same of a variable of the function.
#[inline(always)]
fn append_get_local(
    actions: &mut Vec<Action>,
    slots: usize,
    depth: usize,
    index: usize,
) -> Result<(), NoMemory>
    ensures { OnOk result (plain_actions actions.new.items ≡ plain_actions actions.old.items ++ get_actions slots depth (Local index)) }
{
    if index < slots {
        let below = add_operands(depth, slots - 1 - index)?;
        append(actions, Instr::Plain(Op::Get(below)))
    } else {
        append(actions, Instr::Plain(Op::Num(0)))
    }
}

/// Appends the actions that put a copy of the top number, below which `depth` operands lie, in a
/// variable's place.
#[inline(always)]
pub(crate) fn append_set(
    actions: &mut Vec<Action>,
    slots: usize,
    depth: usize,
    location: Location,
) -> Result<(), NoMemory>
    ensures { OnOk result (plain_actions actions.new.items ≡ plain_actions actions.old.items ++ set_actions slots depth location) }
{
    match location {
        Location::Global(number) => {
            append(actions, Instr::Plain(Op::Get(0)))?;
            append(actions, Instr::Plain(Op::SetGlobal(number)))
        }
        Location::Local(index) => append_set_local(actions, slots, depth, index),
    }
}

/// The same of a variable of the function.
#[inline(always)]
fn append_set_local(
    actions: &mut Vec<Action>,
    slots: usize,
    depth: usize,
    index: usize,
) -> Result<(), NoMemory>
    ensures { OnOk result (plain_actions actions.new.items ≡ plain_actions actions.old.items ++ set_actions slots depth (Local index)) }
{
    if index < slots {
        let operands = one_more(depth)?;
        let below = add_operands(operands, slots - 1 - index)?;
        append(actions, Instr::Plain(Op::Get(0)))?;
        append(actions, Instr::Plain(Op::Set(below)))
    } else {
        Ok(())
    }
}

/// Appends actions that put 0 on the stack `count` times.
#[tactic(auto, using(crate::proofs::ActionLists::zeros_more, std::proofs::lemmas::Grind::common_steps))]
pub(crate) fn append_zeros(actions: &mut Vec<Action>, count: usize) -> Result<(), NoMemory>
    ensures { OnOk result (plain_actions actions.new.items ≡ plain_actions actions.old.items ++ zero_actions count) }
{
    for _number in 0..count {
        append(actions, Instr::Plain(Op::Num(0)))?;
    }
    Ok(())
}
