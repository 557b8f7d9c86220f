//! How many numbers, references, temporaries and variables that name objects the running function has before each
//! action, and the most.
ghost use Rattle.std.specs.Prelude.{◌≡◌, IfOk, OnOk, drop, get_or, reverse};
ghost use Rattle.arc_code.specs.Effects.{no_height};
ghost use Rattle.arc_checked.specs.Checked.{program_of};
ghost use Rattle.arc_lower.specs.PlainActions.{plain_action, plain_actions};
ghost use Rattle.arc_lower.specs.Heights.{height, between, highest, after_effect, effect_in, walk, next_walk, heights, greatest, raised};

use crate::call::{parameters_of, slots_of};
use crate::variable::add_operands;
use arc_checked::program::Checked;
use arc_code::effect::{Effect, Height};
use arc_code::instr::Instr;
use arc_ir::action::Action;
use arc_spec::event::NoMemory;
use std::alloc::Global;

/// The height of a function that has nothing yet.
pub(crate) fn no_height() -> Height
    ensures { result ≡ no_height }
{
    between(0, 0)
}

/// The height where a function begins that is passed so many numbers and so many objects.
pub(crate) fn passed(numbers: usize, objects: usize) -> Height
    ensures { result ≡ height numbers objects 0 0 }
{
    Height {
        numbers,
        names: objects,
        temporaries: 0,
        variables: 0,
    }
}

/// The height between two statements of a function with so many variables of each kind.
pub(crate) fn between(slots: usize, names: usize) -> Height
    ensures { result ≡ between slots names }
{
    Height {
        numbers: slots,
        names: 0,
        temporaries: 0,
        variables: names,
    }
}

/// The greater of each.
fn highest(first: Height, second: Height) -> Height
    ensures { result ≡ highest first second }
{
    Height {
        numbers: first.numbers.max(second.numbers),
        names: first.names.max(second.names),
        temporaries: first.temporaries.max(second.temporaries),
        variables: first.variables.max(second.variables),
    }
}

/// The height after an effect has taken what it takes, and what it gives is there. NoMemory: no stack
/// has so many.
fn after_effect(before: Height, effect: Effect) -> Result<Height, NoMemory>
    ensures { IfOk result (λ next. next ≡ after_effect before effect) }
{
    let numbers = before.numbers.saturating_sub(effect.numbers_taken);
    let names = before.names.saturating_sub(effect.names_taken);
    Ok(Height {
        numbers: add_operands(numbers, effect.numbers_given)?,
        names: add_operands(names, effect.names_given)?,
        temporaries: add_operands(before.temporaries, effect.temporaries)?,
        variables: add_operands(before.variables, effect.variables)?,
    })
}

/// Takes away the height at which the part begins that the last test may lead to; `base` where
/// there is no such part.
fn take_part(pending: &mut Vec<Height>, base: Height) -> Height
    ensures part { result ≡ get_or (reverse pending.old.items) 0 base }
    ensures others { reverse pending.new.items ≡ drop 1 (reverse pending.old.items) }
{
    pending.pop().unwrap_or(base)
}

/// What an action takes and gives; a call takes the variables of the function that hold numbers, and the references
/// of its parameters. NoMemory: no stack has so many.
fn effect_in(program: &Checked, action: &Action) -> Result<Effect, NoMemory>
    ensures { IfOk result (λ found. found ≡ effect_in (program_of program.now) (plain_action action.now)) }
{
    let Some(effect) = action.effect() else {
        return Err(NoMemory);
    };
    match action {
        Instr::Call(function, wanted) => Ok(Effect {
            numbers_taken: slots_of(program, *wanted, *function),
            names_taken: parameters_of(program, *wanted, *function),
            ..effect
        }),
        _ => Ok(effect),
    }
}

/// The height before the next action, in a function with the height `base` between two statements;
/// `pending` are the heights at which the parts begin that the tests before it may lead to.
/// NoMemory: no stack has so many numbers, references or places.
fn next_height(
    program: &Checked,
    base: Height,
    action: &Action,
    before: Height,
    pending: &mut Vec<Height>,
) -> Result<Height, NoMemory>
    ensures { IfOk result (λ next. walk next (reverse pending.new.items) ≡ next_walk (program_of program.now) base (plain_action action.now) (walk before (reverse pending.old.items))) }
{
    let effect = effect_in(program, action)?;
    match action {
        Instr::Jump(_) => Ok(Height {
            temporaries: before.temporaries,
            ..take_part(pending, base)
        }),
        Instr::JumpZero(_) => {
            let next = after_effect(before, effect)?;
            pending.push(next)?;
            Ok(next)
        }
        Instr::DropAll => Ok(Height {
            temporaries: 0,
            ..before
        }),
        Instr::Settle => Ok(Height {
            temporaries: before.temporaries.saturating_sub(1),
            ..before
        }),
        Instr::Return | Instr::Give => Ok(Height {
            variables: 0,
            ..base
        }),
        Instr::Plain(_) | Instr::PrintText(_) | Instr::Call(_, _) | Instr::EndStep => {
            after_effect(before, effect)
        }
        Instr::Send(_, _, _, _) | Instr::SendSuper(_, _, _, _, _) => after_effect(before, effect),
        Instr::SendTo(_, _, _, _) | Instr::SendToSuper(_, _, _, _, _) => {
            after_effect(before, effect)
        }
        Instr::StoreStrong(_) | Instr::StoreGlobal(_) => after_effect(before, effect),
        Instr::StoreField(_, _) | Instr::Empty(_) => after_effect(before, effect),
    }
}

/// The greatest height before one of these actions, of which the first is at the height `first`, or
/// `so_far`, where that is greater. NoMemory: no stack has so many numbers, references or places.
fn greatest(
    alloc: Global,
    program: &Checked,
    base: Height,
    first: Height,
    actions: &[Action],
    so_far: Height,
) -> Result<Height, NoMemory>
    ensures { IfOk result (λ most. most ≡ greatest (heights (program_of program.now) base first (plain_actions actions.now)) so_far) }
{
    let mut height = first;
    let mut pending = Vec::new(alloc);
    let mut most = so_far;
    for action in actions {
        most = highest(most, height);
        height = next_height(program, base, action, height, &mut pending)?;
    }
    Ok(most)
}

/// Raises the greatest height, where it is asked for, to that before one of these actions, of which the
/// first is at the height `first`. NoMemory: no stack has so many numbers, references or places.
pub(crate) fn raise(
    alloc: Global,
    program: &Checked,
    base: Height,
    first: Height,
    actions: &[Action],
    most: &mut Option<Height>,
) -> Result<(), NoMemory>
    ensures { OnOk result (most.new ≡ raised (heights (program_of program.now) base first (plain_actions actions.now)) most.old) }
{
    if let Some(so_far) = *most {
        *most = Some(greatest(alloc, program, base, first, actions, so_far)?);
    }
    Ok(())
}
