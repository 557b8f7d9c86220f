//! Jumps, which are written before it is known how many actions they go over.
ghost use Rattle.std.specs.Prelude.{◌≡◌, ◌-◌, ◌<◌, length, OnOk, IfOk, slice_set};
ghost use Rattle.arc_code.specs.declared.instr.Instr.TheVariants.{Jump, JumpZero};
ghost use Rattle.arc_ir.specs.declared.action.Target.TheVariants.{Skip};
ghost use Rattle.arc_lower.specs.PlainActions.{plain_action, plain_actions};

use arc_code::instr::Instr;
use arc_ir::action::{Action, Target};
use arc_spec::event::NoMemory;

/// Ends the second way of a test, of which no jump is right yet: that of the test, at `branch`, goes over the first way,
/// and the one after the first way, at `skip`, over the second, which begins at `other`. NoMemory: no jump goes over so
/// many actions.
pub(crate) fn join(
    actions: &mut Vec<Action>,
    branch: usize,
    skip: usize,
    other: usize,
) -> Result<(), NoMemory>
    requires branch { branch < length (plain_actions actions.old.items) }
    requires skip { skip < length (plain_actions actions.old.items) }
    ensures { OnOk result (plain_actions actions.new.items ≡ slice_set (slice_set (plain_actions actions.old.items) branch (JumpZero (Skip (skip - branch)))) skip (Jump (Skip (length (plain_actions actions.old.items) - other)))) }
{
    let past_first = distance(branch, skip)?;
    let past_second = distance(other, actions.len())?;
    replace(actions, branch, Instr::JumpZero(Target::Skip(past_first)));
    replace(actions, skip, Instr::Jump(Target::Skip(past_second)));
    Ok(())
}

/// How many actions there are from one number to another. NoMemory: no jump goes over so many.
pub(crate) fn distance(from: usize, to: usize) -> Result<u32, NoMemory>
    ensures { IfOk result (λ count. count ≡ to - from) }
{
    let Ok(count) = u32::try_from(to.saturating_sub(from)) else {
        return Err(NoMemory);
    };
    Ok(count)
}

/// Puts another action in the place of the one with this number.
pub(crate) fn replace(actions: &mut Vec<Action>, place: usize, action: Action)
    requires { place < length (plain_actions actions.old.items) }
    ensures { plain_actions actions.new.items ≡ slice_set (plain_actions actions.old.items) place (plain_action action) }
{
    actions[place] = action;
}
