//! Actions of updates, which have the old number on top.
ghost use Rattle.std.specs.Prelude.{◌≡◌, ◌++◌, ◌∷◌, OnOk, IfOk};
ghost use Rattle.arc_code.specs.declared.instr.Op.TheVariants.{Bin};
ghost use Rattle.arc_code.specs.declared.instr.Instr.TheVariants.{Plain};
ghost use Rattle.arc_lower.specs.PlainActions.{plain_actions};
ghost use Rattle.arc_lower.specs.KnownKinds.{binary_kind};
ghost use Rattle.arc_lower.specs.Lowered.{old_actions, given_actions, narrow_actions, below_new};

use crate::expression::append;
use crate::known::{binary_kind, is_within};
use crate::variable::one_more;
use arc_ast::tree::{BinaryOperator, Kind, Moment};
use arc_code::instr::{Instr, Op};
use arc_ir::action::Action;
use arc_spec::event::NoMemory;

/// What an update gives, its operator, the kind in which it computes, and that of what it updates.
#[derive(Clone, Copy)]
pub(crate) struct Update {
    pub moment: Moment,
    pub operator: BinaryOperator,
    pub computed: Kind,
    pub kept: Kind,
}

/// How many operands lie below the new number, where `depth` lie below the old one.
pub(crate) fn below_new(moment: Moment, depth: usize) -> Result<usize, NoMemory>
    ensures { IfOk result (λ below. below ≡ below_new moment depth) }
{
    match moment {
        Moment::Before => one_more(depth),
        Moment::After => Ok(depth),
    }
}

/// Appends the action that keeps a copy of the old number, where the update gives that.
pub(crate) fn append_old(actions: &mut Vec<Action>, moment: Moment) -> Result<(), NoMemory>
    ensures { OnOk result (plain_actions actions.new.items ≡ plain_actions actions.old.items ++ old_actions moment) }
{
    match moment {
        Moment::Before => append(actions, Instr::Plain(Op::Get(0))),
        Moment::After => Ok(()),
    }
}

/// Appends the actions that make the new number of the old one and the right operand.
pub(crate) fn append_new(actions: &mut Vec<Action>, update: Update) -> Result<(), NoMemory>
    ensures { OnOk result (plain_actions actions.new.items ≡ plain_actions actions.old.items ++ (Plain (Bin update.operator update.computed) ∷ narrow_actions (binary_kind update.operator update.computed) update.kept)) }
{
    append(
        actions,
        Instr::Plain(Op::Bin(update.operator, update.computed)),
    )?;
    let known = binary_kind(update.operator, update.computed);
    append_narrow(actions, known, update.kept)
}

/// Appends the action that makes a number of a known kind one of another kind, where it may not be one.
pub(crate) fn append_narrow(
    actions: &mut Vec<Action>,
    known: Kind,
    kind: Kind,
) -> Result<(), NoMemory>
    ensures { OnOk result (plain_actions actions.new.items ≡ plain_actions actions.old.items ++ narrow_actions known kind) }
{
    if is_within(known, kind) {
        Ok(())
    } else {
        append(actions, Instr::Plain(Op::Narrow(kind)))
    }
}

/// Appends the action that leaves the old number alone, where the update gives that.
pub(crate) fn append_given(actions: &mut Vec<Action>, moment: Moment) -> Result<(), NoMemory>
    ensures { OnOk result (plain_actions actions.new.items ≡ plain_actions actions.old.items ++ given_actions moment) }
{
    match moment {
        Moment::Before => append(actions, Instr::Plain(Op::Pop)),
        Moment::After => Ok(()),
    }
}
