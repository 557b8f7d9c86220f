//! Actions for variables that name objects, for references and for temporaries.
ghost use Rattle.std.specs.Prelude.{◌≡◌, ◌++◌, [], ◌∷◌, OnOk, if◌then◌else◌};
ghost use Rattle.std.specs.List.{list_any};
ghost use Rattle.arc_code.specs.declared.instr.Op.TheVariants.{Forget};
ghost use Rattle.arc_code.specs.declared.instr.Instr.TheVariants.{Plain, DropAll};
ghost use Rattle.arc_spec.specs.declared.location.Location.TheVariants.{Local};
ghost use Rattle.arc_lower.specs.PlainActions.{plain_action, plain_actions};
ghost use Rattle.arc_lower.specs.Lowered.{declare_actions, forget_actions, nil_actions, take_actions, own_actions, read_actions, store_actions, action_takes, empty_actions, all_empty_actions};

use crate::expression::append;
use crate::variable::add_operands;
use arc_code::instr::{Instr, Op};
use arc_ir::action::Action;
use arc_spec::class::Gives;
use arc_spec::event::NoMemory;
use arc_spec::location::Location;

/// Appends actions that declare `count` variables that name objects.
#[tactic(auto, using(crate::proofs::ActionLists::declares_more, std::proofs::lemmas::Grind::common_steps))]
pub(crate) fn append_declares(actions: &mut Vec<Action>, count: usize) -> Result<(), NoMemory>
    ensures { OnOk result (plain_actions actions.new.items ≡ plain_actions actions.old.items ++ declare_actions count) }
{
    for _variable in 0..count {
        append(actions, Instr::Plain(Op::Declare))?;
    }
    Ok(())
}

/// Appends actions that take `count` references.
#[tactic(auto, using(crate::proofs::ActionLists::forgets_more, std::proofs::lemmas::Grind::common_steps))]
pub(crate) fn append_forgets(actions: &mut Vec<Action>, count: usize) -> Result<(), NoMemory>
    ensures { OnOk result (plain_actions actions.new.items ≡ plain_actions actions.old.items ++ forget_actions count) }
{
    for _reference in 0..count {
        append(actions, Instr::Plain(Op::Forget))?;
    }
    Ok(())
}

/// Appends actions that give `count` references to nil.
#[tactic(auto, using(crate::proofs::ActionLists::nils_more, std::proofs::lemmas::Grind::common_steps))]
pub(crate) fn append_nils(actions: &mut Vec<Action>, count: usize) -> Result<(), NoMemory>
    ensures { OnOk result (plain_actions actions.new.items ≡ plain_actions actions.old.items ++ nil_actions count) }
{
    for _reference in 0..count {
        append(actions, Instr::Plain(Op::Nil))?;
    }
    Ok(())
}

/// Appends the actions by which `count` variables from `first` on take what the last references name, which are taken.
#[tactic(auto, using(crate::proofs::ActionLists::takes_more, std::proofs::lemmas::Grind::common_steps))]
pub(crate) fn append_takes(
    actions: &mut Vec<Action>,
    first: usize,
    count: usize,
) -> Result<(), NoMemory>
    ensures { OnOk result (plain_actions actions.new.items ≡ plain_actions actions.old.items ++ take_actions first count) }
{
    for passed in 0..count {
        let variable = add_operands(first, count - 1 - passed)?;
        append(actions, Instr::StoreStrong(variable))?;
        append(actions, Instr::Plain(Op::Forget))?;
    }
    Ok(())
}

/// Appends the actions by which the first of `names` variables takes `self`.
pub(crate) fn append_own(actions: &mut Vec<Action>, names: usize) -> Result<(), NoMemory>
    ensures { OnOk result (plain_actions actions.new.items ≡ plain_actions actions.old.items ++ own_actions names) }
{
    if names == 0 {
        return Ok(());
    }
    append(actions, Instr::Plain(Op::ReadSelf))?;
    append(actions, Instr::StoreStrong(0))?;
    append(actions, Instr::Plain(Op::Forget))?;
    append(actions, Instr::DropAll)
}

/// Appends the actions that name what a variable names, which a temporary takes.
pub(crate) fn append_read(
    actions: &mut Vec<Action>,
    names: usize,
    location: Location,
) -> Result<(), NoMemory>
    ensures { OnOk result (plain_actions actions.new.items ≡ plain_actions actions.old.items ++ read_actions names location) }
{
    match location {
        Location::Global(number) => append(actions, Instr::Plain(Op::ReadGlobal(number))),
        Location::Local(index) => append_read_local(actions, names, index),
    }
}

/// The same of a variable of the function.
fn append_read_local(actions: &mut Vec<Action>, names: usize, index: usize) -> Result<(), NoMemory>
    ensures { OnOk result (plain_actions actions.new.items ≡ plain_actions actions.old.items ++ read_actions names (Local index)) }
{
    if index < names {
        append(actions, Instr::Plain(Op::ReadRef(index)))
    } else {
        append(actions, Instr::Plain(Op::Nil))?;
        append(actions, Instr::Plain(Op::Hold))
    }
}

/// Appends the action by which a variable takes what the last reference names.
pub(crate) fn append_store(
    actions: &mut Vec<Action>,
    names: usize,
    location: Location,
) -> Result<(), NoMemory>
    ensures { OnOk result (plain_actions actions.new.items ≡ plain_actions actions.old.items ++ store_actions names location) }
{
    match location {
        Location::Global(number) => append(actions, Instr::StoreGlobal(number)),
        Location::Local(index) => append_store_local(actions, names, index),
    }
}

/// The same of a variable of the function.
fn append_store_local(actions: &mut Vec<Action>, names: usize, index: usize) -> Result<(), NoMemory>
    ensures { OnOk result (plain_actions actions.new.items ≡ plain_actions actions.old.items ++ store_actions names (Local index)) }
{
    if index < names {
        append(actions, Instr::StoreStrong(index))
    } else {
        Ok(())
    }
}

/// Whether an action has a temporary take an object.
fn takes(action: &Action) -> bool
    ensures { result ≡ action_takes (plain_action action.now) }
{
    match action {
        Instr::Plain(operation) => operation.effect().temporaries > 0,
        Instr::Call(_, gives)
        | Instr::Send(_, _, _, gives)
        | Instr::SendSuper(_, _, _, _, gives)
        | Instr::SendTo(_, _, _, gives)
        | Instr::SendToSuper(_, _, _, _, gives) => *gives == Gives::Object,
        Instr::PrintText(_) | Instr::Jump(_) | Instr::JumpZero(_) => false,
        Instr::StoreStrong(_) | Instr::StoreGlobal(_) => false,
        Instr::StoreField(_, _) | Instr::Empty(_) => false,
        Instr::DropAll | Instr::Settle | Instr::Give | Instr::Return | Instr::EndStep => false,
    }
}

/// Whether one of these actions has a temporary take an object.
pub(crate) fn take_some(actions: &[Action]) -> bool
    ensures { result ≡ list_any action_takes (plain_actions actions.now) }
{
    for action in actions {
        if takes(action) {
            return true;
        }
    }
    false
}

/// Appends the action that drops the temporaries, where some were taken.
pub(crate) fn append_drops(actions: &mut Vec<Action>, taken: bool) -> Result<(), NoMemory>
    ensures { OnOk result (plain_actions actions.new.items ≡ plain_actions actions.old.items ++ (if taken then DropAll ∷ [] else [])) }
{
    if taken {
        append(actions, Instr::DropAll)
    } else {
        Ok(())
    }
}

/// Appends the actions by which the last reference isn't used any more, and the temporaries are
/// dropped, where some were taken.
pub(crate) fn append_forget(actions: &mut Vec<Action>, taken: bool) -> Result<(), NoMemory>
    ensures { OnOk result (plain_actions actions.new.items ≡ plain_actions actions.old.items ++ (Plain Forget ∷ [] ++ (if taken then DropAll ∷ [] else []))) }
{
    append(actions, Instr::Plain(Op::Forget))?;
    append_drops(actions, taken)
}

/// Appends the action that empties a variable, where there is one with this number.
fn append_empty(actions: &mut Vec<Action>, names: usize, index: usize) -> Result<(), NoMemory>
    ensures { OnOk result (plain_actions actions.new.items ≡ plain_actions actions.old.items ++ empty_actions names index) }
{
    if index < names {
        append(actions, Instr::Empty(index))
    } else {
        Ok(())
    }
}

/// Appends the actions that empty `count` variables from `first` on, the last one first.
#[tactic(auto, using(crate::proofs::ActionLists::emptied_more, std::proofs::lemmas::Grind::common_steps))]
pub(crate) fn append_all_empty(
    actions: &mut Vec<Action>,
    names: usize,
    first: usize,
    count: usize,
) -> Result<(), NoMemory>
    ensures { OnOk result (plain_actions actions.new.items ≡ plain_actions actions.old.items ++ all_empty_actions names first count) }
{
    for passed in 0..count {
        let index = add_operands(first, count - 1 - passed)?;
        append_empty(actions, names, index)?;
    }
    Ok(())
}
