//! From a call, whose values lie on the stack, to actions.
ghost use Rattle.std.specs.Prelude.{◌≡◌, ◌-◌, suc, [], ◌∷◌, ◌++◌, Some, None, option_map, if◌then◌else◌, OnOk, IfOk};
ghost use Rattle.arc_checked.specs.Checked.{program_of};
ghost use Rattle.arc_spec.specs.Classes.{lesser, same_gives};
ghost use Rattle.arc_lower.specs.private.Definitions.{definition_of, found_at};
ghost use Rattle.arc_lower.specs.PlainActions.{plain_actions};
ghost use Rattle.arc_lower.specs.Lowered.{number_of_nothing, number_of, slots_of, parameters_of, fit_actions, fit_object_actions, passing_actions, call_actions, all_empty_actions, keep_actions, leaving_action};

use crate::expression::append;
use crate::place::{append_all_empty, append_forgets, append_nils};
use crate::print::{append_keep, append_pops};
use crate::variable::{append_zeros, one_more};
use arc_checked::program::{Checked, CheckedFunction};
use arc_code::instr::Instr;
use arc_ir::action::Action;
use arc_spec::class::Gives;
use arc_spec::event::NoMemory;

/// The function, where it gives this.
fn where_giving<'p>(function: &'p CheckedFunction, wanted: Gives) -> Option<&'p CheckedFunction>
    ensures { option_map (λ found. definition_of found.now) result ≡ (if same_gives function.now.gives wanted then Some (definition_of function.now) else None) }
{
    match (function.gives, wanted) {
        (Gives::Number, Gives::Number) | (Gives::Object, Gives::Object) => Some(function),
        (Gives::Number, Gives::Object) | (Gives::Object, Gives::Number) => None,
    }
}

/// The function with this number, where it gives this.
fn function_giving<'p>(
    program: &'p Checked,
    wanted: Gives,
    function: usize,
) -> Option<&'p CheckedFunction>
    ensures { option_map (λ found. definition_of found.now) result ≡ found_at (program_of program.now) wanted function }
{
    match program.functions.get(function) {
        None => None,
        Some(found) => where_giving(found, wanted),
    }
}

/// How many variables the function with this number has that gives this; 0 where there is none.
pub(crate) fn slots_of(program: &Checked, wanted: Gives, function: usize) -> usize
    ensures { result ≡ slots_of (program_of program.now) wanted function }
{
    match function_giving(program, wanted, function) {
        Some(found) => found.slots,
        None => 0,
    }
}

/// How many objects the function with this number takes that gives this; none where there is no such function.
pub(crate) fn parameters_of(program: &Checked, wanted: Gives, function: usize) -> usize
    ensures { result ≡ parameters_of (program_of program.now) wanted function }
{
    match function_giving(program, wanted, function) {
        Some(found) => { object_parameters(found.parameters, found.names, found.gives, found.owns) }
        None => 0,
    }
}

/// How many places of objects a function has with so many variables that name objects; one that gives an object has one
/// more. NoMemory: no function has so many.
pub(crate) fn function_places(names: usize, gives: Gives) -> Result<usize, NoMemory>
    ensures { IfOk result (λ places. places ≡ (if same_gives gives Gives.Object then suc names else names)) }
{
    match gives {
        Gives::Number => Ok(names),
        Gives::Object => one_more(names),
    }
}

/// How many variables that name objects come before the parameters.
pub(crate) fn owned_by(owns: bool) -> usize
    ensures { result ≡ (if owns then 1 else 0) }
{
    if owns { 1 } else { 0 }
}

/// How many objects a function takes that has so many parameters and variables that name objects.
pub(crate) fn object_parameters(parameters: usize, names: usize, gives: Gives, owns: bool) -> usize
    ensures { result ≡ lesser parameters ((if same_gives gives Gives.Object then suc names else names) - (if owns then 1 else 0)) }
{
    match (gives, owns) {
        (Gives::Number, false) | (Gives::Object, true) => lesser(parameters, names),
        (Gives::Number, true) => lesser(parameters, names.saturating_sub(1)),
        (Gives::Object, false) => at_most_one_more(parameters, names),
    }
}

/// The lesser of the first number and one more than the second.
fn at_most_one_more(first: usize, second: usize) -> usize
    ensures { result ≡ lesser first (suc second) }
{
    if first <= second { first } else { second + 1 }
}

/// The lesser of two numbers.
pub(crate) fn lesser(first: usize, second: usize) -> usize
    ensures { result ≡ lesser first second }
{
    if first < second { first } else { second }
}

/// The number by which a function is called that gives this; one that there isn't has a number after the last.
pub(crate) fn number_of(program: &Checked, wanted: Gives, function: usize) -> usize
    ensures { result ≡ number_of (program_of program.now) wanted function }
{
    match function_giving(program, wanted, function) {
        Some(_) => function,
        None => number_of_nothing(program, wanted),
    }
}

/// The number of the function that does nothing, and gives this.
#[tactic(auto, using(crate::proofs::ActionLists::functions_length, std::proofs::lemmas::Grind::common_steps))]
fn number_of_nothing(program: &Checked, wanted: Gives) -> usize
    ensures { result ≡ number_of_nothing (program_of program.now) wanted }
{
    let count = program.functions.len();
    match wanted {
        Gives::Number => count,
        Gives::Object => count + 1,
    }
}

/// Appends the actions that make the `count` numbers on top the variables of a function.
fn append_fit(actions: &mut Vec<Action>, count: usize, slots: usize) -> Result<(), NoMemory>
    ensures { OnOk result (plain_actions actions.new.items ≡ plain_actions actions.old.items ++ fit_actions count slots) }
{
    append_pops(actions, count.saturating_sub(slots))?;
    append_zeros(actions, slots.saturating_sub(count))
}

/// Appends the actions that make the `objects` last references those of the parameters of a function.
fn append_fit_objects(
    actions: &mut Vec<Action>,
    objects: usize,
    parameters: usize,
) -> Result<(), NoMemory>
    ensures { OnOk result (plain_actions actions.new.items ≡ plain_actions actions.old.items ++ fit_object_actions objects parameters) }
{
    append_forgets(actions, objects.saturating_sub(parameters))?;
    append_nils(actions, parameters.saturating_sub(objects))
}

/// Appends the actions that make the `count` numbers on top and the `objects` last references what a
/// function takes.
pub(crate) fn append_passing(
    actions: &mut Vec<Action>,
    program: &Checked,
    wanted: Gives,
    function: usize,
    count: usize,
    objects: usize,
) -> Result<(), NoMemory>
    ensures { OnOk result (plain_actions actions.new.items ≡ plain_actions actions.old.items ++ passing_actions (program_of program.now) wanted function count objects) }
{
    append_fit(actions, count, slots_of(program, wanted, function))?;
    append_fit_objects(actions, objects, parameters_of(program, wanted, function))
}

/// Appends the actions that call a function with the `count` numbers on top and the `objects` last
/// references.
pub(crate) fn append_call(
    actions: &mut Vec<Action>,
    program: &Checked,
    wanted: Gives,
    function: usize,
    count: usize,
    objects: usize,
) -> Result<(), NoMemory>
    ensures { OnOk result (plain_actions actions.new.items ≡ plain_actions actions.old.items ++ call_actions (program_of program.now) wanted function count objects) }
{
    append_passing(actions, program, wanted, function, count, objects)?;
    let number = number_of(program, wanted, function);
    append(actions, Instr::Call(number, wanted))
}

/// Appends the actions that leave a function with the number on top.
pub(crate) fn append_leave(
    actions: &mut Vec<Action>,
    slots: usize,
    names: usize,
    gives: Gives,
) -> Result<(), NoMemory>
    ensures { OnOk result (plain_actions actions.new.items ≡ plain_actions actions.old.items ++ (all_empty_actions (if same_gives gives Gives.Object then suc names else names) 0 names ++ (keep_actions slots ++ leaving_action gives ∷ []))) }
{
    append_all_empty(actions, function_places(names, gives)?, 0, names)?;
    append_keep(actions, slots)?;
    match gives {
        Gives::Number => append(actions, Instr::Return),
        Gives::Object => append(actions, Instr::Give),
    }
}
