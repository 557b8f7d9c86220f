//! From a program to its actions, and the greatest height before one of them, where it is asked for.
ghost use Rattle.std.specs.Prelude.{◌≡◌, ◌+◌, ◌++◌, [], ◌∷◌, length, if◌then◌else◌, IfOk, OnOk};
ghost use Rattle.arc_spec.specs.Classes.{classes_of};
ghost use Rattle.arc_spec.specs.Meaning.{nothing_giving};
ghost use Rattle.arc_checked.specs.Checked.{program_of};
ghost use Rattle.arc_lower.specs.private.LoweredFunction.{function_of};
ghost use Rattle.arc_lower.specs.PlainActions.{plain_actions};
ghost use Rattle.arc_lower.specs.Lowered.{own_actions, opening_actions, body_actions, entry_of, function_actions, functions_actions, entries_from, start_actions, end_step_of, all_functions, lowered, entries_of, classes_linked};
ghost use Rattle.arc_lower.specs.Heights.{raised, start_heights, function_heights, functions_heights, lowered_heights};

use crate::call::{append_call, append_leave, function_places, object_parameters, owned_by};
use crate::expression::append;
use crate::frame::Body;
use crate::height::{between, no_height, passed, raise};
use crate::place::{append_declares, append_own, append_takes};
use crate::statement::append_commands;
use crate::stub::append_classes;
use crate::variable::one_more;
use arc_checked::program::{Checked, Command};
use arc_code::effect::Height;
use arc_code::instr::{Instr, Op};
use arc_family::owned::Owned;
use arc_ir::action::{Action, Target};
use arc_spec::class::{Class, Gives};
use arc_spec::event::NoMemory;
use std::alloc::Global;
use std::mem;
use std::mem::drop;

/// The actions that a program becomes, without the room that they need, for callers that list or count them alone. NoMemory: memory
/// was refused, or a function has more places than can be numbered.
pub fn list_actions(alloc: Global, program: &Owned) -> Result<Vec<Action>, NoMemory>
    ensures { IfOk result (λ actions. plain_actions actions.items ≡ lowered (program_of program.now.program.now)) }
{
    let mut listed = list(alloc, program.program, &mut None)?;
    let actions = mem::replace(&mut listed.actions, Vec::new(alloc));
    drop(listed);
    Ok(actions)
}

/// What a program becomes: its actions, where its functions are entered and where the ends of objects go on, and its
/// classes, whose methods and deallocs run their stubs.
#[derive(Drop)]
pub(crate) struct Listed {
    pub actions: Vec<Action>,
    pub entries: Vec<usize>,
    pub end_step: usize,
    pub classes: Vec<Class>,
}

/// Lists what a program becomes, and raises the greatest height to that of its actions.
pub(crate) fn list(
    alloc: Global,
    program: &Checked,
    most: &mut Option<Height>,
) -> Result<Listed, NoMemory>
    ensures actions { IfOk result (λ listed. plain_actions listed.actions.items ≡ lowered (program_of program.now)) }
    ensures entries { IfOk result (λ listed. listed.entries.items ≡ entries_of (program_of program.now)) }
    ensures end_step { IfOk result (λ listed. listed.end_step ≡ end_step_of (program_of program.now)) }
    ensures classes { IfOk result (λ listed. classes_of listed.classes.items ≡ classes_linked (program_of program.now)) }
    ensures most { OnOk result (most.new ≡ raised (lowered_heights (program_of program.now)) most.old) }
{
    let mut actions = Vec::new(alloc);
    let end_step = append_start(alloc, &mut actions, program, most)?;
    let mut entries = Vec::new(alloc);
    append_functions(alloc, &mut actions, &mut entries, program, most)?;
    let classes = append_classes(alloc, &mut actions, program, &entries, most)?;
    Ok(Listed {
        actions,
        entries,
        end_step,
        classes,
    })
}

/// Appends the actions that call `main`, and the one at which the ends of objects go on. Gives the
/// number of that one.
fn append_call_of_main(actions: &mut Vec<Action>, program: &Checked) -> Result<usize, NoMemory>
    ensures actions { OnOk result (plain_actions actions.new.items ≡ plain_actions actions.old.items ++ start_actions (program_of program.now)) }
    ensures end_step { IfOk result (λ place. place ≡ length (plain_actions actions.old.items) + end_step_of (program_of program.now)) }
{
    append_call(actions, program, Gives::Number, program.main, 0, 0)?;
    append(actions, Instr::Return)?;
    let end_step = actions.len();
    append(actions, Instr::EndStep)?;
    Ok(end_step)
}

/// Appends where the program begins, and raises the greatest height to its. Gives the number of the
/// action at which the ends of objects go on.
#[tactic(auto, using(crate::proofs::ActionLists::slice_after, std::proofs::lemmas::Grind::common_steps))]
fn append_start(
    alloc: Global,
    actions: &mut Vec<Action>,
    program: &Checked,
    most: &mut Option<Height>,
) -> Result<usize, NoMemory>
    ensures actions { OnOk result (plain_actions actions.new.items ≡ plain_actions actions.old.items ++ start_actions (program_of program.now)) }
    ensures end_step { IfOk result (λ place. place ≡ length (plain_actions actions.old.items) + end_step_of (program_of program.now)) }
    ensures most { OnOk result (most.new ≡ raised (start_heights (program_of program.now)) most.old) }
{
    let begin = actions.len();
    let end_step = append_call_of_main(actions, program)?;
    let base = no_height();
    raise(alloc, program, base, base, &actions[begin..], most)?;
    Ok(end_step)
}

/// Appends the actions of all functions, and where each one is entered. Raises the greatest height
/// to theirs.
#[tactic(auto, using(crate::proofs::ActionLists::raised_append, crate::proofs::ActionLists::raised_nothing, std::proofs::lemmas::Grind::common_steps))]
fn append_functions(
    alloc: Global,
    actions: &mut Vec<Action>,
    entries: &mut Vec<usize>,
    program: &Checked,
    most: &mut Option<Height>,
) -> Result<(), NoMemory>
    ensures actions { OnOk result (plain_actions actions.new.items ≡ plain_actions actions.old.items ++ functions_actions (program_of program.now) (length (plain_actions actions.old.items)) (all_functions (program_of program.now))) }
    ensures entries { OnOk result (entries.new.items ≡ entries.old.items ++ entries_from (program_of program.now) (length (plain_actions actions.old.items)) (all_functions (program_of program.now))) }
    ensures most { OnOk result (most.new ≡ raised (functions_heights (program_of program.now) (length (plain_actions actions.old.items)) (all_functions (program_of program.now))) most.old) }
{
    for function in &program.functions {
        let function = Definition {
            slots: function.slots,
            names: function.names,
            parameters: function.parameters,
            gives: function.gives,
            owns: function.owns,
            body: &function.body,
        };
        append_function(alloc, actions, entries, program, function, most)?;
    }
    let number = nothing_giving(Gives::Number);
    append_function(alloc, actions, entries, program, number, most)?;
    let object = nothing_giving(Gives::Object);
    append_function(alloc, actions, entries, program, object, most)?;
    Ok(())
}

/// A function: how many variables it has that hold numbers and that name objects, how many objects it is passed, what it
/// gives, whether it owns `self`, and what it does.
#[derive(Clone, Copy)]
pub(crate) struct Definition<'p> {
    pub slots: usize,
    pub names: usize,
    pub parameters: usize,
    pub gives: Gives,
    pub owns: bool,
    pub body: &'p [Command],
}

/// A function that does nothing, and gives 0 or nil.
fn nothing_giving<'p>(gives: Gives) -> Definition<'p>
    ensures { function_of result ≡ nothing_giving gives }
{
    Definition {
        slots: 0,
        names: 0,
        parameters: 0,
        gives,
        owns: false,
        body: &[],
    }
}

/// Appends the actions of a function, and where it is entered. Raises the greatest height to theirs.
fn append_function(
    alloc: Global,
    actions: &mut Vec<Action>,
    entries: &mut Vec<usize>,
    program: &Checked,
    function: Definition<'_>,
    most: &mut Option<Height>,
) -> Result<(), NoMemory>
    ensures actions { OnOk result (plain_actions actions.new.items ≡ plain_actions actions.old.items ++ function_actions (program_of program.now) (length (plain_actions actions.old.items)) (function_of function.entry)) }
    ensures entries { OnOk result (entries.new.items ≡ entries.old.items ++ entry_of (length (plain_actions actions.old.items)) (function_of function.entry) ∷ []) }
    ensures most { OnOk result (most.new ≡ raised (function_heights (program_of program.now) (length (plain_actions actions.old.items)) (function_of function.entry)) most.old) }
{
    let exit = actions.len();
    let names = function_places(function.names, function.gives)?;
    append_leave(actions, function.slots, function.names, function.gives)?;
    let base = between(function.slots, names);
    let left = between(one_more(function.slots)?, names);
    raise(alloc, program, base, left, &actions[exit..], most)?;
    let entry = actions.len();
    entries.push(entry)?;
    append_body(alloc, actions, program, exit, function)?;
    let given = object_parameters(
        function.parameters,
        function.names,
        function.gives,
        function.owns,
    );
    let entered = passed(function.slots, given);
    raise(alloc, program, base, entered, &actions[entry..], most)?;
    Ok(())
}

/// Appends what a function begins with: its places of objects, of which the first take `self`, where it owns that, and
/// what it is given.
fn append_opening(actions: &mut Vec<Action>, function: Definition<'_>) -> Result<(), NoMemory>
    ensures { OnOk result (plain_actions actions.new.items ≡ plain_actions actions.old.items ++ opening_actions (function_of function.entry)) }
{
    let names = function_places(function.names, function.gives)?;
    append_declares(actions, names)?;
    let given = object_parameters(
        function.parameters,
        function.names,
        function.gives,
        function.owns,
    );
    append_takes(actions, owned_by(function.owns), given)?;
    append_owned(actions, function.owns, names)
}

/// Appends what takes `self`, where it is owned.
fn append_owned(actions: &mut Vec<Action>, owns: bool, names: usize) -> Result<(), NoMemory>
    ensures { OnOk result (plain_actions actions.new.items ≡ plain_actions actions.old.items ++ (if owns then own_actions names else [])) }
{
    if owns {
        append_own(actions, names)
    } else {
        Ok(())
    }
}

/// Appends what a function does from its entry on, which is left at this action.
fn append_body(
    alloc: Global,
    actions: &mut Vec<Action>,
    program: &Checked,
    exit: usize,
    function: Definition<'_>,
) -> Result<(), NoMemory>
    ensures { OnOk result (plain_actions actions.new.items ≡ plain_actions actions.old.items ++ body_actions (program_of program.now) exit (length (plain_actions actions.old.items)) (function_of function.entry)) }
{
    let names = function_places(function.names, function.gives)?;
    let body = Body {
        slots: function.slots,
        names,
        exit,
        turn: None,
    };
    append_opening(actions, function)?;
    append_commands(
        alloc,
        actions,
        program,
        body,
        &mut Vec::new(alloc),
        function.body,
    )?;
    append(actions, Instr::Plain(Op::Num(0)))?;
    append(actions, Instr::Jump(Target::At(exit)))
}
