//! From classes to the stubs of their methods and deallocs, where messages and ends of objects go.
ghost use Rattle.std.specs.Prelude.{◌≡◌, ◌++◌, length, slice_index_or, OnOk, IfOk};
ghost use Rattle.arc_spec.specs.Classes.{class_of, classes_of};
ghost use Rattle.arc_checked.specs.Checked.{program_of};
ghost use Rattle.arc_code.specs.Effects.{passes};
ghost use Rattle.arc_lower.specs.PlainActions.{plain_actions};
ghost use Rattle.arc_lower.specs.Heights.{raised, stub_heights, methods_heights, dealloc_heights, class_heights, classes_heights};
ghost use Rattle.arc_lower.specs.Lowered.{stub_actions, methods_actions, dealloc_actions, class_actions, classes_actions, linked_methods, linked_dealloc, linked_class, linked_classes};

use crate::call::{append_passing, number_of};
use crate::expression::append;
use crate::height::{no_height, passed, raise};
use crate::variable::one_more;
use arc_ast::tree::Sign;
use arc_checked::program::Checked;
use arc_code::effect::Height;
use arc_code::instr::Instr;
use arc_ir::action::{Action, Target};
use arc_spec::class::{Class, Gives, Method};
use arc_spec::event::NoMemory;
use std::alloc::Global;

/// Where the function with this number is entered; 0 where there is none.
fn entry_of(entries: &[usize], number: usize) -> usize
    ensures { result ≡ slice_index_or entries.now number 0 }
{
    match entries.get(number) {
        Some(entry) => *entry,
        None => 0,
    }
}

/// How many numbers a message of this sign passes that has so many arguments. NoMemory: no stack
/// has so many.
pub(crate) fn numbers_passed(sign: Sign, takes: usize) -> Result<usize, NoMemory>
    ensures { IfOk result (λ count. count ≡ passes sign takes) }
{
    match sign {
        Sign::Class => one_more(takes),
        Sign::Instance => Ok(takes),
    }
}

/// Appends the actions that make the `count` numbers on top and the `objects` last references what a
/// function takes, and go on where that is entered.
pub(crate) fn append_jump_to(
    actions: &mut Vec<Action>,
    program: &Checked,
    entries: &[usize],
    wanted: Gives,
    count: usize,
    objects: usize,
    function: usize,
) -> Result<(), NoMemory>
    ensures { OnOk result (plain_actions actions.new.items ≡ plain_actions actions.old.items ++ stub_actions (program_of program.now) entries.now wanted count objects function) }
{
    append_passing(actions, program, wanted, function, count, objects)?;
    let entry = entry_of(entries, number_of(program, wanted, function));
    append(actions, Instr::Jump(Target::At(entry)))
}

/// Appends the stub of a function that is passed `count` numbers and `objects` objects, and raises the
/// greatest height to its.
#[tactic(auto, using(crate::proofs::ActionLists::slice_after, std::proofs::lemmas::Grind::common_steps))]
fn append_stub(
    alloc: Global,
    actions: &mut Vec<Action>,
    program: &Checked,
    entries: &[usize],
    wanted: Gives,
    count: usize,
    objects: usize,
    function: usize,
    most: &mut Option<Height>,
) -> Result<(), NoMemory>
    ensures actions { OnOk result (plain_actions actions.new.items ≡ plain_actions actions.old.items ++ stub_actions (program_of program.now) entries.now wanted count objects function) }
    ensures most { OnOk result (most.new ≡ raised (stub_heights (program_of program.now) entries.now wanted count objects function) most.old) }
{
    let begin = actions.len();
    append_jump_to(actions, program, entries, wanted, count, objects, function)?;
    let first = passed(count, objects);
    raise(alloc, program, no_height(), first, &actions[begin..], most)?;
    Ok(())
}

/// Appends the stubs of methods, and raises the greatest height to theirs. Gives the methods, each
/// of which runs its stub.
#[tactic(auto, using(crate::proofs::ActionLists::raised_append, crate::proofs::ActionLists::raised_nothing, std::proofs::lemmas::Grind::common_steps))]
fn append_methods(
    alloc: Global,
    actions: &mut Vec<Action>,
    program: &Checked,
    entries: &[usize],
    methods: &[Method],
    most: &mut Option<Height>,
) -> Result<Vec<Method>, NoMemory>
    ensures actions { OnOk result (plain_actions actions.new.items ≡ plain_actions actions.old.items ++ methods_actions (program_of program.now) entries.now methods.now) }
    ensures linked { IfOk result (λ linked. linked.items ≡ linked_methods (program_of program.now) entries.now (length (plain_actions actions.old.items)) methods.now) }
    ensures most { OnOk result (most.new ≡ raised (methods_heights (program_of program.now) entries.now methods.now) most.old) }
{
    let mut linked = Vec::new(alloc);
    for method in methods {
        linked.push(Method {
            sign: method.sign,
            selector: method.selector,
            takes: method.takes,
            objects: method.objects,
            gives: method.gives,
            runs: actions.len(),
        })?;
        let count = numbers_passed(method.sign, method.takes)?;
        append_stub(
            alloc,
            actions,
            program,
            entries,
            method.gives,
            count,
            method.objects,
            method.runs,
            most,
        )?;
    }
    Ok(linked)
}

/// Appends the stub of a dealloc, where there is one, and raises the greatest height to its. Gives
/// its place.
#[tactic(auto, using(crate::proofs::ActionLists::raised_nothing))]
fn append_dealloc(
    alloc: Global,
    actions: &mut Vec<Action>,
    program: &Checked,
    entries: &[usize],
    dealloc: Option<usize>,
    most: &mut Option<Height>,
) -> Result<Option<usize>, NoMemory>
    ensures actions { OnOk result (plain_actions actions.new.items ≡ plain_actions actions.old.items ++ dealloc_actions (program_of program.now) entries.now dealloc) }
    ensures linked { IfOk result (λ linked. linked ≡ linked_dealloc (length (plain_actions actions.old.items)) dealloc) }
    ensures most { OnOk result (most.new ≡ raised (dealloc_heights (program_of program.now) entries.now dealloc) most.old) }
{
    let Some(function) = dealloc else {
        return Ok(None);
    };
    let place = actions.len();
    append_stub(
        alloc,
        actions,
        program,
        entries,
        Gives::Number,
        0,
        0,
        function,
        most,
    )?;
    Ok(Some(place))
}

/// Appends the stubs of a class, and raises the greatest height to theirs. Gives the class, whose dealloc and methods run their stubs.
#[tactic(auto, using(crate::proofs::ActionLists::raised_append, std::proofs::lemmas::Grind::common_steps))]
fn append_class(
    alloc: Global,
    actions: &mut Vec<Action>,
    program: &Checked,
    entries: &[usize],
    class: &Class,
    most: &mut Option<Height>,
) -> Result<Class, NoMemory>
    ensures actions { OnOk result (plain_actions actions.new.items ≡ plain_actions actions.old.items ++ class_actions (program_of program.now) entries.now (class_of class.now)) }
    ensures linked { IfOk result (λ linked. class_of linked ≡ linked_class (program_of program.now) entries.now (length (plain_actions actions.old.items)) (class_of class.now)) }
    ensures most { OnOk result (most.new ≡ raised (class_heights (program_of program.now) entries.now (class_of class.now)) most.old) }
{
    let dealloc = append_dealloc(alloc, actions, program, entries, class.dealloc, most)?;
    let methods = append_methods(alloc, actions, program, entries, &class.methods, most)?;
    Ok(Class {
        superclass: class.superclass,
        methods,
        dealloc,
        fields: class.fields,
    })
}

/// Appends the stubs of the program's classes, and raises the greatest height to theirs. Gives the
/// classes, whose methods and deallocs run their stubs.
#[tactic(auto, using(crate::proofs::ActionLists::raised_append, crate::proofs::ActionLists::raised_nothing, std::proofs::lemmas::Grind::common_steps))]
pub(crate) fn append_classes(
    alloc: Global,
    actions: &mut Vec<Action>,
    program: &Checked,
    entries: &[usize],
    most: &mut Option<Height>,
) -> Result<Vec<Class>, NoMemory>
    ensures actions { OnOk result (plain_actions actions.new.items ≡ plain_actions actions.old.items ++ classes_actions (program_of program.now) entries.now (program_of program.now).classes) }
    ensures linked { IfOk result (λ linked. classes_of linked.items ≡ linked_classes (program_of program.now) entries.now (length (plain_actions actions.old.items)) (program_of program.now).classes) }
    ensures most { OnOk result (most.new ≡ raised (classes_heights (program_of program.now) entries.now (program_of program.now).classes) most.old) }
{
    let mut linked = Vec::new(alloc);
    for class in &program.classes {
        linked.push(append_class(alloc, actions, program, entries, class, most)?)?;
    }
    Ok(linked)
}
