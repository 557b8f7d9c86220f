//! The running function.
ghost use Rattle.std.specs.Prelude.{◌≡◌, ◌∷◌, [], ℕ, suc, pos, take, IfOk};
ghost use Rattle.arc_spec.specs.Meaning.{function_places};
ghost use Rattle.arc_spec.specs.World.{first_frame, and_self, padded};
ghost use Rattle.arc_plain.specs.Views.{frame_of, given_of, function_of};

use crate::given::Given;
use arc_checked::program::CheckedFunction;
use arc_spec::class::Gives;
use arc_spec::event::NoMemory;
use std::alloc::Global;

/// A running function: in a method of objects `self`, the variables that hold numbers, those that name objects,
/// of which the parameters are the first, and the temporaries of its full-expression, the last one at the end. An
/// object goes by its number, and 0 is nil.
#[derive(Drop)]
pub struct Activation {
    pub itself: usize,
    pub locals: Vec<i64>,
    pub strong: Vec<usize>,
    pub temporaries: Vec<usize>,
}

/// What runs before `main`: nothing.
pub fn nothing_runs(alloc: Global) -> Activation
    ensures { frame_of result ≡ first_frame }
{
    Activation {
        itself: 0,
        locals: Vec::new(alloc),
        strong: Vec::new(alloc),
        temporaries: Vec::new(alloc),
    }
}

/// How many places of objects a function has but for its temporaries. NoMemory: more than can be counted.
fn function_places(function: &CheckedFunction) -> Result<usize, NoMemory>
    ensures { IfOk result (λ count. count ≡ function_places (function_of function.now)) }
{
    match function.gives {
        Gives::Number => Ok(function.names),
        Gives::Object => function.names.checked_add(1).ok_or(NoMemory),
    }
}

/// What the first variables that name objects name: `self`, where it is owned, and the objects that are given, of which
/// the function takes some.
fn first_named(
    alloc: Global,
    function: &CheckedFunction,
    itself: usize,
    given: &Given,
) -> Result<Vec<usize>, NoMemory>
    ensures { IfOk result (λ all. all.items ≡ and_self function.now.owns itself (take function.now.parameters (given_of given.now).objects)) }
{
    let mut all = Vec::new(alloc);
    if function.owns {
        all.push(itself)?;
    }
    all.extend_from_slice(first_objects(&given.objects, function.parameters))?;
    Ok(all)
}

/// A function that begins, with this `self` and what it is given.
pub fn begin(
    alloc: Global,
    function: &CheckedFunction,
    itself: usize,
    given: &Given,
) -> Result<Activation, NoMemory>
    ensures { IfOk result (λ frame. frame_of frame ≡ record { self = itself; locals = padded (pos 0) function.now.slots (given_of given.now).numbers; strong = padded 0 (function_places (function_of function.now)) (and_self function.now.owns itself (take function.now.parameters (given_of given.now).objects)); temporaries = [] }) }
{
    let named = first_named(alloc, function, itself, given)?;
    Ok(Activation {
        itself,
        locals: begin_locals(alloc, function.slots, &given.numbers)?,
        strong: begin_names(alloc, function_places(function)?, &named)?,
        temporaries: Vec::new(alloc),
    })
}

/// The variables of a function that begins: what it was given, and 0 for all others.
fn begin_locals(alloc: Global, slots: usize, arguments: &[i64]) -> Result<Vec<i64>, NoMemory>
    ensures { IfOk result (λ locals. locals.items ≡ padded (pos 0) slots arguments.now) }
{
    let mut locals = Vec::new(alloc);
    let mut rest = arguments;
    for _ in 0..slots {
        let (number, others) = take_number(rest);
        locals.push(number)?;
        rest = others;
    }
    Ok(locals)
}

/// The first of the numbers, and those after it; where there is none, it counts as 0.
fn take_number(numbers: &[i64]) -> (i64, &[i64])
    ensures { (slots : ℕ) → padded (pos 0) (suc slots) numbers.now ≡ result.0 ∷ padded (pos 0) slots result.1.now }
{
    match numbers.split_first() {
        Some((number, others)) => (*number, others),
        None => (0, numbers),
    }
}

/// The first of the objects, at most so many.
fn first_objects(objects: &[usize], count: usize) -> &[usize]
    ensures { result.now ≡ take count objects.now }
{
    if count < objects.len() {
        &objects[..count]
    } else {
        objects
    }
}

/// The variables of a function that begins that name objects: what it was given, and nil for all others.
fn begin_names(alloc: Global, count: usize, objects: &[usize]) -> Result<Vec<usize>, NoMemory>
    ensures { IfOk result (λ names. names.items ≡ padded 0 count objects.now) }
{
    let mut names = Vec::new(alloc);
    let mut rest = objects;
    for _ in 0..count {
        let (object, others) = take_object(rest);
        names.push(object)?;
        rest = others;
    }
    Ok(names)
}

/// The first of the objects, and those after it; where there is none, it counts as nil.
fn take_object(objects: &[usize]) -> (usize, &[usize])
    ensures { (count : ℕ) → padded 0 (suc count) objects.now ≡ result.0 ∷ padded 0 count result.1.now }
{
    match objects.split_first() {
        Some((object, others)) => (*object, others),
        None => (0, objects),
    }
}
