//! Strong places: variables that name objects, and temporaries.
ghost use Rattle.std.specs.Prelude.{◌≡◌, ◌∷◌, ◌++◌, ◌+◌, ◌<◌, [], OnOk, IfOk, MatchOption, length, reverse, map, slice_set};
ghost use Rattle.std.proofs.Common.{take};
ghost use Rattle.arc_spec.specs.Meaning.{function_places};
ghost use Rattle.arc_spec.specs.Objects.{names};
ghost use Rattle.arc_spec.specs.Objects.{fields_of, field_places};
ghost use Rattle.arc_spec.specs.declared.location.Location.TheVariants.{Local};
ghost use Rattle.arc_spec.specs.World.{Done, places, takes, name_at, named_at, stores, with_temporaries, entered};
ghost use Rattle.arc_plain.specs.Views.{FollowsLast, function_of, world, frame_of, given_of, object_of, Reports, left_at};

use crate::frame::{Activation, begin};
use crate::given::Given;
use crate::halt::Halt;
use crate::object::{Object, Phase};
use crate::progress::Progress;
use arc_checked::program::CheckedFunction;
use arc_spec::event::NoMemory;
use arc_spec::location::Location;
use std::alloc::Global;
use std::mem;

/// A temporary of the running function takes this object, or nil, and it is given.
pub fn take(progress: &mut Progress, object: usize) -> Result<usize, Halt>
    ensures { Reports (λ n. n) result (Done object (takes object (world progress.old))) (world progress.new) }
{
    progress.frame.temporaries.push(object)?;
    Ok(object)
}

/// Drops the last temporary of the running function, and gives what it named.
pub fn drop_last(progress: &mut Progress) -> Option<usize>
    ensures last { MatchOption result (((world progress.old).frame.temporaries ≡ []) × ((world progress.new).frame.temporaries ≡ [])) (λ object. (world progress.old).frame.temporaries ≡ object ∷ (world progress.new).frame.temporaries) }
    ensures others { world progress.new ≡ with_temporaries (world progress.old) (world progress.new).frame.temporaries }
{
    progress.frame.temporaries.pop()
}

/// Drops the temporary before the last one of the running function, where there is one, and gives what it named.
pub fn drop_second(progress: &mut Progress) -> Option<usize>
    ensures second { MatchOption result ((length (world progress.old).frame.temporaries < 2) × (world progress.new ≡ world progress.old)) (λ object. FollowsLast (world progress.old).frame.temporaries object (world progress.new).frame.temporaries) }
    ensures others { world progress.new ≡ with_temporaries (world progress.old) (world progress.new).frame.temporaries }
{
    let count = progress.frame.temporaries.len();
    if count < 2 {
        return None;
    }
    Some(progress.frame.temporaries.remove(count - 2))
}

/// What a place of these names; one that there isn't names nothing.
pub fn name_at(places: &[usize], index: usize) -> usize
    ensures { result ≡ name_at places.now index }
{
    match places.get(index) {
        Some(object) => *object,
        None => 0,
    }
}

/// A place of these names this object from now on, where there is that place, and what it named before is given.
pub fn replace(places: &mut [usize], index: usize, object: usize) -> usize
    ensures before { result ≡ name_at places.old index }
    ensures after { places.new ≡ slice_set places.old index object }
{
    if index < places.len() {
        mem::replace(&mut places[index], object)
    } else {
        0
    }
}

/// What a variable names.
pub fn name(progress: &Progress, location: Location) -> usize
    ensures { result ≡ named_at location (world progress.now) }
{
    match location {
        Location::Local(slot) => name_at(&progress.frame.strong, slot),
        Location::Global(index) => name_at(&progress.strong_globals, index),
    }
}

/// A variable names this object from now on, and what it named before is given.
pub fn store(progress: &mut Progress, location: Location, object: usize) -> usize
    ensures before { result ≡ named_at location (world progress.old) }
    ensures after { world progress.new ≡ stores location object (world progress.old) }
{
    match location {
        Location::Local(slot) => replace(&mut progress.frame.strong, slot, object),
        Location::Global(index) => replace(&mut progress.strong_globals, index, object),
    }
}

/// The variable so far after the first one names nothing from now on, and what it named is given.
pub fn clear(progress: &mut Progress, first: usize, offset: usize) -> usize
    ensures before { result ≡ named_at (Local (first + offset)) (world progress.old) }
    ensures after { world progress.new ≡ stores (Local (first + offset)) 0 (world progress.old) }
{
    match first.checked_add(offset) {
        Some(slot) => store(progress, Location::Local(slot), 0),
        None => 0,
    }
}

/// Whether a strong place names the object.
#[tactic(auto, using(crate::proofs::ObjectsReported::names_places))]
pub fn is_named(progress: &Progress, object: usize) -> bool
    ensures { result ≡ names object (places (world progress.now)) }
{
    let frame = &progress.frame;
    if has_name(&frame.temporaries, object) {
        return true;
    }
    if has_name(&frame.strong, object) {
        return true;
    }
    if has_name(&progress.waiting, object) {
        return true;
    }
    if has_name(&progress.strong_globals, object) {
        return true;
    }
    has_field(&progress.objects, object)
}

/// Whether a field of an object that isn't gone names the object.
fn has_field(objects: &[Object], object: usize) -> bool
    ensures { result ≡ names object (field_places (map object_of objects.now)) }
{
    for one in objects {
        if holds(one, object) {
            return true;
        }
    }
    false
}

/// Whether a field of this object names the other one, and it isn't gone.
fn holds(one: &Object, object: usize) -> bool
    ensures { result ≡ names object (fields_of (object_of one.now)) }
{
    match one.phase {
        Phase::Live | Phase::Dying | Phase::Emptying => has_name(&one.strong, object),
        Phase::Gone => false,
    }
}

/// Whether one of the places names the object.
fn has_name(places: &[usize], object: usize) -> bool
    ensures { result ≡ names object places.now }
{
    for place in places {
        if object == *place {
            return true;
        }
    }
    false
}

/// A function begins, and the running one waits for it: its frame is given.
pub fn push_frame(
    alloc: Global,
    progress: &mut Progress,
    function: &CheckedFunction,
    itself: usize,
    given: &Given,
) -> Result<Activation, NoMemory>
    ensures world { OnOk result (world progress.new ≡ entered function.now.slots (function_places (function_of function.now)) function.now.parameters function.now.owns itself (given_of given.now) (world progress.old)) }
    ensures kept { IfOk result (λ frame. frame_of frame ≡ (world progress.old).frame) }
    ensures below { OnOk result (take (length progress.old.waiting.items) progress.new.waiting.items ≡ progress.old.waiting.items) }
{
    wait(alloc, &progress.frame, &mut progress.waiting)?;
    let frame = begin(alloc, function, itself, given)?;
    Ok(mem::replace(&mut progress.frame, frame))
}

/// The strong places of a function wait, as the newest ones.
fn wait(alloc: Global, frame: &Activation, waiting: &mut Vec<usize>) -> Result<(), NoMemory>
    ensures { OnOk result (waiting.new.items ≡ (waiting.old.items ++ reverse frame.now.strong.items) ++ frame.now.temporaries.items) }
{
    let names: Vec<usize> = frame.strong.iter().rev().copied().collect(alloc)?;
    waiting.extend_from_slice(&names)?;
    waiting.extend_from_slice(&frame.temporaries)?;
    Ok(())
}

/// The running function is left, and the one with this frame runs again, after which so many places wait.
pub fn pop_frame(progress: &mut Progress, frame: Activation, waiting: usize)
    ensures { world progress.new ≡ left_at (frame_of frame) (take waiting progress.old.waiting.items) (world progress.old) }
{
    progress.frame = frame;
    progress.waiting.truncate(waiting);
}
