//! How far an interpreted program has come.
ghost use Rattle.std.specs.Prelude.{◌≡◌, ◌++◌, map, OnOk, IfOk, slice_set};
ghost use Rattle.arc_spec.specs.declared.event.Event.TheVariants.{Byte};
ghost use Rattle.arc_spec.specs.Meaning.{held_at, holds};
ghost use Rattle.arc_spec.specs.World.{first_world, prints, has_read, next_number, local_at, with_locals};
ghost use Rattle.arc_plain.specs.Views.{world};

use crate::frame::{Activation, nothing_runs};
use crate::object::Object;
use arc_spec::event::{Event, NoMemory};
use arc_spec::location::Location;
use arc_spec::statics::Statics;
use std::alloc::Global;

/// What is left of the input, the events so far, what is kept from the start to the end, what the variables of
/// the whole program name that name objects, the objects in the order of their making, the running function,
/// and the strong places of those that wait for it, the newest at the end.
#[derive(Drop)]
pub struct Progress<'a> {
    pub input: &'a [u8],
    pub trace: Vec<Event>,
    pub statics: Statics,
    pub strong_globals: Vec<usize>,
    pub objects: Vec<Object>,
    pub frame: Activation,
    pub waiting: Vec<usize>,
}

/// Nothing is read or shown yet, and the variables of the whole program hold these numbers, and so many of
/// them name nothing.
pub fn start<'a>(
    alloc: Global,
    globals: &[i64],
    strong_globals: usize,
    input: &'a [u8],
) -> Result<Progress<'a>, NoMemory>
    ensures { IfOk result (λ progress. world progress ≡ first_world globals.now strong_globals input.now) }
{
    Ok(Progress {
        input,
        trace: Vec::new(alloc),
        statics: Statics::new(alloc, globals)?,
        strong_globals: vec![in alloc; 0; strong_globals]?,
        objects: Vec::new(alloc),
        frame: nothing_runs(alloc),
        waiting: Vec::new(alloc),
    })
}

/// The next byte of the input, or -1 at its end.
pub fn read(progress: &mut Progress) -> i64
    ensures number { result ≡ next_number (world progress.old).input }
    ensures after { world progress.new ≡ has_read (world progress.old) }
{
    match progress.input.split_first() {
        Some((byte, rest)) => {
            progress.input = rest;
            i64::from(*byte)
        }
        None => -1,
    }
}

/// Prints the bytes.
pub fn print(progress: &mut Progress, bytes: &[u8]) -> Result<(), NoMemory>
    ensures { OnOk result (world progress.new ≡ prints bytes.now (world progress.old)) }
{
    show(&mut progress.trace, bytes)
}

/// Writes bytes after the events.
fn show(trace: &mut Vec<Event>, bytes: &[u8]) -> Result<(), NoMemory>
    ensures { OnOk result (trace.new.items ≡ trace.old.items ++ map Byte bytes.now) }
{
    for byte in bytes {
        trace.push(Event::Byte(*byte))?;
    }
    Ok(())
}

/// The number of a variable of the running function.
pub fn local(progress: &Progress, slot: usize) -> i64
    ensures { result ≡ local_at (world progress.now).frame.locals slot }
{
    match progress.frame.locals.get(slot) {
        Some(number) => *number,
        None => 0,
    }
}

/// The number that a variable holds.
pub fn held(progress: &Progress, location: Location) -> i64
    ensures { result ≡ held_at location (world progress.now) }
{
    match location {
        Location::Local(slot) => local(progress, slot),
        Location::Global(index) => progress.statics.number(index),
    }
}

/// Gives a variable a number.
pub fn assign(progress: &mut Progress, location: Location, number: i64)
    ensures { world progress.new ≡ holds location number (world progress.old) }
{
    match location {
        Location::Local(slot) => assign_local(progress, slot, number),
        Location::Global(index) => progress.statics.put_number(index, number),
    }
}

/// Gives a variable of the running function a number.
fn assign_local(progress: &mut Progress, slot: usize, number: i64)
    ensures { world progress.new ≡ with_locals (world progress.old) (slice_set (world progress.old).frame.locals slot number) }
{
    if let Some(place) = progress.frame.locals.get_mut(slot) {
        *place = number;
    }
}
