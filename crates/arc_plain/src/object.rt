//! Objects. They go by their numbers, which count from 1 in the order of their making; 0 is nil.
ghost use Rattle.std.specs.Prelude.{◌≡◌, ℕ, suc, map, IfOk, MatchOption, None, Some, OnOk, slice_set};
ghost use Rattle.arc_spec.specs.Classes.{superclasses, ancestry_within};
ghost use Rattle.arc_checked.specs.Checked.{program_of};
ghost use Rattle.arc_spec.specs.Meaning.{Callees, turned, made, field_read, field_set, object_field_read, dying, gone, class_in, dealloc_run, deallocs_run};
ghost use Rattle.arc_spec.specs.Objects.{Emptying, object_at, is_live, is_emptying, new_object, in_phase, with_fields, with_strong_fields};
ghost use Rattle.arc_spec.specs.World.{World, Done, then_do, finished};
ghost use Rattle.arc_plain.specs.Views.{world, deeper, Reports, nothing_of, object_of, phase_of, changed, object_field_replaced, named_in, cleared};

use crate::context::Context;
use crate::halt::Halt;
use crate::place::{is_named, name_at, replace, take};
use crate::progress::Progress;
use arc_spec::class::{Class, descends_from, field_counts};
use arc_spec::event::{Event, Fault, NoMemory};
use arc_spec::sort_counts::SortCounts;
use std::alloc::Global;

/// How far an object is on its way: its dealloc hasn't begun; its deallocs run; its fields that name objects are
/// destroyed; or it is gone.
#[derive(Clone, Copy)]
pub enum Phase {
    Live,
    Dying,
    Emptying,
    Gone,
}

/// An object: the number of its class, the numbers that its fields hold, what its fields name that name objects,
/// and its phase.
#[derive(Drop)]
pub struct Object {
    pub class: usize,
    pub fields: Vec<i64>,
    pub strong: Vec<usize>,
    pub phase: Phase,
}

/// The object with this number.
fn object_at(objects: &[Object], number: usize) -> Option<&Object>
    ensures { MatchOption result (object_at (map object_of objects.now) number ≡ None) (λ object. object_at (map object_of objects.now) number ≡ Some (object_of object.now)) }
{
    if number == 0 {
        return None;
    }
    objects.get(number - 1)
}

/// Whether there is an object with this number whose dealloc hasn't begun.
pub fn is_live(objects: &[Object], number: usize) -> bool
    ensures { result ≡ is_live (object_at (map object_of objects.now) number) }
{
    match object_at(objects, number) {
        Some(object) => match object.phase {
            Phase::Live => true,
            Phase::Dying | Phase::Emptying | Phase::Gone => false,
        },
        None => false,
    }
}

/// Whether the fields that name objects of an object in this phase are being destroyed, or are already.
fn is_emptying(phase: Phase) -> bool
    ensures { result ≡ is_emptying (phase_of phase) }
{
    match phase {
        Phase::Live | Phase::Dying => false,
        Phase::Emptying | Phase::Gone => true,
    }
}

/// The class of the object with this number.
pub fn class_of(objects: &[Object], number: usize) -> Option<usize>
    ensures { result ≡ class_in (object_at (map object_of objects.now) number) }
{
    match object_at(objects, number) {
        Some(object) => Some(object.class),
        None => None,
    }
}

/// Makes an object of a class, which a temporary takes; what is no class is a fault.
pub fn make(
    alloc: Global,
    context: &Context,
    progress: &mut Progress,
    class: Option<usize>,
) -> Result<usize, Halt>
    ensures { Reports (λ n. n) result (made (deeper context.now) class (world progress.old)) (world progress.new) }
{
    let Some(class) = class else {
        return Err(Halt::Stopped(Fault::Unrecognized));
    };
    let counts = field_counts(&context.program.classes, class);
    let object = new_object(alloc, class, counts)?;
    progress.objects.push(object)?;
    let number = progress.objects.len();
    take(progress, number)
}

/// An object of a class as it is made, with so many fields of each sort.
fn new_object(alloc: Global, class: usize, counts: SortCounts) -> Result<Object, NoMemory>
    ensures { IfOk result (λ object. object_of object ≡ new_object class counts) }
{
    Ok(Object {
        class,
        fields: vec![in alloc; 0; counts.numbers]?,
        strong: vec![in alloc; 0; counts.objects]?,
        phase: Phase::Live,
    })
}

/// The field with this number of an object, whose own class this is.
pub fn read_field(
    context: &Context,
    progress: &Progress,
    number: usize,
    class: usize,
    index: usize,
) -> Result<i64, Halt>
    ensures { Reports (λ n. n) result (field_read (deeper context.now) number class index (world progress.now)) (world progress.now) }
{
    let Some(object) = object_at(&progress.objects, number) else {
        return Err(Halt::Stopped(Fault::NilField));
    };
    if !descends_from(&context.program.classes, Some(object.class), class) {
        return Err(Halt::Stopped(Fault::FieldClass));
    }
    match object.fields.get(index) {
        Some(field) => Ok(*field),
        None => Ok(0),
    }
}

/// Gives the field with this number of an object a number, which is given too.
pub fn set_field(
    context: &Context,
    progress: &mut Progress,
    number: usize,
    class: usize,
    index: usize,
    value: i64,
) -> Result<i64, Halt>
    ensures { Reports (λ n. n) result (field_set (deeper context.now) number class index value (world progress.old)) (world progress.new) }
{
    let Some(own) = class_of(&progress.objects, number) else {
        return Err(Halt::Stopped(Fault::NilField));
    };
    if !descends_from(&context.program.classes, Some(own), class) {
        return Err(Halt::Stopped(Fault::FieldClass));
    }
    write_field(&mut progress.objects, number, index, value);
    Ok(value)
}

/// What the field with this number names of an object, whose own class this is, which a temporary takes.
pub fn read_object_field(
    context: &Context,
    progress: &mut Progress,
    number: usize,
    class: usize,
    index: usize,
) -> Result<usize, Halt>
    ensures { Reports (λ n. n) result (object_field_read (deeper context.now) number class index (world progress.old)) (world progress.new) }
{
    let Some(object) = object_at(&progress.objects, number) else {
        return Err(Halt::Stopped(Fault::NilField));
    };
    if !descends_from(&context.program.classes, Some(object.class), class) {
        return Err(Halt::Stopped(Fault::FieldClass));
    }
    let named = name_at(&object.strong, index);
    take(progress, named)
}

/// The field with this number of an object, whose own class this is, names an object from now on, and what it named
/// before is given. Where the fields of its object are being destroyed this is a fault.
pub fn replace_object_field(
    context: &Context,
    progress: &mut Progress,
    number: usize,
    class: usize,
    index: usize,
    named: usize,
) -> Result<usize, Halt>
    ensures { Reports (λ n. n) result (object_field_replaced (deeper context.now) number class index named (world progress.old)) (world progress.new) }
{
    let Some(object) = object_at(&progress.objects, number) else {
        return Err(Halt::Stopped(Fault::NilField));
    };
    if !descends_from(&context.program.classes, Some(object.class), class) {
        return Err(Halt::Stopped(Fault::FieldClass));
    }
    if is_emptying(object.phase) {
        return Err(Halt::Stopped(Fault::Resurrected));
    }
    Ok(replace_field(&mut progress.objects, number, index, named))
}

/// The field with this number of an object names an object from now on, and what it named before is given.
fn replace_field(objects: &mut [Object], number: usize, index: usize, named: usize) -> usize
    ensures before { result ≡ named_in (object_at (map object_of objects.old) number) index }
    ensures after { map object_of objects.new ≡ changed (map object_of objects.old) number (λ o. with_strong_fields o (slice_set o.strong index named)) }
{
    if number == 0 {
        return 0;
    }
    let count = objects.len();
    if number > count {
        return 0;
    }
    let object = &mut objects[number - 1];
    replace(&mut object.strong, index, named)
}

/// The field with this number of an object names nothing from now on, and what it named before is given.
pub fn clear_field(progress: &mut Progress, number: usize, index: usize) -> usize
    ensures before { result ≡ named_in (object_at (world progress.old).objects number) index }
    ensures after { world progress.new ≡ cleared number index (object_at (world progress.old).objects number) (world progress.old) }
{
    replace_field(&mut progress.objects, number, index, 0)
}

/// The fields of an object that name objects are destroyed from now on.
pub fn begin_emptying(progress: &mut Progress, number: usize)
    ensures { world progress.new ≡ turned Emptying number (object_at (world progress.old).objects number) (world progress.old) }
{
    turn(&mut progress.objects, number, Phase::Emptying);
}

/// Gives the field with this number of an object a number.
fn write_field(objects: &mut [Object], number: usize, index: usize, value: i64)
    ensures { map object_of objects.new ≡ changed (map object_of objects.old) number (λ o. with_fields o (slice_set o.fields index value)) }
{
    if number == 0 {
        return;
    }
    let count = objects.len();
    if number > count {
        return;
    }
    let object = &mut objects[number - 1];
    write(&mut object.fields, index, value);
}

/// Writes a number into a place, where there is that place.
fn write(fields: &mut [i64], index: usize, value: i64)
    ensures { fields.new ≡ slice_set fields.old index value }
{
    let count = fields.len();
    if index >= count {
        return;
    }
    fields[index] = value;
}

/// Turns the object with this number into another phase.
fn turn(objects: &mut [Object], number: usize, phase: Phase)
    ensures { map object_of objects.new ≡ changed (map object_of objects.old) number (in_phase (phase_of phase)) }
{
    if number == 0 {
        return;
    }
    let count = objects.len();
    if number > count {
        return;
    }
    let object = &mut objects[number - 1];
    object.phase = phase;
}

/// The dealloc of an object begins, which is shown.
pub fn begin_end(progress: &mut Progress, number: usize) -> Result<(), NoMemory>
    ensures { OnOk result (world progress.new ≡ dying number (object_at (world progress.old).objects number) (world progress.old)) }
{
    let Some(class) = class_of(&progress.objects, number) else {
        return Ok(());
    };
    turn(&mut progress.objects, number, Phase::Dying);
    progress.trace.push(Event::Dealloc(number as u64, class))?;
    Ok(())
}

/// The dealloc of a class, if it has one, and the class above it, whose dealloc is next; or nothing, where there
/// is no such class.
pub fn dealloc_from(
    context: &Context,
    class: Option<usize>,
) -> Option<(Option<usize>, Option<usize>)>
    ensures { let P = program_of context.now.program.now in MatchOption result ((D : Callees) (bound n o : ℕ) (w : World) → deallocs_run P D bound (ancestry_within n (superclasses P.classes) class) o w ≡ Done finished w) (λ layer. (D : Callees) (bound n o : ℕ) (w : World) → deallocs_run P D bound (ancestry_within (suc n) (superclasses P.classes) class) o w ≡ then_do (dealloc_run P D bound layer.0 o w) (λ _ after. deallocs_run P D bound (ancestry_within n (superclasses P.classes) layer.1) o after)) }
{
    let Some(number) = class else {
        return None;
    };
    let Some(found) = context.program.classes.get(number) else {
        return None;
    };
    Some((found.dealloc, found.superclass))
}

/// The dealloc of an object is done; that a strong place names it again is a fault.
pub fn finish_end(progress: &mut Progress, number: usize) -> Result<(), Halt>
    ensures { Reports nothing_of result (gone number (world progress.old)) (world progress.new) }
{
    if is_named(progress, number) {
        return Err(Halt::Stopped(Fault::Resurrected));
    }
    turn(&mut progress.objects, number, Phase::Gone);
    Ok(())
}
