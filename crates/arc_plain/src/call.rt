//! Calls, places that are dropped, and the ends of objects.
ghost use Rattle.std.specs.Prelude.{◌≡◌};
ghost use Rattle.arc_spec.specs.Classes.{superclasses, ancestry, same_gives};
ghost use Rattle.arc_checked.specs.Checked.{program_of};
ghost use Rattle.arc_spec.specs.Objects.{object_at};
ghost use Rattle.arc_spec.specs.Meaning.{emptied, fields_dropped, called, given, released, all_dropped, second_dropped, variables_dropped, function_at, dealloc_run, deallocs_run};
ghost use Rattle.arc_plain.specs.Views.{world, given_of, answer_of, Reports, flow_of, nothing_of, deeper};

use crate::context::Context;
use crate::format::count;
use crate::given::{Answered, Given, nothing, object_given};
use crate::halt::Halt;
use crate::object::{
    begin_emptying, begin_end, class_of, clear_field, dealloc_from, finish_end, is_live,
};
use crate::place::{clear, drop_last, drop_second, is_named, name_at, pop_frame, push_frame};
use crate::progress::Progress;
use crate::statement::{Flow, execute_all};
use arc_checked::program::CheckedFunction;
use arc_spec::class::Gives;
use arc_spec::event::Fault;
use arc_spec::order::field_order;
use std::alloc::Global;

/// Calls the function with this number that gives this, one level deeper, with this `self`.
#[cycle(running)]
pub fn call(
    alloc: Global,
    context: &Context,
    progress: &mut Progress,
    wanted: Gives,
    function: usize,
    itself: usize,
    given: &Given,
) -> Result<Answered, Halt>
    ensures { Reports answer_of result ((deeper context.now).call wanted function itself (given_of given.now) (world progress.old)) (world progress.new) }
{
    if context.levels == 0 {
        return Err(Halt::Stopped(Fault::Depth));
    }
    let inner = Context {
        levels: context.levels - 1,
        ..*context
    };
    enter(alloc, &inner, progress, wanted, function, itself, given)
}

/// Runs a function with variables of its own, which are dropped at its end, but for its result. After it the caller's
/// are there again. A function that there isn't, or that gives something else, does nothing.
#[cycle(running)]
fn enter(
    alloc: Global,
    context: &Context,
    progress: &mut Progress,
    wanted: Gives,
    function: usize,
    itself: usize,
    given: &Given,
) -> Result<Answered, Halt>
    ensures { Reports answer_of result (called (deeper context.now) context.now.bound (function_at (program_of context.now.program.now) wanted function) itself (given_of given.now) (world progress.old)) (world progress.new) }
{
    let Some(entered) = context.program.functions.get(function) else {
        return Ok(object_given(0));
    };
    if !is_giving(entered, wanted) {
        return Ok(object_given(0));
    }
    let waiting = progress.waiting.len();
    let kept = push_frame(alloc, progress, entered, itself, given)?;
    let flow = execute_all(alloc, context, progress, &entered.body)?;
    drop_variables(alloc, context, progress, 0, entered.names)?;
    let object = name_at(&progress.frame.strong, entered.names);
    pop_frame(progress, kept, waiting);
    Ok(Answered {
        number: number_of(flow),
        object,
    })
}

/// Whether a function gives this.
fn is_giving(function: &CheckedFunction, wanted: Gives) -> bool
    ensures { result ≡ same_gives function.now.gives wanted }
{
    function.gives == wanted
}

/// What a function gives that was left so.
fn number_of(flow: Flow) -> i64
    ensures { result ≡ given (flow_of flow) }
{
    match flow {
        Flow::Returned(number) => number,
        _ => 0,
    }
}

/// The end of an object, one level deeper: the deallocs of its class and of those above run, and it is gone.
#[cycle(running)]
fn end(alloc: Global, context: &Context, progress: &mut Progress, object: usize) -> Result<(), Halt>
    ensures { Reports nothing_of result ((deeper context.now).end_of object (world progress.old)) (world progress.new) }
{
    if context.levels == 0 {
        return Err(Halt::Stopped(Fault::Depth));
    }
    let inner = Context {
        levels: context.levels - 1,
        ..*context
    };
    let class = class_of(&progress.objects, object);
    begin_end(progress, object)?;
    run_deallocs(alloc, &inner, progress, class, object)?;
    empty(alloc, &inner, progress, object)?;
    finish_end(progress, object)
}

/// The fields of an object that name objects are destroyed: each of them is dropped.
#[cycle(running)]
fn empty(
    alloc: Global,
    context: &Context,
    progress: &mut Progress,
    object: usize,
) -> Result<(), Halt>
    ensures { Reports nothing_of result (emptied (deeper context.now) object (object_at (world progress.old).objects object) (world progress.old)) (world progress.new) }
{
    let Some(class) = class_of(&progress.objects, object) else {
        return Ok(());
    };
    let order = field_order(alloc, &context.program.classes, class)?;
    begin_emptying(progress, object);
    drop_fields(alloc, context, progress, object, &order)
}

/// These fields of an object are dropped, from the first one on.
#[cycle(running)]
fn drop_fields(
    alloc: Global,
    context: &Context,
    progress: &mut Progress,
    object: usize,
    order: &[usize],
) -> Result<(), Halt>
    ensures { Reports nothing_of result (fields_dropped (deeper context.now) order.now object (world progress.old)) (world progress.new) }
{
    for index in order {
        let before = clear_field(progress, object, *index);
        release(alloc, context, progress, before)?;
    }
    Ok(())
}

/// What the deallocs of the classes do from this one up.
#[cycle(running)]
fn run_deallocs(
    alloc: Global,
    context: &Context,
    progress: &mut Progress,
    class: Option<usize>,
    object: usize,
) -> Result<(), Halt>
    ensures { let program = program_of context.now.program.now in Reports nothing_of result (deallocs_run program (deeper context.now) context.now.bound (ancestry (superclasses program.classes) class) object (world progress.old)) (world progress.new) }
{
    let classes = &context.program.classes;
    let mut next = class;
    for _passed in 0..classes.len() {
        let Some(layer) = dealloc_from(context, next) else {
            return Ok(());
        };
        let (dealloc, above) = layer;
        run_dealloc(alloc, context, progress, dealloc, object)?;
        next = above;
    }
    Ok(())
}

/// What the dealloc of one class does, if it has one.
#[cycle(running)]
fn run_dealloc(
    alloc: Global,
    context: &Context,
    progress: &mut Progress,
    dealloc: Option<usize>,
    object: usize,
) -> Result<(), Halt>
    ensures { Reports nothing_of result (dealloc_run (program_of context.now.program.now) (deeper context.now) context.now.bound dealloc object (world progress.old)) (world progress.new) }
{
    match dealloc {
        Some(function) => {
            let none = nothing(alloc);
            let _ = enter(
                alloc,
                context,
                progress,
                Gives::Number,
                function,
                object,
                &none,
            )?;
            Ok(())
        }
        None => Ok(()),
    }
}

/// A place was dropped that named this: where it was the last one of a live object, the object ends.
#[cycle(running)]
pub fn release(
    alloc: Global,
    context: &Context,
    progress: &mut Progress,
    object: usize,
) -> Result<(), Halt>
    ensures { Reports nothing_of result (released (deeper context.now) object (world progress.old)) (world progress.new) }
{
    if !is_live(&progress.objects, object) {
        return Ok(());
    }
    if is_named(progress, object) {
        return Ok(());
    }
    end(alloc, context, progress, object)
}

/// The end of a full-expression: its temporaries are dropped, the last one first.
#[cycle(running)]
pub fn drop_temporaries(
    alloc: Global,
    context: &Context,
    progress: &mut Progress,
) -> Result<(), Halt>
    ensures { Reports nothing_of result (all_dropped (deeper context.now) (world progress.old)) (world progress.new) }
{
    while let Some(object) = drop_last(progress) {
        release(alloc, context, progress, object)?;
    }
    Ok(())
}

/// The temporary before the last one is dropped.
#[cycle(running)]
pub fn drop_made(alloc: Global, context: &Context, progress: &mut Progress) -> Result<(), Halt>
    ensures { Reports nothing_of result (second_dropped (deeper context.now) (world progress.old).frame.temporaries (world progress.old)) (world progress.new) }
{
    match drop_second(progress) {
        Some(object) => release(alloc, context, progress, object),
        None => Ok(()),
    }
}

/// So many variables are dropped, from the first one on, in the reverse of their order.
#[cycle(running)]
pub fn drop_variables(
    alloc: Global,
    context: &Context,
    progress: &mut Progress,
    first: usize,
    count: usize,
) -> Result<(), Halt>
    ensures { Reports nothing_of result (variables_dropped (deeper context.now) first count (world progress.old)) (world progress.new) }
{
    for offset in (0..count).rev() {
        let before = clear(progress, first, offset);
        release(alloc, context, progress, before)?;
    }
    Ok(())
}
