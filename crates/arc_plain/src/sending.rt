//! Messages, and what they find.
ghost use Rattle.arc_checked.specs.Checked as checked;
ghost use Rattle.arc_ast.specs.declared.tree.Sign.TheVariants.{Class};
ghost use Rattle.arc_spec.specs.Meaning.{received, sent, given, sent_to_class, finds, sent_to_object, answered_by_root, new_sent, made_new};
ghost use Rattle.arc_spec.specs.World.{World};
ghost use Rattle.arc_plain.specs.Views.{world, given_of, answer_of, target_of, sent_to, Reports, deeper};

use crate::call::{call, drop_made};
use crate::context::Context;
use crate::expression::{evaluate, evaluate_all, refer};
use crate::given::{Answered, Given, nothing, object_given, with_receiver};
use crate::halt::Halt;
use crate::message::{INIT_SELECTOR, NEW_SELECTOR, Target, class_at, find_method, is_root_init};
use crate::object::{class_of, make};
use crate::place::take;
use crate::progress::{Progress, local};
use arc_ast::tree::Sign;
use arc_checked::program::{Argument, Receiver};
use arc_spec::class::Gives;
use arc_spec::event::Fault;
use std::alloc::Global;

/// Sends a message to what the receiver gives, which wants a number or an object; the receiver is evaluated before the
/// arguments.
#[cycle(running)]
pub fn send(
    alloc: Global,
    context: &Context,
    progress: &mut Progress,
    wanted: Gives,
    receiver: &Receiver,
    selector: usize,
    arguments: &[Argument],
) -> Result<Answered, Halt>
    ensures { Reports answer_of result (sent_to (deeper context.now) wanted (checked.receiver receiver.now) selector (checked.arguments arguments.now) (world progress.old)) (world progress.new) }
{
    let target = receive(alloc, context, progress, receiver)?;
    let given = evaluate_all(alloc, context, progress, arguments)?;
    send_to(alloc, context, progress, wanted, target, selector, given)
}

/// Who gets a message. One to `super` goes to `self`, in a method of a class the first variable.
#[cycle(running)]
fn receive(
    alloc: Global,
    context: &Context,
    progress: &mut Progress,
    receiver: &Receiver,
) -> Result<Target, Halt>
    ensures { Reports target_of result (received (deeper context.now) (checked.receiver receiver.now) (world progress.old)) (world progress.new) }
{
    match receiver {
        Receiver::ClassValue(value) => {
            let class = evaluate(alloc, context, progress, value)?;
            Ok(Target::Class(class_at(class), class))
        }
        Receiver::ClassSuper(from) => Ok(Target::Class(Some(*from), local(progress, 0))),
        Receiver::ObjectValue(reference) => {
            let itself = refer(alloc, context, progress, reference)?;
            Ok(Target::Object(itself))
        }
        Receiver::ObjectSuper(reference, from) => {
            let itself = refer(alloc, context, progress, reference)?;
            Ok(Target::Super(*from, itself))
        }
    }
}

/// Sends a message with its arguments.
#[cycle(running)]
fn send_to(
    alloc: Global,
    context: &Context,
    progress: &mut Progress,
    wanted: Gives,
    target: Target,
    selector: usize,
    given: Given,
) -> Result<Answered, Halt>
    ensures { Reports answer_of result (sent (deeper context.now) wanted (target_of target) selector (given_of given) (world progress.old)) (world progress.new) }
{
    match target {
        Target::Class(from, itself) => {
            dispatch(
                alloc, context, progress, wanted, from, selector, itself, given,
            )
        }
        Target::Object(itself) => {
            let from = class_of(&progress.objects, itself);
            dispatch_to(
                alloc, context, progress, wanted, from, selector, itself, &given,
            )
        }
        Target::Super(from, itself) => {
            let from = Some(from);
            dispatch_to(
                alloc, context, progress, wanted, from, selector, itself, &given,
            )
        }
    }
}

/// Calls what a message to a class finds from this class up, with `self` in front of the arguments; a message
/// that finds nothing is a fault.
#[cycle(running)]
fn dispatch(
    alloc: Global,
    context: &Context,
    progress: &mut Progress,
    wanted: Gives,
    from: Option<usize>,
    selector: usize,
    itself: i64,
    given: Given,
) -> Result<Answered, Halt>
    ensures { Reports answer_of result (sent_to_class (deeper context.now) wanted (finds (deeper context.now) wanted from Class selector (given_of given)) itself (given_of given) (world progress.old)) (world progress.new) }
{
    let Some(method) = find_method(context, wanted, from, Sign::Class, selector, &given) else {
        return Err(Halt::Stopped(Fault::Unrecognized));
    };
    let passed = with_receiver(alloc, itself, given)?;
    call(alloc, context, progress, wanted, method, 0, &passed)
}

/// Calls what a message to an object finds from this class up. A message to nil gives 0 or nil; one that finds
/// nothing is a fault, or the root's own `init`, which gives the object.
#[cycle(running)]
fn dispatch_to(
    alloc: Global,
    context: &Context,
    progress: &mut Progress,
    wanted: Gives,
    from: Option<usize>,
    selector: usize,
    itself: usize,
    given: &Given,
) -> Result<Answered, Halt>
    ensures { Reports answer_of result (sent_to_object (deeper context.now) wanted from itself selector (given_of given.now) (world progress.old)) (world progress.new) }
{
    if itself == 0 {
        return Ok(object_given(0));
    }
    let Some(method) = find_method(context, wanted, from, Sign::Instance, selector, given) else {
        return answer_by_root(wanted, selector, itself, given);
    };
    call(alloc, context, progress, wanted, method, itself, given)
}

/// What the root gives for a message that no class has a method for: its `init` gives the object; any other is a fault.
fn answer_by_root(
    wanted: Gives,
    selector: usize,
    itself: usize,
    given: &Given,
) -> Result<Answered, Halt>
    ensures { (w : World) → Reports answer_of result (answered_by_root wanted itself selector (given_of given.now) w) w }
{
    if is_root_init(wanted, selector, given) {
        Ok(object_given(itself))
    } else {
        Err(Halt::Stopped(Fault::Unrecognized))
    }
}

/// Sends `new` to the class with the number, whose method is looked up from another one, where that is given.
#[cycle(running)]
pub fn send_new(
    alloc: Global,
    context: &Context,
    progress: &mut Progress,
    from: Option<usize>,
    class: i64,
) -> Result<usize, Halt>
    ensures { Reports (λ n. n) result (new_sent (deeper context.now) from class (world progress.old)) (world progress.new) }
{
    let none = nothing(alloc);
    let first = match from {
        Some(from) => Some(from),
        None => class_at(class),
    };
    match find_method(
        context,
        Gives::Object,
        first,
        Sign::Class,
        NEW_SELECTOR,
        &none,
    ) {
        Some(method) => {
            let passed = with_receiver(alloc, class, none)?;
            let answered = call(alloc, context, progress, Gives::Object, method, 0, &passed)?;
            take(progress, answered.object)
        }
        None => make_new(alloc, context, progress, class_at(class)),
    }
}

/// The root's `new`: an object of the class is made, and gets `init`. What that gives is left as a temporary.
#[cycle(running)]
fn make_new(
    alloc: Global,
    context: &Context,
    progress: &mut Progress,
    class: Option<usize>,
) -> Result<usize, Halt>
    ensures { Reports (λ n. n) result (made_new (deeper context.now) class (world progress.old)) (world progress.new) }
{
    let object = make(alloc, context, progress, class)?;
    let none = nothing(alloc);
    let target = Target::Object(object);
    let answered = send_to(
        alloc,
        context,
        progress,
        Gives::Object,
        target,
        INIT_SELECTOR,
        none,
    )?;
    let given = take(progress, answered.object)?;
    drop_made(alloc, context, progress)?;
    Ok(given)
}
