//! What expressions give.
ghost use Rattle.arc_checked.specs.Checked as checked;
ghost use Rattle.arc_spec.specs.Resolved as resolved;
ghost use Rattle.arc_spec.specs.Meaning.{evaluated, referred, all_evaluated, full_expression};
ghost use Rattle.arc_plain.specs.Views.{world, given_of, answer_of, invoked, Reports, printed, deeper};

use crate::call::{call, drop_temporaries, release};
use crate::context::Context;
use crate::format::{count, format};
use crate::given::{Answered, Given, nothing};
use crate::halt::Halt;
use crate::message::{class_at, difference};
use crate::object::{make, read_field, read_object_field, replace_object_field, set_field};
use crate::place::{name, store, take};
use crate::progress::{Progress, assign, held, print, read};
use crate::sending::{send, send_new};
use crate::update::{Update, given_by, renew};
use arc_ast::tree::{BinaryOperator, Kind};
use arc_checked::program::{Argument, Piece, Reference, Value};
use arc_spec::class::Gives;
use arc_spec::event::Fault;
use arc_spec::location::Location;
use arc_spec::number::{apply, combine, convert};
use std::alloc::Global;

/// The number that an expression gives.
#[cycle(running)]
pub fn evaluate(
    alloc: Global,
    context: &Context,
    progress: &mut Progress,
    value: &Value,
) -> Result<i64, Halt>
    ensures { Reports (λ n. n) result (evaluated (deeper context.now) (checked.value value.now) (world progress.old)) (world progress.new) }
{
    match value {
        Value::Number(number) => Ok(*number),
        Value::ReadByte => Ok(read(progress)),
        Value::Print(pieces, arguments) => {
            evaluate_print(alloc, context, progress, pieces, arguments)
        }
        Value::Unary(operator, kind, operand) => {
            let number = evaluate(alloc, context, progress, operand)?;
            Ok(apply(*operator, *kind, number))
        }
        Value::Binary(operator, kind, left, right) => {
            evaluate_both(alloc, context, progress, *operator, *kind, left, right)
        }
        Value::Conditional(test, first, second) => {
            if evaluate(alloc, context, progress, test)? == 0 {
                evaluate(alloc, context, progress, second)
            } else {
                evaluate(alloc, context, progress, first)
            }
        }
        Value::Convert(kind, operand) => {
            let number = evaluate(alloc, context, progress, operand)?;
            Ok(convert(*kind, number))
        }
        Value::Read(location) => Ok(held(progress, *location)),
        Value::AssignNumber(location, operand) => {
            let number = evaluate(alloc, context, progress, operand)?;
            assign(progress, *location, number);
            Ok(number)
        }
        Value::Update(moment, location, operator, computed, kept, operand) => {
            let update = Update {
                moment: *moment,
                operator: *operator,
                computed: *computed,
                kept: *kept,
            };
            update_variable(alloc, context, progress, *location, update, operand)
        }
        Value::Call(function, arguments) => {
            let wanted = Gives::Number;
            let answered = invoke(alloc, context, progress, wanted, *function, arguments)?;
            Ok(answered.number)
        }
        Value::Send(receiver, selector, arguments) => {
            let wanted = Gives::Number;
            let answered = send(
                alloc, context, progress, wanted, receiver, *selector, arguments,
            )?;
            Ok(answered.number)
        }
        Value::GetField(object, class, index) => {
            let number = refer(alloc, context, progress, object)?;
            read_field(context, progress, number, *class, *index)
        }
        Value::SetField(object, class, index, operand) => {
            assign_field(alloc, context, progress, object, *class, *index, operand)
        }
        Value::UpdateField(moment, object, class, index, operator, computed, kept, operand) => {
            let update = Update {
                moment: *moment,
                operator: *operator,
                computed: *computed,
                kept: *kept,
            };
            update_field(
                alloc, context, progress, object, *class, *index, update, operand,
            )
        }
        Value::NotSame(left, right) => compare(alloc, context, progress, left, right),
        Value::IsObject(operand) => {
            let number = refer(alloc, context, progress, operand)?;
            Ok(difference(number, 0))
        }
    }
}

/// The value of a full-expression.
#[cycle(running)]
pub fn evaluate_whole(
    alloc: Global,
    context: &Context,
    progress: &mut Progress,
    value: &Value,
) -> Result<i64, Halt>
    ensures { Reports (λ n. n) result (full_expression (deeper context.now) (checked.value value.now) (world progress.old)) (world progress.new) }
{
    let number = evaluate(alloc, context, progress, value)?;
    drop_temporaries(alloc, context, progress)?;
    Ok(number)
}

/// Prints what the expressions give, by a format.
#[cycle(running)]
fn evaluate_print(
    alloc: Global,
    context: &Context,
    progress: &mut Progress,
    pieces: &[Piece],
    arguments: &[Argument],
) -> Result<i64, Halt>
    ensures { Reports (λ n. n) result (evaluated (deeper context.now) (resolved.Print (checked.pieces pieces.now) (checked.arguments arguments.now)) (world progress.old)) (world progress.new) }
{
    let given = evaluate_all(alloc, context, progress, arguments)?;
    print_format(alloc, progress, pieces, &given.numbers)
}

/// Prints what the format gives, and counts its bytes.
fn print_format(
    alloc: Global,
    progress: &mut Progress,
    pieces: &[Piece],
    values: &[i64],
) -> Result<i64, Halt>
    ensures { Reports (λ n. n) result (printed (checked.pieces pieces.now) values.now (world progress.old)) (world progress.new) }
{
    let text = format(alloc, pieces, values)?;
    print(progress, &text)?;
    Ok(count(&text))
}

/// What an operator gives for two expressions, of which the left one is evaluated first.
#[cycle(running)]
fn evaluate_both(
    alloc: Global,
    context: &Context,
    progress: &mut Progress,
    operator: BinaryOperator,
    kind: Kind,
    left: &Value,
    right: &Value,
) -> Result<i64, Halt>
    ensures { Reports (λ n. n) result (evaluated (deeper context.now) (resolved.Binary operator kind (checked.value left.now) (checked.value right.now)) (world progress.old)) (world progress.new) }
{
    let first = evaluate(alloc, context, progress, left)?;
    let second = evaluate(alloc, context, progress, right)?;
    match combine(operator, kind, first, second) {
        Some(number) => Ok(number),
        None => Err(Halt::Stopped(Fault::Arithmetic)),
    }
}

/// Updates a variable that holds a number, which is read before the right operand is evaluated.
#[cycle(running)]
fn update_variable(
    alloc: Global,
    context: &Context,
    progress: &mut Progress,
    location: Location,
    update: Update,
    operand: &Value,
) -> Result<i64, Halt>
    ensures { Reports (λ n. n) result (evaluated (deeper context.now) (resolved.Update update.moment location update.operator update.computed update.kept (checked.value operand.now)) (world progress.old)) (world progress.new) }
{
    let old = held(progress, location);
    let right = evaluate(alloc, context, progress, operand)?;
    let new = renew(update, old, right)?;
    assign(progress, location, new);
    Ok(given_by(update.moment, old, new))
}

/// Calls the function with this number that gives this with what the expressions give.
#[cycle(running)]
fn invoke(
    alloc: Global,
    context: &Context,
    progress: &mut Progress,
    wanted: Gives,
    function: usize,
    arguments: &[Argument],
) -> Result<Answered, Halt>
    ensures { Reports answer_of result (invoked (deeper context.now) wanted function (checked.arguments arguments.now) (world progress.old)) (world progress.new) }
{
    let given = evaluate_all(alloc, context, progress, arguments)?;
    call(alloc, context, progress, wanted, function, 0, &given)
}

/// Gives a field of the object that an expression gives a number; the object is evaluated first.
#[cycle(running)]
fn assign_field(
    alloc: Global,
    context: &Context,
    progress: &mut Progress,
    object: &Reference,
    class: usize,
    index: usize,
    operand: &Value,
) -> Result<i64, Halt>
    ensures { Reports (λ n. n) result (evaluated (deeper context.now) (resolved.SetField (checked.reference object.now) class index (checked.value operand.now)) (world progress.old)) (world progress.new) }
{
    let number = refer(alloc, context, progress, object)?;
    let assigned = evaluate(alloc, context, progress, operand)?;
    set_field(context, progress, number, class, index, assigned)
}

/// Updates a field of the object that an expression gives, which is evaluated once; the field is read before the
/// right operand is evaluated.
#[cycle(running)]
fn update_field(
    alloc: Global,
    context: &Context,
    progress: &mut Progress,
    object: &Reference,
    class: usize,
    index: usize,
    update: Update,
    operand: &Value,
) -> Result<i64, Halt>
    ensures { Reports (λ n. n) result (evaluated (deeper context.now) (resolved.UpdateField update.moment (checked.reference object.now) class index update.operator update.computed update.kept (checked.value operand.now)) (world progress.old)) (world progress.new) }
{
    let number = refer(alloc, context, progress, object)?;
    let old = read_field(context, progress, number, class, index)?;
    let right = evaluate(alloc, context, progress, operand)?;
    let new = renew(update, old, right)?;
    let _ = set_field(context, progress, number, class, index, new)?;
    Ok(given_by(update.moment, old, new))
}

/// 1 where two expressions give different references, else 0.
#[cycle(running)]
fn compare(
    alloc: Global,
    context: &Context,
    progress: &mut Progress,
    left: &Reference,
    right: &Reference,
) -> Result<i64, Halt>
    ensures { Reports (λ n. n) result (evaluated (deeper context.now) (resolved.NotSame (checked.reference left.now) (checked.reference right.now)) (world progress.old)) (world progress.new) }
{
    let first = refer(alloc, context, progress, left)?;
    let second = refer(alloc, context, progress, right)?;
    Ok(difference(first, second))
}

/// The object that an expression gives, or nil. A temporary takes it, but for `nil` itself.
#[cycle(running)]
pub fn refer(
    alloc: Global,
    context: &Context,
    progress: &mut Progress,
    reference: &Reference,
) -> Result<usize, Halt>
    ensures { Reports (λ n. n) result (referred (deeper context.now) (checked.reference reference.now) (world progress.old)) (world progress.new) }
{
    match reference {
        Reference::Nil => Ok(0),
        Reference::Itself => {
            let itself = progress.frame.itself;
            take(progress, itself)
        }
        Reference::Variable(location) => {
            let object = name(progress, *location);
            take(progress, object)
        }
        Reference::ObjectConditional(test, first, second) => {
            if evaluate(alloc, context, progress, test)? == 0 {
                refer(alloc, context, progress, second)
            } else {
                refer(alloc, context, progress, first)
            }
        }
        Reference::AssignObject(location, operand) => {
            let object = refer(alloc, context, progress, operand)?;
            let replaced = store(progress, *location, object);
            release(alloc, context, progress, replaced)?;
            take(progress, object)
        }
        Reference::GetObjectField(object, class, index) => {
            let number = refer(alloc, context, progress, object)?;
            read_object_field(context, progress, number, *class, *index)
        }
        Reference::SetObjectField(object, class, index, operand) => {
            store_field(alloc, context, progress, object, *class, *index, operand)
        }
        Reference::Alloc(operand) => {
            let number = evaluate(alloc, context, progress, operand)?;
            make(alloc, context, progress, class_at(number))
        }
        Reference::New(from, operand) => {
            let class = evaluate(alloc, context, progress, operand)?;
            send_new(alloc, context, progress, *from, class)
        }
        Reference::ObjectCall(function, arguments) => {
            let wanted = Gives::Object;
            let answered = invoke(alloc, context, progress, wanted, *function, arguments)?;
            take(progress, answered.object)
        }
        Reference::ObjectSend(receiver, selector, arguments) => {
            let wanted = Gives::Object;
            let answered = send(
                alloc, context, progress, wanted, receiver, *selector, arguments,
            )?;
            take(progress, answered.object)
        }
    }
}

/// A field of the object that an expression gives names what another one gives; the object is evaluated first. What it
/// named before is dropped, and a temporary takes what it names now.
#[cycle(running)]
fn store_field(
    alloc: Global,
    context: &Context,
    progress: &mut Progress,
    object: &Reference,
    class: usize,
    index: usize,
    operand: &Reference,
) -> Result<usize, Halt>
    ensures { Reports (λ n. n) result (referred (deeper context.now) (resolved.SetObjectField (checked.reference object.now) class index (checked.reference operand.now)) (world progress.old)) (world progress.new) }
{
    let number = refer(alloc, context, progress, object)?;
    let named = refer(alloc, context, progress, operand)?;
    let replaced = replace_object_field(context, progress, number, class, index, named)?;
    release(alloc, context, progress, replaced)?;
    take(progress, named)
}

/// What the expressions give, from the first one on.
#[cycle(running)]
pub fn evaluate_all(
    alloc: Global,
    context: &Context,
    progress: &mut Progress,
    arguments: &[Argument],
) -> Result<Given, Halt>
    ensures { Reports given_of result (all_evaluated (deeper context.now) (checked.arguments arguments.now) (world progress.old)) (world progress.new) }
{
    let mut given = nothing(alloc);
    for argument in arguments {
        match argument {
            Argument::Number(value) => {
                let number = evaluate(alloc, context, progress, value)?;
                given.numbers.push(number)?;
            }
            Argument::Object(reference) => {
                let object = refer(alloc, context, progress, reference)?;
                given.objects.push(object)?;
            }
        }
    }
    Ok(given)
}
