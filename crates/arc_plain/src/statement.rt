//! What statements do, and how they are left.
ghost use Rattle.std.specs.Prelude.{option_map};
ghost use Rattle.arc_checked.specs.Checked as checked;
ghost use Rattle.arc_spec.specs.Resolved as resolved;
ghost use Rattle.arc_spec.specs.Meaning.{full_expression, begun, executed, all_executed, turns, looped};
ghost use Rattle.arc_ast.specs.declared.tree.Moment.TheVariants.{After};
ghost use Rattle.arc_plain.specs.Views.{world, nothing_of, Reports, flow_of, step_of, turn_of, deeper};

use crate::call::{drop_temporaries, drop_variables, release};
use crate::context::Context;
use crate::expression::{evaluate_whole, refer};
use crate::halt::Halt;
use crate::message::is_zero;
use crate::place::store;
use crate::progress::Progress;
use arc_ast::tree::Moment;
use arc_checked::program::{Command, Reference, Value};
use arc_spec::location::Location;
use std::alloc::Global;

/// How a statement was left: at its end, by a `break`, by a `continue`, or by a return with a value.
#[derive(Drop)]
pub enum Flow {
    Normal,
    Broken,
    Continued,
    Returned(i64),
}

/// Does what a statement says.
#[cycle(running)]
fn execute(
    alloc: Global,
    context: &Context,
    progress: &mut Progress,
    command: &Command,
) -> Result<Flow, Halt>
    ensures { Reports flow_of result (executed (deeper context.now) context.now.bound (checked.command command.now) (world progress.old)) (world progress.new) }
{
    match command {
        Command::Sequence(first, names, commands) => {
            execute_block(alloc, context, progress, *first, *names, commands)
        }
        Command::Evaluate(value) => {
            let _ = evaluate_whole(alloc, context, progress, value)?;
            Ok(Flow::Normal)
        }
        Command::EvaluateReference(value) => {
            let _ = refer(alloc, context, progress, value)?;
            drop_temporaries(alloc, context, progress)?;
            Ok(Flow::Normal)
        }
        Command::InitVariable(slot, value) => {
            begin(alloc, context, progress, *slot, value)?;
            Ok(Flow::Normal)
        }
        Command::Give(value) => {
            let slot = progress.frame.strong.len().saturating_sub(1);
            begin(alloc, context, progress, slot, value)?;
            Ok(Flow::Returned(0))
        }
        Command::Return(None) => Ok(Flow::Returned(0)),
        Command::Return(Some(value)) => {
            let number = evaluate_whole(alloc, context, progress, value)?;
            Ok(Flow::Returned(number))
        }
        Command::If(test, first, second) => {
            let number = evaluate_whole(alloc, context, progress, test)?;
            let branch = if is_zero(number) { second } else { first };
            execute(alloc, context, progress, branch)
        }
        Command::While(Moment::Before, test, step, body) => {
            repeat(alloc, context, progress, context.bound, test, step, body)
        }
        Command::While(Moment::After, test, step, body) => {
            repeat_after(alloc, context, progress, test, step, body)
        }
        Command::Break => Ok(Flow::Broken),
        Command::Continue => Ok(Flow::Continued),
    }
}

/// A variable, or the place of the result, begins with what an expression gives.
#[cycle(running)]
fn begin(
    alloc: Global,
    context: &Context,
    progress: &mut Progress,
    slot: usize,
    value: &Reference,
) -> Result<(), Halt>
    ensures { Reports nothing_of result (begun (deeper context.now) slot (checked.reference value.now) (world progress.old)) (world progress.new) }
{
    let object = refer(alloc, context, progress, value)?;
    let before = store(progress, Location::Local(slot), object);
    release(alloc, context, progress, before)?;
    drop_temporaries(alloc, context, progress)
}

/// Does what the statements of a block say, and drops its own variables, however it is left; a return leaves
/// them to the function.
#[cycle(running)]
fn execute_block(
    alloc: Global,
    context: &Context,
    progress: &mut Progress,
    first: usize,
    names: usize,
    commands: &[Command],
) -> Result<Flow, Halt>
    ensures { Reports flow_of result (executed (deeper context.now) context.now.bound (resolved.Sequence first names (checked.commands commands.now)) (world progress.old)) (world progress.new) }
{
    match execute_all(alloc, context, progress, commands)? {
        Flow::Returned(number) => Ok(Flow::Returned(number)),
        flow => {
            drop_variables(alloc, context, progress, first, names)?;
            Ok(flow)
        }
    }
}

/// Does what the statements say in turn, up to the first that isn't left at its end.
#[cycle(running)]
pub fn execute_all(
    alloc: Global,
    context: &Context,
    progress: &mut Progress,
    commands: &[Command],
) -> Result<Flow, Halt>
    ensures { Reports flow_of result (all_executed (deeper context.now) context.now.bound (checked.commands commands.now) (world progress.old)) (world progress.new) }
{
    for command in commands {
        match execute(alloc, context, progress, command)? {
            Flow::Normal => {}
            flow => return Ok(flow),
        }
    }
    Ok(Flow::Normal)
}

/// The step of a loop, after a turn of its body, and how the loop is left by it, if it is.
#[cycle(running)]
fn run_step(
    alloc: Global,
    context: &Context,
    progress: &mut Progress,
    step: &Command,
) -> Result<Option<Flow>, Halt>
    ensures { Reports (option_map flow_of) result (step_of (executed (deeper context.now) context.now.bound (checked.command step.now)) (world progress.old)) (world progress.new) }
{
    match execute(alloc, context, progress, step)? {
        Flow::Normal => Ok(None),
        flow => Ok(Some(flow)),
    }
}

/// One turn of a loop, with the step after it, and how the loop is left by it, if it is.
#[cycle(running)]
fn turn(
    alloc: Global,
    context: &Context,
    progress: &mut Progress,
    step: &Command,
    body: &Command,
) -> Result<Option<Flow>, Halt>
    ensures { let run = λ (c : resolved.Command). executed (deeper context.now) context.now.bound c in
        Reports (option_map flow_of) result (turn_of (step_of (run (checked.command step.now))) (run (checked.command body.now)) (world progress.old)) (world progress.new) }
{
    match execute(alloc, context, progress, body)? {
        Flow::Normal => run_step(alloc, context, progress, step),
        Flow::Continued => run_step(alloc, context, progress, step),
        Flow::Broken => Ok(Some(Flow::Normal)),
        Flow::Returned(number) => Ok(Some(Flow::Returned(number))),
    }
}

/// Does what the body says and then the step, and again while the test isn't 0, for no more turns than the bound.
#[cycle(running)]
fn repeat_after(
    alloc: Global,
    context: &Context,
    progress: &mut Progress,
    test: &Value,
    step: &Command,
    body: &Command,
) -> Result<Flow, Halt>
    ensures { let run = λ (c : resolved.Command). executed (deeper context.now) context.now.bound c in
        Reports flow_of result (looped After context.now.bound (full_expression (deeper context.now) (checked.value test.now)) (run (checked.command step.now)) (run (checked.command body.now)) (world progress.old)) (world progress.new) }
{
    let Some(more) = context.bound.checked_sub(1) else {
        return Err(Halt::Cut);
    };
    match turn(alloc, context, progress, step, body)? {
        Some(flow) => Ok(flow),
        None => repeat(alloc, context, progress, more, test, step, body),
    }
}

/// Does what the body says, and then the step, while the test isn't 0, for no more turns than these.
#[cycle(running)]
fn repeat(
    alloc: Global,
    context: &Context,
    progress: &mut Progress,
    most: u64,
    test: &Value,
    step: &Command,
    body: &Command,
) -> Result<Flow, Halt>
    ensures { let run = λ (c : resolved.Command). executed (deeper context.now) context.now.bound c in
        Reports flow_of result (turns most (full_expression (deeper context.now) (checked.value test.now)) (run (checked.command step.now)) (run (checked.command body.now)) (world progress.old)) (world progress.new) }
{
    for _ in 0..most {
        let number = evaluate_whole(alloc, context, progress, test)?;
        if is_zero(number) {
            return Ok(Flow::Normal);
        }
        if let Some(flow) = turn(alloc, context, progress, step, body)? {
            return Ok(flow);
        }
    }
    let number = evaluate_whole(alloc, context, progress, test)?;
    if is_zero(number) {
        Ok(Flow::Normal)
    } else {
        Err(Halt::Cut)
    }
}
