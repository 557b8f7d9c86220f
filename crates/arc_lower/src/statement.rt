//! From statements to actions.
ghost use Rattle.std.specs.Prelude.{◌≡◌, ℕ, ◌+◌, ◌<◌, List, [], ◌∷◌, ◌++◌, length, reverse, OnOk, IfOk, option_map};
ghost use Rattle.arc_spec.specs.Resolved.{Program, Sequence, Return, Give, Break, Continue};
ghost use Rattle.arc_checked.specs.Checked.{value as value_of, reference as reference_of, command, commands, program_of};
ghost use Rattle.arc_code.specs.declared.instr.Op.TheVariants.{Pop};
ghost use Rattle.arc_code.specs.declared.instr.Instr.TheVariants.{Plain, Jump, JumpZero};
ghost use Rattle.arc_ir.specs.declared.action.Target.TheVariants.{At, Skip};
ghost use Rattle.arc_lower.specs.PlainActions.{plain_actions};
ghost use Rattle.arc_lower.specs.Lowered.{full_expression_actions, full_object_expression_actions, begin_actions, answer_actions, scopes_actions, command_actions, commands_actions};
ghost use Rattle.arc_lower.specs.Size.{unused, does_nothing};
ghost use Rattle.arc_lower.specs.private.StatementActions.{surroundings, begins_first, step_begin, own_step, step_actions, turn_actions_of, with_turn, with_entry};

use crate::expression::{append, append_reference, append_unused, append_value};
use crate::frame::{Body, Scope, StackShape, Turn};
use crate::jump::{distance, join, replace};
use crate::place::{append_all_empty, append_drops, append_forget, append_store, take_some};
use arc_ast::tree::Moment;
use arc_checked::program::{Checked, Command, Reference, Value};
use arc_code::instr::{Instr, Op};
use arc_ir::action::{Action, Target};
use arc_spec::event::NoMemory;
use arc_spec::location::Location;
use std::alloc::Global;

/// Appends the actions of a full-expression that gives a number.
#[tactic(auto, using(crate::proofs::ActionLists::slice_after, std::proofs::lemmas::Grind::common_steps))]
fn append_full_expression(
    alloc: Global,
    actions: &mut Vec<Action>,
    program: &Checked,
    body: Body,
    expression: &Value,
) -> Result<(), NoMemory>
    ensures { OnOk result (plain_actions actions.new.items ≡ plain_actions actions.old.items ++ full_expression_actions (program_of program.now) body.slots body.names (value_of expression.now)) }
{
    let frame = StackShape {
        slots: body.slots,
        names: body.names,
        operands: 0,
    };
    let begin = actions.len();
    append_value(alloc, actions, program, frame, expression)?;
    let taken = take_some(&actions[begin..]);
    append_drops(actions, taken)
}

/// Appends the actions of a full-expression whose number nobody uses, and the one that takes it.
#[tactic(auto, using(crate::proofs::ActionLists::slice_after, std::proofs::lemmas::Grind::common_steps))]
fn append_evaluated(
    alloc: Global,
    actions: &mut Vec<Action>,
    program: &Checked,
    body: Body,
    expression: &Value,
) -> Result<(), NoMemory>
    ensures { OnOk result (plain_actions actions.new.items ≡ plain_actions actions.old.items ++ (full_expression_actions (program_of program.now) body.slots body.names (unused (value_of expression.now)) ++ Plain Pop ∷ [])) }
{
    let frame = StackShape {
        slots: body.slots,
        names: body.names,
        operands: 0,
    };
    let begin = actions.len();
    append_unused(alloc, actions, program, frame, expression)?;
    let taken = take_some(&actions[begin..]);
    append_drops(actions, taken)?;
    append(actions, Instr::Plain(Op::Pop))
}

/// Appends the actions of a full-expression that gives an object or nil.
#[tactic(auto, using(crate::proofs::ActionLists::slice_after, std::proofs::lemmas::Grind::common_steps))]
fn append_full_object_expression(
    alloc: Global,
    actions: &mut Vec<Action>,
    program: &Checked,
    body: Body,
    expression: &Reference,
) -> Result<(), NoMemory>
    ensures { OnOk result (plain_actions actions.new.items ≡ plain_actions actions.old.items ++ full_object_expression_actions (program_of program.now) body.slots body.names (reference_of expression.now)) }
{
    let frame = StackShape {
        slots: body.slots,
        names: body.names,
        operands: 0,
    };
    let begin = actions.len();
    append_reference(alloc, actions, program, frame, expression)?;
    let taken = take_some(&actions[begin..]);
    append_forget(actions, taken)
}

/// Appends the actions by which a variable begins with an object or nil.
#[tactic(auto, using(crate::proofs::ActionLists::slice_after, std::proofs::lemmas::Grind::common_steps))]
fn append_init_variable(
    alloc: Global,
    actions: &mut Vec<Action>,
    program: &Checked,
    body: Body,
    index: usize,
    expression: &Reference,
) -> Result<(), NoMemory>
    ensures { OnOk result (plain_actions actions.new.items ≡ plain_actions actions.old.items ++ begin_actions (program_of program.now) body.slots body.names index (reference_of expression.now)) }
{
    let frame = StackShape {
        slots: body.slots,
        names: body.names,
        operands: 0,
    };
    let begin = actions.len();
    append_reference(alloc, actions, program, frame, expression)?;
    let taken = take_some(&actions[begin..]);
    append_store(actions, body.names, Location::Local(index))?;
    append_forget(actions, taken)
}

/// Appends the actions of a statement in a function, within the scopes that stand between it and the
/// function, or the body of the loop; the innermost is the last one.
#[cycle(statement)]
pub(crate) fn append_command(
    alloc: Global,
    actions: &mut Vec<Action>,
    program: &Checked,
    body: Body,
    scopes: &mut Vec<Scope>,
    statement: &Command,
) -> Result<(), NoMemory>
    ensures actions { OnOk result (plain_actions actions.new.items ≡ plain_actions actions.old.items ++ command_actions (program_of program.now) body.slots body.names (length (plain_actions actions.old.items)) (surroundings body scopes.old.items) (command statement.now)) }
    ensures scopes { OnOk result (scopes.new.items ≡ scopes.old.items) }
{
    match statement {
        Command::Sequence(first, count, all) => {
            let scope = Scope {
                first: *first,
                count: *count,
            };
            append_sequence(alloc, actions, program, body, scopes, scope, all)
        }
        Command::Evaluate(value) => append_evaluated(alloc, actions, program, body, value),
        Command::EvaluateReference(reference) => {
            append_full_object_expression(alloc, actions, program, body, reference)
        }
        Command::InitVariable(index, reference) => {
            append_init_variable(alloc, actions, program, body, *index, reference)
        }
        Command::Return(value) => append_return(alloc, actions, program, body, value),
        Command::Give(object) => append_give(alloc, actions, program, body, object),
        Command::If(test, first, second) => {
            append_full_expression(alloc, actions, program, body, test)?;
            let branch = actions.len();
            append(actions, Instr::JumpZero(Target::Skip(0)))?;
            append_command(alloc, actions, program, body, scopes, first)?;
            let skip = actions.len();
            append(actions, Instr::Jump(Target::Skip(0)))?;
            let other = actions.len();
            append_command(alloc, actions, program, body, scopes, second)?;
            join(actions, branch, skip, other)
        }
        Command::While(moment, test, step, turn) => {
            let enter = actions.len();
            let begin = append_step(alloc, actions, program, body, scopes, *moment, step)?;
            let out = append_test(alloc, actions, program, body, test)?;
            append_turn(alloc, actions, program, body, Turn { begin, out }, turn)?;
            enter_loop(actions, *moment, enter, out)
        }
        Command::Break => append_break(actions, body, scopes),
        Command::Continue => append_continue(actions, body, scopes),
    }
}

/// Appends the actions of a block, whose variables are emptied at its end.
#[cycle(statement)]
fn append_sequence(
    alloc: Global,
    actions: &mut Vec<Action>,
    program: &Checked,
    body: Body,
    scopes: &mut Vec<Scope>,
    scope: Scope,
    all: &[Command],
) -> Result<(), NoMemory>
    ensures actions { OnOk result (plain_actions actions.new.items ≡ plain_actions actions.old.items ++ command_actions (program_of program.now) body.slots body.names (length (plain_actions actions.old.items)) (surroundings body scopes.old.items) (Sequence scope.first scope.count (commands all.now))) }
    ensures scopes { OnOk result (scopes.new.items ≡ scopes.old.items) }
{
    scopes.push(scope)?;
    append_commands(alloc, actions, program, body, scopes, all)?;
    scopes.pop();
    append_all_empty(actions, body.names, scope.first, scope.count)
}

/// Where a loop begins with its body, the action at `enter` goes over all up to the action at `out`, with which the
/// test leaves the loop.
fn enter_loop(
    actions: &mut Vec<Action>,
    moment: Moment,
    enter: usize,
    out: usize,
) -> Result<(), NoMemory>
    requires { enter < length (plain_actions actions.old.items) }
    ensures { OnOk result (plain_actions actions.new.items ≡ with_entry moment enter out (plain_actions actions.old.items)) }
{
    match moment {
        Moment::Before => Ok(()),
        Moment::After => {
            let over = distance(enter, out)?;
            replace(actions, enter, Instr::Jump(Target::Skip(over)));
            Ok(())
        }
    }
}

/// Appends the actions of a loop's step, where there is one.
#[cycle(statement)]
fn append_own_step(
    alloc: Global,
    actions: &mut Vec<Action>,
    program: &Checked,
    body: Body,
    scopes: &mut Vec<Scope>,
    step: &Command,
) -> Result<(), NoMemory>
    ensures actions { OnOk result (plain_actions actions.new.items ≡ plain_actions actions.old.items ++ own_step (program_of program.now) body scopes.old.items (length (plain_actions actions.old.items)) (command step.now)) }
    ensures scopes { OnOk result (scopes.new.items ≡ scopes.old.items) }
{
    if does_nothing(step) {
        return Ok(());
    }
    append_command(alloc, actions, program, body, scopes, step)
}

/// Appends the actions of a loop's step, where there is one, and before them the jump over them to the test, unless
/// the loop begins there. The result is the number of the action with which a turn begins.
#[cycle(statement)]
fn append_step(
    alloc: Global,
    actions: &mut Vec<Action>,
    program: &Checked,
    body: Body,
    scopes: &mut Vec<Scope>,
    moment: Moment,
    step: &Command,
) -> Result<usize, NoMemory>
    ensures begin { IfOk result (λ begin. begin ≡ step_begin moment (length (plain_actions actions.old.items)) (command step.now)) }
    ensures actions { OnOk result (plain_actions actions.new.items ≡ plain_actions actions.old.items ++ step_actions moment (program_of program.now) body scopes.old.items (length (plain_actions actions.old.items)) (command step.now)) }
    ensures scopes { OnOk result (scopes.new.items ≡ scopes.old.items) }
{
    let enter = actions.len();
    if begins_first(moment, step) {
        return Ok(enter);
    }
    append(actions, Instr::Jump(Target::Skip(0)))?;
    let begin = actions.len();
    append_own_step(alloc, actions, program, body, scopes, step)?;
    let steps = distance(begin, actions.len())?;
    replace(actions, enter, Instr::Jump(Target::Skip(steps)));
    Ok(begin)
}

/// Appends the actions of a loop's body and the jump back to where a turn begins; the action at
/// `turn.out`, with which the test leaves the loop, goes over them.
#[cycle(statement)]
fn append_turn(
    alloc: Global,
    actions: &mut Vec<Action>,
    program: &Checked,
    body: Body,
    turn: Turn,
    statement: &Command,
) -> Result<(), NoMemory>
    requires { turn.out < length (plain_actions actions.old.items) }
    ensures { OnOk result (plain_actions actions.new.items ≡ with_turn (plain_actions actions.old.items) turn (turn_actions_of (program_of program.now) body turn (length (plain_actions actions.old.items)) (command statement.now))) }
{
    let inner = Body {
        turn: Some(turn),
        ..body
    };
    append_command(
        alloc,
        actions,
        program,
        inner,
        &mut Vec::new(alloc),
        statement,
    )?;
    let again = actions.len();
    let past_body = distance(turn.out, again)?;
    let back = distance(turn.begin, again)?;
    append(actions, Instr::Jump(Target::Back(back)))?;
    replace(actions, turn.out, Instr::JumpZero(Target::Skip(past_body)));
    Ok(())
}

/// Appends the actions of statements, in their order.
#[cycle(statement)]
pub(crate) fn append_commands(
    alloc: Global,
    actions: &mut Vec<Action>,
    program: &Checked,
    body: Body,
    scopes: &mut Vec<Scope>,
    all: &[Command],
) -> Result<(), NoMemory>
    ensures actions { OnOk result (plain_actions actions.new.items ≡ plain_actions actions.old.items ++ commands_actions (program_of program.now) body.slots body.names (length (plain_actions actions.old.items)) (surroundings body scopes.old.items) (commands all.now)) }
    ensures scopes { OnOk result (scopes.new.items ≡ scopes.old.items) }
{
    for statement in all {
        append_command(alloc, actions, program, body, scopes, statement)?;
    }
    Ok(())
}

/// Appends the actions of a loop's test, and the one that leaves the loop by what the test leaves, which
/// goes nowhere yet; and the number of that one.
fn append_test(
    alloc: Global,
    actions: &mut Vec<Action>,
    program: &Checked,
    body: Body,
    test: &Value,
) -> Result<usize, NoMemory>
    ensures out { IfOk result (λ out. out ≡ length (plain_actions actions.old.items) + length (full_expression_actions (program_of program.now) body.slots body.names (value_of test.now))) }
    ensures actions { OnOk result (plain_actions actions.new.items ≡ plain_actions actions.old.items ++ (full_expression_actions (program_of program.now) body.slots body.names (value_of test.now) ++ JumpZero (Skip 0) ∷ [])) }
{
    append_full_expression(alloc, actions, program, body, test)?;
    let out = actions.len();
    append(actions, Instr::JumpZero(Target::Skip(0)))?;
    Ok(out)
}

/// Whether a statement is one that does nothing.
fn does_nothing(statement: &Command) -> bool
    ensures { result ≡ does_nothing (command statement.now) }
{
    match statement {
        Command::Sequence(_, count, all) => *count == 0 && all.is_empty(),
        _ => false,
    }
}

/// Whether a loop begins with what comes first: its step, which does nothing, and its test.
fn begins_first(moment: Moment, step: &Command) -> bool
    ensures { result ≡ begins_first moment (does_nothing (command step.now)) }
{
    match moment {
        Moment::Before => does_nothing(step),
        Moment::After => false,
    }
}

/// Appends the actions that empty the variables of these scopes, the last one first.
fn append_clears(actions: &mut Vec<Action>, names: usize, scopes: &[Scope]) -> Result<(), NoMemory>
    ensures { OnOk result (plain_actions actions.new.items ≡ plain_actions actions.old.items ++ scopes_actions names (reverse scopes.now)) }
{
    let Some((scope, outer)) = scopes.split_last() else {
        return Ok(());
    };
    append_all_empty(actions, names, scope.first, scope.count)?;
    append_clears(actions, names, outer)
}

/// Appends the actions of a `break`, which goes to the loop's test with 0; in no loop it leaves the
/// function.
fn append_break(actions: &mut Vec<Action>, body: Body, scopes: &[Scope]) -> Result<(), NoMemory>
    ensures { (P : Program) (here : ℕ) → OnOk result (plain_actions actions.new.items ≡ plain_actions actions.old.items ++ command_actions P body.slots body.names here (surroundings body scopes.now) Break) }
{
    append_clears(actions, body.names, scopes)?;
    append(actions, Instr::Plain(Op::Num(0)))?;
    match body.turn {
        Some(turn) => append(actions, Instr::Jump(Target::At(turn.out))),
        None => append_exit(actions, body),
    }
}

/// Appends the actions of a `continue`, which goes to where the loop's next turn begins; in no loop it
/// leaves the function.
fn append_continue(actions: &mut Vec<Action>, body: Body, scopes: &[Scope]) -> Result<(), NoMemory>
    ensures { (P : Program) (here : ℕ) → OnOk result (plain_actions actions.new.items ≡ plain_actions actions.old.items ++ command_actions P body.slots body.names here (surroundings body scopes.now) Continue) }
{
    append_clears(actions, body.names, scopes)?;
    match body.turn {
        Some(turn) => append(actions, Instr::Jump(Target::At(turn.begin))),
        None => {
            append(actions, Instr::Plain(Op::Num(0)))?;
            append_exit(actions, body)
        }
    }
}

/// Appends the actions of a return, which gives 0 where it has no value.
fn append_return(
    alloc: Global,
    actions: &mut Vec<Action>,
    program: &Checked,
    body: Body,
    value: &Option<Value>,
) -> Result<(), NoMemory>
    ensures { (scopes : List Scope) → OnOk result (plain_actions actions.new.items ≡ plain_actions actions.old.items ++ command_actions (program_of program.now) body.slots body.names (length (plain_actions actions.old.items)) (surroundings body scopes) (Return (option_map value_of value.now))) }
{
    match value {
        None => append(actions, Instr::Plain(Op::Num(0)))?,
        Some(value) => append_full_expression(alloc, actions, program, body, value)?,
    }
    append_exit(actions, body)
}

/// Appends the actions by which the place of the result takes an object or nil.
fn append_answer(
    alloc: Global,
    actions: &mut Vec<Action>,
    program: &Checked,
    body: Body,
    expression: &Reference,
) -> Result<(), NoMemory>
    ensures { OnOk result (plain_actions actions.new.items ≡ plain_actions actions.old.items ++ answer_actions (program_of program.now) body.slots body.names (reference_of expression.now)) }
{
    append_init_variable(
        alloc,
        actions,
        program,
        body,
        body.names.saturating_sub(1),
        expression,
    )
}

/// Appends the actions of a return of an object or nil.
fn append_give(
    alloc: Global,
    actions: &mut Vec<Action>,
    program: &Checked,
    body: Body,
    object: &Reference,
) -> Result<(), NoMemory>
    ensures { (scopes : List Scope) → OnOk result (plain_actions actions.new.items ≡ plain_actions actions.old.items ++ command_actions (program_of program.now) body.slots body.names (length (plain_actions actions.old.items)) (surroundings body scopes) (Give (reference_of object.now))) }
{
    append_answer(alloc, actions, program, body, object)?;
    append(actions, Instr::Plain(Op::Num(0)))?;
    append_exit(actions, body)
}

/// Appends the action by which a function is left.
fn append_exit(actions: &mut Vec<Action>, body: Body) -> Result<(), NoMemory>
    ensures { OnOk result (plain_actions actions.new.items ≡ plain_actions actions.old.items ++ Jump (At body.exit) ∷ []) }
{
    append(actions, Instr::Jump(Target::At(body.exit)))
}
