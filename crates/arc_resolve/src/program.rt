//! Builds the resolved functions and methods of a source that breaks no rule.
ghost use Rattle.std.specs.Prelude.{◌≡◌, ◌-◌, List, ◌++◌, None, IfOk, OnOk, option_map, take, length, map};
ghost use Rattle.std.specs.List.{flat_map, filter_map};
ghost use Rattle.std.specs.Option.{option_map_or};
ghost use Rattle.arc_ast.specs.Tree.{expr_tree, type_tree, variable_trees, parameter_trees, stmt_tree, stmt_trees, function_trees, method_trees, implementation_trees};
ghost use Rattle.arc_class.specs.Table.{number_of_class};
ghost use Rattle.arc_ast.specs.declared.tree.Moment.TheVariants.{Before};
ghost use Rattle.arc_spec.specs.Resolved.{Sequence, If, While};
ghost use Rattle.arc_spec.specs.Resolved as spec;
ghost use Rattle.arc_resolve.specs.private.ResolvedNodes.{ahead_of, function_of, functions_ahead, resolution, resolved_methods};
ghost use Rattle.arc_checked.specs.Checked as checked;
ghost use Rattle.arc_resolve.specs.SourceResolution as resolving;
ghost use Rattle.arc_resolve.specs.SourceResolution.{resolved_variables, resolved_stmt, resolved_stmts, resolved_body, resolved_function, resolved_method};
ghost use Rattle.arc_scope.specs.Scopes.{declare, leave, scope_after, scope_after_all, with_parameters, with_variables};
ghost use Rattle.arc_scope.specs.Views.{known_in, seen};

use crate::made::{boxed, keep};
use crate::resolution::{Resolution, as_part, number_part};
use crate::resolve::{expression, number_as, object};
use arc_ast::tree::{
    Expr, Function, Implementation, Kind, Method, Moment, Parameter, Stmt, TypeName, Variable,
};
use arc_checked::program::{CheckedFunction, Command, Value};
use arc_class::table::{ClassId, ClassTable};
use arc_scope::scope::{Visible, owned_in};
use arc_sites::parameter::named_parameters;
use arc_spec::class::gives_of;
use arc_spec::location::Location;
use std::alloc::{AllocError, Global};

/// A resolved return, of a number of the function's kind, or of an object, where it gives something.
fn returned<'a>(
    alloc: Global,
    table: &ClassTable<'a>,
    visible: &Visible<'a>,
    expr: &'a Option<Expr>,
) -> Result<Command, AllocError>
    ensures { IfOk result (λ new. checked.command new ≡ option_map_or (λ e. resolving.returned visible.now.result (resolving.resolved (seen table.now visible.now) e)) (option_map expr_tree expr.now) (spec.Return None)) }
{
    match expr {
        None => Ok(Command::Return(None)),
        Some(expr) => {
            if matches!(visible.result, Kind::Object) {
                return Ok(Command::Give(object(alloc, table, visible, expr)?));
            }
            let value = number_as(alloc, table, visible, visible.result, expr)?;
            Ok(Command::Return(Some(value)))
        }
    }
}

/// The command that puts the value into the variable of the number.
fn put(alloc: Global, number: u16, value: Value) -> Result<Command, AllocError>
    ensures { IfOk result (λ new. checked.command new ≡ resolving.put number (checked.value value)) }
{
    let value = boxed(alloc, value)?;
    Ok(Command::Evaluate(Value::AssignNumber(Location::Local(usize::from(number)), value)))
}

/// Appends what a declaration of the variable of the number runs, which is a number of the kind: it begins at 0, and then takes its value.
fn add_number<'a>(
    alloc: Global,
    table: &ClassTable<'a>,
    visible: &Visible<'a>,
    kind: Kind,
    number: u16,
    expr: &'a Option<Expr>,
    all: &mut Vec<Command>,
) -> Result<(), AllocError>
    ensures { OnOk result ((others : spec.Commands) → ahead_of all.new.items others
        ≡ ahead_of all.old.items (resolving.begun_number kind (seen table.now visible.now) number (option_map expr_tree expr.now) others)) }
{
    all.push(put(alloc, number, Value::Number(0))?)?;
    if let Some(expr) = expr {
        let value = number_as(alloc, table, visible, kind, expr)?;
        all.push(put(alloc, number, value)?)?;
    }
    Ok(())
}

/// Appends what a declaration of the variable of the number runs, which names objects: it names what is written.
fn add_object<'a>(
    alloc: Global,
    table: &ClassTable<'a>,
    visible: &Visible<'a>,
    number: u16,
    expr: &'a Option<Expr>,
    all: &mut Vec<Command>,
) -> Result<(), AllocError>
    ensures { OnOk result ((others : spec.Commands) → ahead_of all.new.items others
        ≡ ahead_of all.old.items (resolving.begun_object (seen table.now visible.now) number (option_map expr_tree expr.now) others)) }
{
    if let Some(expr) = expr {
        let object = object(alloc, table, visible, expr)?;
        all.push(Command::InitVariable(usize::from(number), object))?;
    }
    Ok(())
}

/// Declares the variable, and appends what its declaration runs.
fn add_variable<'a>(
    alloc: Global,
    table: &ClassTable<'a>,
    visible: &mut Visible<'a>,
    type_name: &'a TypeName,
    variable: &'a Variable,
    all: &mut Vec<Command>,
) -> Result<(), AllocError>
    ensures commands { OnOk result ((others : spec.Commands) → ahead_of all.new.items others
        ≡ ahead_of all.old.items (resolving.declared (type_tree type_name.now) (seen table.now visible.old) (seen table.now visible.new) (option_map expr_tree variable.now.initial) others)) }
    ensures scope { OnOk result (seen table.now visible.new ≡ declare variable.now.name.items (type_tree type_name.now) (seen table.now visible.old)) }
    ensures keeps { OnOk result (take (length visible.old.bound.items) visible.new.bound.items ≡ visible.old.bound.items) }
{
    let (next, names) = (visible.next, visible.names);
    visible.declare(table, type_name, &variable.name)?;
    let initial = &variable.initial;
    match type_name {
        TypeName::Bool => add_number(alloc, table, visible, Kind::Bool, next, initial, all),
        TypeName::Int => add_number(alloc, table, visible, Kind::Int, next, initial, all),
        TypeName::Long => add_number(alloc, table, visible, Kind::Long, next, initial, all),
        TypeName::Id | TypeName::Object(_, _) => {
            add_object(alloc, table, visible, names, initial, all)
        }
    }
}

/// A resolved declaration.
fn variables<'a>(
    alloc: Global,
    table: &ClassTable<'a>,
    visible: &mut Visible<'a>,
    type_name: &'a TypeName,
    declared: &'a [Variable],
) -> Result<Vec<Command>, AllocError>
    ensures commands { IfOk result (λ all. checked.commands all.items ≡ resolved_variables (type_tree type_name.now) (seen table.now visible.old) (variable_trees declared.now)) }
    ensures scope { OnOk result (seen table.now visible.new ≡ with_variables (type_tree type_name.now) (seen table.now visible.old) (variable_trees declared.now)) }
    ensures keeps { OnOk result (take (length visible.old.bound.items) visible.new.bound.items ≡ visible.old.bound.items) }
{
    let mut all = Vec::new(alloc);
    for variable in declared {
        add_variable(alloc, table, visible, type_name, variable, &mut all)?;
    }
    Ok(all)
}

/// A resolved declaration, as a statement.
fn declaration<'a>(
    alloc: Global,
    table: &ClassTable<'a>,
    visible: &mut Visible<'a>,
    type_name: &'a TypeName,
    declared: &'a [Variable],
) -> Result<Command, AllocError>
    ensures command { IfOk result (λ new. checked.command new ≡ Sequence 0 0 (resolved_variables (type_tree type_name.now) (seen table.now visible.old) (variable_trees declared.now))) }
    ensures scope { OnOk result (seen table.now visible.new ≡ with_variables (type_tree type_name.now) (seen table.now visible.old) (variable_trees declared.now)) }
    ensures keeps { OnOk result (take (length visible.old.bound.items) visible.new.bound.items ≡ visible.old.bound.items) }
{
    let all = variables(alloc, table, visible, type_name, declared)?;
    Ok(Command::Sequence(0, 0, all))
}

/// A statement that is an expression.
fn evaluated(of: Resolution) -> Command
    ensures { checked.command result ≡ resolving.evaluated (resolution of) }
{
    match of {
        Resolution::Gives(_, value) => Command::Evaluate(value),
        Resolution::Refers(object) => Command::EvaluateReference(object),
    }
}

/// A resolved expression, as a statement.
fn evaluation<'a>(
    alloc: Global,
    table: &ClassTable<'a>,
    visible: &Visible<'a>,
    expr: &'a Expr,
) -> Result<Command, AllocError>
    ensures { IfOk result (λ new. checked.command new ≡ resolving.evaluated (resolving.resolved (seen table.now visible.now) (expr_tree expr.now))) }
{
    let typed = expression(alloc, table, visible, expr)?;
    Ok(evaluated(typed.value))
}

/// A resolved test, in a box until its statement is there.
fn test<'a>(
    alloc: Global,
    table: &ClassTable<'a>,
    visible: &Visible<'a>,
    expr: &'a Expr,
) -> Result<Box<Value>, AllocError>
    ensures { IfOk result (λ new. checked.value new.value ≡ resolving.number_in (resolving.resolved (seen table.now visible.now) (expr_tree expr.now))) }
{
    let typed = expression(alloc, table, visible, expr)?;
    number_part(alloc, as_part(alloc, typed.value)?)
}

/// A statement that does nothing.
fn nothing(alloc: Global) -> Command
    ensures { checked.command result ≡ resolving.nothing }
{
    Command::Sequence(0, 0, Vec::new(alloc))
}

/// The resolved test of a `for`, which is 1 where there is none.
fn test_or_one<'a>(
    alloc: Global,
    table: &ClassTable<'a>,
    visible: &Visible<'a>,
    expr: &'a Option<Expr>,
) -> Result<Box<Value>, AllocError>
    ensures { IfOk result (λ new. checked.value new.value ≡ resolving.tested (seen table.now visible.now) (option_map expr_tree expr.now)) }
{
    match expr {
        None => boxed(alloc, Value::Number(1)),
        Some(expr) => test(alloc, table, visible, expr),
    }
}

/// The resolved step of a `for`, which does nothing where there is none.
fn step_or_nothing<'a>(
    alloc: Global,
    table: &ClassTable<'a>,
    visible: &Visible<'a>,
    expr: &'a Option<Expr>,
) -> Result<Box<Command>, AllocError>
    ensures { IfOk result (λ new. checked.command new.value ≡ resolving.stepped (seen table.now visible.now) (option_map expr_tree expr.now)) }
{
    match expr {
        None => boxed(alloc, nothing(alloc)),
        Some(expr) => boxed(alloc, evaluation(alloc, table, visible, expr)?),
    }
}

/// A resolved statement that is a scope of its own.
#[cycle(commands)]
fn scoped<'a>(
    alloc: Global,
    table: &ClassTable<'a>,
    visible: &mut Visible<'a>,
    inner: &'a Stmt,
) -> Result<Box<Command>, AllocError>
    ensures command { IfOk result (λ new. checked.command new.value ≡ resolved_stmt (seen table.now visible.old) (stmt_tree inner.now)) }
    ensures scope { OnOk result (seen table.now visible.new ≡ leave (seen table.now visible.old) (scope_after (seen table.now visible.old) (stmt_tree inner.now))) }
    ensures keeps { OnOk result (visible.new.bound.items ≡ visible.old.bound.items) }
{
    let count = visible.bound.len();
    let new = command(alloc, table, visible, inner)?;
    let new = boxed(alloc, new)?;
    visible.leave(count);
    Ok(new)
}

/// A resolved block.
#[cycle(commands)]
fn block<'a>(
    alloc: Global,
    table: &ClassTable<'a>,
    visible: &mut Visible<'a>,
    statements: &'a [Stmt],
) -> Result<Command, AllocError>
    ensures command { IfOk result (λ new. checked.command new
        ≡ Sequence (seen table.now visible.old).names ((scope_after_all (seen table.now visible.old) (stmt_trees statements.now)).names - (seen table.now visible.old).names) (resolved_stmts (seen table.now visible.old) (stmt_trees statements.now))) }
    ensures scope { OnOk result (seen table.now visible.new ≡ leave (seen table.now visible.old) (scope_after_all (seen table.now visible.old) (stmt_trees statements.now))) }
    ensures keeps { OnOk result (visible.new.bound.items ≡ visible.old.bound.items) }
{
    let count = visible.bound.len();
    let first = usize::from(visible.names);
    let all = commands(alloc, table, visible, statements)?;
    visible.leave(count);
    let own = usize::from(visible.names).saturating_sub(first);
    Ok(Command::Sequence(first, own, all))
}

/// A resolved choice without `else`, which does nothing where its test fails.
#[cycle(commands)]
fn chosen_or_nothing<'a>(
    alloc: Global,
    table: &ClassTable<'a>,
    visible: &mut Visible<'a>,
    condition: &'a Expr,
    then: &'a Stmt,
) -> Result<Command, AllocError>
    ensures command { IfOk result (λ new. checked.command new
        ≡ If (resolving.number_in (resolving.resolved (seen table.now visible.old) (expr_tree condition.now))) (resolved_stmt (seen table.now visible.old) (stmt_tree then.now)) resolving.nothing) }
    ensures scope { OnOk result (seen table.now visible.new ≡ leave (seen table.now visible.old) (scope_after (seen table.now visible.old) (stmt_tree then.now))) }
    ensures keeps { OnOk result (visible.new.bound.items ≡ visible.old.bound.items) }
{
    let test = test(alloc, table, visible, condition)?;
    let then = scoped(alloc, table, visible, then)?;
    let other = boxed(alloc, nothing(alloc))?;
    Ok(Command::If(Box::into_inner(test), then, other))
}

/// A resolved choice with `else`.
#[cycle(commands)]
fn chosen<'a>(
    alloc: Global,
    table: &ClassTable<'a>,
    visible: &mut Visible<'a>,
    condition: &'a Expr,
    then: &'a Stmt,
    other: &'a Stmt,
) -> Result<Command, AllocError>
    ensures command { IfOk result (λ new. checked.command new
        ≡ If (resolving.number_in (resolving.resolved (seen table.now visible.old) (expr_tree condition.now))) (resolved_stmt (seen table.now visible.old) (stmt_tree then.now))
        (resolved_stmt (leave (seen table.now visible.old) (scope_after (seen table.now visible.old) (stmt_tree then.now))) (stmt_tree other.now))) }
    ensures scope { OnOk result (seen table.now visible.new
        ≡ leave (seen table.now visible.old) (scope_after (leave (seen table.now visible.old) (scope_after (seen table.now visible.old) (stmt_tree then.now))) (stmt_tree other.now))) }
    ensures keeps { OnOk result (visible.new.bound.items ≡ visible.old.bound.items) }
{
    let test = test(alloc, table, visible, condition)?;
    let then = scoped(alloc, table, visible, then)?;
    let other = scoped(alloc, table, visible, other)?;
    Ok(Command::If(Box::into_inner(test), then, other))
}

/// A resolved loop, which is tested before or after each turn of its body.
#[cycle(commands)]
fn repeated<'a>(
    alloc: Global,
    table: &ClassTable<'a>,
    visible: &mut Visible<'a>,
    moment: Moment,
    condition: &'a Expr,
    body: &'a Stmt,
) -> Result<Command, AllocError>
    ensures command { IfOk result (λ new. checked.command new
        ≡ While moment (resolving.number_in (resolving.resolved (seen table.now visible.old) (expr_tree condition.now))) resolving.nothing (resolved_stmt (seen table.now visible.old) (stmt_tree body.now))) }
    ensures scope { OnOk result (seen table.now visible.new ≡ leave (seen table.now visible.old) (scope_after (seen table.now visible.old) (stmt_tree body.now))) }
    ensures keeps { OnOk result (visible.new.bound.items ≡ visible.old.bound.items) }
{
    let test = test(alloc, table, visible, condition)?;
    let body = scoped(alloc, table, visible, body)?;
    let step = boxed(alloc, nothing(alloc))?;
    Ok(Command::While(moment, Box::into_inner(test), step, body))
}

/// The resolved loop of a `for`, without what comes before it.
#[cycle(commands)]
fn turns<'a>(
    alloc: Global,
    table: &ClassTable<'a>,
    visible: &mut Visible<'a>,
    test: &'a Option<Expr>,
    step: &'a Option<Expr>,
    body: &'a Stmt,
) -> Result<Command, AllocError>
    ensures command { IfOk result (λ new. checked.command new
        ≡ While Before (resolving.tested (seen table.now visible.old) (option_map expr_tree test.now)) (resolving.stepped (seen table.now visible.old) (option_map expr_tree step.now)) (resolved_stmt (seen table.now visible.old) (stmt_tree body.now))) }
    ensures scope { OnOk result (seen table.now visible.new ≡ leave (seen table.now visible.old) (scope_after (seen table.now visible.old) (stmt_tree body.now))) }
    ensures keeps { OnOk result (visible.new.bound.items ≡ visible.old.bound.items) }
{
    let test = test_or_one(alloc, table, visible, test)?;
    let step = step_or_nothing(alloc, table, visible, step)?;
    let body = scoped(alloc, table, visible, body)?;
    Ok(Command::While(Moment::Before, Box::into_inner(test), step, body))
}

/// A resolved `for`.
#[cycle(commands)]
fn stepped<'a>(
    alloc: Global,
    table: &ClassTable<'a>,
    visible: &mut Visible<'a>,
    beginning: &'a Stmt,
    test: &'a Option<Expr>,
    step: &'a Option<Expr>,
    body: &'a Stmt,
) -> Result<Command, AllocError>
    ensures command { let s = seen table.now visible.old in let own = scope_after s (stmt_tree beginning.now) in
        IfOk result (λ new. checked.command new ≡ resolving.with_loop s own (resolved_stmt s (stmt_tree beginning.now))
        (While Before (resolving.tested own (option_map expr_tree test.now)) (resolving.stepped own (option_map expr_tree step.now)) (resolved_stmt own (stmt_tree body.now)))) }
    ensures scope { let s = seen table.now visible.old in OnOk result (seen table.now visible.new ≡ leave s (scope_after (scope_after s (stmt_tree beginning.now)) (stmt_tree body.now))) }
    ensures keeps { OnOk result (visible.new.bound.items ≡ visible.old.bound.items) }
{
    let count = visible.bound.len();
    let first = usize::from(visible.names);
    let mut all = Vec::new(alloc);
    keep(&mut all, command(alloc, table, visible, beginning)?)?;
    let own = usize::from(visible.names).saturating_sub(first);
    keep(&mut all, turns(alloc, table, visible, test, step, body)?)?;
    visible.leave(count);
    Ok(Command::Sequence(first, own, all))
}

/// A resolved statement.
#[cycle(commands)]
fn command<'a>(
    alloc: Global,
    table: &ClassTable<'a>,
    visible: &mut Visible<'a>,
    statement: &'a Stmt,
) -> Result<Command, AllocError>
    ensures command { IfOk result (λ new. checked.command new ≡ resolved_stmt (seen table.now visible.old) (stmt_tree statement.now)) }
    ensures scope { OnOk result (seen table.now visible.new ≡ scope_after (seen table.now visible.old) (stmt_tree statement.now)) }
    ensures keeps { OnOk result (take (length visible.old.bound.items) visible.new.bound.items ≡ visible.old.bound.items) }
{
    match statement {
        Stmt::Block(_, all) => block(alloc, table, visible, all),
        Stmt::Empty(_) => Ok(nothing(alloc)),
        Stmt::Expr(expr) => evaluation(alloc, table, visible, expr),
        Stmt::Return(_, expr) => returned(alloc, table, visible, expr),
        Stmt::Variables(_, _, type_name, all) => declaration(alloc, table, visible, type_name, all),
        Stmt::If(_, condition, then) => {
            chosen_or_nothing(alloc, table, visible, condition, then)
        }
        Stmt::IfElse(_, condition, then, other) => {
            chosen(alloc, table, visible, condition, then, other)
        }
        Stmt::While(_, moment, condition, body) => {
            repeated(alloc, table, visible, *moment, condition, body)
        }
        Stmt::For(_, beginning, test, step, body) => {
            stepped(alloc, table, visible, beginning, test, step, body)
        }
        Stmt::Break(_) => Ok(Command::Break),
        Stmt::Continue(_) => Ok(Command::Continue),
    }
}

/// Resolved statements.
#[cycle(commands)]
fn commands<'a>(
    alloc: Global,
    table: &ClassTable<'a>,
    visible: &mut Visible<'a>,
    statements: &'a [Stmt],
) -> Result<Vec<Command>, AllocError>
    ensures commands { IfOk result (λ all. checked.commands all.items ≡ resolved_stmts (seen table.now visible.old) (stmt_trees statements.now)) }
    ensures scope { OnOk result (seen table.now visible.new ≡ scope_after_all (seen table.now visible.old) (stmt_trees statements.now)) }
    ensures keeps { OnOk result (take (length visible.old.bound.items) visible.new.bound.items ≡ visible.old.bound.items) }
{
    let mut all = Vec::new(alloc);
    for statement in statements {
        keep(&mut all, command(alloc, table, visible, statement)?)?;
    }
    Ok(all)
}

/// The resolved function with the parameters and the body, from what is visible before them.
fn function<'a>(
    alloc: Global,
    table: &ClassTable<'a>,
    mut visible: Visible<'a>,
    named: &'a [Parameter],
    body: &'a [Stmt],
) -> Result<CheckedFunction, AllocError>
    ensures { IfOk result (λ new. function_of new
        ≡ resolved_body (with_parameters (seen table.now visible.entry) (parameter_trees named.now)) (stmt_trees body.now)) }
{
    visible.declare_parameters(table, named)?;
    let parameters = usize::from(visible.names).saturating_sub(usize::from(owned_in(visible.owns)));
    let body = commands(alloc, table, &mut visible, body)?;
    Ok(CheckedFunction {
        slots: usize::from(visible.next),
        names: usize::from(visible.names),
        parameters,
        gives: gives_of(visible.result),
        owns: visible.owns,
        body,
    })
}

/// The resolved functions with a body.
pub fn functions<'a>(
    alloc: Global,
    table: &ClassTable<'a>,
    declared: &'a [Function],
) -> Result<Vec<CheckedFunction>, AllocError>
    ensures { IfOk result (λ all. checked.functions all.items ≡ filter_map (resolved_function (known_in table.now)) (function_trees declared.now)) }
{
    let mut all = Vec::new(alloc);
    for one in declared {
        if let Some(body) = &one.body {
            let named = named_parameters(&one.parameters);
            let visible = Visible::new(alloc, one.result.kind());
            keep(&mut all, function(alloc, table, visible, named, body)?)?;
        }
    }
    Ok(all)
}

/// Appends the resolved methods of the class.
fn add_methods<'a>(
    alloc: Global,
    table: &ClassTable<'a>,
    class: Option<ClassId>,
    methods: &'a [Method],
    all: &mut Vec<CheckedFunction>,
) -> Result<(), AllocError>
    ensures { OnOk result ((others : List spec.Function) → functions_ahead all.new.items others
        ≡ functions_ahead all.old.items (map (resolved_method (known_in table.now) (option_map number_of_class class)) (method_trees methods.now) ++ others)) }
{
    for one in methods {
        let visible = Visible::in_method(alloc, class, &one.head);
        keep(
            all,
            function(alloc, table, visible, &one.head.parameters, &one.body)?,
        )?;
    }
    Ok(())
}

/// Appends the resolved methods of the implementations.
pub fn add_implementations<'a>(
    alloc: Global,
    table: &ClassTable<'a>,
    implementations: &'a [Implementation],
    all: &mut Vec<CheckedFunction>,
) -> Result<(), AllocError>
    ensures { OnOk result (checked.functions all.new.items
        ≡ checked.functions all.old.items ++ flat_map (resolved_methods (known_in table.now)) (implementation_trees implementations.now)) }
{
    for one in implementations {
        let class = table.objc_get_class(&one.name);
        add_methods(alloc, table, class, &one.methods, all)?;
    }
    Ok(())
}
