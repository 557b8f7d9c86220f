//! Finds the first rule that is broken in the functions of a source.
ghost use Rattle.std.specs.Prelude.{◌≡◌, true, false, [], ◌++◌, IfOk, OnOk, nat_lt, not, option_map, take, length};
ghost use Rattle.std.specs.Option.{option_map_or};
ghost use Rattle.std.specs.List.{flat_map};
ghost use Rattle.arc_ast.specs.Tree.{expr_tree, type_tree, variable_trees, parameter_trees, stmt_tree, stmt_trees, function_tree, function_trees};
ghost use Rattle.arc_class.specs.FunctionRules.{same_kind};
ghost use Rattle.arc_class.specs.BrokenRules.{broken_if, first};
ghost use Rattle.arc_class.specs.declared.table.ClassTable.{ClassTable};
ghost use Rattle.arc_judge.specs.Fault.{reported};
ghost use Rattle.arc_judge.specs.Rules.{broken_clauses, broken_test, broken_whole, broken_initial, broken_variables, broken_parameters, broken_result, broken_stmt, broken_stmts, broken_body, broken_function};
ghost use Rattle.arc_scope.specs.Scopes.{has_place, leave, outermost, scope_after, scope_after_all, with_variables, with_parameters};
ghost use Rattle.arc_scope.specs.Views.{known_in, seen};

use crate::rule::place;
use crate::whole::{initial_fault, judge_whole, result_fault, test_fault};
use arc_ast::tree::{Expr, Function, Kind, Parameter, Stmt, TypeName, Variable};
use arc_class::table::ClassTable;
use arc_fault::check::CheckFault;
use arc_scope::scope::Visible;
use arc_sites::parameter::named_parameters;
use arc_sites::violation::earlier;
use std::alloc::{AllocError, Global};

/// The first rule that is broken in what a variable of the type begins with.
fn initial<'a>(
    table: &ClassTable<'a>,
    visible: &Visible<'a>,
    type_name: &TypeName,
    expr: &'a Option<Expr>,
) -> Option<CheckFault>
    ensures { option_map reported result ≡ first (broken_initial (seen table.now visible.now) (type_tree type_name.now) (option_map expr_tree expr.now)) }
{
    match expr {
        None => None,
        Some(expr) => initial_fault(table, visible, type_name, expr),
    }
}

/// The first rule that is broken in what a function returns.
fn returned<'a>(
    table: &ClassTable<'a>,
    visible: &Visible<'a>,
    expr: &'a Option<Expr>,
) -> Option<CheckFault>
    ensures { option_map reported result ≡ first (broken_result (seen table.now visible.now) (option_map expr_tree expr.now)) }
{
    let Some(expr) = expr else {
        return None;
    };
    if is_void(visible.result) {
        let judged = judge_whole(table, visible, expr);
        earlier(judged.fault, Some(CheckFault::KindMismatch(place(expr))))
    } else {
        result_fault(table, visible, expr)
    }
}

/// The rule that one variable more breaks, whose name is at this place.
fn place_fault(visible: &Visible, at: usize) -> Option<CheckFault>
    ensures { (table : ClassTable) → option_map reported result ≡ first (broken_if (not (has_place (seen table visible.now))) at 50) }
{
    if visible.is_full() {
        Some(CheckFault::TooManyLocals(at))
    } else {
        None
    }
}

/// The first rule that a declaration of variables of the type breaks.
fn variables<'a>(
    table: &ClassTable<'a>,
    visible: &mut Visible<'a>,
    type_name: &'a TypeName,
    all: &'a [Variable],
) -> Result<Option<CheckFault>, AllocError>
    ensures fault { IfOk result (λ fault. option_map reported fault ≡ first (broken_variables (type_tree type_name.now) (seen table.now visible.old) (variable_trees all.now))) }
    ensures scope { OnOk result (seen table.now visible.new ≡ with_variables (type_tree type_name.now) (seen table.now visible.old) (variable_trees all.now)) }
    ensures keeps { OnOk result (take (length visible.old.bound.items) visible.new.bound.items ≡ visible.old.bound.items) }
{
    let mut fault = None;
    for variable in all {
        fault = earlier(fault, place_fault(visible, variable.at));
        visible.declare(table, type_name, &variable.name)?;
        fault = earlier(fault, initial(table, visible, type_name, &variable.initial));
    }
    Ok(fault)
}

/// The first rule that parameters break.
fn parameters<'a>(
    table: &ClassTable<'a>,
    visible: &mut Visible<'a>,
    all: &'a [Parameter],
) -> Result<Option<CheckFault>, AllocError>
    ensures fault { IfOk result (λ fault. option_map reported fault ≡ first (broken_parameters (seen table.now visible.old) (parameter_trees all.now))) }
    ensures scope { OnOk result (seen table.now visible.new ≡ with_parameters (seen table.now visible.old) (parameter_trees all.now)) }
{
    let mut fault = None;
    for parameter in all {
        fault = earlier(fault, place_fault(visible, parameter.at));
        visible.declare(table, &parameter.type_name, &parameter.name)?;
    }
    Ok(fault)
}

/// The rule that a `break` or a `continue` at this place breaks, which is in the body of a loop or isn't.
fn loop_fault(in_loop: bool, at: usize) -> Option<CheckFault>
    ensures { option_map reported result ≡ first (broken_if (not in_loop) at 48) }
{
    if in_loop {
        None
    } else {
        Some(CheckFault::OutsideLoop(at))
    }
}

/// The first rule that is broken in the test of a `for`, if there is one.
fn maybe_test<'a>(
    table: &ClassTable<'a>,
    visible: &Visible<'a>,
    expr: &'a Option<Expr>,
) -> Option<CheckFault>
    ensures { option_map reported result ≡ first (option_map_or (broken_test (seen table.now visible.now)) (option_map expr_tree expr.now) []) }
{
    match expr {
        None => None,
        Some(expr) => test_fault(table, visible, expr),
    }
}

/// The first rule that is broken in the step of a `for`, if there is one.
fn maybe_step<'a>(
    table: &ClassTable<'a>,
    visible: &Visible<'a>,
    expr: &'a Option<Expr>,
) -> Option<CheckFault>
    ensures { option_map reported result ≡ first (option_map_or (broken_whole (seen table.now visible.now)) (option_map expr_tree expr.now) []) }
{
    match expr {
        None => None,
        Some(expr) => judge_whole(table, visible, expr).fault,
    }
}

/// The first rule that is broken in the test and the step of a `for`.
fn clauses<'a>(
    table: &ClassTable<'a>,
    visible: &Visible<'a>,
    test: &'a Option<Expr>,
    step: &'a Option<Expr>,
) -> Option<CheckFault>
    ensures { option_map reported result ≡ first (broken_clauses (seen table.now visible.now) (option_map expr_tree test.now) (option_map expr_tree step.now)) }
{
    let test = maybe_test(table, visible, test);
    earlier(test, maybe_step(table, visible, step))
}

/// The first rule that is broken in a statement that is a scope of its own.
#[cycle(statements)]
fn scoped<'a>(
    table: &ClassTable<'a>,
    in_loop: bool,
    visible: &mut Visible<'a>,
    inner: &'a Stmt,
) -> Result<Option<CheckFault>, AllocError>
    ensures fault { IfOk result (λ fault. option_map reported fault ≡ first (broken_stmt in_loop (seen table.now visible.old) (stmt_tree inner.now))) }
    ensures scope { OnOk result (seen table.now visible.new ≡ leave (seen table.now visible.old) (scope_after (seen table.now visible.old) (stmt_tree inner.now))) }
    ensures keeps { OnOk result (visible.new.bound.items ≡ visible.old.bound.items) }
{
    let count = visible.bound.len();
    let fault = statement(table, in_loop, visible, inner)?;
    visible.leave(count);
    Ok(fault)
}

/// The first rule that is broken in a block.
#[cycle(statements)]
fn block<'a>(
    table: &ClassTable<'a>,
    in_loop: bool,
    visible: &mut Visible<'a>,
    all: &'a [Stmt],
) -> Result<Option<CheckFault>, AllocError>
    ensures fault { IfOk result (λ fault. option_map reported fault ≡ first (broken_stmts in_loop (seen table.now visible.old) (stmt_trees all.now))) }
    ensures scope { OnOk result (seen table.now visible.new ≡ leave (seen table.now visible.old) (scope_after_all (seen table.now visible.old) (stmt_trees all.now))) }
    ensures keeps { OnOk result (visible.new.bound.items ≡ visible.old.bound.items) }
{
    let count = visible.bound.len();
    let fault = statements(table, in_loop, visible, all)?;
    visible.leave(count);
    Ok(fault)
}

/// The first rule that is broken in a statement.
#[cycle(statements)]
fn statement<'a>(
    table: &ClassTable<'a>,
    in_loop: bool,
    visible: &mut Visible<'a>,
    statement: &'a Stmt,
) -> Result<Option<CheckFault>, AllocError>
    ensures fault { IfOk result (λ fault. option_map reported fault ≡ first (broken_stmt in_loop (seen table.now visible.old) (stmt_tree statement.now))) }
    ensures scope { OnOk result (seen table.now visible.new ≡ scope_after (seen table.now visible.old) (stmt_tree statement.now)) }
    ensures keeps { OnOk result (take (length visible.old.bound.items) visible.new.bound.items ≡ visible.old.bound.items) }
{
    match statement {
        Stmt::Block(_, all) => block(table, in_loop, visible, all),
        Stmt::Empty(_) => Ok(None),
        Stmt::Expr(expr) => Ok(judge_whole(table, visible, expr).fault),
        Stmt::Return(_, expr) => Ok(returned(table, visible, expr)),
        Stmt::Variables(_, _, type_name, all) => variables(table, visible, type_name, all),
        Stmt::If(_, test, then) => {
            let fault = test_fault(table, visible, test);
            let inside = scoped(table, in_loop, visible, then)?;
            Ok(earlier(fault, inside))
        }
        Stmt::IfElse(_, test, then, other) => {
            let fault = test_fault(table, visible, test);
            let first = scoped(table, in_loop, visible, then)?;
            let second = scoped(table, in_loop, visible, other)?;
            Ok(earlier(fault, earlier(first, second)))
        }
        Stmt::While(_, _, test, body) => {
            let fault = test_fault(table, visible, test);
            let inside = scoped(table, true, visible, body)?;
            Ok(earlier(fault, inside))
        }
        Stmt::For(_, beginning, test, step, body) => {
            stepped(table, visible, beginning, test, step, body)
        }
        Stmt::Break(at) => Ok(loop_fault(in_loop, *at)),
        Stmt::Continue(at) => Ok(loop_fault(in_loop, *at)),
    }
}

/// The first rule that is broken in a `for`, which is a scope of its own.
#[cycle(statements)]
fn stepped<'a>(
    table: &ClassTable<'a>,
    visible: &mut Visible<'a>,
    beginning: &'a Stmt,
    test: &'a Option<Expr>,
    step: &'a Option<Expr>,
    body: &'a Stmt,
) -> Result<Option<CheckFault>, AllocError>
    ensures fault { let s = seen table.now visible.old in let own = scope_after s (stmt_tree beginning.now) in
        IfOk result (λ fault. option_map reported fault ≡ first (broken_stmt false s (stmt_tree beginning.now)
        ++ (broken_clauses own (option_map expr_tree test.now) (option_map expr_tree step.now) ++ broken_stmt true own (stmt_tree body.now)))) }
    ensures scope { let s = seen table.now visible.old in OnOk result (seen table.now visible.new ≡ leave s (scope_after (scope_after s (stmt_tree beginning.now)) (stmt_tree body.now))) }
    ensures keeps { OnOk result (visible.new.bound.items ≡ visible.old.bound.items) }
{
    let count = visible.bound.len();
    let before = statement(table, false, visible, beginning)?;
    let clauses = clauses(table, visible, test, step);
    let inside = scoped(table, true, visible, body)?;
    visible.leave(count);
    Ok(earlier(before, earlier(clauses, inside)))
}

/// The first rule that is broken in the statements of a block.
#[cycle(statements)]
fn statements<'a>(
    table: &ClassTable<'a>,
    in_loop: bool,
    visible: &mut Visible<'a>,
    all: &'a [Stmt],
) -> Result<Option<CheckFault>, AllocError>
    ensures fault { IfOk result (λ fault. option_map reported fault ≡ first (broken_stmts in_loop (seen table.now visible.old) (stmt_trees all.now))) }
    ensures scope { OnOk result (seen table.now visible.new ≡ scope_after_all (seen table.now visible.old) (stmt_trees all.now)) }
    ensures keeps { OnOk result (take (length visible.old.bound.items) visible.new.bound.items ≡ visible.old.bound.items) }
{
    let mut fault = None;
    for one in all {
        fault = earlier(fault, statement(table, in_loop, visible, one)?);
    }
    Ok(fault)
}

/// How many parameters a function or a method has at most.
const MOST_PARAMETERS: usize = 16;

/// The rule that a function or a method with so many parameters breaks, at its place.
pub fn count_fault(at: usize, count: usize) -> Option<CheckFault>
    ensures { option_map reported result ≡ first (broken_if (nat_lt MOST_PARAMETERS count) at 45) }
{
    if count > MOST_PARAMETERS {
        Some(CheckFault::ArgumentCount(at))
    } else {
        None
    }
}

/// Whether nothing is of the kind.
pub fn is_void(kind: Kind) -> bool
    ensures { result ≡ same_kind kind Kind.Void }
{
    matches!(kind, Kind::Void)
}

/// The first rule that is broken in a body, its parameters among it, from what is visible before them.
pub fn inside<'a>(
    table: &ClassTable<'a>,
    mut visible: Visible<'a>,
    named: &'a [Parameter],
    all: &'a [Stmt],
) -> Result<Option<CheckFault>, AllocError>
    ensures { IfOk result (λ fault. option_map reported fault ≡ first (broken_body (seen table.now visible.entry) (parameter_trees named.now) (stmt_trees all.now))) }
{
    let fault = parameters(table, &mut visible, named)?;
    Ok(earlier(fault, statements(table, false, &mut visible, all)?))
}

/// The first rule that is broken in the body of a function that gives a value of the kind, if it has one.
fn body<'a>(
    alloc: Global,
    table: &ClassTable<'a>,
    gives: Kind,
    named: &'a [Parameter],
    all: &'a Option<Vec<Stmt>>,
) -> Result<Option<CheckFault>, AllocError>
    ensures { IfOk result (λ fault. option_map reported fault
        ≡ first (option_map_or (broken_body (outermost (known_in table.now) gives) (parameter_trees named.now)) (option_map (λ b. stmt_trees b.items) all.now) [])) }
{
    let Some(all) = all else {
        return Ok(None);
    };
    let visible = Visible::new(alloc, gives);
    inside(table, visible, named, all)
}

/// The first rule that is broken in a function.
fn function<'a>(
    alloc: Global,
    table: &ClassTable<'a>,
    function: &'a Function,
) -> Result<Option<CheckFault>, AllocError>
    ensures { IfOk result (λ fault. option_map reported fault ≡ first (broken_function (known_in table.now) (function_tree function.now))) }
{
    let named = named_parameters(&function.parameters);
    let own = count_fault(function.at, named.len());
    let gives = function.result.kind();
    let inside = body(alloc, table, gives, named, &function.body)?;
    Ok(earlier(own, inside))
}

/// The first rule that is broken in the functions.
pub fn judge_functions<'a>(
    alloc: Global,
    table: &ClassTable<'a>,
    functions: &'a [Function],
) -> Result<Option<CheckFault>, AllocError>
    ensures { IfOk result (λ fault. option_map reported fault ≡ first (flat_map (broken_function (known_in table.now)) (function_trees functions.now))) }
{
    let mut fault = None;
    for one in functions {
        fault = earlier(fault, function(alloc, table, one)?);
    }
    Ok(fault)
}
