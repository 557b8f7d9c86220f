//! The names that stand in a scope.
ghost use Rattle.std.specs.Prelude.{◌≡◌, ◌++◌, false, map, option_map, IfOk, OnOk};
ghost use Rattle.arc_ast.specs.Tree.{variable_trees, parameter_trees, stmt_tree, stmt_trees};
ghost use Rattle.arc_class.specs.BrokenRules.{broken_if, first};
ghost use Rattle.arc_class.specs.Fault.{reported};
ghost use Rattle.arc_class.specs.SiteRules.{as_variable, declared_in, all_declared, repeated};
ghost use Rattle.arc_class.specs.private.Scopes.{and_name, names_with, holds};

use crate::by_name::ByName;
use crate::fault::fault_if;
use arc_ast::tree::{Parameter, Stmt, Variable};
use arc_fault::class::ClassFault;
use arc_sites::violation::earlier;
use std::alloc::{AllocError, Global};

/// The names that stand in a scope.
pub type Scope<'a> = ByName<'a, ()>;

/// Whether the name stands in the scope.
pub fn stands(scope: &Scope, name: &[u8]) -> bool
    ensures { result ≡ holds scope.now name.now }
{
    scope.get(name).is_some()
}

/// Puts the name at the place into the scope, and gives the rule that this breaks.
fn declare<'a>(
    scope: &mut Scope<'a>,
    at: usize,
    name: &'a [u8],
) -> Result<Option<ClassFault>, AllocError>
    ensures fault { IfOk result (λ fault. option_map reported fault ≡ first (broken_if (holds scope.old name.now) at 21)) }
    ensures scope { OnOk result (holds scope.new ≡ and_name name.now (holds scope.old)) }
{
    let stood = scope.insert(name, ())?.is_some();
    Ok(fault_if(stood, ClassFault::Duplicate(at)))
}

/// Puts variables into the scope, and gives the first rule that this breaks.
fn variables<'a>(
    scope: &mut Scope<'a>,
    all: &'a [Variable],
) -> Result<Option<ClassFault>, AllocError>
    ensures fault { IfOk result (λ fault. option_map reported fault ≡ first (repeated (holds scope.old) (variable_trees all.now))) }
    ensures scope { OnOk result (holds scope.new ≡ names_with (holds scope.old) (variable_trees all.now)) }
{
    let mut fault = None;
    for variable in all {
        fault = earlier(fault, declare(scope, variable.at, &variable.name)?);
    }
    Ok(fault)
}

/// Puts parameters into the scope, and gives the first rule that this breaks.
fn parameters<'a>(
    scope: &mut Scope<'a>,
    all: &'a [Parameter],
) -> Result<Option<ClassFault>, AllocError>
    ensures fault { IfOk result (λ fault. option_map reported fault ≡ first (repeated (holds scope.old) (map as_variable (parameter_trees all.now)))) }
    ensures scope { OnOk result (holds scope.new ≡ names_with (holds scope.old) (map as_variable (parameter_trees all.now))) }
{
    let mut fault = None;
    for parameter in all {
        fault = earlier(fault, declare(scope, parameter.at, &parameter.name)?);
    }
    Ok(fault)
}

/// Puts what a statement declares into the scope in which it stands, and gives the first rule that this breaks.
fn statement<'a>(scope: &mut Scope<'a>, stmt: &'a Stmt) -> Result<Option<ClassFault>, AllocError>
    ensures fault { IfOk result (λ fault. option_map reported fault ≡ first (repeated (holds scope.old) (declared_in (stmt_tree stmt.now)))) }
    ensures scope { OnOk result (holds scope.new ≡ names_with (holds scope.old) (declared_in (stmt_tree stmt.now))) }
{
    match stmt {
        Stmt::Variables(_, _, _, all) => variables(scope, all),
        _ => Ok(None),
    }
}

/// Puts what statements declare into the scope in which they stand, and gives the first rule that this breaks.
fn statements<'a>(scope: &mut Scope<'a>, all: &'a [Stmt]) -> Result<Option<ClassFault>, AllocError>
    ensures { IfOk result (λ fault. option_map reported fault ≡ first (repeated (holds scope.old) (all_declared (stmt_trees all.now)))) }
{
    let mut fault = None;
    for stmt in all {
        fault = earlier(fault, statement(scope, stmt)?);
    }
    Ok(fault)
}

/// The first variable of a declaration whose name an earlier one of it has.
pub fn declaration_fault(alloc: Global, all: &[Variable]) -> Result<Option<ClassFault>, AllocError>
    ensures { IfOk result (λ fault. option_map reported fault ≡ first (repeated (λ name. false) (variable_trees all.now))) }
{
    if all.len() < 2 {
        return Ok(None);
    }
    variables(&mut Scope::new(alloc), all)
}

/// The first variable of a block whose name an earlier one of its scope has.
pub fn block_fault(alloc: Global, all: &[Stmt]) -> Result<Option<ClassFault>, AllocError>
    ensures { IfOk result (λ fault. option_map reported fault ≡ first (repeated (λ name. false) (all_declared (stmt_trees all.now)))) }
{
    statements(&mut Scope::new(alloc), all)
}

/// The first variable or parameter of a body whose name an earlier one of its scope has.
pub fn body_fault(
    alloc: Global,
    taken: &[Parameter],
    all: &[Stmt],
) -> Result<Option<ClassFault>, AllocError>
    ensures { IfOk result (λ fault. option_map reported fault
        ≡ first (repeated (λ name. false) (map as_variable (parameter_trees taken.now) ++ all_declared (stmt_trees all.now)))) }
{
    let mut scope = Scope::new(alloc);
    let fault = parameters(&mut scope, taken)?;
    Ok(earlier(fault, statements(&mut scope, all)?))
}
