//! Finds the first rule that is broken in the methods of a source.
ghost use Rattle.std.specs.Prelude.{◌≡◌, IfOk, option_map};
ghost use Rattle.std.specs.List.{flat_map};
ghost use Rattle.arc_ast.specs.Tree.{head_tree, head_trees, method_tree, method_trees, interface_trees, implementation_trees};
ghost use Rattle.arc_class.specs.BrokenRules.{first};
ghost use Rattle.arc_class.specs.Table.{number_of_class};
ghost use Rattle.arc_judge.specs.Fault.{reported};
ghost use Rattle.arc_judge.specs.Rules.{broken_head, broken_method};
ghost use Rattle.arc_judge.specs.private.ExpressionJudgements.{broken_interface, broken_implementation};
ghost use Rattle.arc_scope.specs.Views.{known_in};

use crate::body::{count_fault, inside};
use arc_ast::tree::{Implementation, Interface, Method, MethodHead};
use arc_class::table::{ClassId, ClassTable};
use arc_fault::check::CheckFault;
use arc_scope::scope::Visible;
use arc_sites::violation::earlier;
use std::alloc::{AllocError, Global};

/// The rule that a method breaks as it is declared.
fn head(head: &MethodHead) -> Option<CheckFault>
    ensures { option_map reported result ≡ first (broken_head (head_tree head.now)) }
{
    count_fault(head.at, head.parameters.len())
}

/// The first rule that the methods of an interface break.
fn heads(all: &[MethodHead]) -> Option<CheckFault>
    ensures { option_map reported result ≡ first (flat_map broken_head (head_trees all.now)) }
{
    let mut fault = None;
    for one in all {
        fault = earlier(fault, head(one));
    }
    fault
}

/// The first rule that the methods of the interfaces break.
pub fn judge_interfaces(all: &[Interface]) -> Option<CheckFault>
    ensures { option_map reported result ≡ first (flat_map broken_interface (interface_trees all.now)) }
{
    let mut fault = None;
    for one in all {
        fault = earlier(fault, heads(&one.methods));
    }
    fault
}

/// The first rule that is broken in a method of the class.
fn method<'a>(
    alloc: Global,
    table: &ClassTable<'a>,
    class: Option<ClassId>,
    method: &'a Method,
) -> Result<Option<CheckFault>, AllocError>
    ensures { IfOk result (λ fault. option_map reported fault
        ≡ first (broken_method (known_in table.now) (option_map number_of_class class) (method_tree method.now))) }
{
    let visible = Visible::in_method(alloc, class, &method.head);
    let inside = inside(table, visible, &method.head.parameters, &method.body)?;
    Ok(earlier(head(&method.head), inside))
}

/// The first rule that is broken in methods of the class.
fn methods<'a>(
    alloc: Global,
    table: &ClassTable<'a>,
    class: Option<ClassId>,
    all: &'a [Method],
) -> Result<Option<CheckFault>, AllocError>
    ensures { IfOk result (λ fault. option_map reported fault
        ≡ first (flat_map (broken_method (known_in table.now) (option_map number_of_class class)) (method_trees all.now))) }
{
    let mut fault = None;
    for one in all {
        fault = earlier(fault, method(alloc, table, class, one)?);
    }
    Ok(fault)
}

/// The first rule that is broken in the implementations.
pub fn judge_implementations<'a>(
    alloc: Global,
    table: &ClassTable<'a>,
    all: &'a [Implementation],
) -> Result<Option<CheckFault>, AllocError>
    ensures { IfOk result (λ fault. option_map reported fault ≡ first (flat_map (broken_implementation (known_in table.now)) (implementation_trees all.now))) }
{
    let mut fault = None;
    for one in all {
        let class = table.objc_get_class(&one.name);
        fault = earlier(fault, methods(alloc, table, class, &one.methods)?);
    }
    Ok(fault)
}
