//! Finds the first rule that is broken in a full-expression: in itself, and in what is asked of its value.
ghost use Rattle.std.specs.Prelude.{◌≡◌, ◌++◌, Some, option_map};
ghost use Rattle.arc_ast.specs.Tree as tree;
ghost use Rattle.arc_ast.specs.Tree.{expr_tree, type_tree};
ghost use Rattle.arc_class.specs.BrokenRules.{first};
ghost use Rattle.arc_judge.specs.Fault.{reported};
ghost use Rattle.arc_judge.specs.private.ExpressionJudgements.{JudgesWhole};
ghost use Rattle.arc_judge.specs.Rules as rules;
ghost use Rattle.arc_scope.specs.Views.{seen};

use crate::judge::{Judged, judge};
use crate::rule::{no_such, no_value, place};
use crate::taken::Taken;
use arc_ast::tree::{Expr, TypeName};
use arc_class::table::ClassTable;
use arc_fault::check::CheckFault;
use arc_scope::scope::Visible;
use arc_sites::violation::earlier;

/// The judgement on a full-expression.
pub fn judge_whole<'a>(table: &ClassTable<'a>, visible: &Visible<'a>, expr: &'a Expr) -> Judged
    ensures { JudgesWhole (seen table.now visible.now) (expr_tree expr.now) result }
{
    let judged = judge(table, visible, Taken::none(), expr);
    Judged {
        fault: earlier(judged.fault, judged.taken.fault()),
        ..judged
    }
}

/// The first rule that is broken in what a function returns that gives something.
pub fn result_fault<'a>(
    table: &ClassTable<'a>,
    visible: &Visible<'a>,
    expr: &'a Expr,
) -> Option<CheckFault>
    ensures { option_map reported result ≡ first (rules.broken_whole (seen table.now visible.now) (expr_tree expr.now)
        ++ rules.no_such (Some visible.now.result) (rules.kind_of (seen table.now visible.now) (expr_tree expr.now)) (tree.place (expr_tree expr.now))) }
{
    let judged = judge_whole(table, visible, expr);
    let wanted = Some(visible.result);
    earlier(judged.fault, no_such(wanted, judged.kind, place(expr)))
}

/// The first rule that is broken in a test.
pub fn test_fault<'a>(
    table: &ClassTable<'a>,
    visible: &Visible<'a>,
    expr: &'a Expr,
) -> Option<CheckFault>
    ensures { option_map reported result ≡ first (rules.broken_test (seen table.now visible.now) (expr_tree expr.now)) }
{
    let judged = judge_whole(table, visible, expr);
    earlier(judged.fault, no_value(judged.kind, place(expr)))
}

/// The first rule that is broken in what a variable of the type begins with.
pub fn initial_fault<'a>(
    table: &ClassTable<'a>,
    visible: &Visible<'a>,
    type_name: &TypeName,
    expr: &'a Expr,
) -> Option<CheckFault>
    ensures { option_map reported result ≡ first (rules.broken_initial (seen table.now visible.now) (type_tree type_name.now) (Some (expr_tree expr.now))) }
{
    let judged = judge_whole(table, visible, expr);
    let wanted = Some(type_name.kind());
    earlier(judged.fault, no_such(wanted, judged.kind, place(expr)))
}
