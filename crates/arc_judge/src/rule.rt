//! The rules that expressions break, from the judgements on their parts.
ghost use Rattle.std.specs.Prelude.{◌≡◌, option_map};
ghost use Rattle.arc_ast.specs.Tree as tree;
ghost use Rattle.arc_ast.specs.Tree.{expr_tree};
ghost use Rattle.arc_class.specs.BrokenRules.{first};
ghost use Rattle.arc_class.specs.declared.table.ClassTable.{ClassTable};
ghost use Rattle.arc_judge.specs.Fault.{reported};
ghost use Rattle.arc_judge.specs.Rules as rules;
ghost use Rattle.arc_judge.specs.Rules.{is_updatable, no_right, number_kind, unary_kind, unmet};
ghost use Rattle.arc_scope.specs.Views.{seen};
ghost use Rattle.arc_judge.specs.Rules.{ANumber, AValue, AnObject, left_need, operand_need};
ghost use Rattle.arc_judge.specs.private.ExpressionJudgements.{broken_at, other_rule};

use arc_ast::tree::{Expr, Kind, Moment, OperatorSort, UnaryOperator};
use arc_fault::check::CheckFault;
use arc_scope::callee::Callee;
use arc_scope::kind::{is_object, wider};
use arc_scope::message::itself_in;
use arc_scope::scope::Visible;

/// The place at which an expression that breaks a rule is reported: an assignment's operator, a field's name, a message's first selector part, and else
/// the first byte.
pub fn place(expr: &Expr) -> usize
    ensures { result ≡ tree.place (expr_tree expr.now) }
{
    match expr {
        Expr::Integer(at, _, _)
        | Expr::Text(at, _)
        | Expr::Paren(at, _)
        | Expr::Call(at, _, _)
        | Expr::Nil(at)
        | Expr::Itself(at)
        | Expr::Name(at, _)
        | Expr::Unary(at, _, _)
        | Expr::Cast(at, _, _)
        | Expr::Binary(at, _, _, _)
        | Expr::Conditional(at, _, _, _)
        | Expr::Arrow(_, at, _, _)
        | Expr::Assign(_, at, _, _)
        | Expr::Update(at, _, Moment::Before, _, _, _)
        | Expr::Update(_, at, Moment::After, _, _, _)
        | Expr::Send(_, at, _, _, _)
        | Expr::SendSuper(_, at, _, _, _) => *at,
    }
}

/// Whether an assignment's left side is a name, a field or `self`, parentheses aside.
pub fn is_assignable(expr: &Expr) -> bool
    ensures { result ≡ rules.is_assignable (expr_tree expr.now) }
{
    match expr {
        Expr::Paren(_, inside) => is_assignable(inside),
        Expr::Itself(_) | Expr::Name(_, _) | Expr::Arrow(_, _, _, _) => true,
        _ => false,
    }
}

/// Whether an update's left side, which is of a kind, is a variable or a field that holds a number; one without a kind breaks another rule, and `self`
/// of a class method is no variable.
pub fn is_updatable(visible: &Visible, expr: &Expr, kind: Option<Kind>) -> bool
    ensures { (table : ClassTable) → result ≡ is_updatable (seen table visible.now) (expr_tree expr.now) kind }
{
    is_assignable(expr) && itself_in(visible, expr).is_none() && !is_object(kind)
}

/// The kind of one of two values.
pub fn either_kind(a: Option<Kind>, b: Option<Kind>) -> Option<Kind>
    ensures { result ≡ rules.either_kind a b }
{
    if is_object(a) && is_object(b) {
        Some(Kind::Object)
    } else {
        both_kinds(number_kind(a), number_kind(b))
    }
}

/// The kind in which an operator computes with an operand.
pub fn number_kind(kind: Option<Kind>) -> Option<Kind>
    ensures { result ≡ number_kind kind }
{
    match kind {
        Some(Kind::Bool | Kind::Int) => Some(Kind::Int),
        Some(Kind::Long) => Some(Kind::Long),
        _ => None,
    }
}

/// The wider kind of two operands.
fn both_kinds(a: Option<Kind>, b: Option<Kind>) -> Option<Kind>
    ensures { result ≡ rules.both_kinds a b }
{
    match (a, b) {
        (Some(a), Some(b)) => Some(wider(a, b)),
        _ => None,
    }
}

/// The kind of an expression with an operator before its operand, from the operand's.
pub fn unary_kind(operator: UnaryOperator, kind: Option<Kind>) -> Option<Kind>
    ensures { result ≡ unary_kind operator kind }
{
    match operator {
        UnaryOperator::Not => Some(Kind::Int),
        UnaryOperator::Plus | UnaryOperator::Negate | UnaryOperator::Complement => {
            number_kind(kind)
        }
    }
}

/// The kind of an expression with an operator of the sort, from those of its operands.
pub fn binary_kind(sort: OperatorSort, a: Option<Kind>, b: Option<Kind>) -> Option<Kind>
    ensures { result ≡ rules.binary_kind sort a b }
{
    match sort {
        OperatorSort::Arithmetic => both_kinds(number_kind(a), number_kind(b)),
        OperatorSort::Shift => number_kind(a),
        OperatorSort::Relation | OperatorSort::Equality | OperatorSort::Logic => Some(Kind::Int),
    }
}

/// The rule that an expression of the kind breaks where a value is needed.
pub fn no_value(kind: Option<Kind>, at: usize) -> Option<CheckFault>
    ensures { option_map reported result ≡ first (unmet AValue kind at) }
{
    match kind {
        Some(Kind::Void) => Some(CheckFault::KindMismatch(at)),
        _ => None,
    }
}

/// The rule that an expression of the kind breaks where a number is needed.
pub fn no_number(kind: Option<Kind>, at: usize) -> Option<CheckFault>
    ensures { option_map reported result ≡ first (unmet ANumber kind at) }
{
    match kind {
        Some(Kind::Void) | Some(Kind::Object) => Some(CheckFault::KindMismatch(at)),
        _ => None,
    }
}

/// The rule that an expression of the kind breaks where an object is needed.
pub fn no_object(kind: Option<Kind>, at: usize) -> Option<CheckFault>
    ensures { option_map reported result ≡ first (unmet AnObject kind at) }
{
    match kind {
        None | Some(Kind::Object) => None,
        Some(_) => Some(CheckFault::KindMismatch(at)),
    }
}

/// The rule that an expression of a kind breaks which is assigned to what holds the wanted one, or cast to it.
pub fn no_such(wanted: Option<Kind>, given: Option<Kind>, at: usize) -> Option<CheckFault>
    ensures { option_map reported result ≡ first (rules.no_such wanted given at) }
{
    match wanted {
        None => None,
        Some(Kind::Object) => no_object(given, at),
        Some(_) => no_number(given, at),
    }
}

/// The rule that an operand of the kind breaks which has an operator before it.
pub fn no_operand(operator: UnaryOperator, kind: Option<Kind>, at: usize) -> Option<CheckFault>
    ensures { option_map reported result ≡ first (unmet (operand_need operator) kind at) }
{
    match operator {
        UnaryOperator::Not => no_value(kind, at),
        UnaryOperator::Plus | UnaryOperator::Negate | UnaryOperator::Complement => {
            no_number(kind, at)
        }
    }
}

/// The rule that a left operand of the kind breaks.
pub fn no_left(sort: OperatorSort, kind: Option<Kind>, at: usize) -> Option<CheckFault>
    ensures { option_map reported result ≡ first (unmet (left_need sort) kind at) }
{
    match sort {
        OperatorSort::Equality | OperatorSort::Logic => no_value(kind, at),
        OperatorSort::Arithmetic | OperatorSort::Shift | OperatorSort::Relation => {
            no_number(kind, at)
        }
    }
}

/// The rule that the second of two things breaks, of these kinds, that are compared.
pub fn no_other(left: Option<Kind>, right: Option<Kind>, at: usize) -> Option<CheckFault>
    ensures { option_map reported result ≡ first (no_right OperatorSort.Equality left right at) }
{
    match (left, right) {
        (Some(Kind::Object), Some(Kind::Object)) => None,
        (Some(Kind::Object), Some(_)) => Some(CheckFault::KindMismatch(at)),
        _ => no_number(right, at),
    }
}

/// The rule that a right operand breaks, from the kinds of both.
pub fn no_right(
    sort: OperatorSort,
    left: Option<Kind>,
    right: Option<Kind>,
    at: usize,
) -> Option<CheckFault>
    ensures { option_map reported result ≡ first (no_right sort left right at) }
{
    match sort {
        OperatorSort::Equality => no_other(left, right, at),
        OperatorSort::Logic => no_value(right, at),
        OperatorSort::Arithmetic | OperatorSort::Shift | OperatorSort::Relation => {
            no_number(right, at)
        }
    }
}

/// The rule that a call of a function other than printf breaks at its name.
pub fn call_fault(callee: Callee, at: usize, count: usize) -> Option<CheckFault>
    ensures { option_map reported result ≡ first (broken_at at (other_rule callee count)) }
{
    let wanted = match callee {
        Callee::Unknown => return Some(CheckFault::UnknownName(at)),
        Callee::Defined(_, wanted, _) => wanted,
        Callee::Printf | Callee::GetChar => 0,
    };
    if count == wanted {
        None
    } else {
        Some(CheckFault::ArgumentCount(at))
    }
}
