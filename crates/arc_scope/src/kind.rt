//! Kinds, and what two objects have in common.
ghost use Rattle.std.specs.Prelude.{◌≡◌, option_map};
ghost use Rattle.arc_ast.specs.Tree.{expr_tree};
ghost use Rattle.arc_class.specs.Table.{number_of_class};
ghost use Rattle.arc_scope.specs.Kinds as kinds;
ghost use Rattle.arc_scope.specs.Scopes as scopes;

use arc_ast::tree::{Expr, Kind};
use arc_class::table::ClassId;

/// The largest int.
const LARGEST_INT: i64 = 2_147_483_647;

/// The kind of an integer literal, which may have a suffix.
pub fn literal_kind(number: i64, suffixed: bool) -> Kind
    ensures { result ≡ kinds.literal_kind number suffixed }
{
    if number <= LARGEST_INT && !suffixed {
        Kind::Int
    } else {
        Kind::Long
    }
}

/// The wider one of two kinds of operands.
pub fn wider(a: Kind, b: Kind) -> Kind
    ensures { result ≡ kinds.wider a b }
{
    match (a, b) {
        (Kind::Long, _) | (_, Kind::Long) => Kind::Long,
        _ => Kind::Int,
    }
}

/// Whether the kind is that of objects.
pub fn is_object(kind: Option<Kind>) -> bool
    ensures { result ≡ kinds.is_object kind }
{
    matches!(kind, Some(Kind::Object))
}

/// Whether an expression is `nil`, parentheses aside.
pub fn is_nil(expr: &Expr) -> bool
    ensures { result ≡ scopes.is_nil (expr_tree expr.now) }
{
    match expr {
        Expr::Paren(_, inside) => is_nil(inside),
        Expr::Nil(_) => true,
        _ => false,
    }
}

/// The static class of one of two objects, by whether they are `nil`, and by their static classes.
pub fn either_class(
    first_nil: bool,
    second_nil: bool,
    first: Option<ClassId>,
    second: Option<ClassId>,
) -> Option<ClassId>
    ensures { option_map number_of_class result ≡ scopes.either_class first_nil second_nil (option_map number_of_class first) (option_map number_of_class second) }
{
    if first_nil {
        return second;
    }
    if second_nil {
        return first;
    }
    match (first, second) {
        (Some(a), Some(b)) if a.0 == b.0 => Some(a),
        _ => None,
    }
}
