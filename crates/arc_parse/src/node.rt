//! Expressions and statements as they are made and kept. Each function here holds one where memory may run out, so that few others do.
ghost use Rattle.std.specs.Prelude.{◌≡◌, ◌++◌, ◌∷◌, [], List, Ok, option_map, IfOk, IfErr};
ghost use Rattle.arc_lex.specs.Tokens.{Tok};
ghost use Rattle.arc_ast.specs.Tree.{expr_tree, stmt_tree, begins, Binary, Name};
ghost use Rattle.arc_ast.specs.declared.tree.BinaryOperator.TheVariants.{Multiply};
ghost use Rattle.arc_form.specs.declared.fail.Fail.TheVariants.{Memory};
ghost use Rattle.arc_form.specs.Reader.{Gives};
ghost use Rattle.arc_grammar.specs.Grammar as grammar;

use arc_ast::tree::{BinaryOperator, Expr, Moment, Stmt};
use arc_form::fail::Read;
use arc_form::made;
use arc_form::made::keep;
use std::alloc::Global;

/// The place of the first byte.
pub fn place_of(expr: &Expr) -> usize
    ensures { result ≡ begins (expr_tree expr.now) }
{
    match expr {
        Expr::Integer(at, _, _)
        | Expr::Text(at, _)
        | Expr::Paren(at, _)
        | Expr::Call(at, _, _)
        | Expr::Nil(at)
        | Expr::Itself(at)
        | Expr::Name(at, _)
        | Expr::Unary(at, _, _)
        | Expr::Cast(at, _, _)
        | Expr::Binary(at, _, _, _)
        | Expr::Conditional(at, _, _, _)
        | Expr::Arrow(at, _, _, _)
        | Expr::Assign(at, _, _, _)
        | Expr::Update(at, _, _, _, _, _)
        | Expr::Send(at, _, _, _, _)
        | Expr::SendSuper(at, _, _, _, _) => *at,
    }
}

/// The expression in a box.
///
/// `Memory` comes where there is no memory for it.
pub fn boxed(alloc: Global, expr: Expr) -> Read<Box<Expr>>
    ensures gives { (ts : List Tok) → Gives (λ x. expr_tree x.value) result ts (Ok (expr_tree expr, ts)) }
{
    made::boxed(alloc, expr)
}

/// An update of an operand by 1, with the operator and its place, which begins at this place.
///
/// `Memory` comes where there is no memory for it.
pub fn by_one(
    alloc: Global,
    at: usize,
    operator: (usize, BinaryOperator),
    moment: Moment,
    operand: Box<Expr>,
) -> Read<Box<Expr>>
    ensures gives { (ts : List Tok) → Gives (λ x. expr_tree x.value) result ts (Ok (grammar.by_one at operator moment (expr_tree operand.value), ts)) }
{
    let (sign, operator) = operator;
    let one = made::boxed(alloc, Expr::Integer(sign, 1, false))?;
    boxed(
        alloc,
        Expr::Update(at, sign, moment, operator, operand, one),
    )
}

/// The product of a variable of this name and an operand.
///
/// `Memory` comes where there is no memory for it.
pub fn times(alloc: Global, at: usize, called: Vec<u8>, right: Box<Expr>) -> Read<Box<Expr>>
    ensures made { IfOk result (λ product. expr_tree product.value ≡ Binary at Multiply (Name at called.items) (expr_tree right.value)) }
    ensures failed { IfErr result (λ why. why ≡ Memory) }
{
    let left = made::boxed(alloc, Expr::Name(at, called))?;
    Ok(made::boxed(
        alloc,
        Expr::Binary(at, BinaryOperator::Multiply, left, right),
    )?)
}

/// Puts an expression after the others.
///
/// `Memory` comes where there is no memory for it.
pub fn add(all: &mut Vec<Expr>, one: Box<Expr>) -> Read<()>
    ensures kept { IfOk result (λ _. all.new.items ≡ all.old.items ++ (one.value ∷ [])) }
    ensures failed { IfErr result (λ why. why ≡ Memory) }
{
    keep(all, Box::into_inner(one))
}

/// The expression without its box, if there is one.
pub fn unboxed(value: Option<Box<Expr>>) -> Option<Expr>
    ensures { option_map expr_tree result ≡ option_map (λ b. expr_tree b.value) value }
{
    match value {
        Some(value) => Some(Box::into_inner(value)),
        None => None,
    }
}

/// The statement in a box.
///
/// `Memory` comes where there is no memory for it.
pub fn boxed_stmt(alloc: Global, stmt: Stmt) -> Read<Box<Stmt>>
    ensures gives { (ts : List Tok) → Gives (λ x. stmt_tree x.value) result ts (Ok (stmt_tree stmt, ts)) }
{
    made::boxed(alloc, stmt)
}
