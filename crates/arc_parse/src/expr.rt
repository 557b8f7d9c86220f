//! Reads expressions, in which no limit holds.
ghost use Rattle.std.specs.Prelude.{◌≡◌, ◌<◌, ◌≤◌, false, length, IfOk};
ghost use Rattle.arc_lex.specs.Tokens.{toks};
ghost use Rattle.arc_ast.specs.Tree.{type_tree, expr_tree};
ghost use Rattle.arc_form.specs.Form.{call, unlimited};
ghost use Rattle.arc_form.specs.Reader.{Gives, sees};
ghost use Rattle.arc_form.specs.Views.{all};
ghost use Rattle.arc_grammar.specs.Grammar.{marks_up_to, reads_free, reads_on, rules};
ghost use Rattle.arc_grammar.specs.Grammar as grammar;
ghost use Rattle.arc_parse.specs.private.Given.{cast_on, enclosed_on, arguments_on, last_part_on};
ghost use Rattle.arc_parse.specs.declared.operator.TheConstants.{ASSIGNING, LOOSEST};

use crate::literal::literal;
use crate::node::{add, boxed, by_one, place_of, times};
use crate::operator::{ASSIGNING, LOOSEST, level_ahead, operator, sees_operator};
use crate::sign::{begins_counting, begins_signed, counting, operator_before};
use crate::type_name::{begins_plain_type, plain_type};
use arc_ast::tree::{Expr, Moment, TypeName};
use arc_form::fail::Read;
use arc_form::made;
use arc_form::reader::Reader;
use arc_lex::mark::Mark;
use arc_lex::word::Word;
use std::alloc::Global;

/// An expression.
#[cycle(exprs)]
#[tactic(auto, using(crate::proofs::Fix::read_expr))]
pub fn expr(alloc: Global, reader: &mut Reader) -> Read<Box<Expr>>
    ensures gives { Gives (λ x. expr_tree x.value) result (toks reader.new.rest.now) (rules unlimited grammar.expr (toks reader.old.rest.now)) }
    ensures shorter { IfOk result (λ _. length reader.new.rest.now < length reader.old.rest.now) }
{
    let left = prefixed(alloc, reader)?;
    operation(alloc, left, reader)
}

/// An expression of this unary expression and what comes after it.
#[cycle(exprs)]
#[tactic(auto, using(crate::proofs::Fix::assigning_is), unfolding(arc_grammar::specs::Grammar::operation, arc_grammar::specs::Grammar::assigned, arc_grammar::specs::Grammar::updated))]
fn operation(alloc: Global, left: Box<Expr>, reader: &mut Reader) -> Read<Box<Expr>>
    ensures gives { Gives (λ x. expr_tree x.value) result (toks reader.new.rest.now) (reads_on grammar.operation (expr_tree left.value) (toks reader.old.rest.now)) }
    ensures shorter { IfOk result (λ _. length reader.new.rest.now ≤ length reader.old.rest.now) }
{
    let at = place_of(&left);
    if sees_operator(ASSIGNING, reader) {
        let (sign, operator) = operator(ASSIGNING, reader)?;
        let right = expr(alloc, reader)?;
        return boxed(
            alloc,
            Expr::Update(at, sign, Moment::After, operator, left, right),
        );
    }
    if !reader.sees_mark(Mark::Assign) {
        return continued(alloc, left, reader);
    }
    let sign = reader.expect(Mark::Assign)?;
    let right = expr(alloc, reader)?;
    boxed(alloc, Expr::Assign(at, sign, left, right))
}

/// The operators of all levels after this unary expression, with their right operands, and what they choose, where `?` is after them.
#[cycle(exprs)]
#[tactic(auto, using(crate::proofs::Fix::read_continued), unfolding(arc_grammar::specs::Grammar::choice, arc_grammar::specs::Grammar::chosen))]
fn continued(alloc: Global, left: Box<Expr>, reader: &mut Reader) -> Read<Box<Expr>>
    ensures gives { Gives (λ x. expr_tree x.value) result (toks reader.new.rest.now) (reads_on grammar.continued (expr_tree left.value) (toks reader.old.rest.now)) }
    ensures shorter { IfOk result (λ _. length reader.new.rest.now ≤ length reader.old.rest.now) }
{
    let test = up_to(alloc, LOOSEST, left, reader)?;
    let Some(_) = reader.take(Mark::Question) else {
        return Ok(test);
    };
    let at = place_of(&test);
    let first = expr(alloc, reader)?;
    reader.expect(Mark::Colon)?;
    let second = condition(alloc, reader)?;
    boxed(alloc, Expr::Conditional(at, test, first, second))
}

/// An expression that is no assignment.
#[cycle(exprs)]
#[tactic(auto, using(crate::proofs::Fix::read_condition))]
fn condition(alloc: Global, reader: &mut Reader) -> Read<Box<Expr>>
    ensures gives { Gives (λ x. expr_tree x.value) result (toks reader.new.rest.now) (rules unlimited grammar.condition (toks reader.old.rest.now)) }
    ensures shorter { IfOk result (λ _. length reader.new.rest.now < length reader.old.rest.now) }
{
    let left = prefixed(alloc, reader)?;
    continued(alloc, left, reader)
}

/// The operators of the levels up to this one after this left operand, with their right operands.
#[cycle(exprs)]
#[tactic(auto, using(crate::proofs::Fix::read_past))]
fn up_to(alloc: Global, level: usize, left: Box<Expr>, reader: &mut Reader) -> Read<Box<Expr>>
    requires { level ≤ LOOSEST }
    ensures gives { Gives (λ x. expr_tree x.value) result (toks reader.new.rest.now) (reads_on (grammar.up_to level) (expr_tree left.value) (toks reader.old.rest.now)) }
    ensures shorter { IfOk result (λ _. length reader.new.rest.now ≤ length reader.old.rest.now) }
    ensures past { IfOk result (λ _. sees (marks_up_to level) (toks reader.new.rest.now) ≡ false) }
{
    let found = match level_ahead(level, reader) {
        None => return Ok(left),
        Some(found) => found,
    };
    let at = place_of(&left);
    let (_, operator) = operator(found, reader)?;
    let right = binary(alloc, found - 1, reader)?;
    let left = made::boxed(alloc, Expr::Binary(at, operator, left, right))?;
    up_to(alloc, level, left, reader)
}

/// An expression whose operators are of this level or tighter.
#[cycle(exprs)]
#[tactic(auto, using(crate::proofs::Fix::read_binary))]
fn binary(alloc: Global, level: usize, reader: &mut Reader) -> Read<Box<Expr>>
    requires { level ≤ LOOSEST }
    ensures gives { Gives (λ x. expr_tree x.value) result (toks reader.new.rest.now) (rules unlimited (grammar.binary level) (toks reader.old.rest.now)) }
    ensures shorter { IfOk result (λ _. length reader.new.rest.now < length reader.old.rest.now) }
    ensures past { IfOk result (λ _. sees (marks_up_to level) (toks reader.new.rest.now) ≡ false) }
{
    let left = prefixed(alloc, reader)?;
    up_to(alloc, level, left, reader)
}

/// A unary expression.
#[cycle(exprs)]
#[tactic(auto, using(crate::proofs::Fix::read_unary))]
fn prefixed(alloc: Global, reader: &mut Reader) -> Read<Box<Expr>>
    ensures gives { Gives (λ x. expr_tree x.value) result (toks reader.new.rest.now) (rules unlimited grammar.unary (toks reader.old.rest.now)) }
    ensures shorter { IfOk result (λ _. length reader.new.rest.now < length reader.old.rest.now) }
{
    if begins_signed(reader) {
        let (at, operator) = operator_before(reader)?;
        let operand = prefixed(alloc, reader)?;
        return boxed(alloc, Expr::Unary(at, operator, operand));
    }
    if begins_counting(reader) {
        let operator = counting(reader)?;
        let operand = prefixed(alloc, reader)?;
        return by_one(alloc, operator.0, operator, Moment::After, operand);
    }
    if reader.sees_mark(Mark::OpenParen) {
        parenthesized(alloc, reader)
    } else {
        postfix(alloc, reader)
    }
}

/// An expression in parentheses with what may come after one, or a cast.
#[cycle(exprs)]
#[tactic(auto, using(crate::proofs::Given::read_parenthesized))]
fn parenthesized(alloc: Global, reader: &mut Reader) -> Read<Box<Expr>>
    ensures gives { Gives (λ x. expr_tree x.value) result (toks reader.new.rest.now) (reads_free grammar.parenthesized (toks reader.old.rest.now)) }
    ensures shorter { IfOk result (λ _. length reader.new.rest.now < length reader.old.rest.now) }
{
    let at = reader.expect(Mark::OpenParen)?;
    if begins_plain_type(reader) {
        let (_, written) = plain_type(reader)?;
        return cast(alloc, at, written, reader);
    }
    if reader.sees_name_and(Mark::Star) {
        return cast_or_product(alloc, at, reader);
    }
    let inside = expr(alloc, reader)?;
    enclosed(alloc, at, inside, reader)
}

/// A cast to this type, whose `(` is at this place: what is after the type.
#[cycle(exprs)]
#[tactic(auto, unfolding(crate::specs::private::Given::cast_on))]
fn cast(alloc: Global, at: usize, written: TypeName, reader: &mut Reader) -> Read<Box<Expr>>
    ensures gives { Gives (λ x. expr_tree x.value) result (toks reader.new.rest.now) (cast_on at (type_tree written) (toks reader.old.rest.now)) }
    ensures shorter { IfOk result (λ _. length reader.new.rest.now < length reader.old.rest.now) }
{
    reader.expect(Mark::CloseParen)?;
    let operand = prefixed(alloc, reader)?;
    boxed(alloc, Expr::Cast(at, written, operand))
}

/// This expression in parentheses, of which `(` is at this place, with what may come after one.
#[tactic(auto, unfolding(crate::specs::private::Given::enclosed_on))]
fn enclosed(alloc: Global, at: usize, inside: Box<Expr>, reader: &mut Reader) -> Read<Box<Expr>>
    ensures gives { Gives (λ x. expr_tree x.value) result (toks reader.new.rest.now) (enclosed_on at (expr_tree inside.value) (toks reader.old.rest.now)) }
    ensures shorter { IfOk result (λ _. length reader.new.rest.now < length reader.old.rest.now) }
{
    reader.expect(Mark::CloseParen)?;
    let whole = made::boxed(alloc, Expr::Paren(at, inside))?;
    suffixes(alloc, whole, reader)
}

/// What is after the `(` at this place, where a name and `*` come: a cast, or a product in parentheses.
#[cycle(exprs)]
#[tactic(auto, using(crate::proofs::Given::read_cast_or_product))]
fn cast_or_product(alloc: Global, at: usize, reader: &mut Reader) -> Read<Box<Expr>>
    ensures gives { Gives (λ x. expr_tree x.value) result (toks reader.new.rest.now) (reads_on grammar.cast_or_product at (toks reader.old.rest.now)) }
    ensures shorter { IfOk result (λ _. length reader.new.rest.now < length reader.old.rest.now) }
{
    let (name_at, called) = reader.name(alloc)?;
    reader.expect(Mark::Star)?;
    if reader.sees_mark(Mark::CloseParen) {
        return cast(alloc, at, TypeName::Object(name_at, called), reader);
    }
    let right = prefixed(alloc, reader)?;
    let first = times(alloc, name_at, called, right)?;
    let inside = continued(alloc, first, reader)?;
    enclosed(alloc, at, inside, reader)
}

/// A primary expression, a call or a message, and the suffixes after it.
#[cycle(exprs)]
#[tactic(auto, unfolding(arc_grammar::specs::Grammar::postfix))]
fn postfix(alloc: Global, reader: &mut Reader) -> Read<Box<Expr>>
    ensures gives { Gives (λ x. expr_tree x.value) result (toks reader.new.rest.now) (reads_free grammar.postfix (toks reader.old.rest.now)) }
    ensures shorter { IfOk result (λ _. length reader.new.rest.now < length reader.old.rest.now) }
{
    let object = primary(alloc, reader)?;
    suffixes(alloc, object, reader)
}

/// The suffixes after an operand: fields, each of them after `->`, and `++` and `--`.
#[tactic(auto, using(crate::proofs::Fix::read_suffixes))]
fn suffixes(alloc: Global, operand: Box<Expr>, reader: &mut Reader) -> Read<Box<Expr>>
    ensures gives { Gives (λ x. expr_tree x.value) result (toks reader.new.rest.now) (reads_on grammar.suffixes (expr_tree operand.value) (toks reader.old.rest.now)) }
    ensures shorter { IfOk result (λ _. length reader.new.rest.now ≤ length reader.old.rest.now) }
{
    if !begins_suffix(reader) {
        return Ok(operand);
    }
    let whole = suffix(alloc, operand, reader)?;
    suffixes(alloc, whole, reader)
}

/// Whether the first token begins a suffix.
#[tactic(auto, using(arc_form::proofs::Sets::sees_or))]
fn begins_suffix(reader: &Reader) -> bool
    ensures { result ≡ sees grammar.begins_suffix (toks reader.now.rest.now) }
{
    reader.sees_mark(Mark::Arrow) || begins_counting(reader)
}

/// One suffix after an operand.
#[tactic(auto, unfolding(arc_grammar::specs::Grammar::suffix, arc_grammar::specs::Grammar::field_name))]
fn suffix(alloc: Global, operand: Box<Expr>, reader: &mut Reader) -> Read<Box<Expr>>
    ensures gives { Gives (λ x. expr_tree x.value) result (toks reader.new.rest.now) (reads_on grammar.suffix (expr_tree operand.value) (toks reader.old.rest.now)) }
    ensures shorter { IfOk result (λ _. length reader.new.rest.now < length reader.old.rest.now) }
{
    let at = place_of(&operand);
    let Some(_) = reader.take(Mark::Arrow) else {
        let operator = counting(reader)?;
        return by_one(alloc, at, operator, Moment::Before, operand);
    };
    let (name_at, called) = reader.name(alloc)?;
    boxed(alloc, Expr::Arrow(at, name_at, operand, called))
}

/// A name, a call, a message or a literal.
#[cycle(exprs)]
#[tactic(auto, unfolding(arc_grammar::specs::Grammar::primary))]
fn primary(alloc: Global, reader: &mut Reader) -> Read<Box<Expr>>
    ensures gives { Gives (λ x. expr_tree x.value) result (toks reader.new.rest.now) (reads_free grammar.primary (toks reader.old.rest.now)) }
    ensures shorter { IfOk result (λ _. length reader.new.rest.now < length reader.old.rest.now) }
{
    if reader.sees_name() {
        named(alloc, reader)
    } else if reader.sees_mark(Mark::OpenSquare) {
        message(alloc, reader)
    } else {
        literal(alloc, reader)
    }
}

/// A variable's name, or a call.
#[cycle(exprs)]
#[tactic(auto, unfolding(arc_grammar::specs::Grammar::named, arc_grammar::specs::Grammar::arguments))]
fn named(alloc: Global, reader: &mut Reader) -> Read<Box<Expr>>
    ensures gives { Gives (λ x. expr_tree x.value) result (toks reader.new.rest.now) (reads_free grammar.named (toks reader.old.rest.now)) }
    ensures shorter { IfOk result (λ _. length reader.new.rest.now < length reader.old.rest.now) }
{
    let (at, called) = reader.name(alloc)?;
    let Some(_) = reader.take(Mark::OpenParen) else {
        return boxed(alloc, Expr::Name(at, called));
    };
    let all = given(alloc, reader)?;
    boxed(alloc, Expr::Call(at, called, all))
}

/// The arguments of a call, of which there may be none, and `)`.
#[cycle(exprs)]
#[tactic(auto, using(crate::proofs::Given::read_given))]
fn given(alloc: Global, reader: &mut Reader) -> Read<Vec<Expr>>
    ensures gives { Gives (λ x. all expr_tree x.items) result (toks reader.new.rest.now) (reads_free grammar.given (toks reader.old.rest.now)) }
    ensures shorter { IfOk result (λ _. length reader.new.rest.now < length reader.old.rest.now) }
{
    let mut all = Vec::new(alloc);
    if let Some(_) = reader.take(Mark::CloseParen) {
        return Ok(all);
    }
    arguments(alloc, &mut all, reader)?;
    Ok(all)
}

/// Puts arguments after these, one or more with a comma between two, and takes `)`.
#[cycle(exprs)]
#[tactic(auto, using(crate::proofs::Given::read_arguments, arc_form::proofs::Joining::all_push))]
fn arguments(alloc: Global, before: &mut Vec<Expr>, reader: &mut Reader) -> Read<()>
    ensures gives { Gives (λ _. all expr_tree before.new.items) result (toks reader.new.rest.now) (arguments_on (all expr_tree before.old.items) (toks reader.old.rest.now)) }
    ensures shorter { IfOk result (λ _. length reader.new.rest.now < length reader.old.rest.now) }
{
    let next = expr(alloc, reader)?;
    add(before, next)?;
    if let Some(_) = reader.take(Mark::Comma) {
        return arguments(alloc, before, reader);
    }
    reader.expect(Mark::CloseParen)?;
    Ok(())
}

/// A message, to `super` or to what an expression gives.
#[cycle(exprs)]
#[tactic(auto, unfolding(arc_grammar::specs::Grammar::message, arc_grammar::specs::Grammar::to_super, arc_grammar::specs::Grammar::to_object))]
fn message(alloc: Global, reader: &mut Reader) -> Read<Box<Expr>>
    ensures gives { Gives (λ x. expr_tree x.value) result (toks reader.new.rest.now) (reads_free grammar.message (toks reader.old.rest.now)) }
    ensures shorter { IfOk result (λ _. length reader.new.rest.now < length reader.old.rest.now) }
{
    let at = reader.expect(Mark::OpenSquare)?;
    if let Some(super_at) = reader.take_word(Word::Super) {
        let (part, selector, all) = sent(alloc, reader)?;
        return boxed(alloc, Expr::SendSuper(at, part, super_at, selector, all));
    }
    let object = expr(alloc, reader)?;
    let (part, selector, all) = sent(alloc, reader)?;
    boxed(alloc, Expr::Send(at, part, object, selector, all))
}

/// The place of a selector's first part, the selector, and the arguments, and `]`.
#[cycle(exprs)]
#[tactic(auto, using(crate::proofs::Given::read_sent))]
fn sent(alloc: Global, reader: &mut Reader) -> Read<(usize, Vec<u8>, Vec<Expr>)>
    ensures gives { Gives (λ x. (x.0, (x.1.items, all expr_tree x.2.items))) result (toks reader.new.rest.now) (reads_free grammar.sent (toks reader.old.rest.now)) }
    ensures shorter { IfOk result (λ _. length reader.new.rest.now < length reader.old.rest.now) }
{
    let (at, mut selector) = reader.name(alloc)?;
    let mut all = Vec::new(alloc);
    if reader.sees_mark(Mark::Colon) {
        parts(alloc, &mut selector, &mut all, reader)?;
    }
    reader.expect(Mark::CloseSquare)?;
    Ok((at, selector, all))
}

/// Puts a colon after this selector and its argument after these, and then further parts with theirs.
#[cycle(exprs)]
#[tactic(auto, using(crate::proofs::Given::read_last_part, arc_form::proofs::Joining::all_push))]
fn parts(
    alloc: Global,
    selector: &mut Vec<u8>,
    given: &mut Vec<Expr>,
    reader: &mut Reader,
) -> Read<()>
    ensures gives { Gives (λ _. (selector.new.items, all expr_tree given.new.items)) result (toks reader.new.rest.now) (last_part_on unlimited (call grammar.expr) (selector.old.items, all expr_tree given.old.items) (toks reader.old.rest.now)) }
    ensures shorter { IfOk result (λ _. length reader.new.rest.now < length reader.old.rest.now) }
{
    reader.expect(Mark::Colon)?;
    selector.push(b':')?;
    let one = expr(alloc, reader)?;
    add(given, one)?;
    if !reader.sees_name() {
        return Ok(());
    }
    let (_, called) = reader.name(alloc)?;
    selector.extend_from_slice(&called)?;
    parts(alloc, selector, given, reader)
}
