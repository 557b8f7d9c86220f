//! Reads statements without others inside.
ghost use Rattle.std.specs.Prelude.{◌<◌, length, option_map, IfOk};
ghost use Rattle.arc_lex.specs.Tokens.{toks};
ghost use Rattle.arc_form.specs.Reader.{Gives};
ghost use Rattle.arc_ast.specs.Tree.{expr_tree, stmt_tree};
ghost use Rattle.arc_grammar.specs.Grammar.{reads};
ghost use Rattle.arc_grammar.specs.Grammar as grammar;

use crate::first::begins_expr;
use crate::full::full;
use crate::node::unboxed;
use arc_ast::tree::{Expr, Stmt};
use arc_form::fail::{Fail, Read};
use arc_form::reader::Reader;
use arc_form::slice::after_first;
use arc_grammar::limits::DEEPEST;
use arc_lex::mark::Mark;
use arc_lex::word::Word;
use std::alloc::Global;

/// `;` alone
#[tactic(auto, unfolding(arc_grammar::specs::Grammar::empty))]
pub fn empty(reader: &mut Reader) -> Read<Stmt>
    ensures gives { Gives stmt_tree result (toks reader.new.rest.now) (reads grammar.empty (toks reader.old.rest.now)) }
    ensures shorter { IfOk result (λ _. length reader.new.rest.now < length reader.old.rest.now) }
{
    let at = reader.expect(Mark::Semicolon)?;
    Ok(Stmt::Empty(at))
}

/// An expression and `;`, nested so deep. What begins with a name and `*` or `<` is refused at the mark, however deep it is: it would be a declaration.
#[tactic(auto, unfolding(arc_grammar::specs::Grammar::simple, arc_form::specs::Reader::nested))]
pub fn simple(alloc: Global, depth: usize, reader: &mut Reader) -> Read<Stmt>
    ensures gives { Gives stmt_tree result (toks reader.new.rest.now) (reads (grammar.simple depth) (toks reader.old.rest.now)) }
    ensures shorter { IfOk result (λ _. length reader.new.rest.now < length reader.old.rest.now) }
{
    if reader.sees_name_and(Mark::Star) || reader.sees_name_and(Mark::Less) {
        reader.rest = after_first(reader.rest);
        return Err(Fail::Unexpected);
    }
    if depth > DEEPEST {
        return if begins_expr(reader) {
            Err(Fail::TooDeep)
        } else {
            Err(Fail::Unexpected)
        };
    }
    let value = full(alloc, reader)?;
    reader.expect(Mark::Semicolon)?;
    Ok(Stmt::Expr(Box::into_inner(value)))
}

/// `return` with a value or without
#[tactic(auto, unfolding(arc_grammar::specs::Grammar::returned))]
pub fn returned(alloc: Global, reader: &mut Reader) -> Read<Stmt>
    ensures gives { Gives stmt_tree result (toks reader.new.rest.now) (reads grammar.returned (toks reader.old.rest.now)) }
    ensures shorter { IfOk result (λ _. length reader.new.rest.now < length reader.old.rest.now) }
{
    let at = reader.keyword(Word::Return)?;
    let value = value(alloc, reader)?;
    Ok(Stmt::Return(at, unboxed(value)))
}

/// What `return` gives, or what a `for` tests, if there is something, and `;`.
#[tactic(auto, unfolding(arc_grammar::specs::Grammar::value))]
pub fn value(alloc: Global, reader: &mut Reader) -> Read<Option<Box<Expr>>>
    ensures gives { Gives (λ x. option_map (λ b. expr_tree b.value) x) result (toks reader.new.rest.now) (reads grammar.value (toks reader.old.rest.now)) }
    ensures shorter { IfOk result (λ _. length reader.new.rest.now < length reader.old.rest.now) }
{
    if let Some(_) = reader.take(Mark::Semicolon) {
        return Ok(None);
    }
    let value = full(alloc, reader)?;
    reader.expect(Mark::Semicolon)?;
    Ok(Some(value))
}

/// `break`
#[tactic(auto, unfolding(arc_grammar::specs::Grammar::breaking))]
pub fn breaking(reader: &mut Reader) -> Read<Stmt>
    ensures gives { Gives stmt_tree result (toks reader.new.rest.now) (reads grammar.breaking (toks reader.old.rest.now)) }
    ensures shorter { IfOk result (λ _. length reader.new.rest.now < length reader.old.rest.now) }
{
    let at = reader.keyword(Word::Break)?;
    reader.expect(Mark::Semicolon)?;
    Ok(Stmt::Break(at))
}

/// `continue`
#[tactic(auto, unfolding(arc_grammar::specs::Grammar::continuing))]
pub fn continuing(reader: &mut Reader) -> Read<Stmt>
    ensures gives { Gives stmt_tree result (toks reader.new.rest.now) (reads grammar.continuing (toks reader.old.rest.now)) }
    ensures shorter { IfOk result (λ _. length reader.new.rest.now < length reader.old.rest.now) }
{
    let at = reader.keyword(Word::Continue)?;
    reader.expect(Mark::Semicolon)?;
    Ok(Stmt::Continue(at))
}
