//! Reads what stands beside the bodies of `if` and of loops.
ghost use Rattle.std.specs.Prelude.{◌<◌, length, option_map, IfOk};
ghost use Rattle.arc_lex.specs.Tokens.{toks};
ghost use Rattle.arc_form.specs.Reader.{Gives};
ghost use Rattle.arc_ast.specs.Tree.{expr_tree, stmt_tree};
ghost use Rattle.arc_grammar.specs.Grammar.{reads};
ghost use Rattle.arc_grammar.specs.Grammar as grammar;

use crate::full::full;
use crate::qualifier::begins_qualifier;
use crate::simple::{empty, simple, value};
use crate::type_name::begins_plain_type;
use crate::variable::{declaration, qualified_declaration};
use arc_ast::tree::{Expr, Qualifiers, Stmt};
use arc_form::fail::Read;
use arc_form::made::boxed;
use arc_form::reader::Reader;
use arc_lex::mark::Mark;
use arc_lex::word::Word;
use std::alloc::Global;

/// What is in the parentheses of a `for`.
#[derive(Drop)]
pub struct ForClauses {
    /// A declaration, an expression or `;` alone.
    pub beginning: Box<Stmt>,
    pub test: Option<Box<Expr>>,
    pub step: Option<Box<Expr>>,
}

/// A controlling expression in parentheses.
#[tactic(auto, unfolding(arc_grammar::specs::Grammar::controlling))]
pub fn controlling(alloc: Global, reader: &mut Reader) -> Read<Box<Expr>>
    ensures gives { Gives (λ x. expr_tree x.value) result (toks reader.new.rest.now) (reads grammar.controlling (toks reader.old.rest.now)) }
    ensures shorter { IfOk result (λ _. length reader.new.rest.now < length reader.old.rest.now) }
{
    reader.expect(Mark::OpenParen)?;
    let condition = full(alloc, reader)?;
    reader.expect(Mark::CloseParen)?;
    Ok(condition)
}

/// `while`, a controlling expression and `;`, after the body of a `do`
#[tactic(auto, unfolding(arc_grammar::specs::Grammar::test_after))]
pub fn test_after(alloc: Global, reader: &mut Reader) -> Read<Box<Expr>>
    ensures gives { Gives (λ x. expr_tree x.value) result (toks reader.new.rest.now) (reads grammar.test_after (toks reader.old.rest.now)) }
    ensures shorter { IfOk result (λ _. length reader.new.rest.now < length reader.old.rest.now) }
{
    reader.keyword(Word::While)?;
    let condition = controlling(alloc, reader)?;
    reader.expect(Mark::Semicolon)?;
    Ok(condition)
}

/// What comes before a `for` that is nested so deep: a declaration, an expression or nothing, and `;`.
#[tactic(auto, unfolding(arc_grammar::specs::Grammar::beginning))]
fn beginning(alloc: Global, depth: usize, reader: &mut Reader) -> Read<Stmt>
    ensures gives { Gives stmt_tree result (toks reader.new.rest.now) (reads (grammar.beginning depth) (toks reader.old.rest.now)) }
    ensures shorter { IfOk result (λ _. length reader.new.rest.now < length reader.old.rest.now) }
{
    if begins_qualifier(reader) {
        qualified_declaration(alloc, reader)
    } else if begins_plain_type(reader) {
        declaration(alloc, false, Qualifiers::Unqualified, reader)
    } else if reader.sees_name_and(Mark::Star) {
        declaration(alloc, true, Qualifiers::Unqualified, reader)
    } else if reader.sees_mark(Mark::Semicolon) {
        empty(reader)
    } else {
        simple(alloc, depth, reader)
    }
}

/// The step of a `for`, if there is one, and `)`.
#[tactic(auto, unfolding(arc_grammar::specs::Grammar::step))]
fn step(alloc: Global, reader: &mut Reader) -> Read<Option<Box<Expr>>>
    ensures gives { Gives (λ x. option_map (λ b. expr_tree b.value) x) result (toks reader.new.rest.now) (reads grammar.step (toks reader.old.rest.now)) }
    ensures shorter { IfOk result (λ _. length reader.new.rest.now < length reader.old.rest.now) }
{
    if let Some(_) = reader.take(Mark::CloseParen) {
        return Ok(None);
    }
    let step = full(alloc, reader)?;
    reader.expect(Mark::CloseParen)?;
    Ok(Some(step))
}

/// What is in the parentheses of a `for` that is nested so deep.
#[tactic(auto, unfolding(arc_grammar::specs::Grammar::clauses))]
pub fn clauses(alloc: Global, depth: usize, reader: &mut Reader) -> Read<ForClauses>
    ensures gives { Gives (λ x. (stmt_tree x.beginning.value, (option_map (λ b. expr_tree b.value) x.test, option_map (λ b. expr_tree b.value) x.step))) result (toks reader.new.rest.now) (reads (grammar.clauses depth) (toks reader.old.rest.now)) }
    ensures shorter { IfOk result (λ _. length reader.new.rest.now < length reader.old.rest.now) }
{
    reader.expect(Mark::OpenParen)?;
    let beginning = beginning(alloc, depth, reader)?;
    let beginning = boxed(alloc, beginning)?;
    let test = value(alloc, reader)?;
    let step = step(alloc, reader)?;
    Ok(ForClauses {
        beginning,
        test,
        step,
    })
}
