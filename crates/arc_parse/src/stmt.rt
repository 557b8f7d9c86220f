//! Reads statements.
ghost use Rattle.std.specs.Prelude.{◌≡◌, ◌<◌, ◌≤◌, length, option_map, IfOk};
ghost use Rattle.std.specs.Option.{option_map_or};
ghost use Rattle.arc_lex.specs.Tokens.{toks};
ghost use Rattle.arc_form.specs.Reader.{Gives, allowed, bind};
ghost use Rattle.arc_form.specs.Views.{all};
ghost use Rattle.arc_ast.specs.Tree.{If, IfElse, expr_tree, stmt_tree};
ghost use Rattle.arc_grammar.specs.Grammar.{reads, rules, these};
ghost use Rattle.arc_grammar.specs.Grammar as grammar;
ghost use Rattle.arc_grammar.specs.declared.limits.TheConstants.{DEEPEST};

use crate::clauses::{clauses, controlling, test_after};
use crate::first::{begins_item, begins_other};
use crate::node::{boxed_stmt, unboxed};
use crate::qualifier::begins_qualifier;
use crate::simple::{breaking, continuing, empty, returned, simple};
use crate::type_name::begins_plain_type;
use crate::variable::{declaration, qualified_declaration};
use arc_ast::tree::{Expr, Moment, Qualifiers, Stmt};
use arc_form::fail::{Fail, Read};
use arc_form::made::keep;
use arc_form::reader::Reader;
use arc_grammar::limits::DEEPEST;
use arc_lex::mark::Mark;
use arc_lex::word::Word;
use std::alloc::Global;

/// A statement that is nested so deep.
#[cycle(stmts)]
#[tactic(auto, using(arc_grammar::proofs::Fits::read_rule), unfolding(arc_grammar::specs::Grammar::body, arc_form::specs::Reader::nested))]
fn stmt(alloc: Global, depth: usize, reader: &mut Reader) -> Read<Stmt>
    ensures gives { Gives stmt_tree result (toks reader.new.rest.now) (rules these (grammar.stmt depth) (toks reader.old.rest.now)) }
    ensures shorter { IfOk result (λ _. length reader.new.rest.now < length reader.old.rest.now) }
{
    if !begins_other(reader) {
        simple(alloc, depth, reader)
    } else if depth <= DEEPEST {
        statement(alloc, depth, reader)
    } else {
        Err(Fail::TooDeep)
    }
}

/// A block, `;`, or a statement that begins with a word.
#[cycle(stmts)]
#[tactic(auto, unfolding(arc_grammar::specs::Grammar::statement))]
fn statement(alloc: Global, depth: usize, reader: &mut Reader) -> Read<Stmt>
    requires { depth ≤ DEEPEST }
    ensures gives { Gives stmt_tree result (toks reader.new.rest.now) (reads (grammar.statement depth) (toks reader.old.rest.now)) }
    ensures shorter { IfOk result (λ _. length reader.new.rest.now < length reader.old.rest.now) }
{
    if reader.sees_mark(Mark::OpenBrace) {
        block(alloc, depth, reader)
    } else if reader.sees_mark(Mark::Semicolon) {
        empty(reader)
    } else if reader.sees_word(Word::Return) {
        returned(alloc, reader)
    } else if reader.sees_word(Word::If) {
        if_else(alloc, depth, reader)
    } else if reader.sees_word(Word::Break) {
        breaking(reader)
    } else if reader.sees_word(Word::Continue) {
        continuing(reader)
    } else if reader.sees_word(Word::While) {
        while_do(alloc, depth, reader)
    } else if reader.sees_word(Word::Do) {
        do_while(alloc, depth, reader)
    } else {
        for_do(alloc, depth, reader)
    }
}

/// `if`, a controlling expression, a branch, and perhaps `else` and another
#[cycle(stmts)]
#[tactic(auto, unfolding(arc_grammar::specs::Grammar::if_else))]
fn if_else(alloc: Global, depth: usize, reader: &mut Reader) -> Read<Stmt>
    requires { depth ≤ DEEPEST }
    ensures gives { Gives stmt_tree result (toks reader.new.rest.now) (reads (grammar.if_else depth) (toks reader.old.rest.now)) }
    ensures shorter { IfOk result (λ _. length reader.new.rest.now < length reader.old.rest.now) }
{
    let at = reader.keyword(Word::If)?;
    let condition = controlling(alloc, reader)?;
    let first = branch(alloc, depth + 1, reader)?;
    let second = otherwise(alloc, depth, reader)?;
    Ok(if_statement(at, condition, first, second))
}

/// An `if` with this test and these branches.
fn if_statement(
    at: usize,
    condition: Box<Expr>,
    first: Box<Stmt>,
    second: Option<Box<Stmt>>,
) -> Stmt
    ensures { stmt_tree result ≡ option_map_or (IfElse at (expr_tree condition.value) (stmt_tree first.value)) (option_map (λ b. stmt_tree b.value) second) (If at (expr_tree condition.value) (stmt_tree first.value)) }
{
    match second {
        None => Stmt::If(at, Box::into_inner(condition), first),
        Some(second) => Stmt::IfElse(at, Box::into_inner(condition), first, second),
    }
}

/// Perhaps `else` and a branch.
#[cycle(stmts)]
#[tactic(auto, unfolding(arc_grammar::specs::Grammar::otherwise))]
fn otherwise(alloc: Global, depth: usize, reader: &mut Reader) -> Read<Option<Box<Stmt>>>
    requires { depth ≤ DEEPEST }
    ensures gives { Gives (λ x. option_map (λ b. stmt_tree b.value) x) result (toks reader.new.rest.now) (reads (grammar.otherwise depth) (toks reader.old.rest.now)) }
    ensures shorter { IfOk result (λ _. length reader.new.rest.now ≤ length reader.old.rest.now) }
{
    let Some(_) = reader.take_word(Word::Else) else {
        return Ok(None);
    };
    let second = branch(alloc, depth + 1, reader)?;
    Ok(Some(second))
}

/// `while`, a controlling expression and a body
#[cycle(stmts)]
#[tactic(auto, unfolding(arc_grammar::specs::Grammar::while_do))]
fn while_do(alloc: Global, depth: usize, reader: &mut Reader) -> Read<Stmt>
    requires { depth ≤ DEEPEST }
    ensures gives { Gives stmt_tree result (toks reader.new.rest.now) (reads (grammar.while_do depth) (toks reader.old.rest.now)) }
    ensures shorter { IfOk result (λ _. length reader.new.rest.now < length reader.old.rest.now) }
{
    let at = reader.keyword(Word::While)?;
    let condition = controlling(alloc, reader)?;
    let body = branch(alloc, depth + 1, reader)?;
    Ok(Stmt::While(at, Moment::Before, Box::into_inner(condition), body))
}

/// `do`, a body, and the test after it
#[cycle(stmts)]
#[tactic(auto, unfolding(arc_grammar::specs::Grammar::do_while))]
fn do_while(alloc: Global, depth: usize, reader: &mut Reader) -> Read<Stmt>
    requires { depth ≤ DEEPEST }
    ensures gives { Gives stmt_tree result (toks reader.new.rest.now) (reads (grammar.do_while depth) (toks reader.old.rest.now)) }
    ensures shorter { IfOk result (λ _. length reader.new.rest.now < length reader.old.rest.now) }
{
    let at = reader.keyword(Word::Do)?;
    let body = branch(alloc, depth + 1, reader)?;
    let condition = test_after(alloc, reader)?;
    Ok(Stmt::While(at, Moment::After, Box::into_inner(condition), body))
}

/// `for`, its clauses and a body
#[cycle(stmts)]
#[tactic(auto, unfolding(arc_grammar::specs::Grammar::for_do))]
fn for_do(alloc: Global, depth: usize, reader: &mut Reader) -> Read<Stmt>
    requires { depth ≤ DEEPEST }
    ensures gives { Gives stmt_tree result (toks reader.new.rest.now) (reads (grammar.for_do depth) (toks reader.old.rest.now)) }
    ensures shorter { IfOk result (λ _. length reader.new.rest.now < length reader.old.rest.now) }
{
    let at = reader.keyword(Word::For)?;
    let clauses = clauses(alloc, depth, reader)?;
    let body = branch(alloc, depth + 1, reader)?;
    Ok(Stmt::For(
        at,
        clauses.beginning,
        unboxed(clauses.test),
        unboxed(clauses.step),
        body,
    ))
}

/// Nothing, where statements may be nested so deep. Otherwise any token is too deep, and the end is unexpected.
#[tactic(auto, unfolding(arc_form::specs::Reader::allowed))]
fn allowed(depth: usize, reader: &mut Reader) -> Read<()>
    ensures gives { Gives (λ _. tt) result (toks reader.new.rest.now) (allowed these.depth depth (toks reader.old.rest.now)) }
    ensures kept { reader.new.rest ≡ reader.old.rest }
{
    if depth > DEEPEST {
        return match reader.rest.first() {
            None => Err(Fail::Unexpected),
            Some(_) => Err(Fail::TooDeep),
        };
    }
    Ok(())
}

/// A statement in a box, where one has to come that is nested so deep.
#[cycle(stmts)]
fn branch(alloc: Global, depth: usize, reader: &mut Reader) -> Read<Box<Stmt>>
    ensures gives { Gives (λ x. stmt_tree x.value) result (toks reader.new.rest.now) (bind (allowed these.depth depth (toks reader.old.rest.now)) (λ _. rules these (grammar.stmt depth))) }
    ensures shorter { IfOk result (λ _. length reader.new.rest.now < length reader.old.rest.now) }
{
    allowed(depth, reader)?;
    let read = stmt(alloc, depth, reader)?;
    boxed_stmt(alloc, read)
}

/// Items in braces.
#[cycle(stmts)]
#[tactic(auto, unfolding(arc_grammar::specs::Grammar::block))]
fn block(alloc: Global, depth: usize, reader: &mut Reader) -> Read<Stmt>
    requires { depth ≤ DEEPEST }
    ensures gives { Gives stmt_tree result (toks reader.new.rest.now) (reads (grammar.block depth) (toks reader.old.rest.now)) }
    ensures shorter { IfOk result (λ _. length reader.new.rest.now < length reader.old.rest.now) }
{
    let at = reader.expect(Mark::OpenBrace)?;
    let all = items(alloc, depth + 1, reader)?;
    reader.expect(Mark::CloseBrace)?;
    Ok(Stmt::Block(at, all))
}

/// The items of a block, each a declaration or a statement.
#[cycle(stmts)]
#[tactic(auto, using(arc_grammar::proofs::Loops::one_more, arc_grammar::proofs::Fits::taking, arc_form::proofs::Joining::row_start, arc_form::proofs::Joining::all_push), unfolding(arc_grammar::specs::Grammar::items))]
pub fn items(alloc: Global, depth: usize, reader: &mut Reader) -> Read<Vec<Stmt>>
    requires { depth ≤ 201 }
    ensures gives { Gives (λ x. all stmt_tree x.items) result (toks reader.new.rest.now) (reads (grammar.items depth) (toks reader.old.rest.now)) }
    ensures shorter { IfOk result (λ _. length reader.new.rest.now ≤ length reader.old.rest.now) }
{
    let mut all = Vec::new(alloc);
    'items: while begins_item(reader) {
        let item = item(alloc, depth, reader)?;
        keep(&mut all, item)?;
    }
    Ok(all)
}

/// A declaration or a statement.
#[cycle(stmts)]
#[tactic(auto, unfolding(arc_grammar::specs::Grammar::item, arc_grammar::specs::Grammar::by_name))]
fn item(alloc: Global, depth: usize, reader: &mut Reader) -> Read<Stmt>
    requires { depth ≤ 201 }
    ensures gives { Gives stmt_tree result (toks reader.new.rest.now) (reads (grammar.item depth) (toks reader.old.rest.now)) }
    ensures shorter { IfOk result (λ _. length reader.new.rest.now < length reader.old.rest.now) }
{
    if begins_qualifier(reader) {
        qualified_declaration(alloc, reader)
    } else if begins_plain_type(reader) {
        declaration(alloc, false, Qualifiers::Unqualified, reader)
    } else if reader.sees_name_and(Mark::Star) {
        declaration(alloc, true, Qualifiers::Unqualified, reader)
    } else {
        stmt(alloc, depth, reader)
    }
}
