//! Reads declarations.
ghost use Rattle.std.specs.Prelude.{◌<◌, ◌≤◌, length, option_map, IfOk};
ghost use Rattle.arc_lex.specs.Tokens.{toks};
ghost use Rattle.arc_form.specs.Reader.{Gives};
ghost use Rattle.arc_form.specs.Views.{all};
ghost use Rattle.arc_ast.specs.Tree.{expr_tree, variable_tree, stmt_tree};
ghost use Rattle.arc_grammar.specs.Grammar.{reads};
ghost use Rattle.arc_parse.specs.private.Declaring.{reads_after};
ghost use Rattle.arc_grammar.specs.Grammar as grammar;

use crate::full::full;
use crate::node::unboxed;
use crate::qualifier::{qualifiers, some_qualifiers};
use crate::type_name::declared_type;
use arc_ast::tree::{Expr, Qualifiers, Stmt, Variable};
use arc_form::fail::Read;
use arc_form::made::keep;
use arc_form::reader::Reader;
use arc_lex::mark::Mark;
use std::alloc::Global;

/// Perhaps `=` and what a variable begins with.
#[tactic(auto, unfolding(arc_grammar::specs::Grammar::initial))]
fn initial(alloc: Global, reader: &mut Reader) -> Read<Option<Box<Expr>>>
    ensures gives { Gives (λ x. option_map (λ b. expr_tree b.value) x) result (toks reader.new.rest.now) (reads grammar.initial (toks reader.old.rest.now)) }
    ensures shorter { IfOk result (λ _. length reader.new.rest.now ≤ length reader.old.rest.now) }
{
    let Some(_) = reader.take(Mark::Assign) else {
        return Ok(None);
    };
    let value = full(alloc, reader)?;
    Ok(Some(value))
}

/// A variable's qualifiers, its name, and perhaps `=` and what it begins with.
#[tactic(auto, unfolding(arc_grammar::specs::Grammar::variable))]
fn variable(alloc: Global, reader: &mut Reader) -> Read<Variable>
    ensures gives { Gives variable_tree result (toks reader.new.rest.now) (reads grammar.variable (toks reader.old.rest.now)) }
    ensures shorter { IfOk result (λ _. length reader.new.rest.now < length reader.old.rest.now) }
{
    let qualifiers = qualifiers(reader)?;
    let (at, name) = reader.name(alloc)?;
    let initial = initial(alloc, reader)?;
    Ok(Variable {
        at,
        qualifiers,
        name,
        initial: unboxed(initial),
    })
}

/// A variable, after `*` where its type is a class's.
#[tactic(auto, unfolding(arc_grammar::specs::Grammar::starred_variable))]
fn starred_variable(alloc: Global, of_class: bool, reader: &mut Reader) -> Read<Variable>
    ensures gives { Gives variable_tree result (toks reader.new.rest.now) (reads (grammar.starred_variable of_class) (toks reader.old.rest.now)) }
    ensures shorter { IfOk result (λ _. length reader.new.rest.now < length reader.old.rest.now) }
{
    if of_class {
        reader.expect(Mark::Star)?;
    }
    variable(alloc, reader)
}

/// Variables, one or more, with a comma between two, and each after `*` where their type is a class's.
#[tactic(auto, using(crate::proofs::Variables::read_variables, crate::proofs::Variables::read_more_variables, arc_form::proofs::Joining::all_push))]
fn variables(alloc: Global, of_class: bool, reader: &mut Reader) -> Read<Vec<Variable>>
    ensures gives { Gives (λ x. all variable_tree x.items) result (toks reader.new.rest.now) (reads (grammar.variables of_class) (toks reader.old.rest.now)) }
    ensures shorter { IfOk result (λ _. length reader.new.rest.now < length reader.old.rest.now) }
{
    let first = starred_variable(alloc, of_class, reader)?;
    let mut all = Vec::new(alloc);
    keep(&mut all, first)?;
    'variables: while let Some(_) = reader.take(Mark::Comma) {
        let next = starred_variable(alloc, of_class, reader)?;
        keep(&mut all, next)?;
    }
    Ok(all)
}

/// A type, a class's or one that names no class, one variable or more and `;`, after qualifiers.
#[tactic(auto, using(arc_grammar::proofs::Lists::alls), unfolding(arc_grammar::specs::Grammar::declaration))]
pub fn declaration(
    alloc: Global,
    of_class: bool,
    qualifiers: Qualifiers,
    reader: &mut Reader,
) -> Read<Stmt>
    ensures gives { Gives stmt_tree result (toks reader.new.rest.now) (reads_after (grammar.declaration of_class) qualifiers (toks reader.old.rest.now)) }
    ensures shorter { IfOk result (λ _. length reader.new.rest.now < length reader.old.rest.now) }
{
    let (at, written) = declared_type(alloc, of_class, reader)?;
    let all = variables(alloc, of_class, reader)?;
    reader.expect(Mark::Semicolon)?;
    Ok(Stmt::Variables(at, qualifiers, written, all))
}

/// Qualifiers, a type, one variable or more and `;`.
#[tactic(auto, unfolding(arc_grammar::specs::Grammar::qualified_declaration))]
pub fn qualified_declaration(alloc: Global, reader: &mut Reader) -> Read<Stmt>
    ensures gives { Gives stmt_tree result (toks reader.new.rest.now) (reads grammar.qualified_declaration (toks reader.old.rest.now)) }
    ensures shorter { IfOk result (λ _. length reader.new.rest.now < length reader.old.rest.now) }
{
    let qualifiers = some_qualifiers(reader)?;
    if reader.sees_name() {
        declaration(alloc, true, qualifiers, reader)
    } else {
        declaration(alloc, false, qualifiers, reader)
    }
}
