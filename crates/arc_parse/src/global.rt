//! Reads variables of the whole program.
ghost use Rattle.std.specs.Prelude.{◌<◌, ◌≤◌, length, IfOk};
ghost use Rattle.arc_lex.specs.Tokens.{toks};
ghost use Rattle.arc_ast.specs.Tree.{type_tree, global_tree, global_trees};
ghost use Rattle.arc_form.specs.Kinds as kinds;
ghost use Rattle.arc_form.specs.Reader.{Gives, take_one};
ghost use Rattle.arc_grammar.specs.Grammar.{reads};
ghost use Rattle.arc_grammar.specs.Grammar as grammar;
ghost use Rattle.arc_parse.specs.private.Globals.{globals_on};
ghost use Rattle.arc_parse.specs.private.Declaring.{reads_after};

use arc_ast::tree;
use arc_ast::tree::{Constant, Qualifiers, TypeName};
use arc_form::fail::{Fail, Read};
use arc_form::made::keep;
use arc_form::reader::Reader;
use arc_lex::mark::Mark;
use arc_lex::token::TokenKind;
use arc_lex::word::Word;
use std::alloc::Global;

/// The variables of a type, one or more, and `;`, where all but the first have a `*` if the type is a class's.
#[tactic(auto, using(crate::proofs::Globals::read_globals))]
pub fn globals(
    alloc: Global,
    of_class: bool,
    qualifiers: Qualifiers,
    type_name: &TypeName,
    reader: &mut Reader,
) -> Read<Vec<tree::Global>>
    ensures gives { Gives (λ x. global_trees x.items) result (toks reader.new.rest.now) (reads_after (grammar.globals of_class) (qualifiers, type_tree type_name.now) (toks reader.old.rest.now)) }
    ensures shorter { IfOk result (λ _. length reader.new.rest.now < length reader.old.rest.now) }
{
    let first = global(alloc, qualifiers, type_name, reader)?;
    let mut all = Vec::new(alloc);
    keep(&mut all, first)?;
    let all = more_globals(alloc, of_class, qualifiers, type_name, all, reader)?;
    reader.expect(Mark::Semicolon)?;
    Ok(all)
}

/// Qualifiers, a name, and perhaps what it begins with, of a variable of a type.
#[tactic(auto, unfolding(arc_grammar::specs::Grammar::global))]
fn global(
    alloc: Global,
    qualifiers: Qualifiers,
    type_name: &TypeName,
    reader: &mut Reader,
) -> Read<tree::Global>
    ensures gives { Gives global_tree result (toks reader.new.rest.now) (reads_after grammar.global (qualifiers, type_tree type_name.now) (toks reader.old.rest.now)) }
    ensures shorter { IfOk result (λ _. length reader.new.rest.now < length reader.old.rest.now) }
{
    let own = crate::qualifier::qualifiers(reader)?;
    let (at, name) = reader.name(alloc)?;
    let initial = first_constant(reader)?;
    Ok(tree::Global {
        at,
        type_name: type_name.copy(alloc)?,
        qualifiers: qualifiers.both(own),
        name,
        initial,
    })
}

/// A variable of a type, after `*` where the type is a class's.
#[tactic(auto, using(crate::proofs::Globals::read_starred_global))]
fn starred_global(
    alloc: Global,
    of_class: bool,
    qualifiers: Qualifiers,
    type_name: &TypeName,
    reader: &mut Reader,
) -> Read<tree::Global>
    ensures gives { Gives global_tree result (toks reader.new.rest.now) (reads_after (grammar.starred_global of_class) (qualifiers, type_tree type_name.now) (toks reader.old.rest.now)) }
    ensures shorter { IfOk result (λ _. length reader.new.rest.now < length reader.old.rest.now) }
{
    if of_class {
        reader.expect(Mark::Star)?;
    }
    global(alloc, qualifiers, type_name, reader)
}

/// These variables and the further ones of this type, each after a comma, and a `*` where the type is a class's.
#[tactic(auto, using(crate::proofs::Globals::read_more_globals, arc_grammar::proofs::Lists::appends))]
fn more_globals(
    alloc: Global,
    of_class: bool,
    qualifiers: Qualifiers,
    type_name: &TypeName,
    before: Vec<tree::Global>,
    reader: &mut Reader,
) -> Read<Vec<tree::Global>>
    ensures gives { Gives (λ x. global_trees x.items) result (toks reader.new.rest.now) (globals_on of_class (qualifiers, type_tree type_name.now) (global_trees before.items) (toks reader.old.rest.now)) }
    ensures shorter { IfOk result (λ _. length reader.new.rest.now ≤ length reader.old.rest.now) }
{
    let mut all = before;
    'globals: while let Some(_) = reader.take(Mark::Comma) {
        let next = starred_global(alloc, of_class, qualifiers, type_name, reader)?;
        keep(&mut all, next)?;
    }
    Ok(all)
}

/// `=` and a constant, or nothing.
#[tactic(auto, unfolding(arc_grammar::specs::Grammar::first_constant))]
fn first_constant(reader: &mut Reader) -> Read<Option<Constant>>
    ensures gives { Gives (λ x. x) result (toks reader.new.rest.now) (reads grammar.first_constant (toks reader.old.rest.now)) }
    ensures shorter { IfOk result (λ _. length reader.new.rest.now ≤ length reader.old.rest.now) }
{
    let Some(_) = reader.take(Mark::Assign) else {
        return Ok(None);
    };
    let value = constant(reader)?;
    Ok(Some(value))
}

/// What a variable of the whole program may begin with: `-` and an integer, or what a token stands for.
#[tactic(auto, unfolding(arc_grammar::specs::Grammar::constant, arc_grammar::specs::Grammar::negative_constant))]
fn constant(reader: &mut Reader) -> Read<Constant>
    ensures gives { Gives (λ x. x) result (toks reader.new.rest.now) (reads grammar.constant (toks reader.old.rest.now)) }
    ensures shorter { IfOk result (λ _. length reader.new.rest.now < length reader.old.rest.now) }
{
    let Some(at) = reader.take(Mark::Minus) else {
        return plain_constant(reader);
    };
    let value = integer(reader)?;
    Ok(Constant::Number(at, value.wrapping_neg()))
}

/// The number of the first token, which is an integer.
///
/// `Unexpected` comes where it is not, and nothing is taken.
fn integer(reader: &mut Reader) -> Read<i64>
    ensures gives { Gives (λ x. x) result (toks reader.new.rest.now) (take_one kinds.integer (λ t. grammar.number_of t.sort) (toks reader.old.rest.now)) }
    ensures shorter { IfOk result (λ _. length reader.new.rest.now < length reader.old.rest.now) }
{
    match reader.rest.split_first() {
        Some((token, rest)) => match token.kind {
            TokenKind::Integer(value, _) => {
                reader.rest = rest;
                Ok(value)
            }
            _ => Err(Fail::Unexpected),
        },
        None => Err(Fail::Unexpected),
    }
}

/// What the first token stands for, which is an integer, a character constant, `YES`, `NO` or `nil`.
///
/// `Unexpected` comes where it is not, and nothing is taken.
#[tactic(auto, unfolding(arc_grammar::specs::Grammar::plain_constant))]
fn plain_constant(reader: &mut Reader) -> Read<Constant>
    ensures gives { Gives (λ x. x) result (toks reader.new.rest.now) (reads grammar.plain_constant (toks reader.old.rest.now)) }
    ensures shorter { IfOk result (λ _. length reader.new.rest.now < length reader.old.rest.now) }
{
    let Some((token, rest)) = reader.rest.split_first() else {
        return Err(Fail::Unexpected);
    };
    let at = token.span.from;
    let constant = match token.kind {
        TokenKind::Integer(value, _) => Constant::Number(at, value),
        TokenKind::Character(byte) => Constant::Number(at, i64::from(byte)),
        TokenKind::Word(Word::Yes) => Constant::Number(at, 1),
        TokenKind::Word(Word::No) => Constant::Number(at, 0),
        TokenKind::Word(Word::Nil) => Constant::Nil(at),
        _ => return Err(Fail::Unexpected),
    };
    reader.rest = rest;
    Ok(constant)
}
