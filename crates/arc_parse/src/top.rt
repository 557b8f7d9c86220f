//! Reads what stands outside of all else.
ghost use Rattle.std.specs.Prelude.{◌≡◌, ◌<◌, length, IfOk};
ghost use Rattle.arc_lex.specs.Tokens.{toks};
ghost use Rattle.arc_form.specs.Reader.{Gives, sees};
ghost use Rattle.arc_grammar.specs.Grammar.{reads};
ghost use Rattle.arc_grammar.specs.Grammar as grammar;
ghost use Rattle.arc_parse.specs.private.Tops.{top_tree};

use crate::class::{class_names, implementation, interface};
use crate::function::function;
use crate::global::globals;
use crate::qualifier::{begins_qualifier, some_qualifiers};
use crate::type_name::perhaps;
use crate::value_type::{begins_qualified_type, value_type_of};
use arc_ast::tree;
use arc_ast::tree::{Function, Implementation, Interface, Qualifiers, ResultType};
use arc_form::fail::Read;
use arc_form::reader::Reader;
use arc_lex::mark::Mark;
use arc_lex::word::{AtWord, Word};
use std::alloc::Global;

/// What stands outside of all else. The names that `@class` declares aren't kept.
#[derive(Drop)]
pub enum Top {
    Names,
    Function(Function),
    Globals(Vec<tree::Global>),
    Interface(Interface),
    Implementation(Implementation),
}

/// Whether what stands outside of all else can begin with the first token.
#[tactic(auto, using(arc_form::proofs::Sets::sees_or))]
pub fn begins_top(reader: &Reader) -> bool
    ensures { result ≡ sees grammar.begins_top (toks reader.now.rest.now) }
{
    reader.sees_at(AtWord::Class)
        || reader.sees_at(AtWord::Interface)
        || reader.sees_at(AtWord::Implementation)
        || reader.sees_word(Word::Static)
        || reader.sees_word(Word::Void)
        || begins_qualified_type(reader)
}

/// Names of classes, an interface, an implementation, a function, or variables of the whole program.
#[tactic(auto, unfolding(arc_grammar::specs::Grammar::top))]
pub fn any_top(alloc: Global, reader: &mut Reader) -> Read<Top>
    ensures gives { Gives top_tree result (toks reader.new.rest.now) (reads grammar.top (toks reader.old.rest.now)) }
    ensures shorter { IfOk result (λ _. length reader.new.rest.now < length reader.old.rest.now) }
{
    if reader.sees_at(AtWord::Class) {
        class_names(alloc, reader)?;
        return Ok(Top::Names);
    }
    if reader.sees_at(AtWord::Interface) {
        let interface = interface(alloc, reader)?;
        return Ok(Top::Interface(interface));
    }
    if reader.sees_at(AtWord::Implementation) {
        let implementation = implementation(alloc, reader)?;
        return Ok(Top::Implementation(implementation));
    }
    external(alloc, reader)
}

/// Perhaps `static`, and a function or variables.
#[tactic(auto, unfolding(arc_grammar::specs::Grammar::external, arc_grammar::specs::Grammar::of_void))]
fn external(alloc: Global, reader: &mut Reader) -> Read<Top>
    ensures gives { Gives top_tree result (toks reader.new.rest.now) (reads grammar.external (toks reader.old.rest.now)) }
    ensures shorter { IfOk result (λ _. length reader.new.rest.now < length reader.old.rest.now) }
{
    perhaps(Word::Static, reader);
    if let Some(_) = reader.take_word(Word::Void) {
        let function = function(alloc, ResultType::Void, reader)?;
        return Ok(Top::Function(function));
    }
    if begins_qualifier(reader) {
        of_qualified(alloc, reader)
    } else if reader.sees_name() {
        of_type(alloc, true, reader)
    } else {
        of_type(alloc, false, reader)
    }
}

/// A type, and a function, or variables of which all but the first have a `*` if the type is a class's.
#[tactic(auto, using(crate::proofs::Globals::read_of_type))]
fn of_type(alloc: Global, of_class: bool, reader: &mut Reader) -> Read<Top>
    ensures gives { Gives top_tree result (toks reader.new.rest.now) (reads (grammar.of_type of_class) (toks reader.old.rest.now)) }
    ensures shorter { IfOk result (λ _. length reader.new.rest.now < length reader.old.rest.now) }
{
    let (_, written) = value_type_of(alloc, of_class, reader)?;
    if !reader.sees_name_and(Mark::OpenParen) {
        let all = globals(alloc, of_class, Qualifiers::Unqualified, &written, reader)?;
        return Ok(Top::Globals(all));
    }
    let function = function(alloc, ResultType::Value(written), reader)?;
    Ok(Top::Function(function))
}

/// Qualifiers, a type and variables.
#[tactic(auto, using(crate::proofs::Globals::read_of_qualified))]
fn of_qualified(alloc: Global, reader: &mut Reader) -> Read<Top>
    ensures gives { Gives top_tree result (toks reader.new.rest.now) (reads grammar.of_qualified (toks reader.old.rest.now)) }
    ensures shorter { IfOk result (λ _. length reader.new.rest.now < length reader.old.rest.now) }
{
    let qualifiers = some_qualifiers(reader)?;
    let of_class = reader.sees_name();
    let (_, written) = value_type_of(alloc, of_class, reader)?;
    let all = globals(alloc, of_class, qualifiers, &written, reader)?;
    Ok(Top::Globals(all))
}
