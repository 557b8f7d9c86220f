//! Reads what functions take.
ghost use Rattle.std.specs.Prelude.{◌≡◌, ◌<◌, ◌≤◌, length, IfOk};
ghost use Rattle.arc_lex.specs.Tokens.{toks};
ghost use Rattle.arc_ast.specs.Tree.{type_tree, parameter_tree, parameters_tree};
ghost use Rattle.arc_lex.specs.declared.word.Word.TheVariants as w;
ghost use Rattle.arc_form.specs.Kinds.{◌∪◌};
ghost use Rattle.arc_form.specs.Kinds as kinds;
ghost use Rattle.arc_form.specs.Reader.{Gives, sees};
ghost use Rattle.arc_form.specs.Views.{all};
ghost use Rattle.arc_grammar.specs.Grammar.{reads};
ghost use Rattle.arc_grammar.specs.Grammar as grammar;
ghost use Rattle.arc_parse.specs.private.Signatures as signatures;

use crate::qualifier::qualifiers;
use crate::type_name::perhaps;
use crate::value_type::{begins_qualified_type, value_type};
use arc_ast::tree::{Parameter, Parameters, Qualifiers, TypeName};
use arc_form::fail::Read;
use arc_form::made::keep;
use arc_form::reader::Reader;
use arc_lex::mark::Mark;
use arc_lex::word::Word;
use std::alloc::Global;

/// What a function takes, which is `main` or not.
#[tactic(auto, using(crate::proofs::Signatures::read_parameters))]
pub fn parameters(alloc: Global, of_main: bool, reader: &mut Reader) -> Read<Parameters>
    ensures gives { Gives parameters_tree result (toks reader.new.rest.now) (reads (grammar.parameters of_main) (toks reader.old.rest.now)) }
    ensures shorter { IfOk result (λ _. length reader.new.rest.now ≤ length reader.old.rest.now) }
{
    if let Some(_) = reader.take_word(Word::Void) {
        return Ok(Parameters::Listed(Vec::new(alloc)));
    }
    if !begins_qualified_type(reader) {
        return Ok(Parameters::Listed(Vec::new(alloc)));
    }
    if of_main && reader.sees_word_and_name(Word::Int) {
        counted_parameters(alloc, reader)
    } else {
        parameters_after(alloc, Vec::new(alloc), reader)
    }
}

/// A parameter of this type with this name, which is at this place.
pub fn parameter_of(
    qualifiers: Qualifiers,
    type_name: TypeName,
    at: usize,
    name: Vec<u8>,
) -> Parameter
    ensures { parameter_tree result ≡ grammar.parameter_of qualifiers (type_tree type_name) (at, name.items) }
{
    Parameter {
        at,
        type_name,
        qualifiers,
        name,
    }
}

/// A type and a name, each after qualifiers.
#[tactic(auto, unfolding(arc_grammar::specs::Grammar::parameter))]
fn parameter(alloc: Global, reader: &mut Reader) -> Read<Parameter>
    ensures gives { Gives parameter_tree result (toks reader.new.rest.now) (reads grammar.parameter (toks reader.old.rest.now)) }
    ensures shorter { IfOk result (λ _. length reader.new.rest.now < length reader.old.rest.now) }
{
    let before = qualifiers(reader)?;
    let (_, type_name) = value_type(alloc, reader)?;
    let after = qualifiers(reader)?;
    let (at, name) = reader.name(alloc)?;
    Ok(parameter_of(before.both(after), type_name, at, name))
}

/// These parameters and one more, or several with a comma between two.
#[tactic(auto, using(crate::proofs::Signatures::read_more_parameters, arc_form::proofs::Joining::all_push, arc_grammar::proofs::Lists::alls))]
fn parameters_after(alloc: Global, before: Vec<Parameter>, reader: &mut Reader) -> Read<Parameters>
    ensures gives { Gives parameters_tree result (toks reader.new.rest.now) (signatures.parameters_on (all parameter_tree before.items) (toks reader.old.rest.now)) }
    ensures shorter { IfOk result (λ _. length reader.new.rest.now < length reader.old.rest.now) }
{
    let mut all = before;
    let first = parameter(alloc, reader)?;
    keep(&mut all, first)?;
    'parameters: while let Some(_) = reader.take(Mark::Comma) {
        let next = parameter(alloc, reader)?;
        keep(&mut all, next)?;
    }
    Ok(Parameters::Listed(all))
}

/// `int` and a name, which may count the texts of `main`, and what is after them.
#[tactic(auto, using(crate::proofs::Signatures::read_counted))]
fn counted_parameters(alloc: Global, reader: &mut Reader) -> Read<Parameters>
    ensures gives { Gives parameters_tree result (toks reader.new.rest.now) (reads grammar.counted_parameters (toks reader.old.rest.now)) }
    ensures shorter { IfOk result (λ _. length reader.new.rest.now < length reader.old.rest.now) }
{
    reader.keyword(Word::Int)?;
    let (at, name) = reader.name(alloc)?;
    let first = parameter_of(Qualifiers::Unqualified, TypeName::Int, at, name);
    let mut all = Vec::new(alloc);
    keep(&mut all, first)?;
    let Some(_) = reader.take(Mark::Comma) else {
        return Ok(Parameters::Listed(all));
    };
    if begins_texts(reader) {
        texts(alloc, reader)
    } else {
        parameters_after(alloc, all, reader)
    }
}

/// Whether the type of the texts of `main` can begin with the first token.
#[tactic(auto, using(arc_form::proofs::Sets::sees_or))]
fn begins_texts(reader: &Reader) -> bool
    ensures { result ≡ sees (kinds.word w.Const ∪ kinds.word w.Char) (toks reader.now.rest.now) }
{
    reader.sees_word(Word::Const) || reader.sees_word(Word::Char)
}

/// The texts that `main` takes after the count of them.
#[tactic(auto, unfolding(arc_grammar::specs::Grammar::texts))]
fn texts(alloc: Global, reader: &mut Reader) -> Read<Parameters>
    ensures gives { Gives parameters_tree result (toks reader.new.rest.now) (reads grammar.texts (toks reader.old.rest.now)) }
    ensures shorter { IfOk result (λ _. length reader.new.rest.now < length reader.old.rest.now) }
{
    perhaps(Word::Const, reader);
    reader.keyword(Word::Char)?;
    reader.expect(Mark::Star)?;
    texts_name(alloc, reader)?;
    Ok(Parameters::CountAndTexts)
}

/// `name[]` or `*name`
#[tactic(auto, unfolding(arc_grammar::specs::Grammar::texts_name))]
fn texts_name(alloc: Global, reader: &mut Reader) -> Read<()>
    ensures gives { Gives (λ x. x) result (toks reader.new.rest.now) (reads grammar.texts_name (toks reader.old.rest.now)) }
    ensures shorter { IfOk result (λ _. length reader.new.rest.now < length reader.old.rest.now) }
{
    if let Some(_) = reader.take(Mark::Star) {
        reader.name(alloc)?;
        return Ok(());
    }
    reader.name(alloc)?;
    reader.expect(Mark::OpenSquare)?;
    reader.expect(Mark::CloseSquare)?;
    Ok(())
}
