//! Reads types of values, those that name a class among them.
ghost use Rattle.std.specs.Prelude.{◌≡◌, ◌<◌, length, IfOk};
ghost use Rattle.arc_lex.specs.Tokens.{toks};
ghost use Rattle.arc_ast.specs.Tree.{type_tree};
ghost use Rattle.arc_form.specs.Kinds.{◌∪◌};
ghost use Rattle.arc_form.specs.Reader.{Gives, sees};
ghost use Rattle.arc_grammar.specs.Grammar.{reads};
ghost use Rattle.arc_grammar.specs.Grammar as grammar;

use crate::qualifier::begins_qualifier;
use crate::type_name::{begins_plain_type, plain_type};
use arc_ast::tree::TypeName;
use arc_form::fail::Read;
use arc_form::reader::Reader;
use arc_lex::mark::Mark;
use std::alloc::Global;

/// Whether the type of a value can begin with the first token.
#[tactic(auto, using(arc_form::proofs::Sets::sees_or))]
pub fn begins_value_type(reader: &Reader) -> bool
    ensures { result ≡ sees grammar.begins_value_type (toks reader.now.rest.now) }
{
    reader.sees_name() || begins_plain_type(reader)
}

/// Whether qualifiers or the type of a value can begin with the first token.
#[tactic(auto, using(arc_form::proofs::Sets::sees_or))]
pub fn begins_qualified_type(reader: &Reader) -> bool
    ensures { result ≡ sees (grammar.begins_qualifier ∪ grammar.begins_value_type) (toks reader.now.rest.now) }
{
    begins_qualifier(reader) || begins_value_type(reader)
}

/// A class's name and `*`, with the name's place.
#[tactic(auto, unfolding(arc_grammar::specs::Grammar::class_type))]
pub fn class_type(alloc: Global, reader: &mut Reader) -> Read<(usize, TypeName)>
    ensures gives { Gives (λ x. (x.0, type_tree x.1)) result (toks reader.new.rest.now) (reads grammar.class_type (toks reader.old.rest.now)) }
    ensures shorter { IfOk result (λ _. length reader.new.rest.now < length reader.old.rest.now) }
{
    let (at, class) = reader.name(alloc)?;
    reader.expect(Mark::Star)?;
    Ok((at, TypeName::Object(at, class)))
}

/// The type of a value, which is a class's or names none, with its place.
#[tactic(auto, unfolding(arc_grammar::specs::Grammar::value_type_of))]
pub fn value_type_of(alloc: Global, of_class: bool, reader: &mut Reader) -> Read<(usize, TypeName)>
    ensures gives { Gives (λ x. (x.0, type_tree x.1)) result (toks reader.new.rest.now) (reads (grammar.value_type_of of_class) (toks reader.old.rest.now)) }
    ensures shorter { IfOk result (λ _. length reader.new.rest.now < length reader.old.rest.now) }
{
    if of_class {
        class_type(alloc, reader)
    } else {
        plain_type(reader)
    }
}

/// The type of a value, with its place.
#[tactic(auto, unfolding(arc_grammar::specs::Grammar::value_type))]
pub fn value_type(alloc: Global, reader: &mut Reader) -> Read<(usize, TypeName)>
    ensures gives { Gives (λ x. (x.0, type_tree x.1)) result (toks reader.new.rest.now) (reads grammar.value_type (toks reader.old.rest.now)) }
    ensures shorter { IfOk result (λ _. length reader.new.rest.now < length reader.old.rest.now) }
{
    if reader.sees_name() {
        class_type(alloc, reader)
    } else {
        plain_type(reader)
    }
}
