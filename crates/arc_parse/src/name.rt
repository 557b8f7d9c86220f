//! Reads names in a list.
ghost use Rattle.std.specs.Prelude.{◌<◌, length, IfOk};
ghost use Rattle.arc_lex.specs.Tokens.{toks};
ghost use Rattle.arc_form.specs.Reader.{Gives};
ghost use Rattle.arc_grammar.specs.Grammar.{reads};
ghost use Rattle.arc_grammar.specs.Grammar as grammar;

use crate::qualifier::qualifiers;
use arc_ast::tree::Qualifiers;
use arc_form::fail::Read;
use arc_form::reader::Reader;
use arc_lex::mark::Mark;
use std::alloc::Global;

/// A name with its place, and the qualifiers before it.
pub type QualifiedName = (Qualifiers, (usize, Vec<u8>));

/// Qualifiers and a name.
#[tactic(auto, unfolding(arc_grammar::specs::Grammar::qualified_name))]
fn qualified_name(alloc: Global, reader: &mut Reader) -> Read<QualifiedName>
    ensures gives { Gives (λ x. (x.0, (x.1.0, x.1.1.items))) result (toks reader.new.rest.now) (reads grammar.qualified_name (toks reader.old.rest.now)) }
    ensures shorter { IfOk result (λ _. length reader.new.rest.now < length reader.old.rest.now) }
{
    let qualifiers = qualifiers(reader)?;
    let named = reader.name(alloc)?;
    Ok((qualifiers, named))
}

/// Qualifiers and a name, after `*` where the type before it is a class's.
#[tactic(auto, unfolding(arc_grammar::specs::Grammar::starred_name))]
pub fn starred_name(alloc: Global, of_class: bool, reader: &mut Reader) -> Read<QualifiedName>
    ensures gives { Gives (λ x. (x.0, (x.1.0, x.1.1.items))) result (toks reader.new.rest.now) (reads (grammar.starred_name of_class) (toks reader.old.rest.now)) }
    ensures shorter { IfOk result (λ _. length reader.new.rest.now < length reader.old.rest.now) }
{
    if of_class {
        reader.expect(Mark::Star)?;
    }
    qualified_name(alloc, reader)
}
