//! Reads types that name no class. No limit holds in them: they are read alike within the limits and without.
ghost use Rattle.std.specs.Prelude.{◌≡◌, ◌<◌, ◌≤◌, length, Ok, IfOk};
ghost use Rattle.arc_lex.specs.Tokens.{toks};
ghost use Rattle.arc_ast.specs.Tree.{type_tree};
ghost use Rattle.arc_form.specs.Kinds as kinds;
ghost use Rattle.arc_form.specs.Reader.{Gives, sees};
ghost use Rattle.arc_grammar.specs.Grammar.{reads, reads_free};
ghost use Rattle.arc_grammar.specs.Grammar as grammar;

use arc_ast::tree::TypeName;
use arc_form::fail::{Fail, Read};
use arc_form::reader::Reader;
use arc_lex::token::TokenKind;
use arc_lex::word::Word;
use std::alloc::Global;

/// Whether a type that names no class can begin with the first token.
#[tactic(auto, using(arc_form::proofs::Sets::sees_or))]
pub fn begins_plain_type(reader: &Reader) -> bool
    ensures { result ≡ sees grammar.begins_plain_type (toks reader.now.rest.now) }
{
    reader.sees_word(Word::Long)
        || reader.sees_word(Word::Int)
        || reader.sees_word(Word::Bool)
        || reader.sees_word(Word::NsInteger)
        || reader.sees_word(Word::Id)
}

/// A type that names no class, with its place.
#[tactic(auto, unfolding(arc_grammar::specs::Grammar::plain_type))]
pub fn plain_type(reader: &mut Reader) -> Read<(usize, TypeName)>
    ensures gives { Gives (λ x. (x.0, type_tree x.1)) result (toks reader.new.rest.now) (reads_free grammar.plain_type (toks reader.old.rest.now)) }
    ensures within { Gives (λ x. (x.0, type_tree x.1)) result (toks reader.new.rest.now) (reads grammar.plain_type (toks reader.old.rest.now)) }
    ensures shorter { IfOk result (λ _. length reader.new.rest.now < length reader.old.rest.now) }
{
    if reader.sees_word(Word::Long) {
        long_type(reader)
    } else {
        one_word(reader)
    }
}

/// The type before names that are declared, with its place: a class's name, or a type that names no class.
#[tactic(auto, using(arc_form::proofs::Binding::take_as), unfolding(arc_grammar::specs::Grammar::declared_type))]
pub fn declared_type(alloc: Global, of_class: bool, reader: &mut Reader) -> Read<(usize, TypeName)>
    ensures gives { Gives (λ x. (x.0, type_tree x.1)) result (toks reader.new.rest.now) (reads (grammar.declared_type of_class) (toks reader.old.rest.now)) }
    ensures shorter { IfOk result (λ _. length reader.new.rest.now < length reader.old.rest.now) }
{
    if !of_class {
        return plain_type(reader);
    }
    let (at, class) = reader.name(alloc)?;
    Ok((at, TypeName::Object(at, class)))
}

/// A type that is the first token, which is a word, with its place.
///
/// `Unexpected` comes where it is not, and nothing is taken.
#[tactic(auto, unfolding(arc_grammar::specs::Grammar::one_word))]
fn one_word(reader: &mut Reader) -> Read<(usize, TypeName)>
    ensures gives { Gives (λ x. (x.0, type_tree x.1)) result (toks reader.new.rest.now) (reads_free grammar.one_word (toks reader.old.rest.now)) }
    ensures within { Gives (λ x. (x.0, type_tree x.1)) result (toks reader.new.rest.now) (reads grammar.one_word (toks reader.old.rest.now)) }
    ensures shorter { IfOk result (λ _. length reader.new.rest.now < length reader.old.rest.now) }
{
    let Some((token, rest)) = reader.rest.split_first() else {
        return Err(Fail::Unexpected);
    };
    let written = match token.kind {
        TokenKind::Word(Word::Int) => TypeName::Int,
        TokenKind::Word(Word::Bool) => TypeName::Bool,
        TokenKind::Word(Word::NsInteger) => TypeName::Long,
        TokenKind::Word(Word::Id) => TypeName::Id,
        _ => return Err(Fail::Unexpected),
    };
    reader.rest = rest;
    Ok((token.span.from, written))
}

/// `long`, perhaps another `long`, and perhaps `int`.
#[tactic(auto, unfolding(arc_grammar::specs::Grammar::long_type))]
fn long_type(reader: &mut Reader) -> Read<(usize, TypeName)>
    ensures gives { Gives (λ x. (x.0, type_tree x.1)) result (toks reader.new.rest.now) (reads_free grammar.long_type (toks reader.old.rest.now)) }
    ensures within { Gives (λ x. (x.0, type_tree x.1)) result (toks reader.new.rest.now) (reads grammar.long_type (toks reader.old.rest.now)) }
    ensures shorter { IfOk result (λ _. length reader.new.rest.now < length reader.old.rest.now) }
{
    let at = reader.keyword(Word::Long)?;
    perhaps(Word::Long, reader);
    perhaps(Word::Int, reader);
    Ok((at, TypeName::Long))
}

/// Takes this word where it is the first token, and reports whether it was.
#[tactic(auto, unfolding(arc_grammar::specs::Grammar::perhaps))]
pub fn perhaps(word: Word, reader: &mut Reader) -> bool
    ensures there { result ≡ sees (kinds.word word) (toks reader.old.rest.now) }
    ensures gives { reads_free (grammar.perhaps word) (toks reader.old.rest.now) ≡ Ok (tt, toks reader.new.rest.now) }
    ensures within { reads (grammar.perhaps word) (toks reader.old.rest.now) ≡ Ok (tt, toks reader.new.rest.now) }
    ensures shorter { length reader.new.rest.now ≤ length reader.old.rest.now }
{
    match reader.take_word(word) {
        Some(_) => true,
        None => false,
    }
}
