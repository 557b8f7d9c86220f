//! Tests of the first tokens.
ghost use Rattle.std.specs.Prelude.{◌≡◌};
ghost use Rattle.arc_lex.specs.Tokens.{toks};
ghost use Rattle.arc_form.specs.Reader.{sees};
ghost use Rattle.arc_grammar.specs.Grammar as grammar;

use crate::qualifier::begins_qualifier;
use crate::sign::{begins_counting, begins_signed};
use crate::type_name::begins_plain_type;
use arc_form::reader::Reader;
use arc_lex::mark::Mark;
use arc_lex::word::Word;

/// Whether the first token is a literal, `nil`, `self`, `YES` or `NO`.
#[tactic(auto, using(arc_form::proofs::Sets::sees_or))]
fn begins_literal(reader: &Reader) -> bool
    ensures { result ≡ sees grammar.begins_literal (toks reader.now.rest.now) }
{
    reader.sees_integer()
        || reader.sees_character()
        || reader.sees_text()
        || reader.sees_word(Word::Nil)
        || reader.sees_word(Word::SelfWord)
        || reader.sees_word(Word::Yes)
        || reader.sees_word(Word::No)
}

/// Whether an expression can begin with the first token.
#[tactic(auto, using(arc_form::proofs::Sets::sees_or))]
pub fn begins_expr(reader: &Reader) -> bool
    ensures { result ≡ sees grammar.begins_expr (toks reader.now.rest.now) }
{
    reader.sees_name()
        || begins_literal(reader)
        || reader.sees_mark(Mark::OpenParen)
        || reader.sees_mark(Mark::OpenSquare)
        || begins_signed(reader)
        || begins_counting(reader)
}

/// Whether a statement that is no expression can begin with the first token.
#[tactic(auto, using(arc_form::proofs::Sets::sees_or))]
pub fn begins_other(reader: &Reader) -> bool
    ensures { result ≡ sees grammar.begins_other (toks reader.now.rest.now) }
{
    reader.sees_mark(Mark::OpenBrace)
        || reader.sees_mark(Mark::Semicolon)
        || reader.sees_word(Word::Return)
        || reader.sees_word(Word::If)
        || reader.sees_word(Word::While)
        || reader.sees_word(Word::Do)
        || reader.sees_word(Word::For)
        || reader.sees_word(Word::Break)
        || reader.sees_word(Word::Continue)
}

/// Whether a statement can begin with the first token.
#[tactic(auto, using(arc_form::proofs::Sets::sees_or))]
fn begins_stmt(reader: &Reader) -> bool
    ensures { result ≡ sees grammar.begins_stmt (toks reader.now.rest.now) }
{
    begins_other(reader) || begins_expr(reader)
}

/// Whether a declaration or a statement can begin with the first token.
#[tactic(auto, using(arc_form::proofs::Sets::sees_or))]
pub fn begins_item(reader: &Reader) -> bool
    ensures { result ≡ sees grammar.begins_item (toks reader.now.rest.now) }
{
    begins_qualifier(reader) || (begins_plain_type(reader) || begins_stmt(reader))
}
