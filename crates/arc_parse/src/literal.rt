//! Reads literals.
ghost use Rattle.std.specs.Prelude.{◌≡◌, ◌<◌, length, IfOk, IfErr};
ghost use Rattle.arc_lex.specs.Tokens.{toks};
ghost use Rattle.arc_ast.specs.Tree.{expr_tree};
ghost use Rattle.arc_form.specs.declared.fail.Fail.TheVariants.{Memory};
ghost use Rattle.arc_form.specs.Reader.{Gives};
ghost use Rattle.arc_grammar.specs.Grammar.{reads_free};
ghost use Rattle.arc_grammar.specs.Grammar as grammar;
ghost use Rattle.arc_grammar.specs.Grammar.{bool_of};

use arc_ast::tree::{Expr, TypeName};
use arc_form::fail::{Fail, Read};
use arc_form::made;
use arc_form::reader::Reader;
use arc_lex::token::TokenKind;
use arc_lex::word::Word;
use std::alloc::Global;

/// 1 or 0 as a BOOL.
///
/// `Memory` comes where there is no memory for it.
fn boolean(alloc: Global, at: usize, value: i64) -> Read<Expr>
    ensures made { IfOk result (λ made. expr_tree made ≡ bool_of at value) }
    ensures failed { IfErr result (λ why. why ≡ Memory) }
{
    let number = made::boxed(alloc, Expr::Integer(at, value, false))?;
    Ok(Expr::Cast(at, TypeName::Bool, number))
}

/// The first token, which is an integer, a character constant, a text, `nil`, `self`, `YES` or `NO`.
#[tactic(auto, unfolding(arc_grammar::specs::Grammar::literal))]
pub fn literal(alloc: Global, reader: &mut Reader) -> Read<Box<Expr>>
    ensures gives { Gives (λ x. expr_tree x.value) result (toks reader.new.rest.now) (reads_free grammar.literal (toks reader.old.rest.now)) }
    ensures shorter { IfOk result (λ _. length reader.new.rest.now < length reader.old.rest.now) }
{
    let Some((token, rest)) = reader.rest.split_first() else {
        return Err(Fail::Unexpected);
    };
    let at = token.span.from;
    let value = match &token.kind {
        TokenKind::Integer(value, suffixed) => Expr::Integer(at, *value, *suffixed),
        TokenKind::Character(byte) => Expr::Integer(at, i64::from(*byte), false),
        TokenKind::Text(bytes) => Expr::Text(at, Vec::from_slice(alloc, bytes)?),
        TokenKind::Word(Word::Nil) => Expr::Nil(at),
        TokenKind::Word(Word::SelfWord) => Expr::Itself(at),
        TokenKind::Word(Word::Yes) => boolean(alloc, at, 1)?,
        TokenKind::Word(Word::No) => boolean(alloc, at, 0)?,
        _ => return Err(Fail::Unexpected),
    };
    reader.rest = rest;
    Ok(made::boxed(alloc, value)?)
}
