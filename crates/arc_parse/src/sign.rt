//! Reads the operators before an operand, and `++` and `--`, which stand before or after one.
ghost use Rattle.std.specs.Prelude.{◌≡◌, ◌<◌, length, IfOk};
ghost use Rattle.arc_lex.specs.Tokens.{toks};
ghost use Rattle.arc_form.specs.Reader.{Gives, sees};
ghost use Rattle.arc_grammar.specs.Grammar.{begins_counting, begins_signed, reads_free};
ghost use Rattle.arc_grammar.specs.Grammar as grammar;

use arc_ast::tree::{BinaryOperator, UnaryOperator};
use arc_form::fail::{Fail, Read};
use arc_form::reader::Reader;
use arc_lex::mark::Mark;
use arc_lex::token::TokenKind;

/// Whether the first token is an operator before an operand.
#[tactic(auto, using(arc_form::proofs::Sets::sees_or))]
pub fn begins_signed(reader: &Reader) -> bool
    ensures { result ≡ sees begins_signed (toks reader.now.rest.now) }
{
    reader.sees_mark(Mark::Minus)
        || reader.sees_mark(Mark::Plus)
        || reader.sees_mark(Mark::Tilde)
        || reader.sees_mark(Mark::Not)
}

/// The first token, which is an operator before an operand, with its place.
///
/// `Unexpected` comes where it is not, and nothing is taken.
#[tactic(auto, unfolding(arc_grammar::specs::Grammar::operator_before))]
pub fn operator_before(reader: &mut Reader) -> Read<(usize, UnaryOperator)>
    ensures gives { Gives (λ x. x) result (toks reader.new.rest.now) (reads_free grammar.operator_before (toks reader.old.rest.now)) }
    ensures shorter { IfOk result (λ _. length reader.new.rest.now < length reader.old.rest.now) }
{
    let Some((token, rest)) = reader.rest.split_first() else {
        return Err(Fail::Unexpected);
    };
    let operator = match token.kind {
        TokenKind::Mark(Mark::Minus) => UnaryOperator::Negate,
        TokenKind::Mark(Mark::Plus) => UnaryOperator::Plus,
        TokenKind::Mark(Mark::Tilde) => UnaryOperator::Complement,
        TokenKind::Mark(Mark::Not) => UnaryOperator::Not,
        _ => return Err(Fail::Unexpected),
    };
    reader.rest = rest;
    Ok((token.span.from, operator))
}

/// Whether the first token is `++` or `--`.
#[tactic(auto, using(arc_form::proofs::Sets::sees_or))]
pub fn begins_counting(reader: &Reader) -> bool
    ensures { result ≡ sees begins_counting (toks reader.now.rest.now) }
{
    reader.sees_mark(Mark::Increment) || reader.sees_mark(Mark::Decrement)
}

/// The operator that `++` or `--`, which is the first token, applies with 1, and its place.
///
/// `Unexpected` comes where it is neither, and nothing is taken.
#[tactic(auto, unfolding(arc_grammar::specs::Grammar::counting))]
pub fn counting(reader: &mut Reader) -> Read<(usize, BinaryOperator)>
    ensures gives { Gives (λ x. x) result (toks reader.new.rest.now) (reads_free grammar.counting (toks reader.old.rest.now)) }
    ensures shorter { IfOk result (λ _. length reader.new.rest.now < length reader.old.rest.now) }
{
    let Some((token, rest)) = reader.rest.split_first() else {
        return Err(Fail::Unexpected);
    };
    let operator = match token.kind {
        TokenKind::Mark(Mark::Increment) => BinaryOperator::Add,
        TokenKind::Mark(Mark::Decrement) => BinaryOperator::Subtract,
        _ => return Err(Fail::Unexpected),
    };
    reader.rest = rest;
    Ok((token.span.from, operator))
}
