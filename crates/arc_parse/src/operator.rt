//! Reads the operators between two operands, and those that assign what they compute.
ghost use Rattle.std.specs.Prelude.{◌≡◌, ◌<◌, ◌≤◌, ◌-◌, None, true, false, length, IfOk, IfSome};
ghost use Rattle.arc_lex.specs.Tokens.{tok, toks};
ghost use Rattle.arc_form.specs.Operators.{entry, entry_of, marks_at};
ghost use Rattle.arc_form.specs.Reader.{Gives, sees, take_one};
ghost use Rattle.arc_form.specs.Operators.{placed_operator};
ghost use Rattle.arc_grammar.specs.Grammar.{table, marks_up_to};
ghost use Rattle.arc_ast.specs.declared.tree.BinaryOperator.TheVariants.{Add};

use arc_ast::tree::BinaryOperator;
use arc_form::fail::{Fail, Read};
use arc_form::reader::Reader;
use arc_lex::mark::Mark;
use arc_lex::token::{Token, TokenKind};

/// The loosest level of an operator that doesn't assign.
pub const LOOSEST: usize = 10;

/// The level of the operators that assign.
pub const ASSIGNING: usize = 11;

/// The level and the operator of a mark.
#[tactic(auto, unfolding(arc_grammar::specs::Grammar::table))]
fn of_mark(mark: Mark) -> Option<(usize, BinaryOperator)>
    ensures found { result ≡ entry table mark }
    ensures level { IfSome result (λ found. 1 ≤ found.0) }
{
    match mark {
        Mark::Star => Some((1, BinaryOperator::Multiply)),
        Mark::Slash => Some((1, BinaryOperator::Divide)),
        Mark::Percent => Some((1, BinaryOperator::Remainder)),
        Mark::Plus => Some((2, BinaryOperator::Add)),
        Mark::Minus => Some((2, BinaryOperator::Subtract)),
        Mark::ShiftLeft => Some((3, BinaryOperator::ShiftLeft)),
        Mark::ShiftRight => Some((3, BinaryOperator::ShiftRight)),
        Mark::Less => Some((4, BinaryOperator::Less)),
        Mark::LessEqual => Some((4, BinaryOperator::LessOrEqual)),
        Mark::Greater => Some((4, BinaryOperator::Greater)),
        Mark::GreaterEqual => Some((4, BinaryOperator::GreaterOrEqual)),
        Mark::Equal => Some((5, BinaryOperator::Equal)),
        Mark::NotEqual => Some((5, BinaryOperator::NotEqual)),
        Mark::Ampersand => Some((6, BinaryOperator::BitAnd)),
        Mark::Caret => Some((7, BinaryOperator::BitXor)),
        Mark::Bar => Some((8, BinaryOperator::BitOr)),
        Mark::And => Some((9, BinaryOperator::And)),
        Mark::Or => Some((10, BinaryOperator::Or)),
        Mark::StarAssign => Some((11, BinaryOperator::Multiply)),
        Mark::SlashAssign => Some((11, BinaryOperator::Divide)),
        Mark::PercentAssign => Some((11, BinaryOperator::Remainder)),
        Mark::PlusAssign => Some((11, BinaryOperator::Add)),
        Mark::MinusAssign => Some((11, BinaryOperator::Subtract)),
        Mark::ShiftLeftAssign => Some((11, BinaryOperator::ShiftLeft)),
        Mark::ShiftRightAssign => Some((11, BinaryOperator::ShiftRight)),
        Mark::AmpersandAssign => Some((11, BinaryOperator::BitAnd)),
        Mark::CaretAssign => Some((11, BinaryOperator::BitXor)),
        Mark::BarAssign => Some((11, BinaryOperator::BitOr)),
        _ => None,
    }
}

/// The level and the operator of a token.
fn of_token(token: &Token) -> Option<(usize, BinaryOperator)>
    ensures found { result ≡ entry_of table (tok token.now).sort }
    ensures level { IfSome result (λ found. 1 ≤ found.0) }
{
    match token.kind {
        TokenKind::Mark(mark) => of_mark(mark),
        _ => None,
    }
}

/// Whether the first token is an operator of this level.
#[tactic(auto, using(crate::proofs::Table::sees_some, crate::proofs::Table::sees_no))]
pub fn sees_operator(level: usize, reader: &Reader) -> bool
    ensures { result ≡ sees (marks_at level table) (toks reader.now.rest.now) }
{
    match reader.rest.first() {
        Some(token) => match of_token(token) {
            Some((found, _)) => found == level,
            None => false,
        },
        None => false,
    }
}

/// The level of the first token, where it is an operator of this level or of a tighter one.
#[tactic(auto, using(crate::proofs::Table::sees_own, crate::proofs::Table::sees_none, crate::proofs::Table::sees_looser))]
pub fn level_ahead(level: usize, reader: &Reader) -> Option<usize>
    ensures none { result ≡ None → sees (marks_up_to level) (toks reader.now.rest.now) ≡ false }
    ensures within { IfSome result (λ found. 1 ≤ found × found ≤ level) }
    ensures there { IfSome result (λ found. sees (marks_at found table) (toks reader.now.rest.now) ≡ true) }
    ensures none_tighter { IfSome result (λ found. sees (marks_up_to (found - 1)) (toks reader.now.rest.now) ≡ false) }
{
    match reader.rest.first() {
        Some(token) => match of_token(token) {
            Some((found, _)) if found <= level => Some(found),
            Some(_) => None,
            None => None,
        },
        None => None,
    }
}

/// The first token, which is an operator of this level, with its place.
///
/// `Unexpected` comes where it is not, and nothing is taken.
#[tactic(auto, using(crate::proofs::Table::takes_table))]
pub fn operator(level: usize, reader: &mut Reader) -> Read<(usize, BinaryOperator)>
    ensures gives { Gives (λ x. x) result (toks reader.new.rest.now) (take_one (marks_at level table) (placed_operator Add table) (toks reader.old.rest.now)) }
    ensures shorter { IfOk result (λ _. length reader.new.rest.now < length reader.old.rest.now) }
{
    let Some((token, rest)) = reader.rest.split_first() else {
        return Err(Fail::Unexpected);
    };
    match of_token(token) {
        Some((found, operator)) if found == level => {
            reader.rest = rest;
            Ok((token.span.from, operator))
        }
        _ => Err(Fail::Unexpected),
    }
}
