//! Reads full-expressions, of so many tokens at most.
ghost use Rattle.std.specs.Prelude.{◌≡◌, ◌<◌, length, take, Err, IfOk};
ghost use Rattle.arc_lex.specs.Tokens.{toks};
ghost use Rattle.arc_form.specs.Form.{unlimited};
ghost use Rattle.arc_form.specs.Reader.{Fails, Fault, Gives};
ghost use Rattle.arc_ast.specs.Tree.{expr_tree};
ghost use Rattle.arc_grammar.specs.Grammar.{reads, rules};
ghost use Rattle.arc_grammar.specs.Grammar as grammar;

use crate::expr::expr;
use arc_ast::tree::Expr;
use arc_form::fail::{Fail, Read};
use arc_form::reader::Reader;
use arc_form::slice::{after, front};
use arc_grammar::limits::MOST_TOKENS;
use arc_lex::token::Token;
use std::alloc::Global;

/// Leaves the tokens from the refused one on, where no full-expression was read within the limit: of the tokens up to the limit and one
/// more, which are ahead, these were left. Why the first that is left is refused.
fn refuse(reader: &mut Reader, ahead: &[Token], left: &[Token]) -> Fail
    requires first { ahead.now ≡ take 1001 reader.old.rest.now }
    requires fails { (why : Fault) × (rules unlimited grammar.expr (toks ahead.now) ≡ Err (why, toks left.now)) }
    ensures { Fails result (toks reader.new.rest.now) (reads grammar.full (toks reader.old.rest.now)) }
{
    let taken = ahead.len() - left.len();
    if ahead.len() > MOST_TOKENS && taken >= MOST_TOKENS {
        reader.rest = after(reader.rest, MOST_TOKENS);
        Fail::TooDeep
    } else {
        reader.rest = after(reader.rest, taken);
        Fail::Unexpected
    }
}

/// A full-expression. Only the tokens up to the limit and one more are looked at.
pub fn full(alloc: Global, reader: &mut Reader) -> Read<Box<Expr>>
    ensures gives { Gives (λ x. expr_tree x.value) result (toks reader.new.rest.now) (reads grammar.full (toks reader.old.rest.now)) }
    ensures shorter { IfOk result (λ _. length reader.new.rest.now < length reader.old.rest.now) }
{
    let ahead = front(reader.rest, MOST_TOKENS + 1);
    let mut within = Reader { rest: ahead };
    match expr(alloc, &mut within) {
        Ok(tree) => {
            let taken = ahead.len() - within.rest.len();
            if taken > MOST_TOKENS {
                reader.rest = after(reader.rest, MOST_TOKENS);
                return Err(Fail::TooDeep);
            }
            reader.rest = after(reader.rest, taken);
            Ok(tree)
        }
        Err(Fail::Memory) => Err(Fail::Memory),
        Err(Fail::Unexpected) => Err(refuse(reader, ahead, within.rest)),
        Err(Fail::TooDeep) => Err(refuse(reader, ahead, within.rest)),
    }
}
