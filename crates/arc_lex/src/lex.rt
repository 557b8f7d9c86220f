//! Cuts a source into tokens.
ghost use Rattle.std.specs.Prelude.{◌≡◌, ◌∷◌, IfOk, IfErr, IfSome};
ghost use Rattle.arc_lex.specs.Faults.{fault_of, IsLexFault, OnlyTokens, OnlyFault};
ghost use Rattle.arc_lex.specs.Source.{Tokens, SpansSpell};
ghost use Rattle.arc_lex.specs.Tokens.{toks};

use crate::fault::LexFault;
use crate::piece::{Piece, Rule, lawful_piece};
use crate::token::{Span, Token};
use std::alloc::Global;

/// The most bytes that a source has.
pub const MOST_BYTES: usize = 1_048_576;

/// The fault of a broken rule at a place.
fn fault_of(rule: Rule, at: usize) -> LexFault
    ensures { result ≡ fault_of rule at }
{
    match rule {
        Rule::BadByte => LexFault::BadByte(at),
        Rule::OpenComment => LexFault::OpenComment(at),
        Rule::OpenLiteral => LexFault::OpenLiteral(at),
        Rule::Literal => LexFault::Literal(at),
        Rule::Directive => LexFault::Directive(at),
    }
}

/// The bytes after a space, where one stands in front.
fn after_space(bytes: &[u8]) -> Option<&[u8]>
    ensures { IfSome result (λ after. bytes.now ≡ 32 ∷ after.now) }
{
    match bytes {
        [b' ', after @ ..] => Some(after),
        _ => None,
    }
}

/// The tokens of a source, in order, each with its span.
///
/// Fails with `TooLong` at a source of over 1,048,576 bytes, and otherwise with the first place, in reading order, where a rule about
/// tokens is broken. `Memory` comes where there is no memory for the tokens.
pub fn lex(alloc: Global, source: &[u8]) -> Result<Vec<Token>, LexFault>
    ensures tokens { IfOk result (λ ts. Tokens source.now (toks ts.items)) }
    ensures only_tokens { IfOk result (λ ts. OnlyTokens source.now (toks ts.items)) }
    ensures spans { IfOk result (λ ts. SpansSpell source.now (toks ts.items)) }
    ensures fault { IfErr result (λ f. IsLexFault source.now f) }
    ensures only_fault { IfErr result (λ f. OnlyFault source.now f) }
{
    if source.len() > MOST_BYTES {
        return Err(LexFault::TooLong);
    }
    let mut tokens = Vec::new(alloc);
    let mut at = 0;
    let mut starts = true;
    let mut rest = source;
    'pieces: while at < source.len() {
        if let Some(after) = after_space(rest) {
            at += 1;
            rest = after;
            continue;
        }
        match lawful_piece(alloc, starts, rest)? {
            Piece::Blank(newline) => {
                starts = newline | starts;
                at += 1;
                rest = rest.split_at(1).1;
            }
            Piece::Skip(n) => {
                starts = false;
                at += n;
                rest = rest.split_at(n).1;
            }
            Piece::Whole(kind, n) => {
                let span = Span {
                    from: at,
                    to: at + n,
                };
                tokens.push(Token { kind, span })?;
                starts = false;
                at += n;
                rest = rest.split_at(n).1;
            }
            Piece::Broken(rule) => return Err(fault_of(rule, at)),
        }
    }
    Ok(tokens)
}
