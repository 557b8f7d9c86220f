//! Parts of a list of tokens.
ghost use Rattle.std.specs.Prelude.{◌≡◌, ◌≤◌, length, take, drop};
ghost use Rattle.arc_lex.specs.Tokens.{toks};

use arc_lex::token::Token;

/// The first tokens, at most so many.
pub fn front(tokens: &[Token], most: usize) -> &[Token]
    ensures first { result.now ≡ take most tokens.now }
    ensures fits { length result.now ≤ length tokens.now }
{
    if tokens.len() > most {
        tokens.split_at(most).0
    } else {
        tokens
    }
}

/// The tokens after so many.
pub fn after(tokens: &[Token], taken: usize) -> &[Token]
    requires { taken ≤ length tokens.now }
    ensures { result.now ≡ drop taken tokens.now }
{
    tokens.split_at(taken).1
}

/// The tokens after the first one.
pub fn after_first(tokens: &[Token]) -> &[Token]
    ensures { toks result.now ≡ drop 1 (toks tokens.now) }
{
    match tokens.split_first() {
        Some((_, rest)) => rest,
        None => tokens,
    }
}
