//! The tree that tokens spell.
ghost use Rattle.std.specs.Prelude.{◌≡◌, IfOk, IfErr, Err};
ghost use Rattle.arc_lex.specs.Tokens.{toks};
ghost use Rattle.arc_ast.specs.Tree.{UnitTree, unit_tree};
ghost use Rattle.arc_form.specs.Form.{unlimited};
ghost use Rattle.arc_grammar.specs.Grammar.{these};
ghost use Rattle.arc_parse.specs.Refusal.{SpellsUnit, IsRefused, PassesNowhere, ReportsLimit, place_of, end_of};
ghost use Rattle.arc_fault.specs.declared.parse.ParseFault.TheVariants.{Memory};

use crate::source::unit;
use arc_ast::tree::TranslationUnit;
use arc_fault::parse::ParseFault;
use arc_form::fail::Fail;
use arc_form::reader::Reader;
use arc_lex::token::Token;
use std::alloc::Global;

/// The byte after the last token, or 0.
fn end_of(all: &[Token]) -> usize
    ensures { result ≡ end_of (toks all.now) }
{
    let mut end = 0;
    for token in all {
        end = token.span.to;
    }
    end
}

/// The first byte of the rest, or after the end of all tokens where there is no rest.
fn place_of(all: &[Token], rest: &[Token]) -> usize
    ensures { result ≡ place_of (toks all.now) (toks rest.now) }
{
    match rest.split_first() {
        Some((token, _)) => token.span.from,
        None => end_of(all),
    }
}

/// The tree that the tokens spell.
///
/// `Unexpected` comes at the first byte of a token with which no unit can go on after the tokens before it, or after the
/// last token where a unit is not whole; `TooDeep` at a statement that is nested more than 200 deep, or at the token after
/// the first 1,000 of an expression; `Memory` where the tree does not fit.
pub fn parse(alloc: Global, tokens: &[Token]) -> Result<TranslationUnit, ParseFault>
    ensures spelled { IfOk result (λ u. SpellsUnit unlimited (unit_tree u) (toks tokens.now)) }
    ensures within { IfOk result (λ u. SpellsUnit these (unit_tree u) (toks tokens.now)) }
    ensures alone { IfOk result (λ u. (other : UnitTree) → SpellsUnit unlimited other (toks tokens.now) → other ≡ unit_tree u) }
    ensures kept { IfOk result (λ u. PassesNowhere (toks tokens.now)) }
    ensures refused { IfErr result (λ f. IsRefused (toks tokens.now) f) }
    ensures accepted { IfErr result (λ f. (u : UnitTree) → SpellsUnit these u (toks tokens.now) → f ≡ Memory) }
    ensures reported { IfErr result (λ f. ReportsLimit (toks tokens.now) f) }
{
    let mut reader = Reader { rest: tokens };
    match unit(alloc, &mut reader) {
        Ok(unit) => Ok(unit),
        Err(Fail::Memory) => Err(ParseFault::Memory),
        Err(Fail::Unexpected) => Err(ParseFault::Unexpected(place_of(tokens, reader.rest))),
        Err(Fail::TooDeep) => Err(ParseFault::TooDeep(place_of(tokens, reader.rest))),
    }
}
