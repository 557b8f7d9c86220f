//! Reads functions.
ghost use Rattle.std.specs.Prelude.{◌≡◌, ◌<◌, length, IfOk, bytes_eq, option_map};
ghost use Rattle.arc_lex.specs.Tokens.{toks};
ghost use Rattle.arc_ast.specs.Tree.{stmt_trees, parameters_tree, function_tree, result_tree};
ghost use Rattle.arc_form.specs.Kinds.{main_bytes};
ghost use Rattle.arc_form.specs.Reader.{Gives};
ghost use Rattle.arc_grammar.specs.Grammar.{reads};
ghost use Rattle.arc_grammar.specs.Grammar as grammar;
ghost use Rattle.arc_parse.specs.private.Declaring.{reads_after};
ghost use Rattle.arc_parse.specs.private.Signatures as signatures;

use crate::parameter::parameters;
use crate::stmt::items;
use arc_ast::tree::{Function, Parameters, ResultType, Stmt};
use arc_form::fail::Read;
use arc_form::reader::Reader;
use arc_lex::mark::Mark;
use std::alloc::Global;

/// A declaration or a definition of a function, but for `static` and the type of its result, which is given.
#[tactic(auto, using(crate::proofs::Signatures::read_function))]
pub fn function(alloc: Global, written: ResultType, reader: &mut Reader) -> Read<Function>
    ensures gives { Gives function_tree result (toks reader.new.rest.now) (reads_after grammar.function (result_tree written) (toks reader.old.rest.now)) }
    ensures shorter { IfOk result (λ _. length reader.new.rest.now < length reader.old.rest.now) }
{
    let (at, name) = reader.name(alloc)?;
    let parameters = enclosed(alloc, &name, reader)?;
    let body = function_body(alloc, reader)?;
    Ok(Function {
        at,
        name,
        result: written,
        parameters,
        body,
    })
}

/// In parentheses what a function of this name takes.
#[tactic(auto, unfolding(crate::specs::private::Signatures::enclosed_to, arc_grammar::specs::Grammar::enclosed))]
fn enclosed(alloc: Global, called: &[u8], reader: &mut Reader) -> Read<Parameters>
    ensures gives { Gives parameters_tree result (toks reader.new.rest.now) (reads (signatures.enclosed_to called.now) (toks reader.old.rest.now)) }
    ensures shorter { IfOk result (λ _. length reader.new.rest.now < length reader.old.rest.now) }
{
    reader.expect(Mark::OpenParen)?;
    let parameters = parameters(alloc, is_main(called), reader)?;
    reader.expect(Mark::CloseParen)?;
    Ok(parameters)
}

/// Whether this is the name of the function at which a program starts.
fn is_main(name: &[u8]) -> bool
    ensures { result ≡ bytes_eq name.now main_bytes }
{
    name == b"main".as_slice()
}

/// `;`, or a block
#[tactic(auto, unfolding(arc_grammar::specs::Grammar::function_body))]
fn function_body(alloc: Global, reader: &mut Reader) -> Read<Option<Vec<Stmt>>>
    ensures gives { Gives (λ x. option_map (λ b. stmt_trees b.items) x) result (toks reader.new.rest.now) (reads grammar.function_body (toks reader.old.rest.now)) }
    ensures shorter { IfOk result (λ _. length reader.new.rest.now < length reader.old.rest.now) }
{
    if let Some(_) = reader.take(Mark::Semicolon) {
        return Ok(None);
    }
    let all = braces(alloc, reader)?;
    Ok(Some(all))
}

/// The block of a function or a method.
#[tactic(auto, using(arc_grammar::proofs::Lists::stmts_all), unfolding(arc_grammar::specs::Grammar::braces))]
pub fn braces(alloc: Global, reader: &mut Reader) -> Read<Vec<Stmt>>
    ensures gives { Gives (λ x. stmt_trees x.items) result (toks reader.new.rest.now) (reads grammar.braces (toks reader.old.rest.now)) }
    ensures shorter { IfOk result (λ _. length reader.new.rest.now < length reader.old.rest.now) }
{
    reader.expect(Mark::OpenBrace)?;
    let all = items(alloc, 2, reader)?;
    reader.expect(Mark::CloseBrace)?;
    Ok(all)
}
