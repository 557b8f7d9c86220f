//! Reads all of a source.
ghost use Rattle.std.specs.Prelude.{◌≡◌, IfOk, IfErr};
ghost use Rattle.arc_lex.specs.Tokens.{toks};
ghost use Rattle.arc_ast.specs.Tree.{unit_tree};
ghost use Rattle.arc_form.specs.declared.fail.Fail.TheVariants.{Memory};
ghost use Rattle.arc_form.specs.Reader.{Gives};
ghost use Rattle.arc_form.specs.Whole.{read_whole};
ghost use Rattle.arc_grammar.specs.Grammar.{and_top, these, reads};
ghost use Rattle.arc_grammar.specs.Grammar as grammar;
ghost use Rattle.arc_parse.specs.private.Tops.{top_tree};

use crate::top::{Top, any_top, begins_top};
use arc_ast::tree::TranslationUnit;
use arc_form::fail::{Fail, Read};
use arc_form::made::keep;
use arc_form::reader::Reader;
use std::alloc::Global;

/// What stands outside of all else, and the end of the tokens.
#[tactic(auto, unfolding(arc_form::specs::Whole::read_whole))]
pub fn unit(alloc: Global, reader: &mut Reader) -> Read<TranslationUnit>
    ensures gives { Gives unit_tree result (toks reader.new.rest.now) (read_whole grammar.body these grammar.unit (toks reader.old.rest.now)) }
{
    let all = tops(alloc, reader)?;
    match reader.rest.split_first() {
        None => Ok(all),
        Some(_) => Err(Fail::Unexpected),
    }
}

/// As much as there is of what stands outside of all else.
#[tactic(auto, using(crate::proofs::Tops::tops_start, arc_grammar::proofs::Loops::one_more, arc_grammar::proofs::Fits::taking, crate::proofs::Tops::nothing_yet))]
fn tops(alloc: Global, reader: &mut Reader) -> Read<TranslationUnit>
    ensures gives { Gives unit_tree result (toks reader.new.rest.now) (reads grammar.unit (toks reader.old.rest.now)) }
{
    let mut all = TranslationUnit {
        functions: Vec::new(alloc),
        globals: Vec::new(alloc),
        interfaces: Vec::new(alloc),
        implementations: Vec::new(alloc),
    };
    'tops: while begins_top(reader) {
        let one = any_top(alloc, reader)?;
        put(&mut all, one)?;
    }
    Ok(all)
}

/// Puts this after what the unit has of its kind.
///
/// `Memory` comes where there is no memory for it.
#[tactic(auto, using(arc_grammar::proofs::Lists::appends))]
fn put(unit: &mut TranslationUnit, top: Top) -> Read<()>
    ensures failed { IfErr result (λ why. why ≡ Memory) }
    ensures kept { IfOk result (λ _. unit_tree unit.new ≡ and_top (unit_tree unit.old) (top_tree top)) }
{
    match top {
        Top::Names => {}
        Top::Function(function) => keep(&mut unit.functions, function)?,
        Top::Globals(mut all) => unit.globals.append(&mut all)?,
        Top::Interface(interface) => keep(&mut unit.interfaces, interface)?,
        Top::Implementation(implementation) => keep(&mut unit.implementations, implementation)?,
    }
    Ok(())
}
