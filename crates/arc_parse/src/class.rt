//! Reads classes.
ghost use Rattle.std.specs.Prelude.{◌<◌, ◌≤◌, length, IfOk};
ghost use Rattle.arc_lex.specs.Tokens.{toks};
ghost use Rattle.arc_ast.specs.Tree.{interface_tree, implementation_tree};
ghost use Rattle.arc_form.specs.Reader.{Gives};
ghost use Rattle.arc_grammar.specs.Grammar.{reads};
ghost use Rattle.arc_grammar.specs.Grammar as grammar;
ghost use Rattle.arc_parse.specs.private.Fields.{names_skipped};

use crate::field::fields;
use crate::method::{method_heads, methods};
use arc_ast::tree::{Implementation, Interface, Visibility};
use arc_form::fail::Read;
use arc_form::reader::Reader;
use arc_lex::mark::Mark;
use arc_lex::word::AtWord;
use std::alloc::Global;

/// `@interface`, the class's name, its superclass's, the fields, the methods and `@end`
#[tactic(auto, unfolding(arc_grammar::specs::Grammar::interface))]
pub fn interface(alloc: Global, reader: &mut Reader) -> Read<Interface>
    ensures gives { Gives interface_tree result (toks reader.new.rest.now) (reads grammar.interface (toks reader.old.rest.now)) }
    ensures shorter { IfOk result (λ _. length reader.new.rest.now < length reader.old.rest.now) }
{
    reader.directive(AtWord::Interface)?;
    let (at, name) = reader.name(alloc)?;
    reader.expect(Mark::Colon)?;
    let (superclass_at, superclass) = reader.name(alloc)?;
    let fields = fields(alloc, Visibility::Protected, reader)?;
    let methods = method_heads(alloc, reader)?;
    reader.directive(AtWord::End)?;
    Ok(Interface {
        at,
        name,
        superclass_at,
        superclass: superclass,
        fields,
        methods,
    })
}

/// `@implementation`, the class's name, further fields, the methods and `@end`
#[tactic(auto, unfolding(arc_grammar::specs::Grammar::implementation))]
pub fn implementation(alloc: Global, reader: &mut Reader) -> Read<Implementation>
    ensures gives { Gives implementation_tree result (toks reader.new.rest.now) (reads grammar.implementation (toks reader.old.rest.now)) }
    ensures shorter { IfOk result (λ _. length reader.new.rest.now < length reader.old.rest.now) }
{
    reader.directive(AtWord::Implementation)?;
    let (at, name) = reader.name(alloc)?;
    let fields = fields(alloc, Visibility::Private, reader)?;
    let methods = methods(alloc, reader)?;
    reader.directive(AtWord::End)?;
    Ok(Implementation {
        at,
        name,
        fields,
        methods,
    })
}

/// `@class`, names of classes and `;`
#[tactic(auto, using(arc_form::proofs::Binding::bind_twice), unfolding(arc_grammar::specs::Grammar::class_names, arc_grammar::specs::Grammar::listed, arc_grammar::specs::Grammar::commas))]
pub fn class_names(alloc: Global, reader: &mut Reader) -> Read<()>
    ensures gives { Gives (λ x. x) result (toks reader.new.rest.now) (reads grammar.class_names (toks reader.old.rest.now)) }
    ensures shorter { IfOk result (λ _. length reader.new.rest.now < length reader.old.rest.now) }
{
    reader.directive(AtWord::Class)?;
    reader.name(alloc)?;
    more_names(alloc, reader)?;
    reader.expect(Mark::Semicolon)?;
    Ok(())
}

/// Further names, each after a comma.
#[tactic(auto, using(arc_grammar::proofs::Loops::one_more_listed, arc_grammar::proofs::Fits::taking))]
fn more_names(alloc: Global, reader: &mut Reader) -> Read<()>
    ensures gives { Gives (λ x. x) result (toks reader.new.rest.now) (names_skipped (toks reader.old.rest.now)) }
    ensures shorter { IfOk result (λ _. length reader.new.rest.now ≤ length reader.old.rest.now) }
{
    'names: while let Some(_) = reader.take(Mark::Comma) {
        reader.name(alloc)?;
    }
    Ok(())
}
