//! Reads methods.
ghost use Rattle.std.specs.Prelude.{◌≡◌, ◌<◌, ◌≤◌, length, Ok, IfOk};
ghost use Rattle.arc_lex.specs.Tokens.{toks};
ghost use Rattle.arc_ast.specs.Tree.{type_tree, result_tree, parameter_tree, head_tree, head_trees, method_tree, method_trees};
ghost use Rattle.arc_lex.specs.declared.mark.Mark.TheVariants as m;
ghost use Rattle.arc_form.specs.Kinds as kinds;
ghost use Rattle.arc_form.specs.Reader.{Gives, sees};
ghost use Rattle.arc_form.specs.Views.{all};
ghost use Rattle.arc_grammar.specs.Grammar.{reads, these};
ghost use Rattle.arc_grammar.specs.Grammar as grammar;
ghost use Rattle.arc_parse.specs.private.Given.{last_part_on, next_typed_on};
ghost use Rattle.arc_parse.specs.private.Signatures as signatures;

use crate::function::braces;
use crate::parameter::parameter_of;
use crate::qualifier::qualifiers;
use crate::value_type::value_type;
use arc_ast::tree::{Method, MethodHead, Parameter, Qualifiers, ResultType, Sign, TypeName};
use arc_form::fail::Read;
use arc_form::made::keep;
use arc_form::reader::Reader;
use arc_lex::mark::Mark;
use arc_lex::word::Word;
use std::alloc::Global;

/// Whether a method can begin with the first token.
#[tactic(auto, using(arc_form::proofs::Sets::sees_or))]
fn begins_method(reader: &Reader) -> bool
    ensures { result ≡ sees grammar.begins_method (toks reader.now.rest.now) }
{
    reader.sees_mark(Mark::Plus) || reader.sees_mark(Mark::Minus)
}

/// The methods that an interface declares.
#[tactic(auto, using(crate::proofs::Signatures::next_heads, arc_form::proofs::Joining::row_start, arc_form::proofs::Joining::all_push, arc_grammar::proofs::Lists::alls), unfolding(arc_grammar::specs::Grammar::method_heads))]
pub fn method_heads(alloc: Global, reader: &mut Reader) -> Read<Vec<MethodHead>>
    ensures gives { Gives (λ x. head_trees x.items) result (toks reader.new.rest.now) (reads grammar.method_heads (toks reader.old.rest.now)) }
    ensures shorter { IfOk result (λ _. length reader.new.rest.now ≤ length reader.old.rest.now) }
{
    let mut all = Vec::new(alloc);
    'heads: while begins_method(reader) {
        let head = method_head(alloc, reader)?;
        reader.expect(Mark::Semicolon)?;
        keep(&mut all, head)?;
    }
    Ok(all)
}

/// The methods that an implementation defines.
#[tactic(auto, using(arc_grammar::proofs::Loops::one_more, arc_grammar::proofs::Fits::taking, arc_form::proofs::Joining::row_start, arc_form::proofs::Joining::all_push, arc_grammar::proofs::Lists::alls), unfolding(arc_grammar::specs::Grammar::methods))]
pub fn methods(alloc: Global, reader: &mut Reader) -> Read<Vec<Method>>
    ensures gives { Gives (λ x. method_trees x.items) result (toks reader.new.rest.now) (reads grammar.methods (toks reader.old.rest.now)) }
    ensures shorter { IfOk result (λ _. length reader.new.rest.now ≤ length reader.old.rest.now) }
{
    let mut all = Vec::new(alloc);
    'methods: while begins_method(reader) {
        let method = method(alloc, reader)?;
        keep(&mut all, method)?;
    }
    Ok(all)
}

/// A method's definition.
#[tactic(auto, unfolding(arc_grammar::specs::Grammar::method))]
fn method(alloc: Global, reader: &mut Reader) -> Read<Method>
    ensures gives { Gives method_tree result (toks reader.new.rest.now) (reads grammar.method (toks reader.old.rest.now)) }
    ensures shorter { IfOk result (λ _. length reader.new.rest.now < length reader.old.rest.now) }
{
    let head = method_head(alloc, reader)?;
    perhaps_semicolon(reader);
    let body = braces(alloc, reader)?;
    Ok(Method { head, body })
}

/// Takes `;` where it is the first token, and reports whether it was.
#[tactic(auto, unfolding(arc_grammar::specs::Grammar::perhaps_semicolon))]
fn perhaps_semicolon(reader: &mut Reader) -> bool
    ensures there { result ≡ sees (kinds.mark m.Semicolon) (toks reader.old.rest.now) }
    ensures gives { reads grammar.perhaps_semicolon (toks reader.old.rest.now) ≡ Ok (tt, toks reader.new.rest.now) }
    ensures shorter { length reader.new.rest.now ≤ length reader.old.rest.now }
{
    match reader.take(Mark::Semicolon) {
        Some(_) => true,
        None => false,
    }
}

/// `+` or `-`, perhaps the type of the result, and the selector with the parameters
#[tactic(auto, using(arc_grammar::proofs::Lists::alls), unfolding(arc_grammar::specs::Grammar::method_head))]
fn method_head(alloc: Global, reader: &mut Reader) -> Read<MethodHead>
    ensures gives { Gives head_tree result (toks reader.new.rest.now) (reads grammar.method_head (toks reader.old.rest.now)) }
    ensures shorter { IfOk result (λ _. length reader.new.rest.now < length reader.old.rest.now) }
{
    let (at, sign) = sign(reader)?;
    let result = method_result(alloc, reader)?;
    let (selector, parameters) = selector(alloc, reader)?;
    Ok(MethodHead {
        at,
        sign,
        selector,
        result,
        parameters,
    })
}

/// In parentheses the type of what a method gives, or else `id`.
#[tactic(auto, unfolding(arc_grammar::specs::Grammar::method_result, arc_grammar::specs::Grammar::enclosed_result))]
fn method_result(alloc: Global, reader: &mut Reader) -> Read<ResultType>
    ensures gives { Gives result_tree result (toks reader.new.rest.now) (reads grammar.method_result (toks reader.old.rest.now)) }
    ensures shorter { IfOk result (λ _. length reader.new.rest.now ≤ length reader.old.rest.now) }
{
    let Some(_) = reader.take(Mark::OpenParen) else {
        return Ok(ResultType::Value(TypeName::Id));
    };
    let result = result_type(alloc, reader)?;
    reader.expect(Mark::CloseParen)?;
    Ok(result)
}

/// `void`, `instancetype`, or the type of a value.
#[tactic(auto, unfolding(arc_grammar::specs::Grammar::result_type))]
fn result_type(alloc: Global, reader: &mut Reader) -> Read<ResultType>
    ensures gives { Gives result_tree result (toks reader.new.rest.now) (reads grammar.result_type (toks reader.old.rest.now)) }
    ensures shorter { IfOk result (λ _. length reader.new.rest.now < length reader.old.rest.now) }
{
    if let Some(_) = reader.take_word(Word::Void) {
        return Ok(ResultType::Void);
    }
    if let Some(_) = reader.take_word(Word::InstanceType) {
        return Ok(ResultType::Related);
    }
    let (_, written) = value_type(alloc, reader)?;
    Ok(ResultType::Value(written))
}

/// `+` or `-`, with its place
#[tactic(auto, unfolding(arc_grammar::specs::Grammar::sign))]
fn sign(reader: &mut Reader) -> Read<(usize, Sign)>
    ensures gives { Gives (λ x. x) result (toks reader.new.rest.now) (reads grammar.sign (toks reader.old.rest.now)) }
    ensures shorter { IfOk result (λ _. length reader.new.rest.now < length reader.old.rest.now) }
{
    if let Some(at) = reader.take(Mark::Plus) {
        return Ok((at, Sign::Class));
    }
    let at = reader.expect(Mark::Minus)?;
    Ok((at, Sign::Instance))
}

/// A selector with all of its colons, and the parameters.
type Typed = (Vec<u8>, Vec<Parameter>);

/// A selector, and the parameters.
#[tactic(auto, using(crate::proofs::Given::read_selector))]
fn selector(alloc: Global, reader: &mut Reader) -> Read<Typed>
    ensures gives { Gives (λ x. (x.0.items, all parameter_tree x.1.items)) result (toks reader.new.rest.now) (reads grammar.selector (toks reader.old.rest.now)) }
    ensures shorter { IfOk result (λ _. length reader.new.rest.now < length reader.old.rest.now) }
{
    let (_, mut selector) = reader.name(alloc)?;
    let mut all = Vec::new(alloc);
    if reader.sees_mark(Mark::Colon) {
        typed_parts(alloc, &mut selector, &mut all, reader)?;
    }
    Ok((selector, all))
}

/// Puts a colon after this selector and its parameter after these, and then further parts with theirs.
#[tactic(auto, using(crate::proofs::Given::read_typed_parts, crate::proofs::Given::read_more_typed))]
fn typed_parts(
    alloc: Global,
    selector: &mut Vec<u8>,
    given: &mut Vec<Parameter>,
    reader: &mut Reader,
) -> Read<()>
    ensures gives { Gives (λ _. (selector.new.items, all parameter_tree given.new.items)) result (toks reader.new.rest.now) (last_part_on these grammar.typed (selector.old.items, all parameter_tree given.old.items) (toks reader.old.rest.now)) }
    ensures shorter { IfOk result (λ _. length reader.new.rest.now < length reader.old.rest.now) }
{
    next_typed(alloc, selector, given, reader)?;
    'parts: while reader.sees_name() {
        let (_, called) = reader.name(alloc)?;
        selector.extend_from_slice(&called)?;
        next_typed(alloc, selector, given, reader)?;
    }
    Ok(())
}

/// Puts a colon after this selector and its parameter after these.
#[tactic(auto, using(arc_form::proofs::Joining::all_push), unfolding(crate::specs::private::Given::next_typed_on))]
fn next_typed(
    alloc: Global,
    selector: &mut Vec<u8>,
    given: &mut Vec<Parameter>,
    reader: &mut Reader,
) -> Read<()>
    ensures gives { Gives (λ _. (selector.new.items, all parameter_tree given.new.items)) result (toks reader.new.rest.now) (next_typed_on (selector.old.items, all parameter_tree given.old.items) (toks reader.old.rest.now)) }
    ensures shorter { IfOk result (λ _. length reader.new.rest.now < length reader.old.rest.now) }
{
    reader.expect(Mark::Colon)?;
    selector.push(b':')?;
    let parameter = typed(alloc, reader)?;
    keep(given, parameter)
}

/// A type and the qualifiers that stand before and after it.
type QualifiedType = (Qualifiers, TypeName);

/// In parentheses the type of a parameter, after and before qualifiers, or else `id`.
#[tactic(auto, unfolding(arc_grammar::specs::Grammar::enclosed_type))]
fn parameter_type(alloc: Global, reader: &mut Reader) -> Read<QualifiedType>
    ensures gives { Gives (λ x. (x.0, type_tree x.1)) result (toks reader.new.rest.now) (signatures.parameter_type (toks reader.old.rest.now)) }
    ensures shorter { IfOk result (λ _. length reader.new.rest.now ≤ length reader.old.rest.now) }
{
    let Some(_) = reader.take(Mark::OpenParen) else {
        return Ok((Qualifiers::Unqualified, TypeName::Id));
    };
    let before = qualifiers(reader)?;
    let (_, type_name) = value_type(alloc, reader)?;
    let after = qualifiers(reader)?;
    reader.expect(Mark::CloseParen)?;
    Ok((before.both(after), type_name))
}

/// Perhaps a type in parentheses, and a name
#[tactic(auto, unfolding(arc_grammar::specs::Grammar::typed))]
fn typed(alloc: Global, reader: &mut Reader) -> Read<Parameter>
    ensures gives { Gives parameter_tree result (toks reader.new.rest.now) (reads grammar.typed (toks reader.old.rest.now)) }
    ensures shorter { IfOk result (λ _. length reader.new.rest.now < length reader.old.rest.now) }
{
    let (qualifiers, type_name) = parameter_type(alloc, reader)?;
    let (at, name) = reader.name(alloc)?;
    Ok(parameter_of(qualifiers, type_name, at, name))
}
