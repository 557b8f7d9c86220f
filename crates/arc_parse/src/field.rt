//! Reads the fields of classes.
ghost use Rattle.std.specs.Prelude.{◌≡◌, ◌<◌, ◌≤◌, length, IfOk};
ghost use Rattle.arc_lex.specs.Tokens.{toks};
ghost use Rattle.arc_ast.specs.Tree.{type_tree, field_trees};
ghost use Rattle.arc_form.specs.Form.{map};
ghost use Rattle.arc_form.specs.Kinds as kinds;
ghost use Rattle.arc_form.specs.Reader.{Gives, sees, take_one};
ghost use Rattle.arc_grammar.specs.Grammar.{reads};
ghost use Rattle.arc_grammar.specs.Grammar as grammar;
ghost use Rattle.arc_parse.specs.private.Fields.{begins_group, fields_of, name_on, ended_names_on, typed_fields_on, group_on};

use crate::name::starred_name;
use crate::qualifier::qualifiers;
use crate::type_name::declared_type;
use crate::value_type::begins_qualified_type;
use arc_ast::tree::{Field, Qualifiers, TypeName, Visibility};
use arc_form::fail::{Fail, Read};
use arc_form::made::keep;
use arc_form::reader::Reader;
use arc_lex::mark::Mark;
use arc_lex::token::TokenKind;
use arc_lex::word::AtWord;
use std::alloc::Global;

/// The fields in braces, if there are any; those before any word are visible so.
#[tactic(auto, using(arc_form::proofs::Binding::bind_twice), unfolding(arc_grammar::specs::Grammar::fields))]
pub fn fields(alloc: Global, first: Visibility, reader: &mut Reader) -> Read<Vec<Field>>
    ensures gives { Gives (λ x. field_trees x.items) result (toks reader.new.rest.now) (reads (grammar.fields first) (toks reader.old.rest.now)) }
    ensures shorter { IfOk result (λ _. length reader.new.rest.now ≤ length reader.old.rest.now) }
{
    let Some(_) = reader.take(Mark::OpenBrace) else {
        return Ok(Vec::new(alloc));
    };
    let all = groups(alloc, first, reader)?;
    reader.expect(Mark::CloseBrace)?;
    Ok(all)
}

/// Fields and words on those after them, as many as there are; the fields before any word are visible so.
#[tactic(auto, using(crate::proofs::Fields::read_groups_on, crate::proofs::Fields::groups_start))]
fn groups(alloc: Global, first: Visibility, reader: &mut Reader) -> Read<Vec<Field>>
    ensures gives { Gives (λ x. field_trees x.items) result (toks reader.new.rest.now) (reads (map (fields_of first) grammar.groups) (toks reader.old.rest.now)) }
    ensures shorter { IfOk result (λ _. length reader.new.rest.now ≤ length reader.old.rest.now) }
{
    let mut all = Vec::new(alloc);
    let mut visibility = first;
    'groups: while begins_group(reader) {
        visibility = group(alloc, visibility, &mut all, reader)?;
    }
    Ok(all)
}

/// Whether fields, or a word on those after it, can begin with the first token.
#[tactic(auto, using(arc_form::proofs::Sets::sees_or))]
fn begins_group(reader: &Reader) -> bool
    ensures { result ≡ sees begins_group (toks reader.now.rest.now) }
{
    begins_qualified_type(reader)
        || (reader.sees_at(AtWord::Private)
            || reader.sees_at(AtWord::Protected)
            || reader.sees_at(AtWord::Public))
}

/// Puts the fields of a type, which are visible so, after these, or takes a word: how the fields after it are visible.
#[tactic(auto, using(crate::proofs::Fields::read_group))]
fn group(
    alloc: Global,
    now: Visibility,
    all: &mut Vec<Field>,
    reader: &mut Reader,
) -> Read<Visibility>
    ensures gives { Gives (λ x. (x, field_trees all.new.items)) result (toks reader.new.rest.now) (group_on (now, field_trees all.old.items) (toks reader.old.rest.now)) }
    ensures shorter { IfOk result (λ _. length reader.new.rest.now < length reader.old.rest.now) }
{
    if begins_qualified_type(reader) {
        let qualifiers = qualifiers(reader)?;
        typed_fields(alloc, now, qualifiers, all, reader)?;
        return Ok(now);
    }
    let next = visibility(reader)?;
    Ok(next)
}

/// How the fields after the first token are visible, which is a word that says so.
fn visibility(reader: &mut Reader) -> Read<Visibility>
    ensures gives { Gives (λ x. x) result (toks reader.new.rest.now) (take_one grammar.begins_visibility (λ t. grammar.visibility_of t.sort) (toks reader.old.rest.now)) }
    ensures shorter { IfOk result (λ _. length reader.new.rest.now < length reader.old.rest.now) }
{
    let Some((token, rest)) = reader.rest.split_first() else {
        return Err(Fail::Unexpected);
    };
    let visibility = match token.kind {
        TokenKind::At(AtWord::Private) => Visibility::Private,
        TokenKind::At(AtWord::Protected) => Visibility::Protected,
        TokenKind::At(AtWord::Public) => Visibility::Public,
        _ => return Err(Fail::Unexpected),
    };
    reader.rest = rest;
    Ok(visibility)
}

/// Puts the fields of a type after these: one name or more and `;`, each name after a `*` where the type is a class's.
fn typed_fields(
    alloc: Global,
    visibility: Visibility,
    qualifiers: Qualifiers,
    all: &mut Vec<Field>,
    reader: &mut Reader,
) -> Read<()>
    ensures gives { Gives (λ _. field_trees all.new.items) result (toks reader.new.rest.now) (typed_fields_on (sees kinds.name (toks reader.old.rest.now)) visibility qualifiers (field_trees all.old.items) (toks reader.old.rest.now)) }
    ensures shorter { IfOk result (λ _. length reader.new.rest.now < length reader.old.rest.now) }
{
    let of_class = reader.sees_name();
    let (_, type_name) = declared_type(alloc, of_class, reader)?;
    named_fields(
        alloc, of_class, visibility, qualifiers, &type_name, all, reader,
    )
}

/// Puts a field of this type after these, or several with a comma between two, and takes `;`.
#[tactic(auto, using(crate::proofs::Fields::read_more_names))]
fn named_fields(
    alloc: Global,
    of_class: bool,
    visibility: Visibility,
    qualifiers: Qualifiers,
    type_name: &TypeName,
    all: &mut Vec<Field>,
    reader: &mut Reader,
) -> Read<()>
    ensures gives { Gives (λ _. field_trees all.new.items) result (toks reader.new.rest.now) (ended_names_on of_class visibility (qualifiers, type_tree type_name.now) (field_trees all.old.items) (toks reader.old.rest.now)) }
    ensures shorter { IfOk result (λ _. length reader.new.rest.now < length reader.old.rest.now) }
{
    next_field(
        alloc, of_class, visibility, qualifiers, type_name, all, reader,
    )?;
    'fields: while let Some(_) = reader.take(Mark::Comma) {
        next_field(
            alloc, of_class, visibility, qualifiers, type_name, all, reader,
        )?;
    }
    reader.expect(Mark::Semicolon)?;
    Ok(())
}

/// Puts a field of this type after these, whose name is after a `*` where the type is a class's.
#[tactic(auto, using(arc_grammar::proofs::Lists::appends), unfolding(crate::specs::private::Fields::name_on))]
fn next_field(
    alloc: Global,
    of_class: bool,
    visibility: Visibility,
    qualifiers: Qualifiers,
    type_name: &TypeName,
    all: &mut Vec<Field>,
    reader: &mut Reader,
) -> Read<()>
    ensures gives { Gives (λ _. field_trees all.new.items) result (toks reader.new.rest.now) (name_on of_class visibility (qualifiers, type_tree type_name.now) (field_trees all.old.items) (toks reader.old.rest.now)) }
    ensures shorter { IfOk result (λ _. length reader.new.rest.now < length reader.old.rest.now) }
{
    let (own, (at, name)) = starred_name(alloc, of_class, reader)?;
    let field = Field {
        at,
        type_name: type_name.copy(alloc)?,
        qualifiers: qualifiers.both(own),
        name,
        visibility,
    };
    keep(all, field)
}
