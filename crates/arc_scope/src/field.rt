//! The variables and the fields that names mean.
ghost use Rattle.std.specs.Prelude.{◌≡◌, ◌||◌, false, is_some, option_map, nat_eq};
ghost use Rattle.std.specs.Option.{option_map_or};
ghost use Rattle.arc_class.specs.Table.{number_of_class};
ghost use Rattle.arc_scope.specs.Scopes as scopes;
ghost use Rattle.arc_scope.specs.Views.{global_variable, known_in, local_of, seen};

use crate::scope::{Local, Visible};
use arc_ast::tree::{Kind, Visibility};
use arc_class::table::{ClassId, ClassTable, FoundField, Variable};
use arc_spec::class::descends_from;
use arc_spec::location::Location;

/// The field of `self` that the name means which is no variable's.
pub fn own_field<'a>(
    table: &ClassTable<'a>,
    visible: &Visible<'a>,
    name: &'a [u8],
) -> Option<FoundField>
    ensures { result ≡ scopes.own_field (seen table.now visible.now) name.now }
{
    table.field(visible.own_class(), name)
}

/// The variable of the whole program that the name means, where no field of `self` has it.
fn global_variable<'a>(
    table: &ClassTable<'a>,
    visible: &Visible<'a>,
    name: &'a [u8],
) -> Option<Local>
    ensures { option_map local_of result ≡ global_variable (seen table.now visible.now) name.now }
{
    if own_field(table, visible, name).is_some() {
        return None;
    }
    match table.global(name) {
        None => None,
        Some(global) => Some(of_global(global)),
    }
}

/// What a name means that is this variable's of the whole program.
fn of_global(global: Variable) -> Local
    ensures { local_of result ≡ scopes.of_global global }
{
    let location = Location::Global(global.number);
    match global.kind {
        Kind::Object => Local::Object(location, global.class),
        Kind::Void | Kind::Bool | Kind::Int | Kind::Long => Local::Number(global.kind, location),
    }
}

/// The static class of the field, if it names objects of one.
pub fn field_class(found: Option<FoundField>) -> Option<ClassId>
    ensures { option_map number_of_class result ≡ scopes.field_class found }
{
    match found {
        None => None,
        Some(field) => field.class,
    }
}

/// The static class of what a name means: a variable, or else a field of `self`.
pub fn name_class(local: Option<Local>, own: Option<FoundField>) -> Option<ClassId>
    ensures { option_map number_of_class result ≡ scopes.name_class (option_map local_of local) own }
{
    match local {
        None => field_class(own),
        Some(Local::Number(_, _)) => None,
        Some(Local::Object(_, class)) => class,
    }
}

/// The variable that the name means: one of the body, or else one of the whole program.
pub fn named_variable<'a>(
    table: &ClassTable<'a>,
    visible: &Visible<'a>,
    name: &'a [u8],
) -> Option<Local>
    ensures { option_map local_of result ≡ scopes.variable (seen table.now visible.now) name.now }
{
    match visible.local(name) {
        Some(local) => Some(local),
        None => global_variable(table, visible, name),
    }
}

/// Whether the name means a variable or a field of `self`.
pub fn is_variable<'a>(table: &ClassTable<'a>, visible: &Visible<'a>, name: &'a [u8]) -> bool
    ensures { result ≡ (is_some (scopes.variable (seen table.now visible.now) name.now) || is_some (scopes.own_field (seen table.now visible.now) name.now)) }
{
    named_variable(table, visible, name).is_some() || own_field(table, visible, name).is_some()
}

/// Whether the class is that one, or comes from it.
fn descends(table: &ClassTable, class: Option<ClassId>, other: ClassId) -> bool
    ensures { result ≡ (known_in table.now).descends (option_map number_of_class class) (number_of_class other) }
{
    let from = class.map(|class| class.0);
    descends_from(&table.classes, from, other.0)
}

/// Whether the class is that one.
fn is_class(class: Option<ClassId>, other: ClassId) -> bool
    ensures { result ≡ option_map_or (λ n. nat_eq n (number_of_class other)) (option_map number_of_class class) false }
{
    match class {
        None => false,
        Some(class) => class.0 == other.0,
    }
}

/// Whether the field may be named where these variables are visible.
pub fn is_visible(table: &ClassTable, visible: &Visible, field: FoundField) -> bool
    ensures { result ≡ scopes.is_visible (seen table.now visible.now) field }
{
    match field.visibility {
        Visibility::Public => true,
        Visibility::Protected => descends(table, visible.class, field.owner),
        Visibility::Private => is_class(visible.class, field.owner),
    }
}
