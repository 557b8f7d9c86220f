//! The kinds of fields that are named, and the rules that are broken by naming one.
ghost use Rattle.std.specs.Prelude.{◌≡◌, option_map};
ghost use Rattle.arc_class.specs.BrokenRules.{first};
ghost use Rattle.arc_judge.specs.Fault.{reported};
ghost use Rattle.arc_judge.specs.Rules as rules;
ghost use Rattle.arc_scope.specs.Views.{seen};

use arc_ast::tree::Kind;
use arc_class::table::{ClassTable, FoundField};
use arc_fault::check::CheckFault;
use arc_scope::field::is_visible;
use arc_scope::scope::Visible;

/// The kind of the field, where there is one that may be named.
pub fn field_kind(table: &ClassTable, visible: &Visible, found: Option<FoundField>) -> Option<Kind>
    ensures { result ≡ rules.field_kind (seen table.now visible.now) found }
{
    match found {
        None => None,
        Some(field) => {
            if is_visible(table, visible, field) {
                Some(field.kind)
            } else {
                None
            }
        }
    }
}

/// The rule that is broken where there is no field that may be named.
pub fn field_fault(
    table: &ClassTable,
    visible: &Visible,
    found: Option<FoundField>,
    at: usize,
) -> Option<CheckFault>
    ensures { option_map reported result ≡ first (rules.no_field (seen table.now visible.now) found at) }
{
    match found {
        None => Some(CheckFault::UnknownName(at)),
        Some(field) => {
            if is_visible(table, visible, field) {
                None
            } else {
                Some(CheckFault::FieldHidden(at))
            }
        }
    }
}
