//! What the arguments of a call or a message are passed to.
ghost use Rattle.std.specs.Prelude.{◌≡◌, drop, option_map};
ghost use Rattle.arc_class.specs.Table.{number_of_class};
ghost use Rattle.arc_scope.specs.ParameterKinds as passing;
ghost use Rattle.arc_scope.specs.Views.{kinds_wanted};

use arc_ast::tree::{Kind, Parameter, Sign};
use arc_class::table::ClassId;

/// The kind that the first argument is converted to, by the parameters that it is passed to. What is printed keeps its
/// kind: None.
pub fn first_wanted(wanted: Option<&[Parameter]>) -> Option<Kind>
    ensures { result ≡ passing.first_wanted (kinds_wanted wanted.entry) }
{
    let parameters = wanted?;
    match parameters.split_first() {
        None => Some(Kind::Int),
        Some((first, _)) => Some(first.type_name.kind()),
    }
}

/// The parameters that the others are passed to.
pub fn after_first(wanted: Option<&[Parameter]>) -> Option<&[Parameter]>
    ensures { kinds_wanted result ≡ option_map (drop 1) (kinds_wanted wanted.entry) }
{
    let parameters = wanted?;
    match parameters.split_first() {
        None => Some(&[]),
        Some((_, others)) => Some(others),
    }
}

/// The sign of the methods that a message goes to, by the class that its receiver is.
pub fn receiver_sign(class: Option<ClassId>) -> Sign
    ensures { result ≡ passing.receiver_sign (option_map number_of_class class) }
{
    match class {
        None => Sign::Instance,
        Some(_) => Sign::Class,
    }
}
