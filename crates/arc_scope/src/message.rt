//! The methods that messages may have, and the static classes of what they give.
ghost use Rattle.std.specs.Prelude.{◌≡◌, None, false, option_map};
ghost use Rattle.std.specs.Option.{option_and_then, option_or};
ghost use Rattle.arc_ast.specs.Tree.{expr_tree, type_tree};
ghost use Rattle.arc_class.specs.declared.table.ClassTable.{ClassTable};
ghost use Rattle.arc_class.specs.Table.{number_of_class};
ghost use Rattle.arc_scope.specs.Scopes as scopes;
ghost use Rattle.arc_scope.specs.Views as views;
ghost use Rattle.arc_scope.specs.Views.{known_in, seen};

use crate::field::is_variable;
use crate::scope::Visible;
use arc_ast::tree::{Expr, Kind, Sign, TypeName};
use arc_class::table::{ClassId, ClassTable, MethodResult};

/// The class of the type, of which `id` has none.
pub fn static_class<'a>(table: &ClassTable<'a>, type_name: &'a TypeName) -> Option<ClassId>
    ensures { option_map number_of_class result ≡ scopes.static_class (known_in table.now) (type_tree type_name.now) }
{
    match type_name {
        TypeName::Bool | TypeName::Int | TypeName::Long | TypeName::Id => None,
        TypeName::Object(_, class) => table.objc_get_class(class),
    }
}

/// The class that `self` is in a class method, also in parentheses.
pub fn itself_in(visible: &Visible, expr: &Expr) -> Option<ClassId>
    ensures { (table : ClassTable) → option_map number_of_class result ≡ scopes.itself_in (seen table visible.now) (expr_tree expr.now) }
{
    match expr {
        Expr::Paren(_, inside) => itself_in(visible, inside),
        Expr::Itself(_) => visible.class_itself(),
        _ => None,
    }
}

/// The class that the receiver is, where it is one.
pub fn class_receiver<'a>(
    table: &ClassTable<'a>,
    visible: &Visible<'a>,
    receiver: &'a Expr,
) -> Option<ClassId>
    ensures { option_map number_of_class result ≡ scopes.class_receiver (seen table.now visible.now) (expr_tree receiver.now) }
{
    match receiver {
        Expr::Name(_, name) => {
            if is_variable(table, visible, name) {
                None
            } else {
                table.objc_get_class(name)
            }
        }
        Expr::Paren(_, inside) => itself_in(visible, inside),
        Expr::Itself(_) => visible.class_itself(),
        _ => None,
    }
}

/// The superclass of the class, if there is one.
pub fn above(table: &ClassTable, class: Option<ClassId>) -> Option<ClassId>
    ensures { option_map number_of_class result ≡ option_and_then (known_in table.now).superclass (option_map number_of_class class) }
{
    match class {
        None => None,
        Some(class) => table.superclass(class),
    }
}

/// The kind of what a method gives that is known.
fn kind_given(given: Option<MethodResult>) -> Option<Kind>
    ensures { result ≡ scopes.kind_given given }
{
    match given {
        None => None,
        Some(given) => Some(given.kind),
    }
}

/// What the method gives that is known for a message: to the class or, with none, to an object with the static class.
fn sent_result<'a>(
    table: &ClassTable<'a>,
    class: Option<ClassId>,
    static_class: Option<ClassId>,
    selector: &'a [u8],
) -> Option<MethodResult>
    ensures { result ≡ scopes.sent_result (known_in table.now) (option_map number_of_class class) (option_map number_of_class static_class) selector.now }
{
    match (class, static_class) {
        (Some(_), _) => table.result(class, Sign::Class, selector),
        (None, Some(_)) => table.result(static_class, Sign::Instance, selector),
        (None, None) => of_any(table.result_of_any(selector)),
    }
}

/// What a method gives of which the kind is known.
fn of_any(kind: Option<Kind>) -> Option<MethodResult>
    ensures { result ≡ option_map (λ kind. record { kind = kind; class = None; related = false }) kind }
{
    match kind {
        None => None,
        Some(kind) => Some(MethodResult {
            kind,
            class: None,
            related: false,
        }),
    }
}

/// The kind of what a message gives, where a method is known for it: to the class or, with none, to an object with the static class.
pub fn sent_kind<'a>(
    table: &ClassTable<'a>,
    class: Option<ClassId>,
    static_class: Option<ClassId>,
    selector: &'a [u8],
) -> Option<Kind>
    ensures { result ≡ views.sent_kind (known_in table.now) (option_map number_of_class class) (option_map number_of_class static_class) selector.now }
{
    kind_given(sent_result(table, class, static_class, selector))
}

/// What a message to `super` gives, where a method is known for it.
fn super_result<'a>(
    table: &ClassTable<'a>,
    visible: &Visible<'a>,
    selector: &'a [u8],
) -> Option<MethodResult>
    ensures { result ≡ scopes.super_result (seen table.now visible.now) selector.now }
{
    match above(table, visible.class) {
        None => None,
        Some(class) => table.result(Some(class), visible.sign, selector),
    }
}

/// The kind of what a message to `super` gives, where a method is known for it.
pub fn super_kind<'a>(
    table: &ClassTable<'a>,
    visible: &Visible<'a>,
    selector: &'a [u8],
) -> Option<Kind>
    ensures { result ≡ views.super_kind (seen table.now visible.now) selector.now }
{
    kind_given(super_result(table, visible, selector))
}

/// The static class of what a method gives that is known, of a message to what has the other static class.
fn class_given(receiver: Option<ClassId>, given: Option<MethodResult>) -> Option<ClassId>
    ensures { option_map number_of_class result ≡ scopes.class_given (option_map number_of_class receiver) given }
{
    match given {
        None => None,
        Some(given) => { if given.related { receiver } else { given.class } }
    }
}

/// The class or, with none, the static class.
fn given_to(class: Option<ClassId>, static_class: Option<ClassId>) -> Option<ClassId>
    ensures { option_map number_of_class result ≡ option_or (option_map number_of_class class) (option_map number_of_class static_class) }
{
    match class {
        None => static_class,
        Some(_) => class,
    }
}

/// The static class of what a message gives: to the class or, with none, to an object with the static class.
pub fn sent_class<'a>(
    table: &ClassTable<'a>,
    class: Option<ClassId>,
    static_class: Option<ClassId>,
    selector: &'a [u8],
) -> Option<ClassId>
    ensures { option_map number_of_class result ≡ views.sent_class (known_in table.now) (option_map number_of_class class) (option_map number_of_class static_class) selector.now }
{
    let result = sent_result(table, class, static_class, selector);
    class_given(given_to(class, static_class), result)
}

/// The static class of what a message to `super` gives.
pub fn super_class<'a>(
    table: &ClassTable<'a>,
    visible: &Visible<'a>,
    selector: &'a [u8],
) -> Option<ClassId>
    ensures { option_map number_of_class result ≡ views.super_class (seen table.now visible.now) selector.now }
{
    class_given(visible.class, super_result(table, visible, selector))
}
