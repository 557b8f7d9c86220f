//! Builds the resolved expressions of a source that breaks no rule.
ghost use Rattle.std.specs.Prelude.{◌≡◌, ℕ, List, Option, Some, None, option_map, IfOk};
ghost use Rattle.arc_ast.specs.Tree.{ExprTree, type_tree, expr_tree, expr_trees, Integer, Text, Name, Unary, Cast, Binary, Conditional, Arrow, Assign, Update, Call, Send, SendSuper};
ghost use Rattle.arc_class.specs.Table.{number_of_class};
ghost use Rattle.arc_resolve.specs.private.ResolvedNodes.{Resolves, part_of, printing, resolution, text_of};
ghost use Rattle.arc_checked.specs.Checked as checked;
ghost use Rattle.arc_resolve.specs.SourceResolution as resolving;
ghost use Rattle.arc_resolve.specs.SourceResolution.{resolved, resolved_all};
ghost use Rattle.arc_scope.specs.Scopes as scopes;
ghost use Rattle.arc_scope.specs.declared.scope.Visible.{Visible};
ghost use Rattle.arc_scope.specs.Views.{kinds_wanted, seen};
ghost use Rattle.arc_spec.specs.Resolved as spec;

use crate::made::keep;
use crate::piece::pieces;
use crate::resolution::{
    ClassReceiver, Operand, Part, Resolution, SuperSite, Typed, as_part, binary, cast as cast_to,
    class_number, class_value, conditional, converted, converted_part, field, field_assigned,
    invoked, itself, itself_assigned, name_assigned, named, number, number_part, object_in,
    object_part, selector_number, to_class, to_object, to_super, unary, unboxed, updated,
};
use arc_ast::tree::{BinaryOperator, Expr, Kind, Moment, Parameter, TypeName, UnaryOperator};
use arc_checked::program::{Argument, Reference, Value};
use arc_class::table::{ClassId, ClassTable};
use arc_scope::callee::{Callee, callee_of};
use arc_scope::field::{field_class, name_class, named_variable, own_field};
use arc_scope::kind::{either_class, is_nil, literal_kind};
use arc_scope::message::{
    above, class_receiver, sent_class, sent_kind, static_class, super_class, super_kind,
};
use arc_scope::scope::Visible;
use arc_scope::wanted::{after_first, first_wanted, receiver_sign};
use std::alloc::{AllocError, Global};

/// A resolved integer.
fn integer(number: &i64, suffixed: bool) -> Typed
    ensures { (s : scopes.Scope) (at : ℕ) → Resolves s (Integer at number.now suffixed) result }
{
    Typed {
        class: None,
        value: Resolution::Gives(literal_kind(*number, suffixed), Value::Number(*number)),
    }
}

/// A resolved text.
fn text() -> Typed
    ensures { (s : scopes.Scope) (at : ℕ) (bytes : List ℕ) → Resolves s (Text at bytes) result }
{
    Typed {
        class: None,
        value: Resolution::Gives(Kind::Int, Value::Number(0)),
    }
}

/// A resolved name.
#[inline(always)]
fn variable<'a>(
    alloc: Global,
    table: &ClassTable<'a>,
    visible: &Visible<'a>,
    name: &'a [u8],
) -> Result<Typed, AllocError>
    ensures { IfOk result (λ typed. (at : ℕ) → Resolves (seen table.now visible.now) (Name at name.now) typed) }
{
    let local = named_variable(table, visible, name);
    let own = own_field(table, visible, name);
    let value = named(alloc, visible.owns, local, own)?;
    Ok(Typed {
        class: name_class(local, own),
        value,
    })
}

/// A resolved expression.
#[cycle(resolve)]
pub fn expression<'a>(
    alloc: Global,
    table: &ClassTable<'a>,
    visible: &Visible<'a>,
    expr: &'a Expr,
) -> Result<Typed, AllocError>
    ensures { IfOk result (λ typed. Resolves (seen table.now visible.now) (expr_tree expr.now) typed) }
{
    match expr {
        Expr::Integer(_, number, suffixed) => Ok(integer(number, *suffixed)),
        Expr::Text(_, _) => Ok(text()),
        Expr::Paren(_, inside) => expression(alloc, table, visible, inside),
        Expr::Call(_, name, arguments) => call(alloc, table, visible, name, arguments),
        Expr::Nil(_) => Ok(Typed {
            class: None,
            value: Resolution::Refers(Reference::Nil),
        }),
        Expr::Itself(_) => Ok(Typed {
            class: visible.own_class(),
            value: Resolution::Refers(itself(visible.owns)),
        }),
        Expr::Name(_, name) => variable(alloc, table, visible, name),
        Expr::Unary(_, operator, operand) => signed(alloc, table, visible, *operator, operand),
        Expr::Cast(_, type_name, operand) => cast(alloc, table, visible, type_name, operand),
        Expr::Binary(_, operator, left, right) => {
            operation(alloc, table, visible, *operator, left, right)
        }
        Expr::Conditional(_, test, first, second) => {
            choice(alloc, table, visible, test, first, second)
        }
        Expr::Arrow(_, _, base, name) => arrow(alloc, table, visible, base, name),
        Expr::Assign(_, _, left, right) => assignment(alloc, table, visible, left, right),
        Expr::Update(_, _, moment, operator, left, right) => {
            update(alloc, table, visible, *moment, *operator, left, right)
        }
        Expr::Send(_, _, receiver, selector, arguments) => {
            message(alloc, table, visible, receiver, selector, arguments)
        }
        Expr::SendSuper(_, _, _, selector, arguments) => {
            super_message(alloc, table, visible, selector, arguments)
        }
    }
}

/// A resolved expression that is a part of another one.
#[cycle(resolve)]
fn resolved_part<'a>(
    alloc: Global,
    table: &ClassTable<'a>,
    visible: &Visible<'a>,
    expr: &'a Expr,
) -> Result<Operand, AllocError>
    ensures class { IfOk result (λ part. option_map number_of_class part.class ≡ scopes.class_of (seen table.now visible.now) (expr_tree expr.now)) }
    ensures value { IfOk result (λ part. part_of part.value ≡ resolved (seen table.now visible.now) (expr_tree expr.now)) }
{
    let typed = expression(alloc, table, visible, expr)?;
    Ok(Operand {
        class: typed.class,
        value: as_part(alloc, typed.value)?,
    })
}

/// A resolved operator before its operand.
#[cycle(resolve)]
fn signed<'a>(
    alloc: Global,
    table: &ClassTable<'a>,
    visible: &Visible<'a>,
    operator: UnaryOperator,
    operand: &'a Expr,
) -> Result<Typed, AllocError>
    ensures { IfOk result (λ typed. (at : ℕ) → Resolves (seen table.now visible.now) (Unary at operator (expr_tree operand.now)) typed) }
{
    let operand = resolved_part(alloc, table, visible, operand)?;
    let value = unary(alloc, operator, operand.value)?;
    Ok(Typed { class: None, value })
}

/// A resolved cast.
#[cycle(resolve)]
fn cast<'a>(
    alloc: Global,
    table: &ClassTable<'a>,
    visible: &Visible<'a>,
    type_name: &'a TypeName,
    operand: &'a Expr,
) -> Result<Typed, AllocError>
    ensures { IfOk result (λ typed. (at : ℕ) → Resolves (seen table.now visible.now) (Cast at (type_tree type_name.now) (expr_tree operand.now)) typed) }
{
    let operand = expression(alloc, table, visible, operand)?;
    let value = cast_to(alloc, type_name.kind(), operand.value)?;
    Ok(Typed {
        class: static_class(table, type_name),
        value,
    })
}

/// Two resolved operands and their operator.
#[cycle(resolve)]
fn operation<'a>(
    alloc: Global,
    table: &ClassTable<'a>,
    visible: &Visible<'a>,
    operator: BinaryOperator,
    left: &'a Expr,
    right: &'a Expr,
) -> Result<Typed, AllocError>
    ensures { IfOk result (λ typed. (at : ℕ) → Resolves (seen table.now visible.now) (Binary at operator (expr_tree left.now) (expr_tree right.now)) typed) }
{
    let left = resolved_part(alloc, table, visible, left)?;
    let right = resolved_part(alloc, table, visible, right)?;
    let value = binary(alloc, operator, left.value, right.value)?;
    Ok(Typed { class: None, value })
}

/// A resolved choice of two values by a test.
#[cycle(resolve)]
fn choice<'a>(
    alloc: Global,
    table: &ClassTable<'a>,
    visible: &Visible<'a>,
    test: &'a Expr,
    first: &'a Expr,
    second: &'a Expr,
) -> Result<Typed, AllocError>
    ensures { IfOk result (λ typed. (at : ℕ) → Resolves (seen table.now visible.now) (Conditional at (expr_tree test.now) (expr_tree first.now) (expr_tree second.now)) typed) }
{
    let one_nil = is_nil(first);
    let other_nil = is_nil(second);
    let test = resolved_part(alloc, table, visible, test)?;
    let first = resolved_part(alloc, table, visible, first)?;
    let second = resolved_part(alloc, table, visible, second)?;
    let class = either_class(one_nil, other_nil, first.class, second.class);
    let value = conditional(alloc, test.value, first.value, second.value)?;
    Ok(Typed { class, value })
}

/// A resolved field of an object.
#[cycle(resolve)]
fn arrow<'a>(
    alloc: Global,
    table: &ClassTable<'a>,
    visible: &Visible<'a>,
    base: &'a Expr,
    name: &'a [u8],
) -> Result<Typed, AllocError>
    ensures { IfOk result (λ typed. (at name_at : ℕ) → Resolves (seen table.now visible.now) (Arrow at name_at (expr_tree base.now) name.now) typed) }
{
    let base = expression(alloc, table, visible, base)?;
    let found = table.field(base.class, name);
    let value = field(alloc, object_in(base.value), found)?;
    Ok(Typed {
        class: field_class(found),
        value,
    })
}

/// A resolved assignment.
#[cycle(resolve)]
fn assignment<'a>(
    alloc: Global,
    table: &ClassTable<'a>,
    visible: &Visible<'a>,
    left: &'a Expr,
    right: &'a Expr,
) -> Result<Typed, AllocError>
    ensures { IfOk result (λ typed. (at sign : ℕ) → Resolves (seen table.now visible.now) (Assign at sign (expr_tree left.now) (expr_tree right.now)) typed) }
{
    let right = resolved_part(alloc, table, visible, right)?;
    assigned(alloc, table, visible, left, right.value)
}

/// A resolved update.
#[cycle(resolve)]
fn update<'a>(
    alloc: Global,
    table: &ClassTable<'a>,
    visible: &Visible<'a>,
    moment: Moment,
    operator: BinaryOperator,
    left: &'a Expr,
    right: &'a Expr,
) -> Result<Typed, AllocError>
    ensures { IfOk result (λ typed. (at sign : ℕ) → Resolves (seen table.now visible.now) (Update at sign moment operator (expr_tree left.now) (expr_tree right.now)) typed) }
{
    let right = resolved_part(alloc, table, visible, right)?;
    let left = expression(alloc, table, visible, left)?;
    let value = updated(alloc, moment, operator, left.value, right.value)?;
    Ok(Typed { class: None, value })
}

/// An assignment to the name, of what is resolved.
fn to_name<'a>(
    alloc: Global,
    table: &ClassTable<'a>,
    visible: &Visible<'a>,
    name: &'a [u8],
    of: Part,
) -> Result<Typed, AllocError>
    ensures class { IfOk result (λ typed. option_map number_of_class typed.class ≡ scopes.name_class (scopes.variable (seen table.now visible.now) name.now) (scopes.own_field (seen table.now visible.now) name.now)) }
    ensures value { IfOk result (λ typed. resolution typed.value
        ≡ resolving.name_assigned (seen table.now visible.now).owns (scopes.variable (seen table.now visible.now) name.now) (scopes.own_field (seen table.now visible.now) name.now) (part_of of)) }
{
    let local = named_variable(table, visible, name);
    let own = own_field(table, visible, name);
    let value = name_assigned(alloc, visible.owns, local, own, of)?;
    Ok(Typed {
        class: name_class(local, own),
        value,
    })
}

/// An assignment to the field of an object, of what is resolved.
#[cycle(resolve)]
fn to_field<'a>(
    alloc: Global,
    table: &ClassTable<'a>,
    visible: &Visible<'a>,
    base: &'a Expr,
    name: &'a [u8],
    of: Part,
) -> Result<Typed, AllocError>
    ensures class { IfOk result (λ typed. option_map number_of_class typed.class ≡ scopes.field_class ((seen table.now visible.now).known.field (scopes.class_of (seen table.now visible.now) (expr_tree base.now)) name.now)) }
    ensures value { IfOk result (λ typed. resolution typed.value
        ≡ resolving.field_assigned (resolving.object_in (resolved (seen table.now visible.now) (expr_tree base.now))) ((seen table.now visible.now).known.field (scopes.class_of (seen table.now visible.now) (expr_tree base.now)) name.now) (part_of of)) }
{
    let base = expression(alloc, table, visible, base)?;
    let found = table.field(base.class, name);
    let value = field_assigned(alloc, object_in(base.value), found, of)?;
    Ok(Typed {
        class: field_class(found),
        value,
    })
}

/// The static class of the resolved expression, if it has one.
#[cycle(resolve)]
fn class_in<'a>(
    alloc: Global,
    table: &ClassTable<'a>,
    visible: &Visible<'a>,
    expr: &'a Expr,
) -> Result<Option<ClassId>, AllocError>
    ensures { IfOk result (λ class. option_map number_of_class class ≡ scopes.class_of (seen table.now visible.now) (expr_tree expr.now)) }
{
    let part = resolved_part(alloc, table, visible, expr)?;
    Ok(part.class)
}

/// An assignment to the left side, of what is resolved, with the left side's static class.
#[cycle(resolve)]
fn assigned<'a>(
    alloc: Global,
    table: &ClassTable<'a>,
    visible: &Visible<'a>,
    left: &'a Expr,
    of: Part,
) -> Result<Typed, AllocError>
    ensures class { IfOk result (λ typed. option_map number_of_class typed.class ≡ scopes.class_of (seen table.now visible.now) (expr_tree left.now)) }
    ensures value { IfOk result (λ typed. resolution typed.value ≡ resolving.assigned (seen table.now visible.now) (expr_tree left.now) (part_of of)) }
{
    match left {
        Expr::Paren(_, inside) => assigned(alloc, table, visible, inside, of),
        Expr::Itself(_) => Ok(Typed {
            class: visible.own_class(),
            value: itself_assigned(alloc, visible.owns, of)?,
        }),
        Expr::Name(_, name) => to_name(alloc, table, visible, name, of),
        Expr::Arrow(_, _, base, name) => to_field(alloc, table, visible, base, name, of),
        _ => {
            let class = class_in(alloc, table, visible, left)?;
            Ok(Typed {
                class,
                value: unboxed(of),
            })
        }
    }
}

/// The resolved expression, as a number of the kind.
pub fn number_as<'a>(
    alloc: Global,
    table: &ClassTable<'a>,
    visible: &Visible<'a>,
    kind: Kind,
    expr: &'a Expr,
) -> Result<Value, AllocError>
    ensures { IfOk result (λ value. checked.value value ≡ resolving.converted kind (resolved (seen table.now visible.now) (expr_tree expr.now))) }
{
    let typed = expression(alloc, table, visible, expr)?;
    converted(alloc, kind, typed.value)
}

/// The resolved expression, as an object.
pub fn object<'a>(
    alloc: Global,
    table: &ClassTable<'a>,
    visible: &Visible<'a>,
    expr: &'a Expr,
) -> Result<Reference, AllocError>
    ensures { IfOk result (λ object. checked.reference object ≡ resolving.object_in (resolved (seen table.now visible.now) (expr_tree expr.now))) }
{
    let typed = expression(alloc, table, visible, expr)?;
    Ok(object_in(typed.value))
}

/// A call.
#[cycle(resolve)]
fn call<'a>(
    alloc: Global,
    table: &ClassTable<'a>,
    visible: &Visible<'a>,
    name: &'a [u8],
    arguments: &'a [Expr],
) -> Result<Typed, AllocError>
    ensures { IfOk result (λ typed. (at : ℕ) → Resolves (seen table.now visible.now) (Call at name.now (expr_trees arguments.now)) typed) }
{
    let callee = callee_of(table, name);
    let value = match callee {
        Callee::Printf => {
            let value = print(alloc, table, visible, arguments)?;
            Resolution::Gives(Kind::Int, value)
        }
        Callee::Defined(kind, _, body) => {
            let wanted = Some(table.parameters(name));
            let all = resolved_arguments(alloc, table, visible, wanted, arguments)?;
            invoked(kind, number(body), all)
        }
        Callee::GetChar => Resolution::Gives(Kind::Int, Value::ReadByte),
        Callee::Unknown => Resolution::Gives(Kind::Int, Value::ReadByte),
    };
    Ok(Typed {
        class: table.function_class(name),
        value,
    })
}

/// A message to the class, which the receiver is.
fn class_message<'a>(
    alloc: Global,
    table: &ClassTable<'a>,
    receiver: &'a Expr,
    class: ClassId,
    selector: &'a [u8],
    all: Vec<Argument>,
) -> Result<Resolution, AllocError>
    ensures { IfOk result (λ new. (visible : Visible) (static_class : Option ℕ) (of : resolving.Resolution) → resolution new
        ≡ resolving.sent (seen table.now visible) (expr_tree receiver.now) (Some (number_of_class class)) static_class of selector.now (checked.arguments all.items)) }
{
    let kind = sent_kind(table, Some(class), None, selector);
    let number = selector_number(table.selector(selector));
    let to = ClassReceiver {
        from: None,
        class: class_value(receiver, class.0)?,
    };
    to_class(alloc, kind, to, selector, number, all)
}

/// A message to the object of a static class, which the receiver gives.
fn object_message<'a>(
    alloc: Global,
    table: &ClassTable<'a>,
    receiver: Typed,
    selector: &'a [u8],
    all: Vec<Argument>,
) -> Result<Resolution, AllocError>
    ensures { IfOk result (λ new. (visible : Visible) (a : ExprTree) → resolution new
        ≡ resolving.sent (seen table.now visible) a None (option_map number_of_class receiver.class) (resolution receiver.value) selector.now (checked.arguments all.items)) }
{
    let kind = sent_kind(table, None, receiver.class, selector);
    let number = selector_number(table.selector(selector));
    to_object(alloc, kind, object_in(receiver.value), number, all)
}

/// A message.
#[cycle(resolve)]
fn message<'a>(
    alloc: Global,
    table: &ClassTable<'a>,
    visible: &Visible<'a>,
    receiver: &'a Expr,
    selector: &'a [u8],
    arguments: &'a [Expr],
) -> Result<Typed, AllocError>
    ensures { IfOk result (λ typed. (at part : ℕ) → Resolves (seen table.now visible.now) (Send at part (expr_tree receiver.now) selector.now (expr_trees arguments.now)) typed) }
{
    let class = class_receiver(table, visible, receiver);
    let wanted = Some(table.parameters_passed(receiver_sign(class), selector));
    let all = resolved_arguments(alloc, table, visible, wanted, arguments)?;
    match class {
        Some(class) => Ok(Typed {
            class: sent_class(table, Some(class), None, selector),
            value: class_message(alloc, table, receiver, class, selector, all)?,
        }),
        None => {
            let object = expression(alloc, table, visible, receiver)?;
            Ok(Typed {
                class: sent_class(table, None, object.class, selector),
                value: object_message(alloc, table, object, selector, all)?,
            })
        }
    }
}

/// A message to `super`.
#[cycle(resolve)]
fn super_message<'a>(
    alloc: Global,
    table: &ClassTable<'a>,
    visible: &Visible<'a>,
    selector: &'a [u8],
    arguments: &'a [Expr],
) -> Result<Typed, AllocError>
    ensures { IfOk result (λ typed. (at part super_at : ℕ) → Resolves (seen table.now visible.now) (SendSuper at part super_at selector.now (expr_trees arguments.now)) typed) }
{
    let wanted = Some(table.parameters_passed(visible.sign, selector));
    let all = resolved_arguments(alloc, table, visible, wanted, arguments)?;
    let kind = super_kind(table, visible, selector);
    let site = SuperSite {
        sign: visible.sign,
        owns: visible.owns,
        from: class_number(above(table, visible.class)),
    };
    let number = selector_number(table.selector(selector));
    Ok(Typed {
        class: super_class(table, visible, selector),
        value: to_super(alloc, site, kind, selector, number, all)?,
    })
}

/// The bytes of a text, and none of any other expression.
fn text_of(expr: &Expr) -> &[u8]
    ensures { result.now ≡ text_of (expr_tree expr.now) }
{
    match expr {
        Expr::Text(_, bytes) => bytes,
        _ => b"",
    }
}

/// A call of printf.
#[cycle(resolve)]
fn print<'a>(
    alloc: Global,
    table: &ClassTable<'a>,
    visible: &Visible<'a>,
    arguments: &'a [Expr],
) -> Result<Value, AllocError>
    ensures { IfOk result (λ new. checked.value new ≡ printing (seen table.now visible.now) (expr_trees arguments.now)) }
{
    match arguments.split_first() {
        None => Ok(Value::Print(
            Vec::new(alloc),
            resolved_arguments(alloc, table, visible, None, arguments)?,
        )),
        Some((first, others)) => {
            let values = resolved_arguments(alloc, table, visible, None, others)?;
            let pieces = pieces(alloc, text_of(first))?;
            Ok(Value::Print(pieces, values))
        }
    }
}

/// What is passed to a parameter of the kind or, without one, printed.
fn passed(alloc: Global, wanted: Option<Kind>, of: Part) -> Result<Argument, AllocError>
    ensures { IfOk result (λ new. (others : spec.Arguments) → checked.and_argument new others ≡ resolving.argument wanted (part_of of) others) }
{
    let Some(kind) = wanted else {
        return Ok(Argument::Number(number_part(alloc, of)?));
    };
    match kind {
        Kind::Object => Ok(Argument::Object(object_part(alloc, of)?)),
        Kind::Void | Kind::Bool | Kind::Int | Kind::Long => {
            Ok(Argument::Number(converted_part(alloc, kind, of)?))
        }
    }
}

/// A resolved argument, as what has the kind, if there is one.
#[cycle(resolve)]
fn argument<'a>(
    alloc: Global,
    table: &ClassTable<'a>,
    visible: &Visible<'a>,
    wanted: Option<Kind>,
    expr: &'a Expr,
) -> Result<Argument, AllocError>
    ensures { IfOk result (λ new. (others : spec.Arguments) → checked.and_argument new others ≡ resolving.argument wanted (resolved (seen table.now visible.now) (expr_tree expr.now)) others) }
{
    let part = resolved_part(alloc, table, visible, expr)?;
    passed(alloc, wanted, part.value)
}

/// Resolved arguments, which are passed to these parameters or, without any, printed.
#[cycle(resolve)]
fn resolved_arguments<'a>(
    alloc: Global,
    table: &ClassTable<'a>,
    visible: &Visible<'a>,
    wanted: Option<&'a [Parameter]>,
    arguments: &'a [Expr],
) -> Result<Vec<Argument>, AllocError>
    ensures { IfOk result (λ all. checked.arguments all.items ≡ resolved_all (seen table.now visible.now) (kinds_wanted wanted.entry) (expr_trees arguments.now)) }
{
    let mut all = Vec::new(alloc);
    let mut rest = wanted;
    for one in arguments {
        let kind = first_wanted(rest);
        keep(&mut all, argument(alloc, table, visible, kind, one)?)?;
        rest = after_first(rest);
    }
    Ok(all)
}
