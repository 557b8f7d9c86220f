//! What an expression is resolved to, and how that is made of what its parts are resolved to.
ghost use Rattle.std.specs.Prelude.{◌≡◌, Option, Some, None, option_map, IfOk, if◌then◌else◌};
ghost use Rattle.std.specs.Option.{unwrap_or};
ghost use Rattle.arc_ast.specs.Operators.{sort_of};
ghost use Rattle.arc_ast.specs.Tree.{expr_tree, Name};
ghost use Rattle.arc_class.specs.Table.{number_of_class, number_of_selector};
ghost use Rattle.arc_resolve.specs.private.ResolvedNodes.{resolution, part_of, class_receiver_of};
ghost use Rattle.arc_spec.specs.Resolved as spec;
ghost use Rattle.arc_checked.specs.Checked as checked;
ghost use Rattle.arc_scope.specs.Kinds as kinds;
ghost use Rattle.arc_resolve.specs.SourceResolution as resolving;
ghost use Rattle.arc_scope.specs.Views.{local_of};

use crate::made::boxed;
use arc_ast::tree::{
    BinaryOperator, Expr, Kind, Moment, OperatorSort, Sign, UnaryOperator, operator_sort,
};
use arc_checked::program::{Argument, Receiver, Reference, Value};
use arc_class::table::{ClassId, FoundField, Sel};
use arc_scope::kind::{is_object, wider};
use arc_scope::scope::Local;
use arc_spec::location::Location;
use std::alloc::{AllocError, Global};
use std::mem::drop;

/// What an expression is resolved to: a number of a kind, or an object.
#[derive(Drop)]
pub enum Resolution {
    Gives(Kind, Value),
    Refers(Reference),
}

/// What an expression is resolved to, and its static class.
#[derive(Drop)]
pub struct Typed {
    pub class: Option<ClassId>,
    pub value: Resolution,
}

/// What an expression is resolved to that is a part of another one, in the box that it has there.
#[derive(Drop)]
pub enum Part {
    Number(Kind, Box<Value>),
    Object(Box<Reference>),
}

/// What an expression is resolved to that is a part of another one, and its static class.
#[derive(Drop)]
pub struct Operand {
    pub class: Option<ClassId>,
    pub value: Part,
}

/// What is resolved, as a part of another one.
pub fn as_part(alloc: Global, of: Resolution) -> Result<Part, AllocError>
    ensures { IfOk result (λ new. part_of new ≡ resolution of) }
{
    match of {
        Resolution::Gives(kind, value) => Ok(Part::Number(kind, boxed(alloc, value)?)),
        Resolution::Refers(object) => Ok(Part::Object(boxed(alloc, object)?)),
    }
}

/// The kind of the part.
#[inline(always)]
fn part_kind(of: &Part) -> Kind
    ensures { result ≡ resolving.kind_in (part_of of.now) }
{
    match of {
        Part::Number(kind, _) => *kind,
        Part::Object(_) => Kind::Object,
    }
}

/// The number that the part is, and of an object whether it is one.
pub fn number_part(alloc: Global, of: Part) -> Result<Box<Value>, AllocError>
    ensures { IfOk result (λ new. checked.value new.value ≡ resolving.number_in (part_of of)) }
{
    match of {
        Part::Number(_, value) => Ok(value),
        Part::Object(object) => boxed(alloc, Value::IsObject(object)),
    }
}

/// The object that the part is, and nil of a number.
pub fn object_part(alloc: Global, of: Part) -> Result<Box<Reference>, AllocError>
    ensures { IfOk result (λ new. checked.reference new.value ≡ resolving.object_in (part_of of)) }
{
    match of {
        Part::Number(_, _) => boxed(alloc, Reference::Nil),
        Part::Object(object) => Ok(object),
    }
}

/// What is resolved, where it is no part of another one after all.
pub fn unboxed(of: Part) -> Resolution
    ensures { resolution result ≡ part_of of }
{
    match of {
        Part::Number(kind, value) => Resolution::Gives(kind, Box::into_inner(value)),
        Part::Object(object) => Resolution::Refers(Box::into_inner(object)),
    }
}

/// The kind of what is resolved.
#[inline(always)]
fn kind_in(of: &Resolution) -> Kind
    ensures { result ≡ resolving.kind_in (resolution of.now) }
{
    match of {
        Resolution::Gives(kind, _) => *kind,
        Resolution::Refers(_) => Kind::Object,
    }
}

/// The number, and of an object whether it is one.
#[inline(always)]
fn number_in(alloc: Global, of: Resolution) -> Result<Value, AllocError>
    ensures { IfOk result (λ new. checked.value new ≡ resolving.number_in (resolution of)) }
{
    match of {
        Resolution::Gives(_, value) => Ok(value),
        Resolution::Refers(object) => {
            let object = boxed(alloc, object)?;
            Ok(Value::IsObject(object))
        }
    }
}

/// The object, and nil of a number.
pub fn object_in(of: Resolution) -> Reference
    ensures { checked.reference result ≡ resolving.object_in (resolution of) }
{
    match of {
        Resolution::Gives(_, number) => {
            drop(number);
            Reference::Nil
        }
        Resolution::Refers(object) => object,
    }
}

/// The value of one kind as one of the wanted kind.
#[inline(always)]
fn as_kind(alloc: Global, wanted: Kind, kind: Kind, value: Value) -> Result<Value, AllocError>
    ensures { IfOk result (λ new. checked.value new ≡ resolving.as_kind wanted kind (checked.value value)) }
{
    match (wanted, kind) {
        (Kind::Long, Kind::Bool | Kind::Int)
        | (Kind::Int, Kind::Bool | Kind::Long)
        | (Kind::Bool, Kind::Int | Kind::Long) => {
            let value = boxed(alloc, value)?;
            Ok(Value::Convert(wanted, value))
        }
        _ => Ok(value),
    }
}

/// The value of one kind as one of the wanted kind, where it is a part of another one.
fn as_kind_part(
    alloc: Global,
    wanted: Kind,
    kind: Kind,
    value: Box<Value>,
) -> Result<Box<Value>, AllocError>
    ensures { IfOk result (λ new. checked.value new.value ≡ resolving.as_kind wanted kind (checked.value value.value)) }
{
    match (wanted, kind) {
        (Kind::Long, Kind::Bool | Kind::Int)
        | (Kind::Int, Kind::Bool | Kind::Long)
        | (Kind::Bool, Kind::Int | Kind::Long) => { boxed(alloc, Value::Convert(wanted, value)) }
        _ => Ok(value),
    }
}

/// The number that the part is, as one of the kind.
pub fn converted_part(alloc: Global, wanted: Kind, of: Part) -> Result<Box<Value>, AllocError>
    ensures { IfOk result (λ new. checked.value new.value ≡ resolving.converted wanted (part_of of)) }
{
    let kind = part_kind(&of);
    let value = number_part(alloc, of)?;
    as_kind_part(alloc, wanted, kind, value)
}

/// The number as one of the kind.
#[inline(always)]
pub fn converted(alloc: Global, wanted: Kind, of: Resolution) -> Result<Value, AllocError>
    ensures { IfOk result (λ new. checked.value new ≡ resolving.converted wanted (resolution of)) }
{
    let kind = kind_in(&of);
    let value = number_in(alloc, of)?;
    as_kind(alloc, wanted, kind, value)
}

/// The kind in which an operator of the sort computes, from those of its operands.
fn computing_kind(sort: OperatorSort, a: Kind, b: Kind) -> Kind
    ensures { result ≡ kinds.computing_kind sort a b }
{
    match sort {
        OperatorSort::Shift => wider(a, Kind::Int),
        OperatorSort::Arithmetic
        | OperatorSort::Relation
        | OperatorSort::Equality
        | OperatorSort::Logic => wider(a, b),
    }
}

/// The kind of what an operator of the sort gives that computes in the kind.
fn given_kind(sort: OperatorSort, kind: Kind) -> Kind
    ensures { result ≡ kinds.given_kind sort kind }
{
    match sort {
        OperatorSort::Relation | OperatorSort::Equality | OperatorSort::Logic => Kind::Int,
        OperatorSort::Arithmetic | OperatorSort::Shift => kind,
    }
}

/// An expression of an operator before its operand.
pub fn unary(alloc: Global, operator: UnaryOperator, of: Part) -> Result<Resolution, AllocError>
    ensures { IfOk result (λ new. resolution new ≡ resolving.unary operator (part_of of)) }
{
    match operator {
        UnaryOperator::Not => {
            let kind = part_kind(&of);
            let value = number_part(alloc, of)?;
            Ok(Resolution::Gives(Kind::Int, Value::Unary(operator, kind, value)))
        }
        UnaryOperator::Plus | UnaryOperator::Negate | UnaryOperator::Complement => {
            let kind = wider(part_kind(&of), Kind::Int);
            let value = converted_part(alloc, kind, of)?;
            Ok(Resolution::Gives(kind, Value::Unary(operator, kind, value)))
        }
    }
}

/// A cast to a type of the kind.
pub fn cast(alloc: Global, kind: Kind, of: Resolution) -> Result<Resolution, AllocError>
    ensures { IfOk result (λ new. resolution new ≡ resolving.cast kind (resolution of)) }
{
    match kind {
        Kind::Object => Ok(of),
        Kind::Void | Kind::Bool | Kind::Int | Kind::Long => {
            Ok(Resolution::Gives(kind, converted(alloc, kind, of)?))
        }
    }
}

/// An operator's expression that computes in the kind, from its operands.
#[inline(always)]
fn combined(
    alloc: Global,
    operator: BinaryOperator,
    kind: Kind,
    left: Part,
    right: Part,
) -> Result<Resolution, AllocError>
    ensures { IfOk result (λ new. resolution new ≡ resolving.combined operator kind (part_of left) (part_of right)) }
{
    let left = converted_part(alloc, kind, left)?;
    let right = converted_part(alloc, kind, right)?;
    let value = Value::Binary(operator, kind, left, right);
    Ok(Resolution::Gives(given_kind(operator_sort(operator), kind), value))
}

/// What compares two objects, from whether they differ.
fn compared(alloc: Global, operator: BinaryOperator, differs: Value) -> Result<Value, AllocError>
    ensures { IfOk result (λ new. checked.value new ≡ resolving.compared operator (checked.value differs)) }
{
    match operator {
        BinaryOperator::Equal => {
            let differs = boxed(alloc, differs)?;
            let zero = boxed(alloc, Value::Number(0))?;
            Ok(Value::Binary(operator, Kind::Int, differs, zero))
        }
        _ => Ok(differs),
    }
}

/// An expression with `==` or `!=`, from its operands.
#[inline(always)]
fn equality(
    alloc: Global,
    operator: BinaryOperator,
    left: Part,
    right: Part,
) -> Result<Resolution, AllocError>
    ensures { IfOk result (λ new. resolution new ≡ resolving.equality operator (part_of left) (part_of right)) }
{
    match (left, right) {
        (Part::Object(left), Part::Object(right)) => {
            let value = compared(alloc, operator, Value::NotSame(left, right))?;
            Ok(Resolution::Gives(Kind::Int, value))
        }
        (left, right) => {
            let kind = wider(part_kind(&left), part_kind(&right));
            combined(alloc, operator, kind, left, right)
        }
    }
}

/// What `&&` or `||` gives, from its operands: a choice by the first, in which the second becomes 0 or 1.
fn logic_value(
    alloc: Global,
    operator: BinaryOperator,
    left: Box<Value>,
    right: Box<Value>,
) -> Result<Value, AllocError>
    ensures { IfOk result (λ new. checked.value new ≡ resolving.logic operator (checked.value left.value) (checked.value right.value)) }
{
    let second = boxed(alloc, Value::Convert(Kind::Bool, right))?;
    match operator {
        BinaryOperator::Or => {
            let one = boxed(alloc, Value::Number(1))?;
            Ok(Value::Conditional(left, one, second))
        }
        _ => {
            let zero = boxed(alloc, Value::Number(0))?;
            Ok(Value::Conditional(left, second, zero))
        }
    }
}

/// An expression with `&&` or `||`, from its operands.
fn logic(
    alloc: Global,
    operator: BinaryOperator,
    left: Part,
    right: Part,
) -> Result<Resolution, AllocError>
    ensures { IfOk result (λ new. resolution new ≡ resolving.binary OperatorSort.Logic operator (part_of left) (part_of right)) }
{
    let left = number_part(alloc, left)?;
    let right = number_part(alloc, right)?;
    let value = logic_value(alloc, operator, left, right)?;
    Ok(Resolution::Gives(Kind::Int, value))
}

/// One of two values by a test.
pub fn conditional(
    alloc: Global,
    test: Part,
    first: Part,
    second: Part,
) -> Result<Resolution, AllocError>
    ensures { IfOk result (λ new. resolution new ≡ resolving.conditional (resolving.number_in (part_of test)) (part_of first) (part_of second)) }
{
    let test = number_part(alloc, test)?;
    match (first, second) {
        (Part::Object(first), Part::Object(second)) => {
            Ok(Resolution::Refers(Reference::ObjectConditional(test, first, second)))
        }
        (first, second) => chosen_number(alloc, test, first, second),
    }
}

/// One of two numbers by a test, as numbers of the wider kind.
fn chosen_number(
    alloc: Global,
    test: Box<Value>,
    first: Part,
    second: Part,
) -> Result<Resolution, AllocError>
    ensures { IfOk result (λ new. let kind = kinds.wider (resolving.kind_in (part_of first)) (resolving.kind_in (part_of second)) in
        resolution new ≡ resolving.Gives kind (spec.Conditional (checked.value test.value) (resolving.converted kind (part_of first)) (resolving.converted kind (part_of second)))) }
{
    let kind = wider(part_kind(&first), part_kind(&second));
    let first = converted_part(alloc, kind, first)?;
    let second = converted_part(alloc, kind, second)?;
    Ok(Resolution::Gives(kind, Value::Conditional(test, first, second)))
}

/// An operator's expression, from its operands.
#[inline(always)]
pub fn binary(
    alloc: Global,
    operator: BinaryOperator,
    left: Part,
    right: Part,
) -> Result<Resolution, AllocError>
    ensures { IfOk result (λ new. resolution new ≡ resolving.binary (sort_of operator) operator (part_of left) (part_of right)) }
{
    let sort = operator_sort(operator);
    match sort {
        OperatorSort::Equality => equality(alloc, operator, left, right),
        OperatorSort::Logic => logic(alloc, operator, left, right),
        OperatorSort::Arithmetic | OperatorSort::Shift | OperatorSort::Relation => {
            let kind = computing_kind(sort, part_kind(&left), part_kind(&right));
            combined(alloc, operator, kind, left, right)
        }
    }
}

/// The number, or 0 where there is none.
pub fn number(found: Option<usize>) -> usize
    ensures { result ≡ unwrap_or found 0 }
{
    found.unwrap_or(0)
}

/// The class's number, or 0 where there is none.
pub fn class_number(found: Option<ClassId>) -> usize
    ensures { result ≡ unwrap_or (option_map number_of_class found) 0 }
{
    match found {
        None => 0,
        Some(class) => class.0,
    }
}

/// The selector's number, or 0 where there is none.
pub fn selector_number(found: Option<Sel>) -> usize
    ensures { result ≡ unwrap_or (option_map number_of_selector found) 0 }
{
    match found {
        None => 0,
        Some(selector) => selector.0,
    }
}

/// The kind, or int where there is none.
fn kind_or_int(kind: Option<Kind>) -> Kind
    ensures { result ≡ unwrap_or kind Kind.Int }
{
    kind.unwrap_or(Kind::Int)
}

/// The field of the object.
pub fn field(
    alloc: Global,
    object: Reference,
    found: Option<FoundField>,
) -> Result<Resolution, AllocError>
    ensures { IfOk result (λ new. resolution new ≡ resolving.field (checked.reference object) found) }
{
    match found {
        None => {
            drop(object);
            Ok(Resolution::Gives(Kind::Int, Value::Number(0)))
        }
        Some(field) => read_field(alloc, object, field),
    }
}

/// This field of the object.
fn read_field(alloc: Global, object: Reference, field: FoundField) -> Result<Resolution, AllocError>
    ensures { IfOk result (λ new. resolution new ≡ resolving.read_field (checked.reference object) field) }
{
    let object = boxed(alloc, object)?;
    let (owner, index) = (field.owner.0, field.index);
    Ok(match field.qual {
        None => Resolution::Gives(field.kind, Value::GetField(object, owner, index)),
        Some(_) => Resolution::Refers(Reference::GetObjectField(object, owner, index)),
    })
}

/// An assignment to the field of the object.
pub fn field_assigned(
    alloc: Global,
    object: Reference,
    found: Option<FoundField>,
    of: Part,
) -> Result<Resolution, AllocError>
    ensures { IfOk result (λ new. resolution new ≡ resolving.field_assigned (checked.reference object) found (part_of of)) }
{
    match found {
        None => {
            drop(object);
            Ok(unboxed(of))
        }
        Some(field) => store_field(alloc, object, field, of),
    }
}

/// An assignment to this field of the object.
fn store_field(
    alloc: Global,
    object: Reference,
    field: FoundField,
    of: Part,
) -> Result<Resolution, AllocError>
    ensures { IfOk result (λ new. resolution new ≡ resolving.store_field (checked.reference object) field (part_of of)) }
{
    let object = boxed(alloc, object)?;
    let (owner, index) = (field.owner.0, field.index);
    match field.qual {
        None => {
            let value = converted_part(alloc, field.kind, of)?;
            let value = Value::SetField(object, owner, index, value);
            Ok(Resolution::Gives(field.kind, value))
        }
        Some(_) => {
            let stored = object_part(alloc, of)?;
            Ok(Resolution::Refers(Reference::SetObjectField(object, owner, index, stored)))
        }
    }
}

/// `self`, in a method that owns it or doesn't.
pub fn itself(owns: bool) -> Reference
    ensures { checked.reference result ≡ resolving.itself owns }
{
    if owns {
        Reference::Variable(Location::Local(0))
    } else {
        Reference::Itself
    }
}

/// An assignment to `self`, in a method that owns it; in any other it breaks a rule, and what is assigned stands for it.
pub fn itself_assigned(alloc: Global, owns: bool, of: Part) -> Result<Resolution, AllocError>
    ensures { IfOk result (λ new. resolution new ≡ (if owns then resolving.Refers (spec.AssignObject (Location.Local 0) (resolving.object_in (part_of of))) else part_of of)) }
{
    if !owns {
        return Ok(unboxed(of));
    }
    let object = object_part(alloc, of)?;
    Ok(Resolution::Refers(Reference::AssignObject(Location::Local(0), object)))
}

/// What a name means: the variable, or else the field of `self`.
#[inline(always)]
pub fn named(
    alloc: Global,
    owns: bool,
    local: Option<Local>,
    own: Option<FoundField>,
) -> Result<Resolution, AllocError>
    ensures { IfOk result (λ new. resolution new ≡ resolving.named owns (option_map local_of local) own) }
{
    match local {
        None => field(alloc, itself(owns), own),
        Some(Local::Number(kind, location)) => {
            Ok(Resolution::Gives(kind, Value::Read(location)))
        }
        Some(Local::Object(location, _)) => Ok(Resolution::Refers(Reference::Variable(location))),
    }
}

/// An assignment to the variable, or else to the field of `self`.
pub fn name_assigned(
    alloc: Global,
    owns: bool,
    local: Option<Local>,
    own: Option<FoundField>,
    of: Part,
) -> Result<Resolution, AllocError>
    ensures { IfOk result (λ new. resolution new ≡ resolving.name_assigned owns (option_map local_of local) own (part_of of)) }
{
    match local {
        None => field_assigned(alloc, itself(owns), own, of),
        Some(Local::Number(kind, location)) => {
            let value = converted_part(alloc, kind, of)?;
            Ok(Resolution::Gives(kind, Value::AssignNumber(location, value)))
        }
        Some(Local::Object(location, _)) => {
            let object = object_part(alloc, of)?;
            Ok(Resolution::Refers(Reference::AssignObject(location, object)))
        }
    }
}

/// An update of the variable or the field that is read here. What reads no such thing breaks a rule; then the operand stands for it.
fn place_updated(
    moment: Moment,
    operator: BinaryOperator,
    computed: Kind,
    kept: Kind,
    place: Value,
    operand: Box<Value>,
) -> Value
    ensures { checked.value result ≡ resolving.place_updated moment operator computed kept (checked.value place) (checked.value operand.value) }
{
    match place {
        Value::Read(location) => {
            Value::Update(moment, location, operator, computed, kept, operand)
        }
        Value::GetField(object, class, index) => Value::UpdateField(
            moment, object, class, index, operator, computed, kept, operand,
        ),
        other => {
            drop(other);
            Box::into_inner(operand)
        }
    }
}

/// An update, from its sides.
pub fn updated(
    alloc: Global,
    moment: Moment,
    operator: BinaryOperator,
    left: Resolution,
    right: Part,
) -> Result<Resolution, AllocError>
    ensures { IfOk result (λ new. resolution new ≡ resolving.updated moment operator (resolution left) (part_of right)) }
{
    match left {
        Resolution::Refers(object) => Ok(Resolution::Refers(object)),
        Resolution::Gives(kind, place) => {
            let computed = computing_kind(operator_sort(operator), kind, part_kind(&right));
            let operand = converted_part(alloc, computed, right)?;
            let value = place_updated(moment, operator, computed, kind, place, operand);
            Ok(Resolution::Gives(kind, value))
        }
    }
}

/// The value of a receiver that is the class with the number. AllocError: an i64 can't hold the number, of which no source has so many classes.
pub fn class_value(receiver: &Expr, number: usize) -> Result<Value, AllocError>
    ensures { IfOk result (λ new. checked.value new ≡ resolving.class_value (expr_tree receiver.now) number) }
{
    match receiver {
        Expr::Name(_, _) => match i64::try_from(number) {
            Ok(number) => Ok(Value::Number(number)),
            Err(_) => Err(AllocError),
        },
        _ => Ok(Value::Read(Location::Local(0))),
    }
}

/// A call of the function with the number, which gives a value of the kind.
pub fn invoked(kind: Kind, function: usize, all: Vec<Argument>) -> Resolution
    ensures { resolution result ≡ resolving.invoked kind function (checked.arguments all.items) }
{
    if is_object(Some(kind)) {
        return Resolution::Refers(Reference::ObjectCall(function, all));
    }
    Resolution::Gives(kind, Value::Call(function, all))
}

/// A message that gives a value of the kind, or none.
pub fn sent_to(
    alloc: Global,
    kind: Option<Kind>,
    receiver: Receiver,
    selector: usize,
    all: Vec<Argument>,
) -> Result<Resolution, AllocError>
    ensures { IfOk result (λ new. resolution new ≡ resolving.sent_to kind (checked.receiver receiver) selector (checked.arguments all.items)) }
{
    let receiver = boxed(alloc, receiver)?;
    if is_object(kind) {
        return Ok(Resolution::Refers(Reference::ObjectSend(receiver, selector, all)));
    }
    let value = Value::Send(receiver, selector, all);
    Ok(Resolution::Gives(kind_or_int(kind), value))
}

/// What gets a message: a class, whose number this value gives, and the class from which the method is looked up where
/// that is another one, as for `super`.
#[derive(Drop)]
pub struct ClassReceiver {
    pub from: Option<usize>,
    pub class: Value,
}

/// The receiver of such a message.
fn class_receiver(alloc: Global, to: ClassReceiver) -> Result<Receiver, AllocError>
    ensures { IfOk result (λ new. checked.receiver new ≡ class_receiver_of to) }
{
    match to.from {
        Some(from) => {
            drop(to.class);
            Ok(Receiver::ClassSuper(from))
        }
        None => Ok(Receiver::ClassValue(boxed(alloc, to.class)?)),
    }
}

/// A message to a class that gives a value of the kind, or none.
pub fn to_class(
    alloc: Global,
    kind: Option<Kind>,
    to: ClassReceiver,
    name: &[u8],
    selector: usize,
    all: Vec<Argument>,
) -> Result<Resolution, AllocError>
    ensures { IfOk result (λ new. resolution new ≡ resolving.to_class kind to.from (checked.value to.class) name.now (class_receiver_of to) selector (checked.arguments all.items)) }
{
    if name == b"alloc".as_slice() {
        let class = boxed(alloc, to.class)?;
        return Ok(Resolution::Refers(Reference::Alloc(class)));
    }
    if name == b"new".as_slice() {
        let class = boxed(alloc, to.class)?;
        return Ok(Resolution::Refers(Reference::New(to.from, class)));
    }
    let receiver = class_receiver(alloc, to)?;
    sent_to(alloc, kind, receiver, selector, all)
}

/// A message to an object that gives a value of the kind.
pub fn to_object(
    alloc: Global,
    kind: Option<Kind>,
    object: Reference,
    selector: usize,
    all: Vec<Argument>,
) -> Result<Resolution, AllocError>
    ensures { IfOk result (λ new. resolution new ≡ resolving.sent_to kind (spec.ObjectValue (checked.reference object)) selector (checked.arguments all.items)) }
{
    let object = boxed(alloc, object)?;
    sent_to(alloc, kind, Receiver::ObjectValue(object), selector, all)
}

/// Where a message to `super` stands: the sign of the method, whether that owns `self`, and the number of the class from which the message's method is looked up.
#[derive(Clone, Copy)]
pub struct SuperSite {
    pub sign: Sign,
    pub owns: bool,
    pub from: usize,
}

/// A message to `super` that gives a value of the kind.
pub fn to_super(
    alloc: Global,
    site: SuperSite,
    kind: Option<Kind>,
    name: &[u8],
    selector: usize,
    all: Vec<Argument>,
) -> Result<Resolution, AllocError>
    ensures { IfOk result (λ new. resolution new ≡ resolving.to_super site.sign site.owns kind site.from name.now selector (checked.arguments all.items)) }
{
    match site.sign {
        Sign::Class => {
            let to = ClassReceiver {
                from: Some(site.from),
                class: Value::Read(Location::Local(0)),
            };
            to_class(alloc, kind, to, name, selector, all)
        }
        Sign::Instance => {
            let object = boxed(alloc, itself(site.owns))?;
            let receiver = Receiver::ObjectSuper(object, site.from);
            sent_to(alloc, kind, receiver, selector, all)
        }
    }
}
