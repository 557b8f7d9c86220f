//! Finds the first rule that is broken in an expression.
ghost use Rattle.std.specs.Prelude.{◌≡◌, ℕ, List, None, Some, not, is_none, is_some, option_map, if◌then◌else◌};
ghost use Rattle.arc_ast.specs.declared.tree.Kind.{Kind};
ghost use Rattle.arc_ast.specs.Tree as tree;
ghost use Rattle.arc_ast.specs.Tree.{Arrow, Assign, Cast, Conditional, Itself, Name, Send, SendSuper, Update, expr_tree, expr_trees, type_tree};
ghost use Rattle.arc_class.specs.BrokenRules.{broken_if, earlier_of, first};
ghost use Rattle.arc_class.specs.declared.table.ClassTable.{ClassTable};
ghost use Rattle.arc_class.specs.Table.{number_of_class};
ghost use Rattle.arc_judge.specs.Fault.{reported};
ghost use Rattle.arc_scope.specs.Formats.{wanted};
ghost use Rattle.arc_judge.specs.private.ExpressionJudgements.{Judges, JudgesAll, JudgesCall, broken_field, counted};
ghost use Rattle.arc_judge.specs.Rules as rules;
ghost use Rattle.arc_ast.specs.Operators.{sort_of};
ghost use Rattle.arc_ast.specs.declared.tree.Moment.{Moment};
ghost use Rattle.arc_judge.specs.Rules.{kind_if, no_right, unmet};
ghost use Rattle.arc_judge.specs.Rules.{ANumber, AValue, AnObject, left_need};
ghost use Rattle.arc_scope.specs.Kinds as kinds;
ghost use Rattle.arc_scope.specs.Scopes as scopes;
ghost use Rattle.arc_scope.specs.declared.scope.Visible.{Visible};
ghost use Rattle.arc_scope.specs.Views.{kinds_wanted, known_in, seen};

use crate::conversion::{next_conversion, take_conversion};
use crate::field::{field_fault, field_kind};
use crate::rule::{
    binary_kind, call_fault, either_kind, is_assignable, is_updatable, no_left, no_number,
    no_object, no_operand, no_right, no_such, no_value, place, unary_kind,
};
use crate::taken::Taken;
use arc_ast::tree::{
    BinaryOperator, Expr, Kind, OperatorSort, Parameter, TypeName, UnaryOperator, operator_sort,
};
use arc_class::table::{ClassId, ClassTable, FoundField};
use arc_fault::check::CheckFault;
use arc_scope::callee::{Callee, callee_of, result_kind};
use arc_scope::field::{field_class, named_variable, own_field};
use arc_scope::kind::{either_class, is_nil, is_object, literal_kind};
use arc_scope::message::{
    class_receiver, sent_class, sent_kind, static_class, super_class, super_kind,
};
use arc_scope::scope::{Local, Visible};
use arc_scope::wanted::{after_first, first_wanted, receiver_sign};
use arc_sites::violation::earlier;

/// The judgement on an expression: its kind, where it has one, its static class, the first rule that is broken in it, how many objects the
/// full-expression has taken after it, and how many where it isn't read, but assigned to.
#[derive(Clone, Copy)]
pub struct Judged {
    pub kind: Option<Kind>,
    pub class: Option<ClassId>,
    pub fault: Option<CheckFault>,
    pub taken: Taken,
    pub unread: Taken,
}

/// The judgement on a call's arguments: whether they suit a format, the first rule that is broken in them, and how many objects the full-expression has taken
/// after them.
#[derive(Clone, Copy)]
pub struct Arguments {
    pub fit: bool,
    pub fault: Option<CheckFault>,
    pub taken: Taken,
}

/// A number, where one has a kind, in which this is broken.
fn number(kind: Option<Kind>, fault: Option<CheckFault>, taken: Taken) -> Judged
    ensures { result ≡ (record { kind = kind; class = None; fault = fault; taken = taken; unread = taken }) }
{
    Judged {
        kind,
        class: None,
        fault,
        taken,
        unread: taken,
    }
}

/// A value of the kind, and an object of a static class, which is read from a variable or `self` at this place.
fn variable_read(kind: Kind, class: Option<ClassId>, before: Taken, at: usize) -> Judged
    ensures { result ≡ (record { kind = Some kind; class = class; fault = None; taken = counted before (rules.place_if (kinds.is_object (Some kind)) at); unread = before }) }
{
    Judged {
        kind: Some(kind),
        class,
        fault: None,
        taken: before.one_if(is_object(Some(kind)), at),
        unread: before,
    }
}

/// `nil`
fn no_object_read(before: Taken) -> Judged
    ensures { result ≡ (record { kind = Some Kind.Object; class = None; fault = None; taken = before; unread = before }) }
{
    Judged {
        kind: Some(Kind::Object),
        class: None,
        fault: None,
        taken: before,
        unread: before,
    }
}

/// The judgement on an operator's expression, from its operands and their places.
#[inline(always)]
fn combined(
    operator: BinaryOperator,
    left: Judged,
    left_at: usize,
    right: Judged,
    right_at: usize,
) -> Judged
    ensures kind { result.kind ≡ rules.binary_kind (sort_of operator) left.kind right.kind }
    ensures class { result.class ≡ None }
    ensures taken { result.taken ≡ right.taken }
    ensures fault { option_map reported result.fault
        ≡ earlier_of (earlier_of (option_map reported left.fault) (first (unmet (left_need (sort_of operator)) left.kind left_at)))
        (earlier_of (option_map reported right.fault) (first (no_right (sort_of operator) left.kind right.kind right_at))) }
{
    let sort = operator_sort(operator);
    let first = earlier(left.fault, no_left(sort, left.kind, left_at));
    let second = earlier(right.fault, no_right(sort, left.kind, right.kind, right_at));
    number(
        binary_kind(sort, left.kind, right.kind),
        earlier(first, second),
        right.taken,
    )
}

/// The kind that a call has, from its function's kind and the rule that it breaks at its name, if it breaks one.
fn call_kind(kind: Kind, own: Option<CheckFault>) -> Option<Kind>
    ensures { result ≡ kind_if (is_none own) kind }
{
    if own.is_none() { Some(kind) } else { None }
}

/// The judgement on a call, from its kind and its static class, the rule that it breaks at its name, if it breaks one, and the judgement on its arguments.
fn called(
    kind: Option<Kind>,
    class: Option<ClassId>,
    own: Option<CheckFault>,
    inside: Arguments,
) -> Judged
    ensures kind { result.kind ≡ kind }
    ensures class { result.class ≡ class }
    ensures fault { option_map reported result.fault ≡ earlier_of (option_map reported own) (option_map reported inside.fault) }
    ensures taken { result.taken ≡ inside.taken }
{
    Judged {
        kind,
        class,
        fault: earlier(own, inside.fault),
        taken: inside.taken,
        unread: inside.taken,
    }
}

/// The judgement on `self`, which isn't sent a message as a class.
fn judge_itself(visible: &Visible, before: Taken, at: usize) -> Judged
    ensures { (table : ClassTable) → Judges (seen table visible.now) before (Itself at) result }
{
    let class = visible.own_class();
    if class.is_some() {
        variable_read(Kind::Object, class, before, at)
    } else if visible.class.is_some() {
        number(None, Some(CheckFault::KindMismatch(at)), before)
    } else {
        number(None, Some(CheckFault::UnknownName(at)), before)
    }
}

/// The judgement on a name that means no variable.
fn judge_own_field(
    table: &ClassTable,
    visible: &Visible,
    before: Taken,
    at: usize,
    own: Option<FoundField>,
) -> Judged
    ensures kind { result.kind ≡ rules.field_kind (seen table.now visible.now) own }
    ensures class { option_map number_of_class result.class ≡ scopes.field_class own }
    ensures fault { option_map reported result.fault ≡ first (rules.no_field (seen table.now visible.now) own at) }
    ensures taken { result.taken ≡ counted (counted before (rules.place_if (is_some own) at)) (rules.place_if (kinds.is_object (rules.field_kind (seen table.now visible.now) own)) at) }
    ensures unread { result.unread ≡ counted before (rules.place_if (is_some own) at) }
{
    let kind = field_kind(table, visible, own);
    let unread = before.one_if(own.is_some(), at);
    Judged {
        kind,
        class: field_class(own),
        fault: field_fault(table, visible, own, at),
        taken: unread.one_if(is_object(kind), at),
        unread,
    }
}

/// The judgement on a name.
#[inline(always)]
fn judge_name<'a>(
    table: &ClassTable<'a>,
    visible: &Visible<'a>,
    before: Taken,
    at: usize,
    name: &'a [u8],
) -> Judged
    ensures { Judges (seen table.now visible.now) before (Name at name.now) result }
{
    match named_variable(table, visible, name) {
        Some(Local::Number(kind, _)) => variable_read(kind, None, before, at),
        Some(Local::Object(_, class)) => variable_read(Kind::Object, class, before, at),
        None => judge_own_field(table, visible, before, at, own_field(table, visible, name)),
    }
}

/// The judgement on an expression.
#[cycle(judge)]
pub fn judge<'a>(
    table: &ClassTable<'a>,
    visible: &Visible<'a>,
    before: Taken,
    expr: &'a Expr,
) -> Judged
    ensures { Judges (seen table.now visible.now) before (expr_tree expr.now) result }
{
    match expr {
        Expr::Integer(_, value, suffixed) => {
            number(Some(literal_kind(*value, *suffixed)), None, before)
        }
        Expr::Text(at, _) => number(None, Some(CheckFault::KindMismatch(*at)), before),
        Expr::Paren(_, inside) => judge(table, visible, before, inside),
        Expr::Call(at, name, arguments) => judge_call(table, visible, before, *at, name, arguments),
        Expr::Nil(_) => no_object_read(before),
        Expr::Itself(at) => judge_itself(visible, before, *at),
        Expr::Name(at, name) => judge_name(table, visible, before, *at, name),
        Expr::Unary(_, operator, operand) => {
            judge_unary(table, visible, before, *operator, operand)
        }
        Expr::Cast(_, type_name, operand) => {
            judge_cast(table, visible, before, type_name, operand)
        }
        Expr::Binary(_, operator, left, right) => {
            let first = judge(table, visible, before, left);
            let second = judge(table, visible, first.taken, right);
            combined(*operator, first, place(left), second, place(right))
        }
        Expr::Conditional(_, test, first, second) => {
            judge_choice(table, visible, before, test, first, second)
        }
        Expr::Arrow(_, name_at, base, name) => {
            judge_arrow(table, visible, before, *name_at, base, name)
        }
        Expr::Assign(_, sign, left, right) => {
            judge_assignment(table, visible, before, *sign, left, right)
        }
        Expr::Update(_, sign, _, _, left, right) => {
            judge_update(table, visible, before, *sign, left, right)
        }
        Expr::Send(_, part, receiver, selector, arguments) => {
            judge_send(table, visible, before, *part, receiver, selector, arguments)
        }
        Expr::SendSuper(_, part, at, selector, arguments) => {
            judge_super(table, visible, before, *part, *at, selector, arguments)
        }
    }
}

/// The judgement on an operator before its operand.
#[cycle(judge)]
fn judge_unary<'a>(
    table: &ClassTable<'a>,
    visible: &Visible<'a>,
    before: Taken,
    operator: UnaryOperator,
    operand: &'a Expr,
) -> Judged
    ensures { (at : ℕ) → Judges (seen table.now visible.now) before (tree.Unary at operator (expr_tree operand.now)) result }
{
    let judged = judge(table, visible, before, operand);
    number(
        unary_kind(operator, judged.kind),
        earlier(
            judged.fault,
            no_operand(operator, judged.kind, place(operand)),
        ),
        judged.taken,
    )
}

/// The judgement on one of two values, from the judgements on the test and on both.
fn chosen(
    test: Judged,
    test_at: usize,
    one: Judged,
    one_at: usize,
    other: Judged,
    other_at: usize,
    class: Option<ClassId>,
) -> Judged
    ensures kind { result.kind ≡ rules.either_kind one.kind other.kind }
    ensures class { result.class ≡ class }
    ensures taken { result.taken ≡ other.taken }
    ensures fault { option_map reported result.fault
        ≡ earlier_of (earlier_of (option_map reported test.fault) (first (unmet AValue test.kind test_at)))
        (earlier_of (earlier_of (option_map reported one.fault) (first (unmet AValue one.kind one_at)))
        (earlier_of (option_map reported other.fault) (first (no_right OperatorSort.Equality one.kind other.kind other_at)))) }
{
    let sort = OperatorSort::Equality;
    let by_test = earlier(test.fault, no_value(test.kind, test_at));
    let of_one = earlier(one.fault, no_left(sort, one.kind, one_at));
    let of_other = earlier(other.fault, no_right(sort, one.kind, other.kind, other_at));
    Judged {
        kind: either_kind(one.kind, other.kind),
        class,
        fault: earlier(by_test, earlier(of_one, of_other)),
        taken: other.taken,
        unread: other.taken,
    }
}

/// The judgement on one of two values by a test.
#[cycle(judge)]
fn judge_choice<'a>(
    table: &ClassTable<'a>,
    visible: &Visible<'a>,
    before: Taken,
    test: &'a Expr,
    first: &'a Expr,
    second: &'a Expr,
) -> Judged
    ensures { (at : ℕ) → Judges (seen table.now visible.now) before (Conditional at (expr_tree test.now) (expr_tree first.now) (expr_tree second.now)) result }
{
    let by_test = judge(table, visible, before, test);
    let one = judge(table, visible, by_test.taken, first);
    let other = judge(table, visible, one.taken, second);
    let class = either_class(is_nil(first), is_nil(second), one.class, other.class);
    chosen(
        by_test,
        place(test),
        one,
        place(first),
        other,
        place(second),
        class,
    )
}

/// The judgement on a cast, from its type and its operand.
#[cycle(judge)]
fn judge_cast<'a>(
    table: &ClassTable<'a>,
    visible: &Visible<'a>,
    before: Taken,
    type_name: &'a TypeName,
    operand: &'a Expr,
) -> Judged
    ensures { (at : ℕ) → Judges (seen table.now visible.now) before (Cast at (type_tree type_name.now) (expr_tree operand.now)) result }
{
    let judged = judge(table, visible, before, operand);
    let kind = Some(type_name.kind());
    Judged {
        kind,
        class: static_class(table, type_name),
        fault: earlier(judged.fault, no_such(kind, judged.kind, place(operand))),
        taken: judged.taken,
        unread: judged.taken,
    }
}

/// The judgement on a field, from the expression that gives its object.
fn field_of(
    table: &ClassTable,
    visible: &Visible,
    base: Judged,
    base_at: usize,
    found: Option<FoundField>,
    name_at: usize,
) -> Judged
    ensures kind { result.kind ≡ rules.arrow_kind (seen table.now visible.now) base.kind found }
    ensures class { option_map number_of_class result.class ≡ scopes.field_class found }
    ensures fault { option_map reported result.fault
        ≡ earlier_of (earlier_of (option_map reported base.fault) (first (unmet AnObject base.kind base_at)))
        (first (broken_field (seen table.now visible.now) base.kind found name_at)) }
    ensures taken { result.taken ≡ counted base.taken (rules.place_if (kinds.is_object (rules.arrow_kind (seen table.now visible.now) base.kind found)) name_at) }
    ensures unread { result.unread ≡ base.taken }
{
    let own = earlier(base.fault, no_object(base.kind, base_at));
    let class = field_class(found);
    let unread = base.taken;
    if is_object(base.kind) {
        let kind = field_kind(table, visible, found);
        let fault = earlier(own, field_fault(table, visible, found, name_at));
        let taken = unread.one_if(is_object(kind), name_at);
        Judged {
            kind,
            class,
            fault,
            taken,
            unread,
        }
    } else {
        Judged {
            kind: None,
            class,
            fault: own,
            taken: unread,
            unread,
        }
    }
}

/// The judgement on a field of an object.
#[cycle(judge)]
fn judge_arrow<'a>(
    table: &ClassTable<'a>,
    visible: &Visible<'a>,
    before: Taken,
    name_at: usize,
    base: &'a Expr,
    name: &'a [u8],
) -> Judged
    ensures { (at : ℕ) → Judges (seen table.now visible.now) before (Arrow at name_at (expr_tree base.now) name.now) result }
{
    let judged = judge(table, visible, before, base);
    let found = table.field(judged.class, name);
    field_of(table, visible, judged, place(base), found, name_at)
}

/// What an assignment has taken after its `=`, from the judgement on its left side.
fn taken_by_left(is_assignable: bool, judged: Judged, sign: usize) -> Taken
    ensures { result ≡ counted (if is_assignable then judged.unread else judged.taken) (rules.place_if (kinds.is_object judged.kind) sign) }
{
    let read = if is_assignable {
        judged.unread
    } else {
        judged.taken
    };
    read.one_if(is_object(judged.kind), sign)
}

/// The judgement on an assignment, from its sides.
fn assigned(
    is_assignable: bool,
    sign: usize,
    left: Judged,
    right: Judged,
    right_at: usize,
) -> Judged
    ensures kind { result.kind ≡ (if is_assignable then left.kind else None) }
    ensures class { result.class ≡ left.class }
    ensures fault { option_map reported result.fault
        ≡ earlier_of (earlier_of (option_map reported left.fault) (first (broken_if (not is_assignable) sign 44)))
        (earlier_of (option_map reported right.fault) (first (rules.no_such left.kind right.kind right_at))) }
    ensures taken { result.taken ≡ right.taken }
{
    let other = earlier(right.fault, no_such(left.kind, right.kind, right_at));
    let kind = if is_assignable { left.kind } else { None };
    let own = if is_assignable {
        None
    } else {
        Some(CheckFault::NotAssignable(sign))
    };
    Judged {
        kind,
        class: left.class,
        fault: earlier(earlier(left.fault, own), other),
        taken: right.taken,
        unread: right.taken,
    }
}

/// The judgement on an assignment.
#[cycle(judge)]
fn judge_assignment<'a>(
    table: &ClassTable<'a>,
    visible: &Visible<'a>,
    before: Taken,
    sign: usize,
    left: &'a Expr,
    right: &'a Expr,
) -> Judged
    ensures { (at : ℕ) → Judges (seen table.now visible.now) before (Assign at sign (expr_tree left.now) (expr_tree right.now)) result }
{
    let first = judge(table, visible, before, left);
    let is_assignable = is_assignable(left);
    let between = taken_by_left(is_assignable, first, sign);
    let second = judge(table, visible, between, right);
    assigned(is_assignable, sign, first, second, place(right))
}

/// The judgement on an update, from its sides.
fn updated(is_updatable: bool, sign: usize, left: Judged, right: Judged, right_at: usize) -> Judged
    ensures kind { result.kind ≡ (if is_updatable then left.kind else None) }
    ensures class { result.class ≡ None }
    ensures fault { option_map reported result.fault
        ≡ earlier_of (earlier_of (option_map reported left.fault) (first (broken_if (not is_updatable) sign 44)))
        (earlier_of (option_map reported right.fault) (first (unmet ANumber right.kind right_at))) }
    ensures taken { result.taken ≡ right.taken }
{
    let other = earlier(right.fault, no_number(right.kind, right_at));
    if is_updatable {
        return number(left.kind, earlier(left.fault, other), right.taken);
    }
    let own = Some(CheckFault::NotAssignable(sign));
    number(None, earlier(earlier(left.fault, own), other), right.taken)
}

/// The judgement on an update.
#[cycle(judge)]
fn judge_update<'a>(
    table: &ClassTable<'a>,
    visible: &Visible<'a>,
    before: Taken,
    sign: usize,
    left: &'a Expr,
    right: &'a Expr,
) -> Judged
    ensures { (at : ℕ) (moment : Moment) (operator : BinaryOperator) → Judges (seen table.now visible.now) before (Update at sign moment operator (expr_tree left.now) (expr_tree right.now)) result }
{
    let first = judge(table, visible, before, left);
    let second = judge(table, visible, first.taken, right);
    let is_updatable = is_updatable(visible, left, first.kind);
    updated(is_updatable, sign, first, second, place(right))
}

/// The kind of a message to the class or, with none, to what this judgement is on.
fn message_kind<'a>(
    table: &ClassTable<'a>,
    class: Option<ClassId>,
    receiver: Judged,
    selector: &'a [u8],
) -> Option<Kind>
    ensures { (visible : Visible) → result
        ≡ rules.message_kind (seen table.now visible) (option_map number_of_class class) receiver.kind (option_map number_of_class receiver.class) selector.now }
{
    if class.is_some() || is_object(receiver.kind) {
        sent_kind(table, class, receiver.class, selector)
    } else {
        None
    }
}

/// The rule that a receiver breaks which is the class or, with none, on which this is the judgement.
fn receiver_fault(class: Option<ClassId>, receiver: Judged, at: usize) -> Option<CheckFault>
    ensures { option_map reported result
        ≡ (if is_some (option_map number_of_class class) then None else earlier_of (option_map reported receiver.fault) (first (unmet AnObject receiver.kind at))) }
{
    match class {
        Some(_) => None,
        None => earlier(receiver.fault, no_object(receiver.kind, at)),
    }
}

/// The rule that a message of no kind breaks.
fn unknown_method(kind: Option<Kind>, part: usize) -> Option<CheckFault>
    ensures { option_map reported result ≡ first (broken_if (is_none kind) part 42) }
{
    match kind {
        Some(_) => None,
        None => Some(CheckFault::NoSuchMethod(part)),
    }
}

/// The rule that a message of this kind breaks for which no method is known: to the class or, with none, to what this
/// judgement is on.
fn method_fault(
    class: Option<ClassId>,
    receiver: Judged,
    kind: Option<Kind>,
    part: usize,
) -> Option<CheckFault>
    ensures { (table : ClassTable) (visible : Visible) (selector : List ℕ)
        → kind ≡ rules.message_kind (seen table visible) (option_map number_of_class class) receiver.kind (option_map number_of_class receiver.class) selector
        → option_map reported result
        ≡ first (rules.no_method (seen table visible) (option_map number_of_class class) receiver.kind (option_map number_of_class receiver.class) selector part) }
{
    if class.is_none() && !is_object(receiver.kind) {
        return None;
    }
    unknown_method(kind, part)
}

/// The judgement on a message.
#[cycle(judge)]
fn judge_send<'a>(
    table: &ClassTable<'a>,
    visible: &Visible<'a>,
    before: Taken,
    part: usize,
    receiver: &'a Expr,
    selector: &'a [u8],
    arguments: &'a [Expr],
) -> Judged
    ensures { (at : ℕ) → Judges (seen table.now visible.now) before (Send at part (expr_tree receiver.now) selector.now (expr_trees arguments.now)) result }
{
    let class = class_receiver(table, visible, receiver);
    let judged = judge(table, visible, before, receiver);
    let kind = message_kind(table, class, judged, selector);
    let own = receiver_fault(class, judged, place(receiver));
    let unknown = method_fault(class, judged, kind, part);
    let between = judged.taken.one_if(is_object(kind), part);
    let wanted = Some(table.parameters_passed(receiver_sign(class), selector));
    let passed = judge_arguments(table, visible, between, wanted, b"", arguments);
    Judged {
        kind,
        class: sent_class(table, class, judged.class, selector),
        fault: earlier(earlier(own, unknown), passed.fault),
        taken: passed.taken,
        unread: passed.taken,
    }
}

/// What a message to `super` has taken after its selector's first part.
fn taken_by_super(
    visible: &Visible,
    before: Taken,
    super_at: usize,
    kind: Option<Kind>,
    part: usize,
) -> Taken
    ensures { (table : ClassTable) → result
        ≡ counted (counted before (rules.place_if (is_some (scopes.own_class (seen table visible.now))) super_at)) (rules.place_if (kinds.is_object kind) part) }
{
    let read = before.one_if(visible.own_class().is_some(), super_at);
    read.one_if(is_object(kind), part)
}

/// The judgement on a message to `super`.
#[cycle(judge)]
fn judge_super<'a>(
    table: &ClassTable<'a>,
    visible: &Visible<'a>,
    before: Taken,
    part: usize,
    super_at: usize,
    selector: &'a [u8],
    arguments: &'a [Expr],
) -> Judged
    ensures { (at : ℕ) → Judges (seen table.now visible.now) before (SendSuper at part super_at selector.now (expr_trees arguments.now)) result }
{
    let kind = super_kind(table, visible, selector);
    let between = taken_by_super(visible, before, super_at, kind, part);
    let wanted = Some(table.parameters_passed(visible.sign, selector));
    let passed = judge_arguments(table, visible, between, wanted, b"", arguments);
    Judged {
        kind,
        class: super_class(table, visible, selector),
        fault: earlier(unknown_method(kind, part), passed.fault),
        taken: passed.taken,
        unread: passed.taken,
    }
}

/// The judgement on a call.
#[cycle(judge)]
fn judge_call<'a>(
    table: &ClassTable<'a>,
    visible: &Visible<'a>,
    before: Taken,
    at: usize,
    name: &'a [u8],
    arguments: &'a [Expr],
) -> Judged
    ensures { JudgesCall (seen table.now visible.now) before at (scopes.callee (known_in table.now) name.now) ((known_in table.now).function_class name.now) ((known_in table.now).parameters name.now) (expr_trees arguments.now) result }
{
    let callee = callee_of(table, name);
    match callee {
        Callee::Printf => {
            let class = table.function_class(name);
            judge_print(table, visible, before, at, class, arguments)
        }
        _ => {
            let own = call_fault(callee, at, arguments.len());
            let kind = call_kind(result_kind(callee), own);
            let between = before.one_if(is_object(kind), at);
            let wanted = Some(table.parameters(name));
            let inside = judge_arguments(table, visible, between, wanted, b"", arguments);
            called(kind, table.function_class(name), own, inside)
        }
    }
}

/// The judgement on a call of printf.
#[cycle(judge)]
fn judge_print<'a>(
    table: &ClassTable<'a>,
    visible: &Visible<'a>,
    before: Taken,
    at: usize,
    class: Option<ClassId>,
    arguments: &'a [Expr],
) -> Judged
    ensures { (kinds : List Kind) → JudgesCall (seen table.now visible.now) before at Callee.Printf (option_map number_of_class class) kinds (expr_trees arguments.now) result }
{
    match arguments.split_first() {
        Some((Expr::Text(_, format), values)) => {
            let inside = judge_arguments(table, visible, before, None, format, values);
            let own = if inside.fit {
                None
            } else {
                Some(CheckFault::Format(at))
            };
            called(call_kind(Kind::Int, own), class, own, inside)
        }
        _ => {
            let inside = judge_arguments(table, visible, before, None, b"", arguments);
            called(None, class, Some(CheckFault::Format(at)), inside)
        }
    }
}

/// The judgement on an argument, which has to be of the kind, if there is one: printf's may be of any kind here.
#[cycle(judge)]
fn judge_argument<'a>(
    table: &ClassTable<'a>,
    visible: &Visible<'a>,
    before: Taken,
    wanted: Option<Kind>,
    argument: &'a Expr,
) -> Judged
    ensures kind { result.kind ≡ rules.kind_of (seen table.now visible.now) (expr_tree argument.now) }
    ensures fault { option_map reported result.fault
        ≡ earlier_of (first (rules.broken (seen table.now visible.now) (expr_tree argument.now))) (first (rules.no_such wanted (rules.kind_of (seen table.now visible.now) (expr_tree argument.now)) (tree.place (expr_tree argument.now)))) }
    ensures taken { result.taken ≡ counted before (rules.taken (seen table.now visible.now) (expr_tree argument.now)) }
{
    let judged = judge(table, visible, before, argument);
    number(
        judged.kind,
        earlier(judged.fault, no_such(wanted, judged.kind, place(argument))),
        judged.taken,
    )
}

/// The judgement on arguments, which are passed to these parameters or, without any, printed by a format.
#[cycle(judge)]
fn judge_arguments<'a>(
    table: &ClassTable<'a>,
    visible: &Visible<'a>,
    before: Taken,
    passed: Option<&'a [Parameter]>,
    format: &[u8],
    arguments: &'a [Expr],
) -> Arguments
    ensures { JudgesAll (seen table.now visible.now) before (kinds_wanted passed.entry) (wanted format.now) (expr_trees arguments.now) result }
{
    let mut rest = format;
    let mut parameters = passed;
    let mut reported = Arguments {
        fit: true,
        fault: None,
        taken: before,
    };
    for argument in arguments {
        let wanted = first_wanted(parameters);
        let judged = judge_argument(table, visible, reported.taken, wanted, argument);
        let (fit, scope_after) = take_conversion(rest, judged.kind);
        rest = scope_after;
        parameters = after_first(parameters);
        reported = Arguments {
            fit: reported.fit && fit,
            fault: earlier(reported.fault, judged.fault),
            taken: judged.taken,
        };
    }
    Arguments {
        fit: reported.fit && next_conversion(rest).is_none(),
        ..reported
    }
}
