//! The rules of ownership, each by its number.
ghost use Rattle.std.specs.Prelude.{◌≡◌, Some, None, option_map, if◌then◌else◌};
ghost use Rattle.std.proofs.Props.{props};
ghost use Rattle.arc_ast.specs.Tree.{UnitTree, expr_tree, type_tree, result_tree, head_tree, parameter_trees, parameters_tree, unit_tree};
ghost use Rattle.arc_ast.specs.Types.{type_kind};
ghost use Rattle.arc_class.specs.Table.{IsTableOf, number_of_class};
ghost use Rattle.arc_sites.specs.Sites as sites;
ghost use Rattle.arc_sites.specs.Violations.{first, at_if, violates};
ghost use Rattle.arc_sites.specs.FoundViolations.{enclosing_of, node_of, message_of};
ghost use Rattle.arc_family.specs.Rules as rules;
ghost use Rattle.arc_family.specs.Fault.{reported};
ghost use Rattle.arc_family.specs.private.UnaskedNodes.{is_plain, is_unasked};

use arc_ast::tree::{
    Expr, Kind, MethodHead, Parameter, Qualifiers, ResultType, Sign, TranslationUnit, TypeName,
};
use arc_class::table::{ClassId, ClassTable};
use arc_fault::own::OwnFault;
use arc_sites::message::{Message, is_itself, is_to_itself, sent_message};
use arc_sites::node::{Enclosing, Node};
use arc_sites::parameter::named_parameters;
use arc_sites::violation::earlier;
use arc_sites::walk::Visitor;
use arc_spec::class::descends_from;
use arc_spec::family::{is_owning, method_family};
use arc_spec::signature::Family;
use std::convert::Infallible;

/// The first rule of ownership that the sites so far break of a source, and the source's table.
#[derive(Drop)]
pub(crate) struct Ownership<'a, 't> {
    pub(crate) unit: &'a TranslationUnit,
    pub(crate) table: &'t ClassTable<'a>,
    pub(crate) fault: Option<OwnFault>,
    ghost known: { IsTableOf (unit_tree unit.now) table.now } by { Prim.hlevel props },
}

impl<'a, 't> Visitor for Ownership<'a, 't> {
    type Error = Infallible;

    ghost violations = { λ ownership. rules.violations (unit_tree ownership.unit.now) };

    ghost found = { λ ownership. option_map reported ownership.fault };

    #[inline(always)]
    fn visit(&mut self, enclosing: Enclosing, node: Node) -> Result<(), Infallible> {
        if !is_unasked(node) {
            self.fault = earlier(self.fault, first_broken(self.table, enclosing, node));
        }
        Ok(())
    }
}

/// Whether an expression neither assigns anything nor sends a message.
fn is_plain(expr: &Expr) -> bool
    ensures { result ≡ is_plain (expr_tree expr.now) }
{
    !matches!(
        expr,
        Expr::Assign(_, _, _, _) | Expr::Send(_, _, _, _, _) | Expr::SendSuper(_, _, _, _, _)
    )
}

/// Whether no rule asks anything of the node, as of most.
fn is_unasked(node: Node) -> bool
    ensures { result ≡ is_unasked (node_of node.entry) }
{
    match node {
        Node::Statement(_) | Node::Body(_, _) => true,
        Node::Value(expr) => is_plain(expr),
        _ => false,
    }
}

/// The first rule that a site breaks.
#[inline(never)]
#[tactic(auto, using(crate::proofs::FirstViolation::both))]
fn first_broken(table: &ClassTable, enclosing: Enclosing, node: Node) -> Option<OwnFault>
    ensures { (u : UnitTree) → IsTableOf u table.now → option_map reported result ≡ first (rules.violations u (enclosing_of enclosing.entry) (node_of node.entry)) }
{
    let qualifier = qualifier(node);
    let result = earlier(init_result(table, enclosing, node), qualifier);
    let init = earlier(delegate_init(table, enclosing, node), result);
    let dealloc = earlier(dealloc_sent(node), init);
    let manual = earlier(manual_memory(node), dealloc);
    let unretained = earlier(unretained(node), manual);
    earlier(self_const(enclosing, node), unretained)
}

/// 47 SelfConst.
fn self_const(enclosing: Enclosing, node: Node) -> Option<OwnFault>
    ensures { option_map reported result ≡ first (violates 47 (rules.rule_47 (enclosing_of enclosing.entry) (node_of node.entry))) }
{
    match node {
        Node::Value(Expr::Assign(_, sign, left, _)) => {
            if is_itself(left) && !owns_self(enclosing) {
                Some(OwnFault::SelfConst(*sign))
            } else {
                None
            }
        }
        _ => None,
    }
}

/// The family of the method.
fn head_family(head: &MethodHead) -> Family
    ensures { result ≡ rules.head_family (head_tree head.now) }
{
    method_family(head.sign, &head.selector, head.result.kind())
}

/// Whether what has a node owns `self`.
fn owns_self(enclosing: Enclosing) -> bool
    ensures { result ≡ rules.owns_self (enclosing_of enclosing.entry) }
{
    match enclosing {
        Enclosing::Method(_, head) => matches!(head_family(head), Family::Init),
        _ => false,
    }
}

/// Whether the method gives an object that it doesn't retain.
fn gives_unretained(head: &MethodHead) -> bool
    ensures { result ≡ rules.gives_unretained (head_tree head.now) }
{
    head.result.kind() == Kind::Object && !is_owning(head_family(head))
}

/// The fault, if it is so.
fn fault_if(broken: bool, fault: OwnFault) -> Option<OwnFault>
    ensures { result ≡ (if broken then Some fault else None) }
{
    if broken { Some(fault) } else { None }
}

/// 60 Unretained.
fn unretained(node: Node) -> Option<OwnFault>
    ensures { option_map reported result ≡ first (violates 60 (rules.rule_60 (node_of node.entry))) }
{
    match node {
        Node::Function(function) => {
            let is_object = function.result.kind() == Kind::Object;
            fault_if(is_object, OwnFault::Unretained(function.at))
        }
        Node::Declared(head) | Node::Defined(head) => {
            fault_if(gives_unretained(head), OwnFault::Unretained(head.at))
        }
        _ => None,
    }
}

/// Whether the selector is that of a method that counts references by hand.
fn is_manual(selector: &[u8]) -> bool
    ensures { result ≡ rules.is_manual selector.now }
{
    selector == b"retain".as_slice()
        || selector == b"release".as_slice()
        || selector == b"autorelease".as_slice()
        || selector == b"retainCount".as_slice()
}

/// 61 ManualMemory, of a method with its place, or of a message with that of its selector's first part.
fn manual(selector: &[u8], at: usize) -> Option<OwnFault>
    ensures { option_map reported result ≡ first (violates 61 (at_if (rules.is_manual selector.now) at)) }
{
    if is_manual(selector) {
        Some(OwnFault::ManualMemory(at))
    } else {
        None
    }
}

/// 61 ManualMemory.
fn manual_memory(node: Node) -> Option<OwnFault>
    ensures { option_map reported result ≡ first (violates 61 (rules.rule_61 (node_of node.entry))) }
{
    match node {
        Node::Declared(head) => manual(&head.selector, head.at),
        Node::Defined(head) => manual(&head.selector, head.at),
        Node::Value(expr) => match sent_message(expr) {
            Some(message) => manual(message.selector, message.part),
            None => None,
        },
        _ => None,
    }
}

/// 62 DeallocSent.
fn dealloc_sent(node: Node) -> Option<OwnFault>
    ensures { option_map reported result ≡ first (violates 62 (rules.rule_62 (node_of node.entry))) }
{
    match node {
        Node::Value(expr) => match sent_message(expr) {
            Some(message) => {
                if message.selector == b"dealloc".as_slice() {
                    Some(OwnFault::DeallocSent(message.part))
                } else {
                    None
                }
            }
            None => None,
        },
        _ => None,
    }
}

/// Whether `self` is an object.
fn is_in_instance(enclosing: Enclosing) -> bool
    ensures { result ≡ rules.is_in_instance (enclosing_of enclosing.entry) }
{
    match enclosing {
        Enclosing::Method(_, head) => head.sign == Sign::Instance,
        _ => false,
    }
}

/// Whether a message is one of the init family.
fn is_init_message(table: &ClassTable, message: Message) -> bool
    ensures { (u : UnitTree) → IsTableOf u table.now → result ≡ rules.is_init_message u (message_of message.entry) }
{
    let kind = table.result_of_any(message.selector).unwrap_or(Kind::Void);
    let family = method_family(Sign::Instance, message.selector, kind);
    matches!(family, Family::Init)
}

/// Whether a message delegates to an init method.
fn is_delegated(table: &ClassTable, enclosing: Enclosing, message: Message) -> bool
    ensures { (u : UnitTree) → IsTableOf u table.now → result ≡ rules.is_delegated u (enclosing_of enclosing.entry) (message_of message.entry) }
{
    is_in_instance(enclosing)
        && !owns_self(enclosing)
        && is_to_itself(message)
        && is_init_message(table, message)
}

/// 63 DelegateInit.
fn delegate_init(table: &ClassTable, enclosing: Enclosing, node: Node) -> Option<OwnFault>
    ensures { (u : UnitTree) → IsTableOf u table.now → option_map reported result ≡ first (violates 63 (rules.rule_63 u (enclosing_of enclosing.entry) (node_of node.entry))) }
{
    match node {
        Node::Value(expr) => match sent_message(expr) {
            Some(message) => {
                fault_if(
                    is_delegated(table, enclosing, message),
                    OwnFault::DelegateInit(message.part),
                )
            }
            None => None,
        },
        _ => None,
    }
}

/// The number of the class, if there is one.
fn number_of(class: Option<ClassId>) -> Option<usize>
    ensures { result ≡ option_map number_of_class class }
{
    match class {
        None => None,
        Some(class) => Some(class.0),
    }
}

/// Whether a class is another one, or above it.
fn is_above(table: &ClassTable, class: Option<ClassId>, other: Option<ClassId>) -> bool
    ensures { (u : UnitTree) → IsTableOf u table.now → result ≡ rules.is_above u (option_map number_of_class class) (option_map number_of_class other) }
{
    let Some(class) = class else {
        return false;
    };
    descends_from(&table.classes, number_of(other), class.0)
}

/// Whether one of two classes is the other one, or above it.
fn are_related(table: &ClassTable, name: &[u8], other: &[u8]) -> bool
    ensures { (u : UnitTree) → IsTableOf u table.now → result ≡ rules.are_related u name.now other.now }
{
    let one = table.objc_get_class(name);
    let second = table.objc_get_class(other);
    is_above(table, one, second) || is_above(table, second, one)
}

/// Whether an init method of a class may give an object of the type.
fn may_be_given(table: &ClassTable, class: &[u8], written: &ResultType) -> bool
    ensures { (u : UnitTree) → IsTableOf u table.now → result ≡ rules.may_be_given u class.now (result_tree written.now) }
{
    match written {
        ResultType::Value(TypeName::Object(_, name)) => are_related(table, class, name),
        _ => true,
    }
}

/// 66 InitResult, of a method of a class.
fn wrong_init(table: &ClassTable, class: &[u8], head: &MethodHead) -> Option<OwnFault>
    ensures { (u : UnitTree) → IsTableOf u table.now → option_map reported result ≡ first (violates 66 (at_if (rules.is_wrong_init u class.now (head_tree head.now)) head.now.at)) }
{
    if may_be_given(table, class, &head.result) {
        return None;
    }
    let is_init = matches!(head_family(head), Family::Init);
    fault_if(is_init, OwnFault::InitResult(head.at))
}

/// 66 InitResult.
fn init_result(table: &ClassTable, enclosing: Enclosing, node: Node) -> Option<OwnFault>
    ensures { (u : UnitTree) → IsTableOf u table.now → option_map reported result ≡ first (violates 66 (rules.rule_66 u (enclosing_of enclosing.entry) (node_of node.entry))) }
{
    match (enclosing, node) {
        (Enclosing::Interface(interface), Node::Declared(head)) => {
            wrong_init(table, &interface.name, head)
        }
        (Enclosing::Method(implementation, _), Node::Defined(head)) => {
            wrong_init(table, &implementation.name, head)
        }
        _ => None,
    }
}

/// Whether the qualifiers can't stand of what is of the kind.
fn is_misqualified(qualifiers: Qualifiers, kind: Kind) -> bool
    ensures { result ≡ rules.is_misqualified qualifiers kind }
{
    match qualifiers {
        Qualifiers::Unqualified => false,
        Qualifiers::Qualified(_) => kind != Kind::Object,
        Qualifiers::Several => true,
    }
}

/// 67 Qualifier, of what has the qualifiers and the type.
fn misqualified(qualifiers: Qualifiers, type_name: &TypeName, at: usize) -> Option<OwnFault>
    ensures { option_map reported result ≡ first (violates 67 (at_if (rules.is_misqualified qualifiers (type_kind (type_tree type_name.now))) at)) }
{
    let broken = is_misqualified(qualifiers, type_name.kind());
    fault_if(broken, OwnFault::Qualifier(at))
}

/// 67 Qualifier, of parameters.
fn misqualified_among(all: &[Parameter]) -> Option<OwnFault>
    ensures { option_map reported result ≡ first (violates 67 (rules.misqualified_among (parameter_trees all.now))) }
{
    for parameter in all {
        let fault = misqualified(parameter.qualifiers, &parameter.type_name, parameter.at);
        if fault.is_some() {
            return fault;
        }
    }
    None
}

/// 67 Qualifier.
fn qualifier(node: Node) -> Option<OwnFault>
    ensures { option_map reported result ≡ first (violates 67 (rules.rule_67 (node_of node.entry))) }
{
    match node {
        Node::Variable(before, type_name, variable) => {
            let all = before.both(variable.qualifiers);
            misqualified(all, type_name, variable.at)
        }
        Node::Global(global) => misqualified(global.qualifiers, &global.type_name, global.at),
        Node::Field(field) => misqualified(field.qualifiers, &field.type_name, field.at),
        Node::Function(function) => misqualified_among(named_parameters(&function.parameters)),
        Node::Declared(head) | Node::Defined(head) => misqualified_among(&head.parameters),
        _ => None,
    }
}
