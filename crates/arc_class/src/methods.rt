//! The rules for methods.
ghost use Rattle.std.specs.Prelude.{◌≡◌, List, ℕ, [], is_some, option_map, IfOk};
ghost use Rattle.arc_ast.specs.declared.tree.Sign.{Sign};
ghost use Rattle.arc_ast.specs.Tree.{HeadTree, unit_tree, head_tree, method_trees};
ghost use Rattle.arc_class.specs.BrokenRules.{broken_if, first};
ghost use Rattle.arc_class.specs.ClassRules.{broken_methods};
ghost use Rattle.arc_class.specs.SiteRules as rules;
ghost use Rattle.arc_class.specs.Classes.{first_head};
ghost use Rattle.arc_class.specs.Fault.{reported};
ghost use Rattle.arc_class.specs.KeptNames.{head_in, Knows};

use crate::fault::fault_if;
use crate::heads::Heads;
use crate::kept::Source;
use crate::look::{same_kind, same_parameters};
use crate::root::built_in_result;
use arc_ast::tree::{Kind, Method, MethodHead, Sign};
use arc_fault::class::ClassFault;
use arc_sites::violation::earlier;
use std::alloc::{AllocError, Global};

/// Whether a class method with the selector would change how classes are loaded or objects are made.
fn is_class_hook(selector: &[u8]) -> bool
    ensures { result ≡ rules.is_class_hook selector.now }
{
    selector == b"load".as_slice()
        || selector == b"initialize".as_slice()
        || selector == b"alloc".as_slice()
}

/// Whether a method of the root with the selector says what an object's class is or has.
fn asks_class(selector: &[u8]) -> bool
    ensures { result ≡ rules.asks_class selector.now }
{
    selector == b"isKindOfClass:".as_slice()
        || selector == b"isMemberOfClass:".as_slice()
        || selector == b"respondsToSelector:".as_slice()
        || selector == b"conformsToProtocol:".as_slice()
}

/// The kind of what a method of the root gives that says what an object's class is or has.
fn asked_kind(sign: Sign, selector: &[u8]) -> Option<Kind>
    ensures { result ≡ rules.asked_kind sign selector.now }
{
    match sign {
        Sign::Class => None,
        Sign::Instance => {
            if asks_class(selector) {
                Some(Kind::Bool)
            } else {
                None
            }
        }
    }
}

/// The kind of what the root's method gives, which is built in.
fn built_in_kind(sign: Sign, selector: &[u8]) -> Option<Kind>
    ensures { result ≡ rules.built_in_kind sign selector.now }
{
    match built_in_result(sign, selector) {
        Some(kind) => Some(kind),
        None => asked_kind(sign, selector),
    }
}

/// Whether a method of the sign with the selector would change how classes work, or says what they are or have.
fn is_hook_of(sign: Sign, selector: &[u8]) -> bool
    ensures { result ≡ rules.is_hook_of sign selector.now }
{
    match sign {
        Sign::Class => is_class_hook(selector),
        Sign::Instance => asks_class(selector),
    }
}

/// Whether the method has a name that classes cannot take.
pub(crate) fn is_hook(head: &MethodHead) -> bool
    ensures { result ≡ rules.is_hook (head_tree head.now) }
{
    let selector: &[u8] = &head.selector;
    is_hook_of(head.sign, selector) || selector == b"class".as_slice()
}

/// Whether two methods give the same kind of value, and have parameters of the same kinds.
fn same_kinds_of(earlier: &MethodHead, head: &MethodHead) -> bool
    ensures { result ≡ rules.same_kinds_of (head_tree earlier.now) (head_tree head.now) }
{
    same_kind(earlier.result.kind(), head.result.kind())
        && same_parameters(&earlier.parameters, &head.parameters)
}

/// Whether the earlier method stands before this one, and they differ in a kind.
fn differs_before(earlier: Option<&MethodHead>, head: &MethodHead) -> bool
    ensures { result ≡ rules.differs_before (option_map (λ h. head_tree h.now) earlier.entry) (head_tree head.now) }
{
    match earlier {
        None => false,
        Some(earlier) => earlier.at < head.at && !same_kinds_of(earlier, head),
    }
}

/// Whether the built-in method gives another kind of value than this one.
fn differs_from(built_in: Option<Kind>, head: &MethodHead) -> bool
    ensures { result ≡ rules.differs_from built_in (head_tree head.now) }
{
    match built_in {
        None => false,
        Some(kind) => !same_kind(kind, head.result.kind()),
    }
}

impl<'a> Source<'a> {
    /// Whether the method differs in a kind from an earlier one of its sign with its selector.
    pub(crate) fn changes_kind(&self, head: &MethodHead) -> bool
        ensures { Knows (unit_tree self.now.unit.now) self.now → result ≡ rules.changes_kind (unit_tree self.now.unit.now) (head_tree head.now) }
    {
        differs_before(self.declared.get(head.sign, &head.selector), head)
            || differs_before(self.defined.get(head.sign, &head.selector), head)
            || differs_from(built_in_kind(head.sign, &head.selector), head)
    }
}

/// The rule that a method breaks as it is defined, after those of its implementation that are kept.
fn method_fault(before: &Heads, head: &MethodHead) -> Option<ClassFault>
    ensures { (earlier : List HeadTree) → ((sign : Sign) (selector : List ℕ) → head_in before.now sign selector ≡ first_head sign selector earlier)
        → option_map reported result ≡ first (broken_if (is_some (first_head head.now.sign head.now.selector.items earlier)) head.now.at 21) }
{
    let stands = before.get(head.sign, &head.selector).is_some();
    fault_if(stands, ClassFault::Duplicate(head.at))
}

/// The first method of an implementation before which another one of its sign with its selector is defined.
pub fn methods_fault(alloc: Global, methods: &[Method]) -> Result<Option<ClassFault>, AllocError>
    ensures { IfOk result (λ fault. option_map reported fault ≡ first (broken_methods [] (method_trees methods.now))) }
{
    let mut before = Heads::new(alloc);
    let mut fault = None;
    for method in methods {
        fault = earlier(fault, method_fault(&before, &method.head));
        before.keep(&method.head)?;
    }
    Ok(fault)
}
