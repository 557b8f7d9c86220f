//! The rules for classes.
ghost use Rattle.std.specs.Prelude.{◌≡◌, ◌≤◌, ◌||◌, List, ℕ, [], ◌++◌, length, map, option_map, is_some, IfOk};
ghost use Rattle.arc_ast.specs.Tree.{InterfaceTree, ImplementationTree, unit_tree, function_tree, global_tree, interface_tree, implementation_tree};
ghost use Rattle.arc_class.specs.BrokenRules.{first};
ghost use Rattle.arc_class.specs.ClassRules as rules;
ghost use Rattle.arc_class.specs.ClassRules.{broken_names, broken_members, broken_interface, broken_own_names, broken_own_fields, broken_implementation};
ghost use Rattle.arc_class.specs.BrokenRules.{in_order};
ghost use Rattle.arc_class.specs.SiteRules as site_rules;
ghost use Rattle.arc_class.specs.Classes as classes;
ghost use Rattle.arc_class.specs.Classes.{interface_number};
ghost use Rattle.arc_class.specs.private.Entries.{fields_tree, all_class_fields};
ghost use Rattle.arc_class.specs.Fault.{reported};
ghost use Rattle.arc_class.specs.Globals.{variable_before};
ghost use Rattle.arc_class.specs.KeptNames.{Knows, place_before};
ghost use Rattle.arc_class.specs.Owners.{FindsFields};
ghost use Rattle.arc_class.specs.private.Scopes.{holds};

use crate::fault::fault_if;
use crate::fields::{ClassFields, counted_among, field_places, fields_fault};
use crate::kept::Source;
use crate::look::{is_library, same_parameters};
use crate::methods::methods_fault;
use crate::owners::Owners;
use crate::scopes::{Scope, stands};
use crate::table::{Place, Variable, at_name, class_number, is_root};
use arc_ast::tree;
use arc_ast::tree::{Function, Implementation, Interface};
use arc_fault::class::ClassFault;
use arc_sites::parameter::named_parameters;
use arc_sites::violation::earlier;
use std::alloc::{AllocError, Global};

/// How many fields the objects of a class may have.
const MOST_FIELDS: usize = 120;

/// Whether there is a function, and it stands before the place.
fn stands_before(function: Option<&Function>, at: usize) -> bool
    ensures { result ≡ site_rules.stands_before (option_map (λ f. function_tree f.now) function.entry) at }
{
    match function {
        None => false,
        Some(function) => function.at < at,
    }
}

/// Whether there is a global variable, and it stands before the place.
fn variable_before(variable: Option<Variable>, at: usize) -> bool
    ensures { result ≡ variable_before variable at }
{
    match variable {
        None => false,
        Some(variable) => variable.at < at,
    }
}

/// Whether there is an interface, and it stands before the place.
fn place_before(place: Option<Place>, at: usize) -> bool
    ensures { result ≡ place_before place at }
{
    match place {
        None => false,
        Some(place) => place.at < at,
    }
}

/// Whether a function's parameters are of other kinds than those of the first function of its name.
fn other_parameters(first: Option<&Function>, function: &Function) -> bool
    ensures { result ≡ site_rules.other_parameters (option_map (λ f. function_tree f.now) first.entry) (function_tree function.now) }
{
    match first {
        None => false,
        Some(first) => !same_parameters(
            named_parameters(&first.parameters),
            named_parameters(&function.parameters),
        ),
    }
}

/// Whether this is the root's name or one of those before.
fn is_known<'a>(before: &Scope<'a>, name: &'a [u8]) -> bool
    ensures { result ≡ (classes.is_root name.now || holds before.now name.now) }
{
    is_root(name) || stands(before, name)
}

impl<'a> Source<'a> {
    /// Whether the root has the name, or a class whose interface stands before the place.
    fn class_before(&self, name: &[u8], at: usize) -> bool
        ensures { Knows (unit_tree self.now.unit.now) self.now → result ≡ site_rules.class_before (unit_tree self.now.unit.now).interfaces name.now at }
    {
        is_root(name) || place_before(at_name(&self.names, name), at)
    }

    /// Whether the function has the name of the root, of an earlier interface's class or of an earlier global variable,
    /// or parameters of other kinds than the first function of its name.
    pub(crate) fn clashes_with(&self, function: &Function) -> bool
        ensures { Knows (unit_tree self.now.unit.now) self.now → result ≡ site_rules.clashes_with (unit_tree self.now.unit.now).interfaces (unit_tree self.now.unit.now).globals (unit_tree self.now.unit.now).functions (function_tree function.now) }
    {
        self.class_before(&function.name, function.at)
            || variable_before(at_name(&self.globals, &function.name), function.at)
            || other_parameters(at_name(&self.functions, &function.name), function)
    }

    /// Whether a global variable has a name of the library's, of the root, or of an earlier interface's class, function or
    /// global variable.
    pub(crate) fn is_again(&self, global: &tree::Global) -> bool
        ensures { Knows (unit_tree self.now.unit.now) self.now → result ≡ site_rules.is_again (unit_tree self.now.unit.now) (global_tree global.now) }
    {
        let name: &[u8] = &global.name;
        is_library(name)
            || self.class_before(name, global.at)
            || stands_before(at_name(&self.functions, name), global.at)
            || variable_before(at_name(&self.globals, name), global.at)
    }

    /// Whether an interface's name is taken, after interfaces whose names stand in `before`.
    fn is_taken(&self, before: &Scope<'a>, interface: &'a Interface) -> bool
        requires { Knows (unit_tree self.now.unit.now) self.now }
        ensures { (earlier : List InterfaceTree) → ((name : List ℕ) → holds before.now name ≡ is_some (interface_number earlier name))
            → result ≡ rules.is_taken (unit_tree self.now.unit.now) earlier (interface_tree interface.now) }
    {
        let name: &[u8] = &interface.name;
        is_root(name)
            || is_library(name)
            || stands(before, name)
            || stands_before(at_name(&self.functions, name), interface.at)
            || variable_before(at_name(&self.globals, name), interface.at)
    }

    /// The first rule that the names of an interface break, after those whose names stand in `before`.
    fn names_fault(&self, before: &Scope<'a>, interface: &'a Interface) -> Option<ClassFault>
        requires { Knows (unit_tree self.now.unit.now) self.now }
        ensures { (earlier : List InterfaceTree) → ((name : List ℕ) → holds before.now name ≡ is_some (interface_number earlier name))
            → option_map reported result ≡ first (broken_names (unit_tree self.now.unit.now) earlier (interface_tree interface.now)) }
    {
        let taken = self.is_taken(before, interface);
        let implemented = at_name(&self.implemented, &interface.name).is_some();
        let known = is_known(before, &interface.superclass);
        let name = earlier(
            fault_if(taken, ClassFault::Duplicate(interface.at)),
            fault_if(!implemented, ClassFault::NoImplementation(interface.at)),
        );
        let above = fault_if(!known, ClassFault::UnknownClass(interface.superclass_at));
        earlier(name, above)
    }

    /// The first rule that the fields break which the interface's class declares, which has this number.
    fn own_fields_fault(
        &self,
        alloc: Global,
        fields: &[ClassFields<'a>],
        owners: &Owners<'a>,
        class: usize,
        interface: &'a Interface,
    ) -> Result<Option<ClassFault>, AllocError>
        requires knows { Knows (unit_tree self.now.unit.now) self.now }
        requires fields { map fields_tree fields.now ≡ all_class_fields (unit_tree self.now.unit.now) }
        requires owners { FindsFields fields.now owners.now }
        ensures { IfOk result (λ fault. option_map reported fault ≡ first (broken_own_fields (unit_tree self.now.unit.now) class (interface_tree interface.now))) }
    {
        let own = self.own_fields(class, interface);
        let places = field_places(alloc, &own)?;
        let above = self.superclass_before(class, interface);
        let before = fields_fault(fields, owners, above, &places, own.earlier);
        let later_on = fields_fault(fields, owners, above, &places, own.later);
        Ok(earlier(before, later_on))
    }

    /// The first rule that the fields of an interface's class break, which has this number.
    fn members_fault(
        &self,
        alloc: Global,
        fields: &[ClassFields<'a>],
        owners: &Owners<'a>,
        class: usize,
        interface: &'a Interface,
    ) -> Result<Option<ClassFault>, AllocError>
        requires knows { Knows (unit_tree self.now.unit.now) self.now }
        requires fields { map fields_tree fields.now ≡ all_class_fields (unit_tree self.now.unit.now) }
        requires owners { FindsFields fields.now owners.now }
        requires there { class ≤ length (unit_tree self.now.unit.now).interfaces }
        ensures { IfOk result (λ fault. option_map reported fault ≡ first (broken_members (unit_tree self.now.unit.now) class (interface_tree interface.now))) }
    {
        let many = counted_among(fields, Some(class)).is_above(MOST_FIELDS);
        let many = fault_if(many, ClassFault::TooManyFields(interface.at));
        let again = self.own_fields_fault(alloc, fields, owners, class, interface)?;
        Ok(earlier(many, again))
    }

    /// The first rule that the interfaces break, whose names are put into `before`, where none stands yet.
    fn all_interfaces_fault(
        &self,
        alloc: Global,
        fields: &[ClassFields<'a>],
        owners: &Owners<'a>,
        before: &mut Scope<'a>,
    ) -> Result<Option<ClassFault>, AllocError>
        requires knows { Knows (unit_tree self.now.unit.now) self.now }
        requires fields { map fields_tree fields.now ≡ all_class_fields (unit_tree self.now.unit.now) }
        requires owners { FindsFields fields.now owners.now }
        requires none { before.old ≡ [] }
        ensures { IfOk result (λ fault. option_map reported fault ≡ first (in_order (broken_interface (unit_tree self.now.unit.now)) [] (unit_tree self.now.unit.now).interfaces)) }
    {
        let mut fault = None;
        let mut class = 0;
        for interface in &self.unit.interfaces {
            class += 1;
            let members = self.members_fault(alloc, fields, owners, class, interface)?;
            let own = earlier(self.names_fault(before, interface), members);
            fault = earlier(fault, own);
            before.insert(&interface.name, ())?;
        }
        Ok(fault)
    }

    /// The first rule that the interfaces break.
    fn interfaces_fault(
        &self,
        alloc: Global,
        fields: &[ClassFields<'a>],
        owners: &Owners<'a>,
    ) -> Result<Option<ClassFault>, AllocError>
        requires knows { Knows (unit_tree self.now.unit.now) self.now }
        requires fields { map fields_tree fields.now ≡ all_class_fields (unit_tree self.now.unit.now) }
        requires owners { FindsFields fields.now owners.now }
        ensures { IfOk result (λ fault. option_map reported fault ≡ first (in_order (broken_interface (unit_tree self.now.unit.now)) [] (unit_tree self.now.unit.now).interfaces)) }
    {
        let mut before = Scope::with_room(alloc, self.unit.interfaces.len())?;
        self.all_interfaces_fault(alloc, fields, owners, &mut before)
    }

    /// The first rule that the names of an implementation break, after those whose names stand in `before`.
    fn own_names_fault(
        &self,
        before: &Scope<'a>,
        implementation: &'a Implementation,
    ) -> Option<ClassFault>
        requires { Knows (unit_tree self.now.unit.now) self.now }
        ensures { (earlier : List ImplementationTree) → ((name : List ℕ) → holds before.now name ≡ rules.is_implemented earlier name)
            → option_map reported result ≡ first (broken_own_names (unit_tree self.now.unit.now) earlier (implementation_tree implementation.now)) }
    {
        let again = is_known(before, &implementation.name);
        let known = class_number(&self.names, &implementation.name).is_some();
        earlier(
            fault_if(again, ClassFault::Duplicate(implementation.at)),
            fault_if(!known, ClassFault::UnknownClass(implementation.at)),
        )
    }

    /// The first rule that an implementation breaks, after those whose names stand in `before`.
    fn implementation_fault(
        &self,
        alloc: Global,
        before: &Scope<'a>,
        implementation: &'a Implementation,
    ) -> Result<Option<ClassFault>, AllocError>
        requires { Knows (unit_tree self.now.unit.now) self.now }
        ensures { (earlier : List ImplementationTree) → ((name : List ℕ) → holds before.now name ≡ rules.is_implemented earlier name)
            → IfOk result (λ fault. option_map reported fault ≡ first (broken_implementation (unit_tree self.now.unit.now) earlier (implementation_tree implementation.now))) }
    {
        let names = self.own_names_fault(before, implementation);
        let methods = methods_fault(alloc, &implementation.methods)?;
        Ok(earlier(names, methods))
    }

    /// The first rule that the implementations break.
    fn implementations_fault(&self, alloc: Global) -> Result<Option<ClassFault>, AllocError>
        requires { Knows (unit_tree self.now.unit.now) self.now }
        ensures { IfOk result (λ fault. option_map reported fault
            ≡ first (in_order (broken_implementation (unit_tree self.now.unit.now)) [] (unit_tree self.now.unit.now).implementations)) }
    {
        let mut before = Scope::with_room(alloc, self.unit.implementations.len())?;
        let mut fault = None;
        for implementation in &self.unit.implementations {
            let own = self.implementation_fault(alloc, &before, implementation)?;
            fault = earlier(fault, own);
            before.insert(&implementation.name, ())?;
        }
        Ok(fault)
    }

    /// The first rule that the interfaces and the implementations break.
    pub fn classes_fault(
        &self,
        alloc: Global,
        fields: &[ClassFields<'a>],
        owners: &Owners<'a>,
    ) -> Result<Option<ClassFault>, AllocError>
        requires knows { Knows (unit_tree self.now.unit.now) self.now }
        requires fields { map fields_tree fields.now ≡ all_class_fields (unit_tree self.now.unit.now) }
        requires owners { FindsFields fields.now owners.now }
        ensures { IfOk result (λ fault. option_map reported fault ≡ first (in_order (broken_interface (unit_tree self.now.unit.now)) [] (unit_tree self.now.unit.now).interfaces
            ++ in_order (broken_implementation (unit_tree self.now.unit.now)) [] (unit_tree self.now.unit.now).implementations)) }
    {
        let interfaces = self.interfaces_fault(alloc, fields, owners)?;
        Ok(earlier(interfaces, self.implementations_fault(alloc)?))
    }
}
