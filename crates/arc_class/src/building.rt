//! The parts of a table: selectors, entries and classes.
ghost use Rattle.std.specs.Prelude.{◌≡◌, ◌<◌, ◌+◌, [], ◌∷◌, List, ℕ, suc, length, map, fold, unwrap_or, None, IfOk, IfErr, OnOk};
ghost use Rattle.arc_ast.specs.declared.tree.Sign.{Sign};
ghost use Rattle.arc_ast.specs.Tree.{UnitTree, unit_tree, head_tree, head_trees, method_trees, interface_trees, implementation_trees, interface_tree};
ghost use Rattle.arc_spec.specs.Classes.{class_of, classes_of};
ghost use Rattle.arc_class.specs.NameMaps.{Named};
ghost use Rattle.arc_class.specs.Classes as classes;
ghost use Rattle.arc_class.specs.Classes.{heads, first_head, with_selectors, defined_selectors, standing_before, standing_after, selectors_in_order, and_name, selectors, number_among, defined_by, own_heads};
ghost use Rattle.arc_fault.specs.declared.class.ClassFault.TheVariants.{Memory};
ghost use Rattle.arc_class.specs.private.Entries.{entry_tree, root_entry, class_entry, fields_tree, all_class_fields};
ghost use Rattle.arc_class.specs.private.TableParts.{ArePartsOf};
ghost use Rattle.arc_class.specs.KeptNames.{head_in, Knows};
ghost use Rattle.arc_class.specs.Owners.{FindsMethods};
ghost use Rattle.arc_ast.specs.declared.tree.Sign.TheVariants as signs;
ghost use Rattle.arc_class.specs.RuntimeClasses as running;
ghost use Rattle.arc_class.specs.RuntimeClasses.{method_made, with_method, methods_from, dealloc_from, class_with};
ghost use Rattle.arc_class.specs.declared.table.Place.{Place};
ghost use Rattle.arc_class.specs.Table.{names_of, list_of, built_in_from};

use crate::counting::parameter_counts;
use crate::fields::{ClassFields, counted_among};
use crate::heads::Heads;
use crate::kept::Source;
use crate::nearest::method_owners;
use crate::owners::Owners;
use crate::root::BuiltIn;
use crate::table::{Entry, Field, at_name, class_number};
use arc_ast::tree::{Implementation, Interface, Method, MethodHead, Sign, TranslationUnit};
use arc_fault::class::ClassFault;
use arc_spec::class;
use arc_spec::class::{Class, gives_of};
use arc_spec::sort_counts::SortCounts;
use indexmap::IndexSet;
use std::alloc::{AllocError, Global};

/// Selectors in the order of their numbers.
pub type Selectors<'a> = IndexSet<&'a [u8]>;

/// The selectors of the root's methods, in the order of their numbers.
const BUILT_IN_SELECTORS: [&[u8]; 8] = [
    b"alloc",
    b"new",
    b"init",
    b"dealloc",
    b"isKindOfClass:",
    b"isMemberOfClass:",
    b"respondsToSelector:",
    b"conformsToProtocol:",
];

/// Adds the selectors of methods that are declared.
fn add_heads<'a>(names: &mut Selectors<'a>, heads: &'a [MethodHead]) -> Result<(), AllocError>
    ensures { OnOk result (names_of names.new.keys ≡ with_selectors (names_of names.old.keys) (head_trees heads.now)) }
{
    for head in heads {
        names.insert(&head.selector)?;
    }
    Ok(())
}

/// Adds the selectors of methods that are defined.
fn add_methods<'a>(names: &mut Selectors<'a>, methods: &'a [Method]) -> Result<(), AllocError>
    ensures { OnOk result (names_of names.new.keys ≡ with_selectors (names_of names.old.keys) (heads (method_trees methods.now))) }
{
    for method in methods {
        names.insert(&method.head.selector)?;
    }
    Ok(())
}

/// Adds the selectors of the methods of implementations.
fn add_defined<'a>(
    names: &mut Selectors<'a>,
    implementations: &'a [Implementation],
) -> Result<(), AllocError>
    ensures { OnOk result (names_of names.new.keys ≡ defined_selectors (names_of names.old.keys) (implementation_trees implementations.now)) }
{
    for implementation in implementations {
        add_methods(names, &implementation.methods)?;
    }
    Ok(())
}

/// Adds the selectors of the methods of the implementations up to the first that doesn't stand before
/// the place, and returns those from it on.
fn add_defined_before<'a>(
    names: &mut Selectors<'a>,
    implementations: &'a [Implementation],
    at: usize,
) -> Result<&'a [Implementation], AllocError>
    ensures added { OnOk result (names_of names.new.keys
        ≡ defined_selectors (names_of names.old.keys) (standing_before at (implementation_trees implementations.now))) }
    ensures rest { IfOk result (λ rest. implementation_trees rest.now ≡ standing_after at (implementation_trees implementations.now)) }
{
    let mut count = 0;
    for implementation in implementations {
        if implementation.at >= at {
            return Ok(&implementations[count..]);
        }
        add_methods(names, &implementation.methods)?;
        count += 1;
    }
    Ok(&implementations[count..])
}

/// Adds the selectors of all methods in the order of the file.
fn add_in_order<'a>(
    names: &mut Selectors<'a>,
    interfaces: &'a [Interface],
    implementations: &'a [Implementation],
) -> Result<(), AllocError>
    ensures { OnOk result (names_of names.new.keys
        ≡ selectors_in_order (names_of names.old.keys) (interface_trees interfaces.now) (implementation_trees implementations.now)) }
{
    let mut rest = implementations;
    for interface in interfaces {
        rest = add_defined_before(names, rest, interface.at)?;
        add_heads(names, &interface.methods)?;
    }
    add_defined(names, rest)
}

/// Adds names in their order.
fn add_names<'a>(names: &mut Selectors<'a>, added: &[&'a [u8]]) -> Result<(), AllocError>
    ensures { OnOk result (names_of names.new.keys ≡ fold and_name (names_of names.old.keys) (names_of added.now)) }
{
    for name in added {
        names.insert(*name)?;
    }
    Ok(())
}

/// Adds the selectors of a source, where there are none yet.
fn add_selectors<'a>(names: &mut Selectors<'a>, unit: &'a TranslationUnit) -> Result<(), AllocError>
    requires { names_of names.old.keys ≡ [] }
    ensures { OnOk result (names_of names.new.keys ≡ selectors (unit_tree unit.now)) }
{
    add_names(names, &BUILT_IN_SELECTORS)?;
    add_in_order(names, &unit.interfaces, &unit.implementations)
}

/// The selectors of a source.
pub fn selectors<'a>(alloc: Global, unit: &'a TranslationUnit) -> Result<Selectors<'a>, AllocError>
    ensures { IfOk result (λ names. names_of names.keys ≡ selectors (unit_tree unit.now)) }
{
    let mut names = Selectors::new(alloc);
    add_selectors(&mut names, unit)?;
    Ok(names)
}

/// The number of the selector, and 0 for one that has none.
fn selector_number<'a>(selectors: &Selectors<'a>, name: &'a [u8]) -> usize
    ensures { result ≡ unwrap_or (number_among (names_of selectors.now.keys) name.now) 0 }
{
    match selectors.get_index_of(&name) {
        None => 0,
        Some(number) => number,
    }
}

/// Whether the method ends the objects of its class.
fn is_dealloc(head: &MethodHead) -> bool
    ensures { result ≡ classes.is_dealloc (head_tree head.now) }
{
    let selector: &[u8] = &head.selector;
    head.sign == Sign::Instance && selector == b"dealloc".as_slice()
}

/// The method as a running program knows it, which runs this function.
fn method_of<'a>(selectors: &Selectors<'a>, runs: usize, head: &'a MethodHead) -> class::Method
    ensures { result ≡ method_made (names_of selectors.now.keys) runs (head_tree head.now) }
{
    let passed = parameter_counts(&head.parameters);
    class::Method {
        sign: head.sign,
        selector: selector_number(selectors, &head.selector),
        takes: passed.numbers,
        objects: passed.objects,
        gives: gives_of(head.result.kind()),
        runs,
    }
}

/// Adds the method, which runs this function, unless it ends objects.
fn add_method<'a>(
    all: &mut Vec<class::Method>,
    selectors: &Selectors<'a>,
    runs: usize,
    head: &'a MethodHead,
) -> Result<(), AllocError>
    ensures { OnOk result (all.new.items ≡ with_method (names_of selectors.now.keys) runs (head_tree head.now) all.old.items) }
{
    if is_dealloc(head) {
        return Ok(());
    }
    all.push(method_of(selectors, runs, head))?;
    Ok(())
}

/// The methods as a running program knows them, where the first of them runs the function with
/// this number. Memory: there was none, or so many methods have no numbers.
fn methods_from<'a>(
    alloc: Global,
    selectors: &Selectors<'a>,
    first: usize,
    methods: &'a [Method],
) -> Result<Vec<class::Method>, ClassFault>
    ensures made { IfOk result (λ all. (u : UnitTree) → names_of selectors.now.keys ≡ classes.selectors u → all.items ≡ methods_from u first (method_trees methods.now)) }
    ensures refused { IfErr result (λ fault. fault ≡ Memory) }
{
    let mut all = Vec::new(alloc);
    let mut runs = first;
    for method in methods {
        add_method(&mut all, selectors, runs, &method.head)?;
        if runs == usize::MAX {
            return Err(ClassFault::Memory);
        }
        runs += 1;
    }
    Ok(all)
}

/// The function that the first of the methods runs that ends objects, where the first method runs
/// the function with this number. Memory: so many methods have no numbers.
fn dealloc_from(first: usize, methods: &[Method]) -> Result<Option<usize>, ClassFault>
    ensures found { IfOk result (λ function. function ≡ dealloc_from first (method_trees methods.now)) }
    ensures refused { IfErr result (λ fault. fault ≡ Memory) }
    ensures too_many { IfErr result (λ fault. usize.MAX < first + length methods.now) }
{
    let mut runs = first;
    for method in methods {
        if is_dealloc(&method.head) {
            return Ok(Some(runs));
        }
        if runs == usize::MAX {
            return Err(ClassFault::Memory);
        }
        runs += 1;
    }
    Ok(None)
}

/// What a table knows of the root.
fn root_entry<'a>(alloc: Global) -> Entry<'a>
    ensures { (names : Named Place) → entry_tree names result ≡ root_entry }
{
    Entry {
        superclass: None,
        methods: Heads::new(alloc),
    }
}

impl<'a> Source<'a> {
    /// The methods that the first implementation of the name defines.
    fn defined_methods(&self, name: &'a [u8]) -> &'a [Method]
        requires { Knows (unit_tree self.now.unit.now) self.now }
        ensures { method_trees result.now ≡ defined_by (unit_tree self.now.unit.now).implementations name.now }
    {
        match at_name(&self.implemented, name) {
            None => &[],
            Some(own) => &own.implementation.methods,
        }
    }

    /// Keeps the methods that a class's interface declares and its implementation defines: the first by position of each sign and selector.
    fn keep_own_methods(
        &self,
        interface: &'a Interface,
        map: &mut Heads<'a>,
    ) -> Result<(), AllocError>
        requires knows { Knows (unit_tree self.now.unit.now) self.now }
        requires none { (sign : Sign) (sought : List ℕ) → head_in map.old sign sought ≡ None }
        ensures { OnOk result ((sign : Sign) (sought : List ℕ) → head_in map.new sign sought
            ≡ first_head sign sought (own_heads (unit_tree self.now.unit.now) (interface_tree interface.now))) }
    {
        let defined = self.defined_methods(&interface.name);
        if self.implemented_before(&interface.name, interface.at) {
            map.keep_methods(defined)?;
            return map.keep_heads(&interface.methods);
        }
        map.keep_heads(&interface.methods)?;
        map.keep_methods(defined)
    }

    /// The methods that a class's interface declares and its implementation defines.
    fn own_methods(&self, alloc: Global, interface: &'a Interface) -> Result<Heads<'a>, AllocError>
        requires { Knows (unit_tree self.now.unit.now) self.now }
        ensures { IfOk result (λ map. (sign : Sign) (sought : List ℕ) → head_in map sign sought
            ≡ first_head sign sought (own_heads (unit_tree self.now.unit.now) (interface_tree interface.now))) }
    {
        let mut map = Heads::new(alloc);
        self.keep_own_methods(interface, &mut map)?;
        Ok(map)
    }

    /// What a table knows of the interface's class.
    fn entry_of(&self, alloc: Global, interface: &'a Interface) -> Result<Entry<'a>, AllocError>
        requires { Knows (unit_tree self.now.unit.now) self.now }
        ensures { IfOk result (λ entry. entry_tree self.now.names entry ≡ class_entry (unit_tree self.now.unit.now) (interface_tree interface.now)) }
    {
        let superclass = class_number(&self.names, &interface.superclass);
        let methods = self.own_methods(alloc, interface)?;
        Ok(Entry {
            superclass,
            methods,
        })
    }

    /// What a table knows of each class.
    pub fn entries(&self, alloc: Global) -> Result<Vec<Entry<'a>>, AllocError>
        requires { Knows (unit_tree self.now.unit.now) self.now }
        ensures { IfOk result (λ entries. map (entry_tree self.now.names) entries.items ≡ root_entry ∷ map (class_entry (unit_tree self.now.unit.now)) (unit_tree self.now.unit.now).interfaces) }
    {
        let mut entries = Vec::new(alloc);
        entries.push(root_entry(alloc))?;
        for interface in &self.unit.interfaces {
            let entry = self.entry_of(alloc, interface)?;
            entries.push(entry)?;
        }
        Ok(entries)
    }

    /// The interface's class as a running program knows it, whose objects have so many fields of each sort.
    /// Memory: there was none, or so many methods have no numbers.
    fn class_of(
        &self,
        alloc: Global,
        selectors: &Selectors<'a>,
        fields: SortCounts,
        interface: &'a Interface,
    ) -> Result<Class, ClassFault>
        requires knows { Knows (unit_tree self.now.unit.now) self.now }
        requires selectors { names_of selectors.now.keys ≡ classes.selectors (unit_tree self.now.unit.now) }
        ensures made { IfOk result (λ class. class_of class ≡ class_with (unit_tree self.now.unit.now) fields (interface_tree interface.now)) }
        ensures refused { IfErr result (λ fault. fault ≡ Memory) }
    {
        let superclass = class_number(&self.names, &interface.superclass);
        let Some(own) = at_name(&self.implemented, &interface.name) else {
            let methods = Vec::new(alloc);
            return Ok(Class {
                superclass,
                methods,
                dealloc: None,
                fields,
            });
        };
        let all: &'a [Method] = &own.implementation.methods;
        let methods = methods_from(alloc, selectors, own.first, all)?;
        let dealloc = dealloc_from(own.first, all)?;
        Ok(Class {
            superclass,
            methods,
            dealloc,
            fields,
        })
    }

    /// The classes as a running program knows them. Memory: there was none, or so many methods
    /// have no numbers.
    pub fn classes(
        &self,
        alloc: Global,
        selectors: &Selectors<'a>,
        fields: &[ClassFields<'a>],
    ) -> Result<Vec<Class>, ClassFault>
        requires knows { Knows (unit_tree self.now.unit.now) self.now }
        requires selectors { names_of selectors.now.keys ≡ classes.selectors (unit_tree self.now.unit.now) }
        requires fields { map fields_tree fields.now ≡ all_class_fields (unit_tree self.now.unit.now) }
        ensures made { IfOk result (λ all. classes_of all.items ≡ running.classes (unit_tree self.now.unit.now)) }
        ensures refused { IfErr result (λ fault. fault ≡ Memory) }
    {
        let mut classes = Vec::new(alloc);
        classes.push(Class {
            superclass: None,
            methods: Vec::new(alloc),
            dealloc: None,
            fields: SortCounts::none(),
        })?;
        let mut number = 0;
        for interface in &self.unit.interfaces {
            number += 1;
            let counted = counted_among(fields, Some(number));
            let class = self.class_of(alloc, selectors, counted, interface)?;
            classes.push(class)?;
        }
        Ok(classes)
    }
}

/// What a table has of a source's classes and selectors.
#[derive(Drop)]
pub struct Parts<'a> {
    pub selectors: Selectors<'a>,
    pub entries: Vec<Entry<'a>>,
    pub fields: Vec<Vec<Field<'a>>>,
    pub classes: Vec<Class>,
    pub built_in: BuiltIn,
}

impl<'a> Parts<'a> {
    /// The parts of the table of a source whose names and fields are known. Memory: there was none,
    /// or so many methods have no numbers.
    pub fn of(
        alloc: Global,
        source: &Source<'a>,
        named_fields: &[ClassFields<'a>],
    ) -> Result<Parts<'a>, ClassFault>
        requires knows { Knows (unit_tree source.now.unit.now) source.now }
        requires fields { map fields_tree named_fields.now ≡ all_class_fields (unit_tree source.now.unit.now) }
        ensures parts { IfOk result (λ parts. ArePartsOf source.now parts) }
        ensures refused { IfErr result (λ fault. fault ≡ Memory) }
    {
        let built_in = BuiltIn::from(source.function_count)?;
        let entries = source.entries(alloc)?;
        let fields = source.all_fields(alloc)?;
        let selectors = selectors(alloc, source.unit)?;
        let classes = source.classes(alloc, &selectors, named_fields)?;
        Ok(Parts {
            selectors,
            entries,
            fields,
            classes,
            built_in,
        })
    }
}

/// The parts of a table, and which class has the nearest method of each selector.
#[derive(Drop)]
pub struct PartsAndOwners<'a> {
    pub parts: Parts<'a>,
    pub class_methods: Owners<'a>,
    pub instance_methods: Owners<'a>,
}

/// The parts of the table of a source whose names and fields are known, and what finds its methods. Memory: there was
/// none, or so many methods have no numbers.
pub fn parts_and_owners<'a>(
    alloc: Global,
    source: &Source<'a>,
    named_fields: &[ClassFields<'a>],
) -> Result<PartsAndOwners<'a>, ClassFault>
    requires knows { Knows (unit_tree source.now.unit.now) source.now }
    requires fields { map fields_tree named_fields.now ≡ all_class_fields (unit_tree source.now.unit.now) }
    ensures parts { IfOk result (λ all. ArePartsOf source.now all.parts) }
    ensures class_methods { IfOk result (λ all. FindsMethods all.parts.entries.items signs.Class all.class_methods) }
    ensures instance_methods { IfOk result (λ all. FindsMethods all.parts.entries.items signs.Instance all.instance_methods) }
    ensures refused { IfErr result (λ fault. fault ≡ Memory) }
{
    let parts = Parts::of(alloc, source, named_fields)?;
    let selectors = parts.selectors.len();
    let class_methods = method_owners(alloc, &parts.entries, selectors, Sign::Class)?;
    let instance_methods = method_owners(alloc, &parts.entries, selectors, Sign::Instance)?;
    Ok(PartsAndOwners {
        parts,
        class_methods,
        instance_methods,
    })
}
