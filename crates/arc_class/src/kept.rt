//! What is kept of the names of a source: the first that each of them is declared with.
ghost use Rattle.std.specs.Prelude.{◌≡◌, ◌<◌, ℕ, List, IfOk, IfErr};
ghost use Rattle.arc_ast.specs.declared.tree.Sign.{Sign};
ghost use Rattle.arc_ast.specs.Tree.{InterfaceTree, unit_tree, function_trees, global_tree, global_trees, interface_trees, implementation_trees};
ghost use Rattle.arc_ast.specs.Types.{type_kind};
ghost use Rattle.arc_class.specs.Classes as classes;
ghost use Rattle.arc_class.specs.Classes.{class_number, first_head, declared, defined, implemented_before};
ghost use Rattle.arc_fault.specs.declared.class.ClassFault.TheVariants.{Memory};
ghost use Rattle.arc_class.specs.Globals.{known_global, variable_after};
ghost use Rattle.arc_class.specs.KeptNames.{head_in, function_kept, places, implemented_in, Knows};
ghost use Rattle.arc_class.specs.FunctionNames as names;
ghost use Rattle.arc_class.specs.FunctionNames.{first_named};
ghost use Rattle.arc_class.specs.RuntimeClasses.{implemented};
ghost use Rattle.arc_class.specs.Table.{at_name, class_number_in};

use crate::by_name::ByName;
use crate::counting::one_more;
use crate::heads::{Heads, keep_first};
use crate::table::{Known, Names, Place, Variable, Variables, at_name, type_class};
use arc_ast::tree;
use arc_ast::tree::{Function, Implementation, Interface, Method, TranslationUnit};
use arc_fault::class::ClassFault;
use arc_spec::sort_counts::{SortCounts, held_by};
use std::alloc::{AllocError, Global};

/// A function for each name.
pub type Functions<'a> = ByName<'a, &'a Function>;

/// An implementation, and the number of the function that the first of its methods runs.
#[derive(Clone, Copy)]
pub struct Implemented<'a> {
    pub first: usize,
    pub implementation: &'a Implementation,
}

/// A source, and what is known of its names.
#[derive(Drop)]
pub struct Source<'a> {
    pub unit: &'a TranslationUnit,
    pub known: Known<'a>,
    /// The first function of each name.
    pub functions: Functions<'a>,
    /// The first global variable of each name.
    pub globals: Variables<'a>,
    /// The first interface of each name.
    pub names: Names<'a>,
    /// The first implementation of each name.
    pub implemented: ByName<'a, Implemented<'a>>,
    /// How many functions there are, with those that methods run.
    pub function_count: usize,
    /// The first method of each sign and selector, of those that interfaces declare.
    pub declared: Heads<'a>,
    /// The first method of each sign and selector, of those that implementations define.
    pub defined: Heads<'a>,
}

/// How many methods interfaces declare, as far as there is a number for it.
fn declared_count(interfaces: &[Interface]) -> usize {
    let mut count = 0_usize;
    for interface in interfaces {
        count = count.saturating_add(interface.methods.len());
    }
    count
}

/// How many methods implementations define, as far as there is a number for it.
fn defined_count(implementations: &[Implementation]) -> usize {
    let mut count = 0_usize;
    for implementation in implementations {
        count = count.saturating_add(implementation.methods.len());
    }
    count
}

/// The first method of each sign and selector that interfaces declare.
fn declared_heads<'a>(alloc: Global, interfaces: &'a [Interface]) -> Result<Heads<'a>, AllocError>
    ensures { IfOk result (λ map. (sign : Sign) (selector : List ℕ) → head_in map sign selector ≡ first_head sign selector (declared (interface_trees interfaces.now))) }
{
    let mut map = Heads::with_room(alloc, declared_count(interfaces))?;
    for interface in interfaces {
        map.keep_heads(&interface.methods)?;
    }
    Ok(map)
}

/// The first method of each sign and selector that implementations define.
fn defined_heads<'a>(
    alloc: Global,
    implementations: &'a [Implementation],
) -> Result<Heads<'a>, AllocError>
    ensures { IfOk result (λ map. (sign : Sign) (selector : List ℕ) → head_in map sign selector ≡ first_head sign selector (defined (implementation_trees implementations.now))) }
{
    let mut map = Heads::with_room(alloc, defined_count(implementations))?;
    for implementation in implementations {
        map.keep_methods(&implementation.methods)?;
    }
    Ok(map)
}

/// The first function of each name.
fn first_functions<'a>(
    alloc: Global,
    functions: &'a [Function],
) -> Result<Functions<'a>, AllocError>
    ensures { IfOk result (λ map. (sought : List ℕ) → function_kept map sought ≡ first_named sought (function_trees functions.now)) }
{
    let mut map = Functions::with_room(alloc, functions.len())?;
    for function in functions {
        keep_first(&mut map, &function.name, function)?;
    }
    Ok(map)
}

/// A global variable after so many of each sort.
fn variable<'a>(names: &Names<'a>, before: SortCounts, global: &'a tree::Global) -> Variable
    ensures variable { (interfaces : List InterfaceTree) → ((sought : List ℕ) → class_number_in names.now sought ≡ class_number interfaces sought)
        → result ≡ variable_after interfaces before (global_tree global.now) }
    ensures kind { result.kind ≡ type_kind (global_tree global.now).type }
{
    let kind = global.type_name.kind();
    Variable {
        number: before.next(held_by(kind)),
        kind,
        class: type_class(names, &global.type_name),
        at: global.at,
    }
}

/// The first global variable of each name, where classes have these names. Memory: there was none for the map, or so many
/// variables have no numbers.
fn first_globals<'a>(
    alloc: Global,
    names: &Names<'a>,
    globals: &'a [tree::Global],
) -> Result<Variables<'a>, ClassFault>
    ensures kept { (interfaces : List InterfaceTree) → ((sought : List ℕ) → class_number_in names.now sought ≡ class_number interfaces sought)
        → IfOk result (λ map. (sought : List ℕ) → at_name map sought ≡ known_global interfaces (global_trees globals.now) sought) }
    ensures refused { IfErr result (λ fault. fault ≡ Memory) }
{
    let mut map = Variables::with_room(alloc, globals.len())?;
    let mut before = SortCounts::none();
    for global in globals {
        let variable = variable(names, before, global);
        keep_first(&mut map, &global.name, variable)?;
        before = one_more(before, held_by(variable.kind))?;
    }
    Ok(map)
}

/// The first interface of each name. Their classes are numbered from 1, after the root.
fn class_places<'a>(alloc: Global, interfaces: &'a [Interface]) -> Result<Names<'a>, AllocError>
    ensures { IfOk result (λ map. (sought : List ℕ) → at_name map sought ≡ places 1 (interface_trees interfaces.now) sought) }
{
    let mut map = Names::with_room(alloc, interfaces.len())?;
    let mut number = 0;
    for interface in interfaces {
        number += 1;
        let place = Place {
            number,
            at: interface.at,
        };
        keep_first(&mut map, &interface.name, place)?;
    }
    Ok(map)
}

/// The first implementation of each name, where the first method of all runs the function with
/// this number. Memory: there was none for the map, or so many methods have no numbers.
fn first_implementations<'a>(
    alloc: Global,
    first: usize,
    implementations: &'a [Implementation],
) -> Result<ByName<'a, Implemented<'a>>, ClassFault>
    ensures kept { IfOk result (λ map. (sought : List ℕ) → implemented_in map sought ≡ implemented first (implementation_trees implementations.now) sought) }
    ensures refused { IfErr result (λ fault. fault ≡ Memory) }
{
    let mut map = ByName::with_room(alloc, implementations.len())?;
    let mut first = first;
    for implementation in implementations {
        let own = Implemented {
            first,
            implementation,
        };
        keep_first(&mut map, &implementation.name, own)?;
        let methods: &'a [Method] = &implementation.methods;
        if methods.len() > usize::MAX - first {
            return Err(ClassFault::Memory);
        }
        first += methods.len();
    }
    Ok(map)
}

/// How many functions there are with those that methods run, after so many. Memory: they have no
/// numbers.
fn numbers_after(first: usize, implementations: &[Implementation]) -> Result<usize, ClassFault>
    ensures counted { IfOk result (λ count. count ≡ classes.numbers_after first (implementation_trees implementations.now)) }
    ensures refused { IfErr result (λ fault. fault ≡ Memory) }
    ensures too_many { IfErr result (λ fault. usize.MAX < classes.numbers_after first (implementation_trees implementations.now)) }
{
    let mut count = first;
    for implementation in implementations {
        let methods: &[Method] = &implementation.methods;
        if methods.len() > usize::MAX - count {
            return Err(ClassFault::Memory);
        }
        count += methods.len();
    }
    Ok(count)
}

impl<'a> Source<'a> {
    /// What is known of the names of a source, of whose functions this is known, and so many of them have a body.
    /// Memory: there was none, or so many methods have no numbers.
    pub fn new(
        alloc: Global,
        unit: &'a TranslationUnit,
        known: Known<'a>,
        bodies: usize,
    ) -> Result<Source<'a>, ClassFault>
        requires known { (name : List ℕ) → at_name known name ≡ names.known (unit_tree unit.now).functions name }
        requires bodies { bodies ≡ classes.bodies (unit_tree unit.now).functions }
        ensures knows { IfOk result (λ source. Knows (unit_tree unit.now) source) }
        ensures unit { IfOk result (λ source. source.unit.now ≡ unit.now) }
        ensures refused { IfErr result (λ fault. fault ≡ Memory) }
    {
        let functions = first_functions(alloc, &unit.functions)?;
        let names = class_places(alloc, &unit.interfaces)?;
        let globals = first_globals(alloc, &names, &unit.globals)?;
        let implemented = first_implementations(alloc, bodies, &unit.implementations)?;
        let function_count = numbers_after(bodies, &unit.implementations)?;
        let declared = declared_heads(alloc, &unit.interfaces)?;
        let defined = defined_heads(alloc, &unit.implementations)?;
        Ok(Source {
            unit,
            known,
            functions,
            globals,
            names,
            implemented,
            function_count,
            declared,
            defined,
        })
    }

    /// Whether the first implementation of the name stands before the place.
    pub fn implemented_before(&self, name: &'a [u8], at: usize) -> bool
        requires { Knows (unit_tree self.now.unit.now) self.now }
        ensures { result ≡ implemented_before (unit_tree self.now.unit.now).implementations name.now at }
    {
        match at_name(&self.implemented, name) {
            None => false,
            Some(own) => own.implementation.at < at,
        }
    }
}
