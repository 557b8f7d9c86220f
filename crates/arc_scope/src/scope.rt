//! The variables that are visible at a place of a body.
ghost use Rattle.std.specs.Prelude.{◌≡◌, ◌+◌, ◌<◌, ◌≤◌, true, not, option_map, OnOk, take, length, if◌then◌else◌};
ghost use Rattle.arc_class.specs.declared.table.ClassTable.{ClassTable};
ghost use Rattle.arc_class.specs.Table.{number_of_class};
ghost use Rattle.arc_ast.specs.Tree.{type_tree, parameter_trees, head_tree};
ghost use Rattle.arc_spec.specs.Families as families;
ghost use Rattle.arc_scope.specs.Scopes.{of_method};
ghost use Rattle.arc_scope.specs.Scopes as scopes;
ghost use Rattle.arc_scope.specs.Views.{class_itself, local_of, local_in, known_in, seen};

use arc_ast::tree::{Kind, MethodHead, Parameter, Sign, TypeName};
use arc_class::table::{ClassId, ClassTable};
use arc_spec::family::method_family;
use arc_spec::location::Location;
use arc_spec::signature::Family;
use std::alloc::{AllocError, Global};

/// A variable, by where it is: one that holds a number, or one that names objects.
#[derive(Clone, Copy)]
pub enum Local {
    /// A number of a kind.
    Number(Kind, Location),
    /// One that names objects, with its static class, of which `id` has none.
    Object(Location, Option<ClassId>),
}

/// A variable that is visible, and its name.
#[derive(Clone, Copy)]
pub struct Bound<'a> {
    pub name: &'a [u8],
    pub local: Local,
}

/// How many parameters and variables of both sorts a body has at most.
const MOST_VARIABLES: u32 = 200;

/// The visible variables, outer ones first.
#[derive(Drop)]
pub struct Visible<'a> {
    /// The class in whose method they are.
    pub class: Option<ClassId>,
    /// The sign of that method.
    pub sign: Sign,
    /// The kind of what the function or the method gives.
    pub result: Kind,
    /// Whether the method owns `self`, which is the first variable then that names an object.
    pub owns: bool,
    /// How many variables without a name come before all others: 1 for `self` in a class method and in a method that
    /// owns it, and else 0.
    pub hidden: u8,
    pub bound: Vec<Bound<'a>>,
    /// The number that the next variable gets that is a number.
    pub next: u16,
    /// The number that the next variable gets that names objects.
    pub names: u16,
}

impl<'a> Visible<'a> {
    /// Before the parameters of a function that gives a value of the kind.
    pub fn new(alloc: Global, gives: Kind) -> Visible<'a>
        ensures { (table : ClassTable) → seen table result ≡ scopes.outermost (known_in table) gives }
    {
        Visible {
            class: None,
            sign: Sign::Class,
            result: gives,
            owns: false,
            hidden: 0,
            bound: Vec::new(alloc),
            next: 0,
            names: 0,
        }
    }

    /// Before the parameters of a method of the class.
    pub fn in_method(alloc: Global, class: Option<ClassId>, head: &MethodHead) -> Visible<'a>
        ensures { (table : ClassTable) → seen table result ≡ of_method (known_in table) (option_map number_of_class class) (head_tree head.now) }
    {
        let gives = head.result.kind();
        let owns = is_init_method(head.sign, &head.selector, gives);
        let hidden = hidden_in(head.sign);
        let owned = owned_in(owns);
        Visible {
            class,
            sign: head.sign,
            result: gives,
            owns,
            hidden: hidden + owned,
            bound: Vec::new(alloc),
            next: u16::from(hidden),
            names: u16::from(owned),
        }
    }

    /// The class of the objects that the method is sent to; None in class methods, and outside
    /// methods.
    pub fn own_class(&self) -> Option<ClassId>
        ensures { (table : ClassTable) → option_map number_of_class result ≡ scopes.own_class (seen table self.now) }
    {
        match self.sign {
            Sign::Class => None,
            Sign::Instance => self.class,
        }
    }

    /// The class that `self` is in a class method.
    pub fn class_itself(&self) -> Option<ClassId>
        ensures { (table : ClassTable) → option_map number_of_class result ≡ class_itself (seen table self.now) }
    {
        match self.sign {
            Sign::Class => self.class,
            Sign::Instance => None,
        }
    }

    /// Whether there is place for one variable more.
    fn has_place(&self) -> bool
        ensures scope { (table : ClassTable) → result ≡ scopes.has_place (seen table self.now) }
        ensures small { result ≡ true → self.now.next + self.now.names < 455 }
    {
        let (next, names, hidden) = (self.next, self.names, self.hidden);
        u32::from(next) + u32::from(names) < MOST_VARIABLES + u32::from(hidden)
    }

    /// Whether there is no place for a further variable.
    pub fn is_full(&self) -> bool
        ensures { (table : ClassTable) → result ≡ not (scopes.has_place (seen table self.now)) }
    {
        !self.has_place()
    }

    /// The variable of the body that the name means: the last one that has it.
    pub fn local(&self, name: &[u8]) -> Option<Local>
        ensures { option_map local_of result ≡ local_in self.now.bound.items name.now }
    {
        let mut left = self.bound.len();
        while left > 0 {
            left -= 1;
            let one = self.bound[left];
            if one.name == name {
                return Some(one.local);
            }
        }
        None
    }

    /// A number of the kind more.
    #[inline(always)]
    fn declare_number(&mut self, name: &'a [u8], kind: Kind) -> Result<(), AllocError>
        ensures scope { OnOk result ((table : ClassTable) → seen table self.new
            ≡ (if scopes.has_place (seen table self.old) then scopes.with_number name.now kind (seen table self.old) else seen table self.old)) }
        ensures keeps { OnOk result (take (length self.old.bound.items) self.new.bound.items ≡ self.old.bound.items) }
    {
        if self.has_place() {
            self.bound.push(Bound {
                name,
                local: Local::Number(kind, Location::Local(usize::from(self.next))),
            })?;
            self.next += 1;
        }
        Ok(())
    }

    /// A variable more that names objects of the class, or of any.
    fn declare_object(&mut self, name: &'a [u8], class: Option<ClassId>) -> Result<(), AllocError>
        ensures scope { OnOk result ((table : ClassTable) → seen table self.new
            ≡ (if scopes.has_place (seen table self.old) then scopes.with_object name.now (option_map number_of_class class) (seen table self.old) else seen table self.old)) }
        ensures keeps { OnOk result (take (length self.old.bound.items) self.new.bound.items ≡ self.old.bound.items) }
    {
        if self.has_place() {
            self.bound.push(Bound {
                name,
                local: Local::Object(Location::Local(usize::from(self.names)), class),
            })?;
            self.names += 1;
        }
        Ok(())
    }

    /// A variable more, of the type.
    #[inline(always)]
    pub fn declare(
        &mut self,
        table: &ClassTable<'a>,
        type_name: &'a TypeName,
        name: &'a [u8],
    ) -> Result<(), AllocError>
        ensures scope { OnOk result (seen table.now self.new ≡ scopes.declare name.now (type_tree type_name.now) (seen table.now self.old)) }
        ensures keeps { OnOk result (take (length self.old.bound.items) self.new.bound.items ≡ self.old.bound.items) }
    {
        match type_name {
            TypeName::Bool => self.declare_number(name, Kind::Bool),
            TypeName::Int => self.declare_number(name, Kind::Int),
            TypeName::Long => self.declare_number(name, Kind::Long),
            TypeName::Id => self.declare_object(name, None),
            TypeName::Object(_, class) => self.declare_object(name, table.objc_get_class(class)),
        }
    }

    /// Some parameters more.
    pub fn declare_parameters(
        &mut self,
        table: &ClassTable<'a>,
        all: &'a [Parameter],
    ) -> Result<(), AllocError>
        ensures { OnOk result (seen table.now self.new ≡ scopes.with_parameters (seen table.now self.old) (parameter_trees all.now)) }
    {
        for parameter in all {
            self.declare(table, &parameter.type_name, &parameter.name)?;
        }
        Ok(())
    }

    /// Forgets the names of all but the first `count` variables.
    pub fn leave(&mut self, count: usize)
        ensures bound { self.new.bound.items ≡ take count self.old.bound.items }
        ensures next { self.new.next ≡ self.old.next }
        ensures names { self.new.names ≡ self.old.names }
        ensures class { self.new.class ≡ self.old.class }
        ensures sign { self.new.sign ≡ self.old.sign }
        ensures gives { self.new.result ≡ self.old.result }
        ensures owns { self.new.owns ≡ self.old.owns }
        ensures hidden { self.new.hidden ≡ self.old.hidden }
    {
        self.bound.truncate(count);
    }
}

/// Whether a method of the family is one of init, whose `self` it owns.
fn is_init(family: Family) -> bool
    ensures { result ≡ families.is_init family }
{
    matches!(family, Family::Init)
}

/// Whether a method that gives a value of the kind is one of init. All of those give objects.
fn is_init_method(sign: Sign, selector: &[u8], gives: Kind) -> bool
    ensures { result ≡ families.is_init (families.method_family sign selector.now gives) }
{
    match gives {
        Kind::Object => is_init(method_family(sign, selector, gives)),
        Kind::Void | Kind::Bool | Kind::Int | Kind::Long => false,
    }
}

/// How many variables without a name a method has that name objects: one where it owns `self`, and else none.
pub fn owned_in(owns: bool) -> u8
    ensures small { result ≤ 1 }
    ensures number { result ≡ scopes.owned_in owns }
{
    if owns { 1 } else { 0 }
}

/// How many numbers without a name a method of the sign has.
fn hidden_in(sign: Sign) -> u8
    ensures small { result ≤ 1 }
    ensures number { result ≡ scopes.hidden_in sign }
{
    match sign {
        Sign::Class => 1,
        Sign::Instance => 0,
    }
}
