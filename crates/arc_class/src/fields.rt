//! The fields of objects.
ghost use Rattle.std.specs.Prelude.{◌≡◌, ℕ, List, [], ◌++◌, length, map, option_map, slice_get, suc, IfOk, IfErr, OnOk};
ghost use Rattle.arc_ast.specs.Tree.{UnitTree, FieldTree, InterfaceTree, unit_tree, interface_tree, field_tree as written_field, field_trees};
ghost use Rattle.arc_class.specs.BrokenRules.{first};
ghost use Rattle.arc_class.specs.Classes.{class_number};
ghost use Rattle.arc_class.specs.ClassRules as rules;
ghost use Rattle.arc_class.specs.ClassRules.{broken_field, broken_fields, broken_pair};
ghost use Rattle.arc_fault.specs.declared.class.ClassFault.TheVariants.{Memory};
ghost use Rattle.arc_class.specs.private.Entries.{own_trees, fields_tree, root_fields, all_class_fields, class_fields_with, counted_among, inherited_place};
ghost use Rattle.arc_class.specs.Fault.{reported};
ghost use Rattle.arc_class.specs.Fields as specs;
ghost use Rattle.arc_class.specs.Fields.{numbered, field_after, field_sort, written_sorts, owned, fields_declared, all_fields_from};
ghost use Rattle.arc_class.specs.KeptNames.{Knows};
ghost use Rattle.arc_class.specs.Lookups.{at_name, class_number_in, own_field_in, own_place_in, field_among, place_among, field_tree, list_of, list_among, number_of_class, least_of};
ghost use Rattle.arc_class.specs.Owners.{FindsFields};
ghost use Rattle.arc_spec.specs.Sorts.{with_all};
ghost use Rattle.std.specs.Option.{option_or};

use crate::by_name::ByName;
use crate::counting::one_more;
use crate::fault::fault_if;
use crate::heads::keep_first;
use crate::kept::Source;
use crate::owners::Owners;
use crate::table::{ClassId, Field, FoundField, Names, at_name, class_number, type_class};
use arc_ast::tree;
use arc_ast::tree::{Interface, Qual};
use arc_fault::class::ClassFault;
use arc_sites::violation::earlier;
use arc_spec::sort_counts::{SortCounts, sort_of};
use std::alloc::{AllocError, Global};

/// The place of the first field of each name.
pub type FieldPlaces<'a> = ByName<'a, usize>;

/// The fields that a class declares: those in its interface's braces and those in its
/// implementation's, in the order in which these stand in the file.
#[derive(Clone, Copy)]
pub struct OwnFields<'a> {
    pub earlier: &'a [tree::Field],
    pub later: &'a [tree::Field],
}

/// What is known of the fields of a class.
#[derive(Drop)]
pub struct ClassFields<'a> {
    /// The superclass that it inherits from.
    pub superclass: Option<usize>,
    /// The place of its own first field with each name.
    pub places: FieldPlaces<'a>,
    /// Its own fields.
    pub named: ByName<'a, FoundField>,
    /// How many fields its objects have of each sort, inherited ones too.
    pub counted: SortCounts,
}

/// Keeps the place of the first of the fields with each name.
fn keep_places<'a>(
    places: &mut FieldPlaces<'a>,
    fields: &'a [tree::Field],
) -> Result<(), AllocError>
    ensures { OnOk result ((sought : List ℕ)
        → at_name places.new sought ≡ option_or (at_name places.old sought) (rules.field_place sought (field_trees fields.now))) }
{
    for field in fields {
        keep_first(places, &field.name, field.at)?;
    }
    Ok(())
}

/// Keeps the place of the first of a class's fields with each name, where none is kept yet.
fn keep_own_places<'a>(places: &mut FieldPlaces<'a>, own: &OwnFields<'a>) -> Result<(), AllocError>
    requires { places.old ≡ [] }
    ensures { OnOk result ((sought : List ℕ) → at_name places.new sought ≡ rules.field_place sought (own_trees own.now)) }
{
    keep_places(places, own.earlier)?;
    keep_places(places, own.later)
}

/// The place of the first of the fields with each name.
pub fn field_places<'a>(alloc: Global, own: &OwnFields<'a>) -> Result<FieldPlaces<'a>, AllocError>
    ensures { IfOk result (λ places. (sought : List ℕ) → at_name places sought ≡ rules.field_place sought (own_trees own.now)) }
{
    let mut places = FieldPlaces::new(alloc);
    keep_own_places(&mut places, own)?;
    Ok(places)
}

/// How the field holds an object, if it names one.
fn field_sort(field: &tree::Field) -> Option<Qual>
    ensures { result ≡ field_sort (written_field field.now) }
{
    sort_of(field.qualifiers, field.type_name.kind())
}

/// A field of the class after so many of each sort, where classes have these names.
fn field_after<'a>(
    names: &Names<'a>,
    owner: ClassId,
    before: SortCounts,
    field: &'a tree::Field,
) -> FoundField
    ensures field { (interfaces : List InterfaceTree) → ((sought : List ℕ) → class_number_in names.now sought ≡ class_number interfaces sought)
        → result ≡ field_after interfaces (number_of_class owner) before (written_field field.now) }
    ensures sort { result.qual ≡ field_sort (written_field field.now) }
{
    let qual = field_sort(field);
    FoundField {
        owner,
        index: before.next(qual),
        kind: field.type_name.kind(),
        qual,
        class: type_class(names, &field.type_name),
        visibility: field.visibility,
    }
}

/// Keeps the first of the fields with each name, which come after so many of each sort, and gives how many there are then.
/// Memory: there was none, or so many fields have no numbers.
fn keep_fields<'a>(
    names: &Names<'a>,
    named: &mut ByName<'a, FoundField>,
    owner: ClassId,
    before: SortCounts,
    fields: &'a [tree::Field],
) -> Result<SortCounts, ClassFault>
    ensures kept { (interfaces : List InterfaceTree) → ((sought : List ℕ) → class_number_in names.now sought ≡ class_number interfaces sought) → OnOk result ((sought : List ℕ)
        → at_name named.new sought ≡ option_or (at_name named.old sought) (numbered interfaces (number_of_class owner) before (field_trees fields.now) sought)) }
    ensures counted { IfOk result (λ counted. counted ≡ with_all before (written_sorts (field_trees fields.now))) }
    ensures refused { IfErr result (λ fault. fault ≡ Memory) }
{
    let mut counted = before;
    for field in fields {
        let found = field_after(names, owner, counted, field);
        keep_first(named, &field.name, found)?;
        counted = one_more(counted, found.qual)?;
    }
    Ok(counted)
}

/// How many fields the objects of the class have of each sort, and none where there is no such class yet.
pub fn counted_among<'a>(classes: &[ClassFields<'a>], class: Option<usize>) -> SortCounts
    ensures { result ≡ counted_among classes.now class }
{
    let Some(number) = class else {
        return SortCounts::none();
    };
    match classes.get(number) {
        None => SortCounts::none(),
        Some(known) => known.counted,
    }
}

/// The field with the name that the class, or else the nearest class above it, declares, a class at a time.
fn field_from<'a>(
    classes: &[ClassFields<'a>],
    class: Option<usize>,
    name: &'a [u8],
) -> Option<FoundField>
    ensures { result ≡ field_among classes.now class name.now }
{
    let mut next = class;
    for _passed in 0..classes.len() {
        let Some(number) = next else {
            return None;
        };
        let Some(known) = classes.get(number) else {
            return None;
        };
        if let Some(field) = at_name(&known.named, name) {
            return Some(field);
        }
        next = known.superclass;
    }
    None
}

/// The own field with the name that the class declares, if it does.
fn own_field<'a>(classes: &[ClassFields<'a>], class: usize, name: &'a [u8]) -> Option<FoundField>
    ensures { result ≡ own_field_in (slice_get classes.now class) name.now }
{
    match classes.get(class) {
        None => None,
        Some(known) => at_name(&known.named, name),
    }
}

/// The field with the name that the class, or else the nearest class above it, declares, where this is
/// known of the classes' fields.
pub fn field_of<'a>(
    classes: &[ClassFields<'a>],
    owners: &Owners<'a>,
    class: Option<usize>,
    name: &'a [u8],
) -> Option<FoundField>
    requires { FindsFields classes.now owners.now }
    ensures { result ≡ field_among classes.now class name.now }
{
    let Some(number) = class else {
        return None;
    };
    if !owners.knows(number) {
        return field_from(classes, class, name);
    }
    match owners.owner(number, name) {
        None => None,
        Some(owner) => own_field(classes, owner, name),
    }
}

/// Whether this is the number of the class.
fn is_number(class: usize, found: Option<usize>) -> bool
    ensures { result ≡ specs.is_number class found }
{
    match found {
        None => false,
        Some(number) => number == class,
    }
}

/// Whether there is a place, and it is before the other.
pub fn is_earlier(place: Option<usize>, at: usize) -> bool
    ensures { result ≡ rules.is_earlier place at }
{
    match place {
        None => false,
        Some(place) => place < at,
    }
}

/// The place of the class's own first field with the name, if it declares one.
fn own_place<'a>(classes: &[ClassFields<'a>], class: usize, name: &'a [u8]) -> Option<usize>
    ensures { result ≡ own_place_in (slice_get classes.now class) name.now }
{
    match classes.get(class) {
        None => None,
        Some(known) => at_name(&known.places, name),
    }
}

/// The lesser of two places, where there are any.
fn least_of(a: Option<usize>, b: Option<usize>) -> Option<usize>
    ensures { result ≡ least_of a b }
{
    match (a, b) {
        (None, b) => b,
        (a, None) => a,
        (Some(a), Some(b)) => Some(if b < a { b } else { a }),
    }
}

/// The first by position of the fields with the name that the class and those above it declare, a
/// class at a time.
fn least_from<'a>(
    classes: &[ClassFields<'a>],
    class: Option<usize>,
    name: &'a [u8],
) -> Option<usize>
    ensures { result ≡ place_among classes.now class name.now }
{
    let mut place = None;
    let mut next = class;
    for _passed in 0..classes.len() {
        let Some(number) = next else {
            return place;
        };
        let Some(known) = classes.get(number) else {
            return place;
        };
        place = least_of(place, at_name(&known.places, name));
        next = known.superclass;
    }
    place
}

/// The first by position of the fields with the name that the class and those above it declare. Most
/// names have none, which the owners say at once.
fn inherited_place<'a>(
    classes: &[ClassFields<'a>],
    owners: &Owners<'a>,
    above: Option<usize>,
    name: &'a [u8],
) -> Option<usize>
    requires { FindsFields classes.now owners.now }
    ensures { (u : UnitTree) → map fields_tree classes.now ≡ all_class_fields u → result ≡ inherited_place u above name.now }
{
    if field_of(classes, owners, above, name).is_none() {
        return None;
    }
    least_from(classes, above, name)
}

/// The fault of a field at the place whose name has this other place too.
fn pair_fault(place: Option<usize>, at: usize) -> Option<ClassFault>
    ensures { option_map reported result ≡ first (broken_pair place at) }
{
    match place {
        None => None,
        Some(place) if at < place => Some(ClassFault::Duplicate(place)),
        Some(_) => Some(ClassFault::Duplicate(at)),
    }
}

/// The rule that a field breaks, of a class whose own fields have these places and which has this
/// class above it.
fn field_fault<'a>(
    classes: &[ClassFields<'a>],
    owners: &Owners<'a>,
    above: Option<usize>,
    places: &FieldPlaces<'a>,
    field: &'a tree::Field,
) -> Option<ClassFault>
    requires { FindsFields classes.now owners.now }
    ensures { (u : UnitTree) (all : List FieldTree) → map fields_tree classes.now ≡ all_class_fields u
        → ((name : List ℕ) → at_name places.now name ≡ rules.field_place name all)
        → option_map reported result ≡ first (broken_field u above all field.now.at field.now.name.items) }
{
    let stands = is_earlier(at_name(places, &field.name), field.at);
    let again = fault_if(stands, ClassFault::Duplicate(field.at));
    let inherited = inherited_place(classes, owners, above, &field.name);
    earlier(again, pair_fault(inherited, field.at))
}

/// The first rule that the fields break, of a class whose own fields have these places and which has
/// this class above it.
pub fn fields_fault<'a>(
    classes: &[ClassFields<'a>],
    owners: &Owners<'a>,
    above: Option<usize>,
    places: &FieldPlaces<'a>,
    fields: &'a [tree::Field],
) -> Option<ClassFault>
    requires { FindsFields classes.now owners.now }
    ensures { (u : UnitTree) (all : List FieldTree) → map fields_tree classes.now ≡ all_class_fields u
        → ((name : List ℕ) → at_name places.now name ≡ rules.field_place name all)
        → option_map reported result ≡ first (broken_fields u above all (field_trees fields.now)) }
{
    let mut fault = None;
    for field in fields {
        let own = field_fault(classes, owners, above, places, field);
        fault = earlier(fault, own);
    }
    fault
}

/// The superclass where it stands before the class, which has this number; another one is inherited from by nobody.
fn if_before(class: usize, superclass: Option<usize>) -> Option<usize>
    ensures { result ≡ specs.if_before class superclass }
{
    match superclass {
        None => None,
        Some(above) if above < class => Some(above),
        Some(_) => None,
    }
}

/// Adds the fields that the class declares.
fn add_fields<'a>(
    all: &mut Vec<Field<'a>>,
    owner: ClassId,
    fields: &'a [tree::Field],
) -> Result<(), AllocError>
    ensures { OnOk result (map field_tree all.new.items ≡ map field_tree all.old.items ++ map (owned (number_of_class owner)) (field_trees fields.now)) }
{
    for field in fields {
        all.push(Field {
            name: &field.name,
            kind: field.type_name.kind(),
            qual: field_sort(field),
            owner,
            visibility: field.visibility,
        })?;
    }
    Ok(())
}

/// The fields that the class has, and none where there is no such class yet.
fn inherited_fields<'a>(
    alloc: Global,
    all: &[Vec<Field<'a>>],
    class: Option<usize>,
) -> Result<Vec<Field<'a>>, AllocError>
    ensures { IfOk result (λ fields. map field_tree fields.items ≡ list_among all.now class) }
{
    let Some(number) = class else {
        return Ok(Vec::new(alloc));
    };
    match all.get(number) {
        None => Ok(Vec::new(alloc)),
        Some(fields) => Vec::from_slice(alloc, fields),
    }
}

/// What is known of the fields of the root.
fn root_fields<'a>(alloc: Global) -> ClassFields<'a>
    ensures { fields_tree result ≡ root_fields }
{
    ClassFields {
        superclass: None,
        places: FieldPlaces::new(alloc),
        named: ByName::new(alloc),
        counted: SortCounts::none(),
    }
}

impl<'a> Source<'a> {
    /// The fields that the first implementation with the name declares.
    fn fields_by(&self, name: &'a [u8]) -> &'a [tree::Field]
        requires { Knows (unit_tree self.now.unit.now) self.now }
        ensures { field_trees result.now ≡ specs.fields_by (unit_tree self.now.unit.now).implementations name.now }
    {
        match at_name(&self.implemented, name) {
            None => &[],
            Some(own) => &own.implementation.fields,
        }
    }

    /// The fields that an implementation adds to those of the interface, whose class has this number.
    fn fields_added(&self, class: usize, interface: &'a Interface) -> &'a [tree::Field]
        requires { Knows (unit_tree self.now.unit.now) self.now }
        ensures { field_trees result.now ≡ specs.fields_added (unit_tree self.now.unit.now) class (interface_tree interface.now) }
    {
        if is_number(class, class_number(&self.names, &interface.name)) {
            self.fields_by(&interface.name)
        } else {
            &[]
        }
    }

    /// The fields that the interface's class declares, which has this number.
    pub fn own_fields(&self, class: usize, interface: &'a Interface) -> OwnFields<'a>
        requires { Knows (unit_tree self.now.unit.now) self.now }
        ensures { own_trees result ≡ fields_declared (unit_tree self.now.unit.now) class (interface_tree interface.now) }
    {
        let declared: &'a [tree::Field] = &interface.fields;
        if self.fields_by(&interface.name).is_empty() {
            return OwnFields {
                earlier: declared,
                later: &[],
            };
        }
        let added = self.fields_added(class, interface);
        if self.implemented_before(&interface.name, interface.at) {
            OwnFields {
                earlier: added,
                later: declared,
            }
        } else {
            OwnFields {
                earlier: declared,
                later: added,
            }
        }
    }

    /// The superclass that the interface's class inherits from, which has this number.
    pub fn superclass_before(&self, class: usize, interface: &'a Interface) -> Option<usize>
        requires { Knows (unit_tree self.now.unit.now) self.now }
        ensures { result ≡ specs.if_before class (class_number (unit_tree self.now.unit.now).interfaces (interface_tree interface.now).superclass) }
    {
        if_before(class, class_number(&self.names, &interface.superclass))
    }

    /// Learns the fields of the interface's class, which has this number. Nothing is known of it yet, but how many of each
    /// sort its superclass has. Memory: there was none, or so many fields have no numbers.
    fn learn_fields(
        &self,
        class: usize,
        interface: &'a Interface,
        known: &mut ClassFields<'a>,
    ) -> Result<(), ClassFault>
        requires knows { Knows (unit_tree self.now.unit.now) self.now }
        requires places { known.old.places ≡ [] }
        requires named { known.old.named ≡ [] }
        ensures known { OnOk result (fields_tree known.new ≡ class_fields_with (unit_tree self.now.unit.now) class known.old.counted (interface_tree interface.now)) }
        ensures refused { IfErr result (λ fault. fault ≡ Memory) }
    {
        known.superclass = self.superclass_before(class, interface);
        let owner = ClassId(class);
        let own = self.own_fields(class, interface);
        keep_own_places(&mut known.places, &own)?;
        let names = &self.names;
        let before = keep_fields(names, &mut known.named, owner, known.counted, own.earlier)?;
        known.counted = keep_fields(names, &mut known.named, owner, before, own.later)?;
        Ok(())
    }

    /// What is known of the fields of the interface's class, which has this number, and whose
    /// superclass has so many of each sort. Memory: there was none, or so many fields have no numbers.
    fn fields_of(
        &self,
        alloc: Global,
        class: usize,
        inherited: SortCounts,
        interface: &'a Interface,
    ) -> Result<ClassFields<'a>, ClassFault>
        requires { Knows (unit_tree self.now.unit.now) self.now }
        ensures known { IfOk result (λ known. fields_tree known ≡ class_fields_with (unit_tree self.now.unit.now) class inherited (interface_tree interface.now)) }
        ensures refused { IfErr result (λ fault. fault ≡ Memory) }
    {
        let mut known = ClassFields {
            superclass: None,
            places: FieldPlaces::new(alloc),
            named: ByName::new(alloc),
            counted: inherited,
        };
        self.learn_fields(class, interface, &mut known)?;
        Ok(known)
    }

    /// Adds what is known of the fields of all classes, where nothing is yet. Memory: there was none, or so many fields
    /// have no numbers.
    fn add_class_fields(
        &self,
        alloc: Global,
        all: &mut Vec<ClassFields<'a>>,
    ) -> Result<(), ClassFault>
        requires knows { Knows (unit_tree self.now.unit.now) self.now }
        requires none { all.old.items ≡ [] }
        ensures known { OnOk result (map fields_tree all.new.items ≡ all_class_fields (unit_tree self.now.unit.now)) }
        ensures refused { IfErr result (λ fault. fault ≡ Memory) }
    {
        all.push(root_fields(alloc))?;
        let mut class = 0;
        for interface in &self.unit.interfaces {
            class += 1;
            let superclass = class_number(&self.names, &interface.superclass);
            let inherited = counted_among(all, superclass);
            let known = self.fields_of(alloc, class, inherited, interface)?;
            all.push(known)?;
        }
        Ok(())
    }

    /// What is known of the fields of all classes. Memory: there was none, or so many fields have no
    /// numbers.
    pub fn class_fields(&self, alloc: Global) -> Result<Vec<ClassFields<'a>>, ClassFault>
        requires { Knows (unit_tree self.now.unit.now) self.now }
        ensures known { IfOk result (λ all. map fields_tree all.items ≡ all_class_fields (unit_tree self.now.unit.now)) }
        ensures refused { IfErr result (λ fault. fault ≡ Memory) }
    {
        let mut all = Vec::new(alloc);
        self.add_class_fields(alloc, &mut all)?;
        Ok(all)
    }

    /// All fields of the objects of the interface's class, which has this number and inherits these.
    fn fields_with(
        &self,
        class: usize,
        inherited: Vec<Field<'a>>,
        interface: &'a Interface,
    ) -> Result<Vec<Field<'a>>, AllocError>
        requires { Knows (unit_tree self.now.unit.now) self.now }
        ensures { IfOk result (λ fields. map field_tree fields.items
            ≡ map field_tree inherited.entry.items ++ map (owned class) (fields_declared (unit_tree self.now.unit.now) class (interface_tree interface.now))) }
    {
        let mut fields = inherited;
        let owner = ClassId(class);
        let own = self.own_fields(class, interface);
        add_fields(&mut fields, owner, own.earlier)?;
        add_fields(&mut fields, owner, own.later)?;
        Ok(fields)
    }

    /// All fields of the objects of each class.
    pub fn all_fields(&self, alloc: Global) -> Result<Vec<Vec<Field<'a>>>, AllocError>
        requires { Knows (unit_tree self.now.unit.now) self.now }
        ensures { IfOk result (λ all. map list_of all.items ≡ all_fields_from (unit_tree self.now.unit.now) 0 (suc (length (unit_tree self.now.unit.now).interfaces))) }
    {
        let mut all = Vec::new(alloc);
        all.push(Vec::new(alloc))?;
        let mut class = 0;
        for interface in &self.unit.interfaces {
            class += 1;
            let superclass = class_number(&self.names, &interface.superclass);
            let inherited = inherited_fields(alloc, &all, superclass)?;
            let fields = self.fields_with(class, inherited, interface)?;
            all.push(fields)?;
        }
        Ok(all)
    }
}
