//! The table that the later stages look names up in.
ghost use Rattle.std.specs.Prelude.{◌≡◌, [], Some, map, option_map, slice_get, IfOk, IfErr, OnErr};
ghost use Rattle.arc_ast.specs.Tree.{parameter_trees, type_tree, result_tree, head_tree, unit_tree};
ghost use Rattle.arc_spec.specs.Classes.{classes_of};
ghost use Rattle.arc_class.specs.BrokenRules.{first};
ghost use Rattle.arc_class.specs.Classes.{is_root};
ghost use Rattle.arc_class.specs.ClassRules.{broken};
ghost use Rattle.arc_fault.specs.declared.class.ClassFault.TheVariants.{Memory};
ghost use Rattle.arc_class.specs.private.Entries.{fields_tree, all_class_fields};
ghost use Rattle.arc_class.specs.private.CheckedTable.{IsChecked};
ghost use Rattle.arc_class.specs.private.RuleGroups.{before_classes};
ghost use Rattle.arc_class.specs.Fault.{Refuses, reported};
ghost use Rattle.arc_class.specs.FunctionRules.{missing_main};
ghost use Rattle.arc_class.specs.KeptNames.{Knows};
ghost use Rattle.arc_class.specs.FunctionNames.{parameter_kinds, number_of, is_main};
ghost use Rattle.arc_ast.specs.declared.tree.Sign.TheVariants as signs;
ghost use Rattle.std.specs.Option.{option_or};
ghost use Rattle.arc_class.specs.Lookups.{head_at, at_name, class_number_in, type_class_in, result_class_in, given_in, own_given_in, result_at, given_among, field_tree, items_at, ends_object, nearest_dealloc, number_of_class, number_of_selector, number_of_method};
ghost use Rattle.arc_class.specs.Owners.{FindsMethods, FindsFields};
ghost use Rattle.std.proofs.Props.{props};

use crate::building::{Parts, PartsAndOwners, Selectors, parts_and_owners};
use crate::by_name::ByName;
use crate::counting::parameter_counts;
use crate::fields::{ClassFields, field_of};
use crate::heads::{Heads, is_related};
use crate::kept::{Functions, Source};
use crate::look::look;
use crate::nearest::field_owners;
use crate::owners::Owners;
use crate::root::{BuiltIn, built_in_given, built_in_result, counting_given, counting_result};
use arc_ast::tree::{
    Kind, MethodHead, Parameter, Qual, ResultType, Sign, TranslationUnit, TypeName, Visibility,
};
use arc_fault::class::ClassFault;
use arc_sites::parameter::named_parameters;
use arc_sites::violation::earlier;
use arc_spec::class::{Class, Gives, descends_from, gives_of, look_up};
use arc_spec::event::NoMemory;
use std::alloc::Global;

/// What a function gives, and how many arguments it takes: `None` for a count and the arguments' texts.
#[derive(Clone, Copy)]
pub struct Signature {
    pub result: Kind,
    pub takes: Option<usize>,
}

/// What is known of the functions of one name.
#[derive(Clone, Copy)]
pub struct Declared {
    pub signature: Signature,
    /// Which of the functions with a body is the first of the name, counted from 0.
    pub body: Option<usize>,
}

/// What is known of each name.
pub type Known<'a> = ByName<'a, Declared>;

/// What the map has at the name.
pub(crate) fn at_name<'a, V: Copy>(map: &ByName<'a, V>, name: &[u8]) -> Option<V>
    ensures { result ≡ at_name map.now name.now }
{
    map.get(name)
}

/// The first interface of a name: the number of its class, and the place of the name.
#[derive(Clone, Copy)]
pub struct Place {
    pub number: usize,
    pub at: usize,
}

/// The first global variable of a name: its number, counted from 0 among those of its sort, its kind, the class of a type
/// that names one, and the place of the name.
#[derive(Clone, Copy)]
pub struct Variable {
    pub number: usize,
    pub kind: Kind,
    pub class: Option<ClassId>,
    pub at: usize,
}

/// The first global variable of each name.
pub type Variables<'a> = ByName<'a, Variable>;

/// The first interface of each name.
pub type Names<'a> = ByName<'a, Place>;

/// Whether this is the name of the root class.
pub(crate) fn is_root(name: &[u8]) -> bool
    ensures { result ≡ is_root name.now }
{
    name == b"NSObject".as_slice()
}

/// The number of the class with the name.
pub(crate) fn class_number<'a>(names: &Names<'a>, name: &[u8]) -> Option<usize>
    ensures { result ≡ class_number_in names.now name.now }
{
    if is_root(name) {
        return Some(0);
    }
    match at_name(names, name) {
        None => None,
        Some(place) => Some(place.number),
    }
}

/// The class that the type names, if it names one that the source has.
pub(crate) fn type_class<'a>(names: &Names<'a>, written: &'a TypeName) -> Option<ClassId>
    ensures { result ≡ type_class_in names.now (type_tree written.now) }
{
    match written {
        TypeName::Object(_, name) => class_id(class_number(names, name)),
        _ => None,
    }
}

/// The class of a result whose type names one that the source has.
fn result_class<'a>(names: &Names<'a>, written: &'a ResultType) -> Option<ClassId>
    ensures { result ≡ result_class_in names.now (result_tree written.now) }
{
    match written {
        ResultType::Value(type_name) => type_class(names, type_name),
        ResultType::Void | ResultType::Related => None,
    }
}

/// The fault of a source in which no function that a program can begin with has a body.
fn missing_main(main: Option<usize>) -> Option<ClassFault>
    ensures { option_map reported result ≡ first (missing_main main) }
{
    match main {
        None => Some(ClassFault::NoMain),
        Some(_) => None,
    }
}

/// A class of a table, by its number.
#[derive(Clone, Copy, Debug, PartialEq, Eq)]
pub struct ClassId(pub usize);

/// The number of the class, if there is one.
fn number_of(class: Option<ClassId>) -> Option<usize>
    ensures { result ≡ option_map number_of_class class }
{
    match class {
        None => None,
        Some(class) => Some(class.0),
    }
}

/// The class with the number, if there is one.
fn class_id(number: Option<usize>) -> Option<ClassId>
    ensures { option_map number_of_class result ≡ number }
{
    match number {
        None => None,
        Some(number) => Some(ClassId(number)),
    }
}

/// A selector of a table, by its number.
#[derive(Clone, Copy, Debug, PartialEq, Eq)]
pub struct Sel(pub usize);

/// A method of a source, by the number of the function that it runs.
#[derive(Clone, Copy, Debug, PartialEq, Eq)]
pub struct MethodId(pub usize);

/// A field of a class's objects, how it holds an object, if it names one, and the class that declares it.
#[derive(Clone, Copy)]
pub struct Field<'a> {
    pub name: &'a [u8],
    pub kind: Kind,
    pub qual: Option<Qual>,
    pub owner: ClassId,
    pub visibility: Visibility,
}

/// A field that a name stands for: the class that declares it, its number in the objects of that
/// class and of those below it, counted from 0 among those of its sort, its kind, how it holds an object, if it names
/// one, the class of a type that names one, and who may name it.
#[derive(Clone, Copy)]
pub struct FoundField {
    pub owner: ClassId,
    pub index: usize,
    pub kind: Kind,
    pub qual: Option<Qual>,
    pub class: Option<ClassId>,
    pub visibility: Visibility,
}

/// What a method gives: a value of a kind, or none; and of an object the class, where its type names one, or that it
/// is of the class that gets the message.
#[derive(Clone, Copy)]
pub struct MethodResult {
    pub kind: Kind,
    pub class: Option<ClassId>,
    pub related: bool,
}

/// What the method that is written so gives.
fn given_by<'a>(names: &Names<'a>, head: &'a MethodHead) -> MethodResult
    ensures { result ≡ given_in names.now (head_tree head.now) }
{
    MethodResult {
        kind: head.result.kind(),
        class: result_class(names, &head.result),
        related: is_related(head),
    }
}

/// What a table knows of a class: its superclass, and its own methods.
#[derive(Drop)]
pub struct Entry<'a> {
    pub superclass: Option<usize>,
    pub methods: Heads<'a>,
}

impl<'a> Entry<'a> {
    /// What the class's own method gives, where this is the class's number; the root's are built in.
    fn own_result(
        &self,
        names: &Names<'a>,
        class: usize,
        sign: Sign,
        selector: &'a [u8],
    ) -> Option<MethodResult>
        ensures { result ≡ own_given_in names.now class (Some self.now) sign selector.now }
    {
        if class == 0 {
            return built_in_given(sign, selector);
        }
        match self.methods.get(sign, selector) {
            None => None,
            Some(head) => Some(given_by(names, head)),
        }
    }
}

/// What the method gives that is kept for the selector.
fn result_at<'a>(heads: &Heads<'a>, sign: Sign, selector: &[u8]) -> Option<Kind>
    ensures { result ≡ result_at heads.now sign selector.now }
{
    match heads.get(sign, selector) {
        None => None,
        Some(head) => Some(head.result.kind()),
    }
}

/// What the class's own method gives, if it has one.
fn own_result<'a>(
    names: &Names<'a>,
    entries: &[Entry<'a>],
    class: usize,
    sign: Sign,
    selector: &'a [u8],
) -> Option<MethodResult>
    ensures { result ≡ own_given_in names.now class (slice_get entries.now class) sign selector.now }
{
    match entries.get(class) {
        None => None,
        Some(entry) => entry.own_result(names, class, sign, selector),
    }
}

/// What the nearest method gives from the class up, a class at a time.
fn result_from<'a>(
    names: &Names<'a>,
    entries: &[Entry<'a>],
    class: Option<usize>,
    sign: Sign,
    selector: &'a [u8],
) -> Option<MethodResult>
    ensures { result ≡ given_among names.now entries.now class sign selector.now }
{
    let mut next = class;
    for _passed in 0..entries.len() {
        let Some(number) = next else {
            return None;
        };
        let Some(entry) = entries.get(number) else {
            return None;
        };
        if let Some(given) = entry.own_result(names, number, sign, selector) {
            return Some(given);
        }
        next = entry.superclass;
    }
    None
}

/// Whether a message ends an object.
fn ends_object(sign: Sign, selector: &[u8]) -> bool
    ensures { result ≡ ends_object sign selector.now }
{
    match sign {
        Sign::Class => false,
        Sign::Instance => selector == b"dealloc".as_slice(),
    }
}

/// The function that the nearest `dealloc` runs, from the class up.
fn nearest_dealloc(classes: &[Class], class: Option<usize>) -> Option<usize>
    ensures { result ≡ nearest_dealloc (classes_of classes.now) class }
{
    let mut next = class;
    for _passed in 0..classes.len() {
        let Some(number) = next else {
            return None;
        };
        let Some(known) = classes.get(number) else {
            return None;
        };
        if let Some(function) = known.dealloc {
            return Some(function);
        }
        next = known.superclass;
    }
    None
}

/// What the list with the number has, and nothing where there is no such list.
fn items_at<T>(lists: &[Vec<T>], number: usize) -> &[T]
    ensures { result.now ≡ items_at (slice_get lists.now number) }
{
    let Some(list) = lists.get(number) else {
        return &[];
    };
    list
}

/// What a source declares: its functions, its global variables, its classes with their methods and fields, and its selectors.
#[derive(Drop)]
pub struct ClassTable<'a> {
    functions: Known<'a>,
    /// The first function of each name.
    first_functions: Functions<'a>,
    globals: Variables<'a>,
    /// Which of the functions with a body is `main`, counted from 0.
    pub main: usize,
    names: Names<'a>,
    entries: Vec<Entry<'a>>,
    /// Which class has the nearest class method of each selector.
    class_methods: Owners<'a>,
    /// Which class has the nearest method of objects of each selector.
    instance_methods: Owners<'a>,
    /// The first method of each sign and selector, of those that interfaces declare.
    declared: Heads<'a>,
    /// The first method of each sign and selector, of those that implementations define.
    defined: Heads<'a>,
    named_fields: Vec<ClassFields<'a>>,
    /// Which class has the nearest field of each name.
    field_owners: Owners<'a>,
    fields: Vec<Vec<Field<'a>>>,
    selectors: Selectors<'a>,
    /// The classes as a running program knows them.
    pub classes: Vec<Class>,
    built_in: BuiltIn,
    ghost class_methods_reported: { FindsMethods entries.items signs.Class class_methods } by { Prim.hlevel props },
    ghost instance_methods_reported: { FindsMethods entries.items signs.Instance instance_methods } by { Prim.hlevel props },
    ghost fields_reported: { FindsFields named_fields.items field_owners } by { Prim.hlevel props },
}

impl<'a> ClassTable<'a> {
    ghost use Rattle.arc_class.specs.Table.{IsTableOf, function_in, global_in, parameters_in, passed_in, gives_in, function_class_in, class_in, superclass_in, nearest_result_in, result_in_table, owners_in, any_result_in, field_in_table, fields_in, defined_in, built_in_method, method_in, selector_in, selector_name, IsSameTable, Registers};

    /// What is known of the functions of the name, if there are any. The name lies in the source, or lives as long.
    pub fn function(&self, name: &'a [u8]) -> Option<Declared>
        ensures { result ≡ function_in self.now name.now }
    {
        at_name(&self.functions, name)
    }

    /// The global variable with the name.
    pub fn global(&self, name: &'a [u8]) -> Option<Variable>
        ensures { result ≡ global_in self.now name.now }
    {
        at_name(&self.globals, name)
    }

    /// Parameters of the kinds that the parameters of the functions of the name have, as the first of them lists these: none where no
    /// function has the name, and none of a count and texts. Of their names and places nothing is said.
    pub fn parameters(&self, name: &'a [u8]) -> &'a [Parameter]
        ensures { parameter_kinds (parameter_trees result.now) ≡ parameters_in self.now name.now }
    {
        match at_name(&self.first_functions, name) {
            None => &[],
            Some(function) => named_parameters(&function.parameters),
        }
    }

    /// The class of what the functions of the name give, where the type that the first of them has names one.
    pub fn function_class(&self, name: &'a [u8]) -> Option<ClassId>
        ensures { result ≡ function_class_in self.now name.now }
    {
        match at_name(&self.first_functions, name) {
            None => None,
            Some(function) => result_class(&self.names, &function.result),
        }
    }

    /// What the methods of the sign with the selector give.
    fn gives(&self, sign: Sign, selector: &'a [u8]) -> Gives
        ensures { result ≡ gives_in self.now sign selector.now }
    {
        match self.first_method(sign, selector) {
            None => Gives::Number,
            Some(head) => gives_of(head.result.kind()),
        }
    }

    /// Parameters of the kinds that the parameters of the methods of the sign with the selector have, as the first of them that is declared,
    /// or else defined, lists these; none where the source has no such method. Of their names and places nothing is said.
    pub fn parameters_passed(&self, sign: Sign, selector: &'a [u8]) -> &'a [Parameter]
        ensures { parameter_kinds (parameter_trees result.now) ≡ passed_in self.now sign selector.now }
    {
        match self.first_method(sign, selector) {
            None => &[],
            Some(head) => &head.parameters,
        }
    }

    /// The first method of the sign with the selector that is declared, or else defined.
    fn first_method(&self, sign: Sign, selector: &'a [u8]) -> Option<&'a MethodHead>
        ensures { result ≡ option_or (head_at self.now.declared sign selector.now) (head_at self.now.defined sign selector.now) }
    {
        match self.declared.get(sign, selector) {
            Some(head) => Some(head),
            None => self.defined.get(sign, selector),
        }
    }

    /// The class with the name, where it has an interface or is the root (Runtime Reference, `objc_getClass`).
    pub fn objc_get_class(&self, name: &[u8]) -> Option<ClassId>
        ensures { option_map number_of_class result ≡ class_in self.now name.now }
    {
        class_id(class_number(&self.names, name))
    }

    /// The superclass of the class, which the root has none of (Runtime Reference, `class_getSuperclass`).
    pub fn superclass(&self, class: ClassId) -> Option<ClassId>
        ensures { option_map number_of_class result ≡ superclass_in self.now (number_of_class class) }
    {
        match self.entries.get(class.0) {
            None => None,
            Some(entry) => class_id(entry.superclass),
        }
    }

    /// What the method gives that the class, or else the nearest class above it, declares or defines for the selector; the root has those
    /// that are built in. The messages that count owners give what they always do, whatever is declared.
    pub fn result(
        &self,
        class: Option<ClassId>,
        sign: Sign,
        selector: &'a [u8],
    ) -> Option<MethodResult>
        ensures { result ≡ result_in_table self.now (option_map number_of_class class) sign selector.now }
    {
        let Some(class) = number_of(class) else {
            return None;
        };
        match counting_given(selector) {
            Some(given) => Some(given),
            None => self.nearest_result(class, sign, selector),
        }
    }

    /// What the method gives that the class, or else the nearest class above it, has for the selector.
    fn nearest_result(&self, class: usize, sign: Sign, selector: &'a [u8]) -> Option<MethodResult>
        ensures { result ≡ nearest_result_in self.now class sign selector.now }
    {
        let owners = self.owners(sign);
        if !owners.knows(class) {
            return result_from(&self.names, &self.entries, Some(class), sign, selector);
        }
        match owners.owner(class, selector) {
            None => None,
            Some(owner) => own_result(&self.names, &self.entries, owner, sign, selector),
        }
    }

    /// Which class has the nearest method of the sign with each selector.
    fn owners(&self, sign: Sign) -> &Owners<'a>
        ensures { result.now ≡ owners_in self.now sign }
    {
        match sign {
            Sign::Class => &self.class_methods,
            Sign::Instance => &self.instance_methods,
        }
    }

    /// What a message to an object gives of which no class is known: as the methods of objects do that the source has, or that are built in,
    /// but for the messages that count owners, which give what they always do.
    pub fn result_of_any(&self, selector: &[u8]) -> Option<Kind>
        ensures { result ≡ any_result_in self.now selector.now }
    {
        if let Some(kind) = counting_result(selector) {
            return Some(kind);
        }
        if let Some(kind) = result_at(&self.declared, Sign::Instance, selector) {
            return Some(kind);
        }
        if let Some(kind) = result_at(&self.defined, Sign::Instance, selector) {
            return Some(kind);
        }
        built_in_result(Sign::Instance, selector)
    }

    /// The field with the name that the class, or else the nearest class above it, declares.
    pub fn field(&self, class: Option<ClassId>, name: &'a [u8]) -> Option<FoundField>
        ensures { result ≡ field_in_table self.now (option_map number_of_class class) name.now }
    {
        field_of(
            &self.named_fields,
            &self.field_owners,
            number_of(class),
            name,
        )
    }

    /// All fields of the class's objects, in the order of their numbers: inherited ones first, and then its own by position in the file.
    pub fn fields(&self, class: ClassId) -> &[Field<'a>]
        ensures { map field_tree result.now ≡ fields_in self.now (number_of_class class) }
    {
        items_at(&self.fields, class.0)
    }

    /// The function that a method of the source runs which a message with the selector finds, from the class up.
    fn defined_method(&self, class: ClassId, sign: Sign, selector: Sel) -> Option<usize>
        ensures { result ≡ defined_in self.now (number_of_class class) sign (number_of_selector selector) }
    {
        let name = self.sel_get_name(selector);
        if ends_object(sign, name) {
            return nearest_dealloc(&self.classes, Some(class.0));
        }
        let passed = parameter_counts(self.parameters_passed(sign, name));
        look_up(
            &self.classes,
            Some(class.0),
            sign,
            selector.0,
            passed.numbers,
            passed.objects,
            self.gives(sign, name),
        )
    }

    /// The function that a method of the root runs which a message with the selector finds, from the class up.
    fn built_in_method(&self, class: ClassId, sign: Sign, selector: Sel) -> Option<usize>
        ensures { result ≡ built_in_method self.now (number_of_class class) sign (number_of_selector selector) }
    {
        if !descends_from(&self.classes, Some(class.0), 0) {
            return None;
        }
        self.built_in.at(sign, self.sel_get_name(selector))
    }

    /// The method that a message with the selector finds, from the class up to the root, where some are built in. Those that are only
    /// declared are not found.
    pub fn method(&self, class: ClassId, sign: Sign, selector: Sel) -> Option<MethodId>
        ensures { option_map number_of_method result ≡ method_in self.now (number_of_class class) sign (number_of_selector selector) }
    {
        if let Some(function) = self.defined_method(class, sign, selector) {
            return Some(MethodId(function));
        }
        match self.built_in_method(class, sign, selector) {
            None => None,
            Some(function) => Some(MethodId(function)),
        }
    }

    /// The selector with the name, where the source has it.
    pub fn selector(&self, name: &'a [u8]) -> Option<Sel>
        ensures { option_map number_of_selector result ≡ selector_in self.now name.now }
    {
        match self.selectors.get_index_of(&name) {
            None => None,
            Some(number) => Some(Sel(number)),
        }
    }

    /// The selector with the name, which gets the next number where it has none yet (Runtime Reference, `sel_registerName`). NoMemory: it
    /// got none, and nothing has changed.
    pub fn sel_register_name(&mut self, name: &'a [u8]) -> Result<Sel, NoMemory>
        ensures registered { IfOk result (λ sel. Registers self.old name.now self.new (number_of_selector sel)) }
        ensures refused { OnErr result (IsSameTable self.old self.new) }
    {
        let (number, _) = self.selectors.insert_full(name)?;
        Ok(Sel(number))
    }

    /// The selector's name (Runtime Reference, `sel_getName`); empty at a number that no selector has.
    pub fn sel_get_name(&self, selector: Sel) -> &'a [u8]
        ensures { result.now ≡ selector_name self.now (number_of_selector selector) }
    {
        match self.selectors.get_index(selector.0) {
            None => &[],
            Some(name) => name,
        }
    }

    /// The table of a source that breaks no rule, with what was found of it.
    fn with(source: Source<'a>, checked: Checked<'a>) -> ClassTable<'a>
        requires knows { Knows (unit_tree source.unit.now) source }
        requires checked { IsChecked source checked }
        ensures { IsTableOf (unit_tree source.entry.unit.now) result }
    {
        let Source {
            known,
            functions,
            globals,
            names,
            declared,
            defined,
            ..
        } = source;
        let Checked { found, all, main } = checked;
        let Found {
            fields: named_fields,
            owners: field_owners,
        } = found;
        let PartsAndOwners {
            parts,
            class_methods,
            instance_methods,
        } = all;
        let Parts {
            selectors,
            entries,
            fields,
            classes,
            built_in,
        } = parts;
        ClassTable {
            functions: known,
            first_functions: functions,
            globals,
            main,
            names,
            entries,
            class_methods,
            instance_methods,
            declared,
            defined,
            named_fields,
            field_owners,
            fields,
            selectors,
            classes,
            built_in,
        }
    }

    /// The table of a source whose declarations break no rule, or the fault that reports the first rule that is broken: the one at the
    /// earliest place, and there the one with the lowest number. The fault names a byte of the source.
    pub fn build(alloc: Global, unit: &'a TranslationUnit) -> Result<ClassTable<'a>, ClassFault>
        ensures unbroken { IfOk result (λ table. broken (unit_tree unit.now) ≡ []) }
        ensures table { IfOk result (λ table. IsTableOf (unit_tree unit.now) table) }
        ensures refused { IfErr result (λ fault. Refuses (broken (unit_tree unit.now)) fault) }
    {
        let seen = look(alloc, &unit.functions)?;
        let main = seen.main;
        let own = earlier(seen.fault, missing_main(main));
        let source = Source::new(alloc, unit, seen.known, seen.bodies)?;
        let functions = earlier(own, source.sites_fault(alloc)?);
        let checked = check_source(alloc, &source, functions, main)?;
        Ok(ClassTable::with(source, checked))
    }
}

/// The fields of a source's classes.
#[derive(Drop)]
struct Found<'a> {
    fields: Vec<ClassFields<'a>>,
    /// Which class has the nearest field of each name.
    owners: Owners<'a>,
}

/// Finds the fields of the classes of a source whose names are known. Memory: there was none.
fn find<'a>(alloc: Global, source: &Source<'a>) -> Result<Found<'a>, ClassFault>
    requires { Knows (unit_tree source.now.unit.now) source.now }
    ensures fields { IfOk result (λ found. map fields_tree found.fields.items ≡ all_class_fields (unit_tree source.now.unit.now)) }
    ensures owners { IfOk result (λ found. FindsFields found.fields.items found.owners) }
    ensures refused { IfErr result (λ fault. fault ≡ Memory) }
{
    let fields = source.class_fields(alloc)?;
    let owners = field_owners(alloc, &fields)?;
    Ok(Found { fields, owners })
}

/// Which function is `main` in a source that breaks no rule, or the fault that reports the first rule that is broken, where
/// these are the fields of its classes and `functions` reports the first rule that its functions and its sites break.
fn main_of_sound<'a>(
    alloc: Global,
    source: &Source<'a>,
    found: &Found<'a>,
    functions: Option<ClassFault>,
    main: Option<usize>,
) -> Result<usize, ClassFault>
    requires knows { Knows (unit_tree source.now.unit.now) source.now }
    requires fields { map fields_tree found.now.fields.items ≡ all_class_fields (unit_tree source.now.unit.now) }
    requires owners { FindsFields found.now.fields.items found.now.owners }
    requires functions { option_map reported functions ≡ first (before_classes (unit_tree source.now.unit.now)) }
    requires main { number_of is_main (unit_tree source.now.unit.now).functions ≡ main }
    ensures unbroken { IfOk result (λ main. broken (unit_tree source.now.unit.now) ≡ []) }
    ensures main { IfOk result (λ main. number_of is_main (unit_tree source.now.unit.now).functions ≡ Some main) }
    ensures refused { IfErr result (λ fault. Refuses (broken (unit_tree source.now.unit.now)) fault) }
{
    let classes = source.classes_fault(alloc, &found.fields, &found.owners)?;
    match (earlier(functions, classes), main) {
        (Some(fault), _) => Err(fault),
        (None, Some(main)) => Ok(main),
        (None, None) => Err(ClassFault::NoMain),
    }
}

/// What a table has of a source that breaks no rule, but for the first of each name.
#[derive(Drop)]
struct Checked<'a> {
    found: Found<'a>,
    all: PartsAndOwners<'a>,
    main: usize,
}

/// Looks for the first rule that a source breaks whose names are known, where `functions` reports the first one that its
/// functions and its sites break, and makes the parts of its table where there is none.
fn check_source<'a>(
    alloc: Global,
    source: &Source<'a>,
    functions: Option<ClassFault>,
    main: Option<usize>,
) -> Result<Checked<'a>, ClassFault>
    requires knows { Knows (unit_tree source.now.unit.now) source.now }
    requires functions { option_map reported functions ≡ first (before_classes (unit_tree source.now.unit.now)) }
    requires main { number_of is_main (unit_tree source.now.unit.now).functions ≡ main }
    ensures checked { IfOk result (λ checked. IsChecked source.now checked) }
    ensures refused { IfErr result (λ fault. Refuses (broken (unit_tree source.now.unit.now)) fault) }
{
    let found = find(alloc, source)?;
    let main = main_of_sound(alloc, source, &found, functions, main)?;
    let all = parts_and_owners(alloc, source, &found.fields)?;
    Ok(Checked { found, all, main })
}
