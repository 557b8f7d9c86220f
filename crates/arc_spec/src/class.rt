//! Classes as running programs know them, and the methods that messages find.
ghost use Rattle.std.specs.Prelude.{◌≡◌, slice_get};
ghost use Rattle.arc_spec.specs.Classes.{answers, classes_of, descends, field_counts, found, gives_of, lookup};

use crate::sort_counts::SortCounts;
use arc_ast::tree::{Kind, Sign};

/// What a function, a method or a message gives: a number, or an object or nil. What has no result gives the number 0.
#[derive(Clone, Copy, Debug, PartialEq, Eq)]
pub enum Gives {
    Number,
    Object,
}

/// What gives a value of the kind, or no value.
pub fn gives_of(kind: Kind) -> Gives
    ensures { result ≡ gives_of kind }
{
    match kind {
        Kind::Object => Gives::Object,
        Kind::Void | Kind::Bool | Kind::Int | Kind::Long => Gives::Number,
    }
}

/// A method of a class: whether it is sent to the class or to its objects, the number of its selector,
/// how many numbers and how many objects it takes as arguments, what it gives, and what it runs, which is the number of
/// a function or the place where its code begins.
#[derive(Clone, Copy)]
pub struct Method {
    pub sign: Sign,
    pub selector: usize,
    pub takes: usize,
    pub objects: usize,
    pub gives: Gives,
    pub runs: usize,
}

/// A class: the number of its superclass, which the root has none of, its own methods, what its
/// `dealloc` runs, where it has one, and how many fields its objects have of each sort, inherited ones too, which
/// come first.
#[derive(Drop)]
pub struct Class {
    pub superclass: Option<usize>,
    pub methods: Vec<Method>,
    pub dealloc: Option<usize>,
    pub fields: SortCounts,
}

/// Whether the method answers a message of this sign with this selector, and so many numbers and objects
/// as arguments, which wants this of it.
fn answers(
    method: &Method,
    sign: Sign,
    selector: usize,
    takes: usize,
    objects: usize,
    gives: Gives,
) -> bool
    ensures { result ≡ answers sign selector takes objects gives method.now }
{
    method.sign == sign
        && method.selector == selector
        && method.takes == takes
        && method.objects == objects
        && method.gives == gives
}

/// What the first of these methods runs that answers a message of this sign with this selector, and so
/// many numbers and objects as arguments, which wants this of it.
fn find(
    methods: &[Method],
    sign: Sign,
    selector: usize,
    takes: usize,
    objects: usize,
    gives: Gives,
) -> Option<usize>
    ensures { result ≡ found sign selector takes objects gives methods.now }
{
    for method in methods {
        if answers(method, sign, selector, takes, objects, gives) {
            return Some(method.runs);
        }
    }
    None
}

/// What a message of this sign with this selector runs, and so many numbers and objects as arguments, which
/// wants a number or an object: the method of the first class that has one, from the class with this number up to the root.
pub fn look_up(
    classes: &[Class],
    from: Option<usize>,
    sign: Sign,
    selector: usize,
    takes: usize,
    objects: usize,
    gives: Gives,
) -> Option<usize>
    ensures { result ≡ lookup (classes_of classes.now) from sign selector takes objects gives }
{
    let mut next = from;
    for _passed in 0..classes.len() {
        let Some(number) = next else {
            return None;
        };
        let Some(class) = classes.get(number) else {
            return None;
        };
        let own = find(&class.methods, sign, selector, takes, objects, gives);
        if own.is_some() {
            return own;
        }
        next = class.superclass;
    }
    None
}

/// Whether the class with this number is that one, or comes from it.
pub fn descends_from(classes: &[Class], from: Option<usize>, other: usize) -> bool
    ensures { result ≡ descends (classes_of classes.now) from other }
{
    let mut next = from;
    for _passed in 0..classes.len() {
        let Some(number) = next else {
            return false;
        };
        let Some(class) = classes.get(number) else {
            return false;
        };
        if number == other {
            return true;
        }
        next = class.superclass;
    }
    false
}

/// How many fields the objects of the class with this number have, of each sort.
pub fn field_counts(classes: &[Class], class: usize) -> SortCounts
    ensures { result ≡ field_counts (slice_get (classes_of classes.now) class) }
{
    match classes.get(class) {
        Some(class) => class.fields,
        None => SortCounts::none(),
    }
}
