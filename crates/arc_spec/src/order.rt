//! The order in which the fields of an object are destroyed that name objects.
ghost use Rattle.std.specs.Prelude.{◌≡◌, ◌-◌, ◌++◌, ◌∷◌, [], ℕ, suc, slice_get, IfOk, OnOk, MatchOption};
ghost use Rattle.arc_spec.specs.Classes.{classes_of, strong_count, superclasses, ancestry_within, strong_counts, above_class, lesser, numbers_from, field_order};

use crate::class::{Class, field_counts};
use crate::event::NoMemory;
use std::alloc::Global;

/// The fields of an object of a class that name objects: those of its class first, and then those of the classes
/// above it, the class's own ones each time in their order.
pub fn field_order(alloc: Global, classes: &[Class], class: usize) -> Result<Vec<usize>, NoMemory>
    ensures { IfOk result (λ order. order.items ≡ field_order (classes_of classes.now) class) }
{
    let mut order = Vec::new(alloc);
    let mut count = strong_count(classes, class);
    let mut next = above(classes, class);
    for _passed in 0..classes.len() {
        let Some(layer) = layer(classes, next) else {
            push_numbers(&mut order, 0, count)?;
            return Ok(order);
        };
        let (inherited, further) = layer;
        let kept = lesser(inherited, count);
        push_numbers(&mut order, kept, count)?;
        count = kept;
        next = further;
    }
    push_numbers(&mut order, 0, count)?;
    Ok(order)
}

/// How many fields the objects of a class have that name objects.
fn strong_count(classes: &[Class], class: usize) -> usize
    ensures { result ≡ strong_count (slice_get (classes_of classes.now) class) }
{
    field_counts(classes, class).objects
}

/// The lesser of two numbers.
fn lesser(first: usize, second: usize) -> usize
    ensures { result ≡ lesser first second }
{
    if first < second { first } else { second }
}

/// The class above a class.
fn above(classes: &[Class], class: usize) -> Option<usize>
    ensures { result ≡ above_class (slice_get (classes_of classes.now) class) }
{
    match classes.get(class) {
        Some(class) => class.superclass,
        None => None,
    }
}

/// How many fields a class has that name objects, and the class above it; or nothing, where there is no such class.
fn layer(classes: &[Class], class: Option<usize>) -> Option<(usize, Option<usize>)>
    ensures { let all = classes_of classes.now in MatchOption result ((n : ℕ) → strong_counts all (ancestry_within n (superclasses all) class) ≡ [])
        (λ layer. (n : ℕ) → strong_counts all (ancestry_within (suc n) (superclasses all) class) ≡ layer.0 ∷ strong_counts all (ancestry_within n (superclasses all) layer.1)) }
{
    let Some(number) = class else {
        return None;
    };
    let Some(found) = classes.get(number) else {
        return None;
    };
    Some((found.fields.objects, found.superclass))
}

/// Appends the numbers from the first one up to before the last one.
fn push_numbers(numbers: &mut Vec<usize>, first: usize, last: usize) -> Result<(), NoMemory>
    ensures { OnOk result (numbers.new.items ≡ numbers.old.items ++ numbers_from first (last - first)) }
{
    for number in first..last {
        numbers.push(number)?;
    }
    Ok(())
}
