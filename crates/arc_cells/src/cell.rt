//! The blocks of objects. A block has the object's class, how many places name it, its phase, its
//! number, and then a word for each field: those that hold numbers first, and then those that name objects.
ghost use Rattle.std.specs.Prelude.{◌≡◌, ◌+◌, ◌-◌, ◌^◌, ◌<◌, ◌≤◌, Some, IsNone, IsTrue, ◌↔◌, length, get_or};
ghost use Rattle.std.specs.Int.{w64, cast_signed};
ghost use Rattle.arc_cells.specs.Cells.{Cell, IsCell, HasField, Becomes, Makes, with_count, with_phase, with_value, with_word, first_cell, fresh_cell};
ghost use Rattle.arc_cells.specs.BlockRefusal.{Refuses};
ghost use Rattle.arc_cells.specs.declared.cell.TheConstants.{MOST_FIELDS};

use arc_heap::store::{Ref, Store};

const CLASS: usize = 0;

const COUNT: usize = 1;

const PHASE: usize = 2;

const NUMBER: usize = 3;

/// How many words stand before those of the fields.
const HEAD: usize = 4;

/// The phase of an object whose dealloc hasn't begun.
const LIVE: u64 = 0;

/// The phase of an object whose dealloc has begun.
const DYING: u64 = 1;

/// The phase of an object whose fields that name objects are being destroyed.
const EMPTYING: u64 = 2;

/// The most fields that an object can have.
pub const MOST_FIELDS: usize = 124;

/// The number of an object's class.
#[inline(always)]
pub fn class_in<S: Store>(store: &S, object: Ref) -> u64
    requires { (c : Cell) × IsCell (S.out store.now) object.at c }
    ensures { (c : Cell) → IsCell (S.out store.now) object.at c → result ≡ c.class }
{
    store.load(object, CLASS)
}

/// How many places name an object.
#[inline(always)]
pub fn count_in<S: Store>(store: &S, object: Ref) -> u64
    requires { (c : Cell) × IsCell (S.out store.now) object.at c }
    ensures { (c : Cell) → IsCell (S.out store.now) object.at c → result ≡ c.count }
{
    store.load(object, COUNT)
}

/// Whether an object's dealloc hasn't begun.
#[inline(always)]
pub fn is_live<S: Store>(store: &S, object: Ref) -> bool
    requires { (c : Cell) × IsCell (S.out store.now) object.at c }
    ensures { (c : Cell) → IsCell (S.out store.now) object.at c → IsTrue result ↔ (c.phase ≡ 0) }
{
    store.load(object, PHASE) == LIVE
}

/// Whether the fields of an object that name objects are being destroyed.
#[inline(always)]
pub fn is_emptying<S: Store>(store: &S, object: Ref) -> bool
    requires { (c : Cell) × IsCell (S.out store.now) object.at c }
    ensures { (c : Cell) → IsCell (S.out store.now) object.at c → IsTrue result ↔ (c.phase ≡ 2) }
{
    store.load(object, PHASE) == EMPTYING
}

/// An object's number.
#[inline(always)]
pub fn number_in<S: Store>(store: &S, object: Ref) -> u64
    requires { (c : Cell) × IsCell (S.out store.now) object.at c }
    ensures { (c : Cell) → IsCell (S.out store.now) object.at c → result ≡ c.number }
{
    store.load(object, NUMBER)
}

/// The field of an object that has this index.
#[inline(always)]
pub fn field_in<S: Store>(store: &S, object: Ref, index: usize) -> i64
    requires short { index < MOST_FIELDS }
    requires field { HasField (S.out store.now) object.at index }
    ensures { (c : Cell) → IsCell (S.out store.now) object.at c →
        result ≡ cast_signed w64 (get_or c.fields index 0) }
{
    store.load(object, HEAD + index).cast_signed()
}

/// Writes the field of an object that has this index.
#[inline(always)]
pub fn write_field<S: Store>(store: &mut S, object: Ref, index: usize, value: i64)
    requires short { index < MOST_FIELDS }
    requires field { HasField (S.out store.old) object.at index }
    ensures { (c : Cell) → IsCell (S.out store.old) object.at c →
        Becomes (S.out store.old) (S.out store.new) object.at (with_value c index value) }
{
    store.store(object, HEAD + index, value.cast_unsigned());
}

/// What the field of an object names that has this index among all of its fields: the place of a block, or 0.
#[inline(always)]
pub fn name_in<S: Store>(store: &S, object: Ref, index: usize) -> u64
    requires short { index < MOST_FIELDS }
    requires field { HasField (S.out store.now) object.at index }
    ensures { (c : Cell) → IsCell (S.out store.now) object.at c → result ≡ get_or c.fields index 0 }
{
    store.load(object, HEAD + index)
}

/// The field of an object that has this index among all of its fields names this.
#[inline(always)]
pub fn write_name<S: Store>(store: &mut S, object: Ref, index: usize, name: u64)
    requires short { index < MOST_FIELDS }
    requires field { HasField (S.out store.old) object.at index }
    ensures { (c : Cell) → IsCell (S.out store.old) object.at c →
        Becomes (S.out store.old) (S.out store.new) object.at (with_word c index name) }
{
    store.store(object, HEAD + index, name);
}

/// One more place names an object.
#[inline(always)]
pub fn hold<S: Store>(store: &mut S, object: Ref)
    requires { (c : Cell) × IsCell (S.out store.old) object.at c × (c.count < 2 ^ 64 - 1) }
    ensures { (c : Cell) → IsCell (S.out store.old) object.at c →
        Becomes (S.out store.old) (S.out store.new) object.at (with_count c (c.count + 1)) }
{
    let count = store.load(object, COUNT);
    store.store(object, COUNT, count + 1);
}

/// One place less names an object.
#[inline(always)]
pub fn release<S: Store>(store: &mut S, object: Ref)
    requires { (c : Cell) × IsCell (S.out store.old) object.at c × (0 < c.count) }
    ensures { (c : Cell) → IsCell (S.out store.old) object.at c →
        Becomes (S.out store.old) (S.out store.new) object.at (with_count c (c.count - 1)) }
{
    let count = store.load(object, COUNT);
    store.store(object, COUNT, count - 1);
}

/// The dealloc of an object begins.
#[inline(always)]
pub fn begin_end<S: Store>(store: &mut S, object: Ref)
    requires { (c : Cell) × IsCell (S.out store.old) object.at c }
    ensures { (c : Cell) → IsCell (S.out store.old) object.at c →
        Becomes (S.out store.old) (S.out store.new) object.at (with_phase c 1) }
{
    store.store(object, PHASE, DYING);
}

/// The fields of an object that name objects are being destroyed from now on.
#[inline(always)]
pub fn begin_emptying<S: Store>(store: &mut S, object: Ref)
    requires { (c : Cell) × IsCell (S.out store.old) object.at c }
    ensures { (c : Cell) → IsCell (S.out store.old) object.at c →
        Becomes (S.out store.old) (S.out store.new) object.at (with_phase c 2) }
{
    store.store(object, PHASE, EMPTYING);
}

/// The block of a new object, which one place names and whose fields are 0. It is None, and nothing is
/// changed, where the store has no block for it.
pub fn make<S: Store>(store: &mut S, class: u64, fields: usize, number: u64) -> Option<Ref>
    requires { fields ≤ MOST_FIELDS }
    ensures made { Makes (S.out store.old) (S.out store.new) (fresh_cell class fields number) result }
    ensures refused { IsNone result → Refuses S.out S.stock S.refuses (4 + fields) store.old store.new }
{
    let object = store.take(HEAD + fields)?;
    begin(store, object, class, number);
    Some(object)
}

/// Writes what a block says of an object as it is made.
fn begin<S: Store>(store: &mut S, object: Ref, class: u64, number: u64)
    requires { (c : Cell) × IsCell (S.out store.old) object.at c }
    ensures { (c : Cell) → IsCell (S.out store.old) object.at c →
        Becomes (S.out store.old) (S.out store.new) object.at (first_cell class number c) }
{
    store.store(object, CLASS, class);
    store.store(object, COUNT, 1);
    store.store(object, NUMBER, number);
}
