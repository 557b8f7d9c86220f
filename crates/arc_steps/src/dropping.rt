//! What becomes of the objects that temporaries name, where they are dropped.
ghost use Rattle.std.specs.Prelude.{◌≡◌, ◌<◌, ◌≤◌, IsTrue, ◌↔◌, length, take};
ghost use Rattle.arc_spec.specs.HolderCounts.{holders};
ghost use Rattle.arc_cells.specs.Representation.{NamesBlock};
ghost use Rattle.arc_steps.specs.Releases.{CanDrop, EndsSome, IsAlone, Drops};

use arc_cells::objects::Objects;
use arc_heap::store::Store;

/// Whether a temporary names an object whose dealloc hasn't begun and which only temporaries name.
/// Then the end of one begins where they are dropped.
#[inline(always)]
pub fn ends_some<S: Store + Drop>(objects: &Objects<S>) -> bool
    requires places { objects.now.temporaries ≤ length objects.now.places }
    requires can { CanDrop (S.out objects.now.store) (take objects.now.temporaries objects.now.places) }
    ensures { IsTrue result ↔ EndsSome S.out objects.now }
{
    for depth in 0..objects.temporaries() {
        if is_alone(objects, objects.temporary(depth)) {
            return true;
        }
    }
    false
}

/// Whether the dealloc of an object hasn't begun and only temporaries name it.
#[inline(always)]
fn is_alone<S: Store + Drop>(objects: &Objects<S>, object: u64) -> bool
    requires places { objects.now.temporaries ≤ length objects.now.places }
    requires object { NamesBlock (S.out objects.now.store) object }
    ensures { IsTrue result ↔ IsAlone S.out objects.now object }
{
    if object == 0 {
        return false;
    }
    objects.count(object) == occurrences(objects, object) && objects.is_live(object)
}

/// How many temporaries name this.
#[inline(always)]
fn occurrences<S: Store + Drop>(objects: &Objects<S>, object: u64) -> u64
    requires { objects.now.temporaries ≤ length objects.now.places }
    ensures { result ≡ holders object (take objects.now.temporaries objects.now.places) }
{
    let mut count = 0;
    for depth in 0..objects.temporaries() {
        if objects.temporary(depth) == object {
            count += 1;
        }
    }
    count
}

/// Drops the temporaries, the last one first, up to one that is the last holder of an object: this
/// object, whose end begins. None says that all were dropped.
#[inline(always)]
pub fn drop_temporaries<S: Store + Drop>(objects: &mut Objects<S>) -> Option<u64>
    requires places { objects.old.temporaries ≤ length objects.old.places }
    requires can { CanDrop (S.out objects.old.store) (take objects.old.temporaries objects.old.places) }
    ensures { Drops S.out (take objects.old.temporaries objects.old.places) objects.old objects.new result }
{
    while objects.temporaries() > 0 {
        let object = objects.pop();
        if objects.is_last(object) {
            return Some(object);
        }
        objects.lower(object);
    }
    None
}
