//! Machines on readers and writers that fail, and over a store that has too few blocks.
ghost use Rattle.std.specs.Prelude.{◌≡◌, ◌⊎◌, None};
ghost use Rattle.arc_code.specs.CountedDevices.{failures_of};

use crate::devices::{Broken, unflushed, with_room};
use crate::machine::programs::{PRINTING, machine_of};
use arc_code::code::IoFault;
use arc_code::counted::Counted;
use arc_code::device::{Input, Output};
use arc_heap::plain::PlainStore;
use arc_heap::store::{Ref, Store};
use arc_machine::stop::Stop;
use arc_spec::event::Event;
use std::alloc::Global;

/// A store of another's blocks, of which so many are left: each that is taken is one less, and each that is given back one more.
#[derive(Drop)]
struct Few<S: Store + Drop> {
    store: S,
    left: usize,
}

impl<S: Store + Drop> Store for Few<S> {
    ghost out = { λ s. S.out s.store };

    ghost stock = { λ _. None };

    ghost refuses = { λ old words new. (old.left ≡ 0) ⊎ S.refuses old.store words new.store };

    fn take(&mut self, words: usize) -> Option<Ref> {
        if self.left == 0 {
            return None;
        }
        self.left -= 1;
        self.store.take(words)
    }

    fn give(&mut self, block: Ref) {
        self.left = self.left.saturating_add(1);
        self.store.give(block);
    }

    fn load(&self, block: Ref, i: usize) -> u64 {
        self.store.load(block, i)
    }

    fn store(&mut self, block: Ref, i: usize, value: u64) {
        self.store.store(block, i, value);
    }
}

/// The failure that breaks the printing program on these devices, if a second run answers it again and makes no step.
fn failure_of<R: Input, W: Output>(
    alloc: Global,
    reader: &mut Counted<R>,
    writer: &mut Counted<W>,
) -> Option<IoFault>
    requires reads { failures_of reader.old ≡ 0 }
    requires writes { failures_of writer.old ≡ 0 }
{
    let mut machine = machine_of(alloc, PRINTING, PlainStore::new(alloc))?;
    let first = machine.run(1_000, reader, writer);
    let steps = machine.steps_done();
    let second = machine.run(1_000, reader, writer);
    if first != second || machine.steps_done() != steps {
        return None;
    }
    first.err()
}

#[test]
fn a_failing_writer_breaks_a_step(rt: HostRuntime) {
    let mut reader = Counted::new(b"\x06".as_slice());
    let mut writer = Counted::new(with_room(rt.alloc(), 2));
    let fault = failure_of(rt.alloc(), &mut reader, &mut writer);
    let is_taken = writer.get_ref().taken.as_slice() == b"ab".as_slice();
    assert!(rt; fault == Some(IoFault::Write) && writer.failures() == 1 && is_taken);
}

/// Whether the machine of the printing program is broken by a writer with room for two bytes, and shows these then.
fn shows_two_bytes(alloc: Global) -> Option<bool> {
    let mut machine = machine_of(alloc, PRINTING, PlainStore::new(alloc))?;
    let mut reader = Counted::new(b"".as_slice());
    let mut writer = Counted::new(with_room(alloc, 2));
    let stop = machine.run(1_000, &mut reader, &mut writer);
    drop(writer);
    let given = [Event::Byte(b'a'), Event::Byte(b'b')];
    Some(stop == Err(IoFault::Write) && machine.events() == given.as_slice())
}

#[test]
fn a_broken_step_has_the_events_that_it_gave(rt: HostRuntime) {
    assert_eq!(rt; shows_two_bytes(rt.alloc()), Some(true));
}

#[test]
fn what_was_printed_is_flushed_before_a_read(rt: HostRuntime) {
    let mut reader = Counted::new(b"\x06".as_slice());
    let mut writer = Counted::new(unflushed(rt.alloc()));
    let fault = failure_of(rt.alloc(), &mut reader, &mut writer);
    let is_taken = writer.get_ref().taken.as_slice() == b"abcdef".as_slice();
    assert!(rt; fault == Some(IoFault::Write) && reader.get_ref().len() == 1 && is_taken);
}

#[test]
fn a_failing_reader_breaks_a_step(rt: HostRuntime) {
    let mut reader = Counted::new(Broken);
    let mut writer = Counted::new(Vec::new(rt.alloc()));
    let fault = failure_of(rt.alloc(), &mut reader, &mut writer);
    let failures = (reader.failures(), writer.failures());
    assert_eq!(rt; (fault, failures), (Some(IoFault::Read), (1, 0)));
}

/// Makes two objects.
const MAKING: &str = "@interface A : NSObject @end @implementation A @end \
    int main(void) { A *a = [A new]; printf(\"a\"); A *b = [A new]; printf(\"b\"); }";

/// Whether a machine stops for want of a block after what it prints before, and stops again where it is.
fn stops_without_a_block(alloc: Global) -> Option<bool> {
    let store = Few {
        store: PlainStore::new(alloc),
        left: 1,
    };
    let mut machine = machine_of(alloc, MAKING, store)?;
    let mut reader = Counted::new(b"".as_slice());
    let mut writer = Counted::new(Vec::new(alloc));
    let stop = machine.run(1_000, &mut reader, &mut writer);
    let steps = machine.steps_done();
    let again = machine.run(1_000, &mut reader, &mut writer);
    let stays = machine.steps_done() == steps;
    drop(machine);
    let is_printed = writer.get_ref().as_slice() == b"a".as_slice();
    Some(stop == Ok(Stop::NoHeap) && again == stop && stays && is_printed)
}

#[test]
fn a_store_with_no_block_stops_it(rt: HostRuntime) {
    assert_eq!(rt; stops_without_a_block(rt.alloc()), Some(true));
}

/// Makes objects one after another, of which each ends before the next one is made.
const MAKING_AGAIN: &str = "@interface A : NSObject @end @implementation A @end \
    int main(void) { for (int i = 0; i < 100; i++) [A new]; printf(\"a\"); }";

/// Whether a machine makes many objects over a store of one block, where each is gone before the next one is made.
fn ends_with_one_block(alloc: Global) -> Option<bool> {
    let store = Few {
        store: PlainStore::new(alloc),
        left: 1,
    };
    let mut machine = machine_of(alloc, MAKING_AGAIN, store)?;
    let mut reader = Counted::new(b"".as_slice());
    let mut writer = Counted::new(Vec::new(alloc));
    let stop = machine.run(100_000, &mut reader, &mut writer);
    drop(machine);
    let is_printed = writer.get_ref().as_slice() == b"a".as_slice();
    Some(stop == Ok(Stop::Ended(0)) && is_printed)
}

#[test]
fn a_block_is_given_back(rt: HostRuntime) {
    assert_eq!(rt; ends_with_one_block(rt.alloc()), Some(true));
}
