//! Where a growing store's blocks lie.
use arc_heap::plain::PlainStore;
use arc_heap::store::Store;

/// Where the store gives a block for so many words, if any block has as many.
fn place_in(store: &mut PlainStore, words: usize) -> Option<u64> {
    match words {
        1..=128 => Some(store.take(words)?.at),
        _ => None,
    }
}

/// Numbers of words, each with the place of a block for it, where a store gives one after the other. The places are
/// numbers of rows, so that they report how far apart blocks lie.
static PLACES: [(usize, u64); 8] = [
    (3, 1),
    (4, 2),
    (5, 3),
    (128, 5),
    (17, 37),
    (16, 45),
    (33, 49),
    (1, 65),
];

/// Whether the store gives blocks for so many words at these places, one after the other.
fn gives_at(store: &mut PlainStore, places: &[(usize, u64)]) -> bool {
    for (words, at) in places {
        if place_in(store, *words) != Some(*at) {
            return false;
        }
    }
    true
}

#[test]
fn blocks_have_the_least_size(rt: HostRuntime) {
    let mut store = PlainStore::new(rt.alloc());
    assert!(rt; gives_at(&mut store, &PLACES));
}

/// Where blocks of 4, 64 and 4 words were, which were taken and then given back, and what the last one held.
#[tactic(auto, unfolding(arc_heap::specs::Sizes::size_of))]
fn give_three(store: &mut PlainStore) -> Option<(u64, u64, u64, u64)> {
    let small = store.take(4)?;
    let large = store.take(64)?;
    let last = store.take(4)?;
    store.store(last, 3, u64::MAX);
    let held = store.load(last, 3);
    store.give(small);
    store.give(large);
    store.give(last);
    Some((small.at, large.at, last.at, held))
}

/// The block that was given back last is taken first and is clear, and another size gets another block.
#[test]
fn free_blocks_are_kept_by_size(rt: HostRuntime) {
    let mut store = PlainStore::new(rt.alloc());
    let (small, large, last, held) = give_three(&mut store).expect(&rt, "no memory");
    let places = [(8, 19), (4, last), (50, large), (4, small), (4, 21)];
    assert!(rt; held == u64::MAX && gives_at(&mut store, &places));
}

/// Where a block of 8 words is, and what its last word is at first. Then that becomes 1, and the block is given back.
#[tactic(auto, unfolding(arc_heap::specs::Sizes::size_of))]
fn use_block(store: &mut PlainStore) -> Option<(u64, u64)> {
    let block = store.take(8)?;
    let seen = (block.at, store.load(block, 7));
    store.store(block, 7, 1);
    store.give(block);
    Some(seen)
}

/// Whether a thousand blocks in turn are at the first place, and clear at first.
fn uses_one_place(store: &mut PlainStore) -> bool {
    for _ in 0..1000 {
        if use_block(store) != Some((1, 0)) {
            return false;
        }
    }
    true
}

#[test]
fn a_thousand_blocks_in_turn_need_no_more_room(rt: HostRuntime) {
    let mut store = PlainStore::new(rt.alloc());
    assert!(rt; uses_one_place(&mut store));
}
