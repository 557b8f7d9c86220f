//! The sizes of blocks.
ghost use Rattle.std.specs.Prelude.{◌≡◌, ◌<◌, ◌≤◌};
ghost use Rattle.arc_heap.specs.Sizes.{class_of, size_of};

/// The class of the smallest blocks that hold so many words: 1 for 4 words, up to 6 for 128.
#[inline(always)]
pub fn class_for(words: usize) -> u8
    requires { words ≤ 128 }
    ensures class { result ≡ class_of words }
    ensures range { (0 < result) × (result ≤ 6) }
{
    if words <= 4 {
        1
    } else if words <= 8 {
        2
    } else if words <= 16 {
        3
    } else if words <= 32 {
        4
    } else if words <= 64 {
        5
    } else {
        6
    }
}

/// How many words each block of a class has.
#[inline(always)]
#[tactic(auto, unfolding(crate::specs::Sizes::size_of))]
pub fn words_in(class: u8) -> usize
    requires { (0 < class) × (class ≤ 6) }
    ensures size { result ≡ size_of class }
    ensures range { (4 ≤ result) × (result ≤ 128) }
{
    match class {
        1 => 4,
        2 => 8,
        3 => 16,
        4 => 32,
        5 => 64,
        _ => 128,
    }
}
