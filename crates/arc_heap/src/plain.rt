//! A store that grows.
ghost use Rattle.std.specs.Prelude.{◌≡◌, ℕ, ◌+◌, ◌<◌, ◌≤◌, ◌⊎◌, List, Option, Some, None, true, length, get_or, replicate, IfSome, IsNone};
ghost use Rattle.arc_heap.specs.Blocks.{no_blocks, with_block};
ghost use Rattle.arc_heap.specs.Sizes.{size_of};
ghost use Rattle.arc_heap.specs.BlockLayout.{blocks_in, mark_at};
ghost use Rattle.arc_heap.specs.declared.mark.Mark.TheVariants.{Free};

use crate::class::{class_for, words_in};
use crate::mark::Mark;
use crate::store::{Ref, Store};
use std::alloc::Global;
use std::marker::Model;

/// How many words a row has. Each block has a number of whole rows.
const ROW: usize = 4;

/// Blocks that lie one after another in one vector of words. A block that was given back serves a
/// later request of its class, and the vector grows only where there is none.
///
/// The vector is seen as rows of four words, and the marks say at which rows blocks start. A block's
/// place is the number of its first row, counted from 1, so that a word is read with no look at the
/// marks. A free block's first word is the place of another free block of its class, or 0, and
/// `free` has for each class the place where this list begins.
#[derive(Drop)]
pub struct PlainStore {
    marks: Vec<Mark>,
    words: Vec<u64>,
    free: [u64; 7],
}

impl Model for PlainStore {
    ghost use Rattle.std.specs.Prelude.{List, ℕ, length};
    ghost use Rattle.arc_heap.specs.declared.mark.Mark.{Mark};
    ghost use Rattle.arc_heap.specs.BlockLayout.{IsArranged};

    ghost Value = { List Mark × List ℕ };

    ghost view = { λ s. (s.marks.items, s.words.items) };

    ghost invariant = { λ s. IsArranged s.marks.items (length s.words.items) };
}

/// Writes 0 to `count` words from `from` on, to those of small blocks without a call.
#[inline(always)]
fn clear(words: &mut [u64], from: usize, count: usize)
    requires { from + count ≤ length words.old }
    ensures size { length words.new ≡ length words.old }
    ensures zeros { (k : ℕ) → from ≤ k → k < from + count → get_or words.new k 0 ≡ 0 }
    ensures others { (k : ℕ) → (k < from) ⊎ (from + count ≤ k) → get_or words.new k 0 ≡ get_or words.old k 0 }
{
    if count == ROW {
        clear_row(words, from);
        return;
    }
    if count == 2 * ROW {
        clear_row(words, from);
        clear_row(words, from + ROW);
        return;
    }
    words[from..from + count].fill(0);
}

/// Writes 0 to the words of a row, from `from` on.
#[inline(always)]
fn clear_row(words: &mut [u64], from: usize)
    requires { from + 4 ≤ length words.old }
    ensures size { length words.new ≡ length words.old }
    ensures zeros { (k : ℕ) → from ≤ k → k < from + 4 → get_or words.new k 0 ≡ 0 }
    ensures others { (k : ℕ) → (k < from) ⊎ (from + 4 ≤ k) → get_or words.new k 0 ≡ get_or words.old k 0 }
{
    words[from] = 0;
    words[from + 1] = 0;
    words[from + 2] = 0;
    words[from + 3] = 0;
}

impl PlainStore {
    /// A store with no blocks, which takes no memory.
    #[tactic(auto, unfolding(crate::specs::BlockLayout::blocks_in))]
    pub fn new(alloc: Global) -> PlainStore
        ensures { blocks_in result.0 result.1 ≡ no_blocks }
    {
        PlainStore {
            marks: Vec::new(alloc),
            words: Vec::new(alloc),
            free: [0; 7],
        }
    }

    /// Takes the first free block of a class, cleared, or is None and changes nothing where there
    /// is none. What the list of free blocks names is taken only where its mark says that it is one.
    fn reuse(&mut self, class: u8) -> Option<Ref>
        requires { (0 < class) × (class ≤ 6) }
        ensures fresh { IfSome result (λ r. blocks_in self.old.0 self.old.1 r.at ≡ None) }
        ensures taken { IfSome result (λ r. blocks_in self.new.0 self.new.1 ≡ with_block (blocks_in self.old.0 self.old.1) r.at (Some (replicate (size_of class) 0))) }
        ensures refused { IsNone result → self.new ≡ self.old }
    {
        let at = self.free[class as usize];
        if at == 0 {
            return None;
        }
        let row = (at - 1) as usize;
        if !is_free(&self.marks, row, class) {
            return None;
        }
        self.free[class as usize] = self.words[ROW * row];
        self.marks[row] = Mark::Out(class);
        clear(&mut self.words, ROW * row, words_in(class));
        Some(Ref { at })
    }

    /// Takes a block of a class after all others, or is None and changes no block where memory is
    /// refused.
    fn cut(&mut self, class: u8) -> Option<Ref>
        requires { (0 < class) × (class ≤ 6) }
        ensures fresh { IfSome result (λ r. blocks_in self.old.0 self.old.1 r.at ≡ None) }
        ensures taken { IfSome result (λ r. blocks_in self.new.0 self.new.1 ≡ with_block (blocks_in self.old.0 self.old.1) r.at (Some (replicate (size_of class) 0))) }
        ensures refused { IsNone result → self.new ≡ self.old }
    {
        let row = self.marks.len();
        let first = self.words.len();
        let size = words_in(class);
        let Ok(()) = self.words.resize(first + size, 0) else {
            return None;
        };
        let Ok(()) = self.marks.resize(row + size / ROW, Mark::Inside) else {
            self.words.truncate(first);
            return None;
        };
        self.marks[row] = Mark::Out(class);
        Some(Ref { at: row as u64 + 1 })
    }
}

/// Whether a free block of the class starts at the row.
fn is_free(marks: &[Mark], row: usize, class: u8) -> bool
    ensures { result ≡ true → (row < length marks.now) × (mark_at marks.now row ≡ Free class) }
{
    if row >= marks.len() {
        return false;
    }
    match marks[row] {
        Mark::Free(other) => other == class,
        _ => false,
    }
}

impl Store for PlainStore {
    ghost out = { λ s. blocks_in s.0 s.1 };

    ghost stock = { λ _. None };

    ghost refuses = { λ old _ new. new ≡ old };

    fn take(&mut self, words: usize) -> Option<Ref> {
        let class = class_for(words);
        if let Some(block) = self.reuse(class) {
            return Some(block);
        }
        self.cut(class)
    }

    fn give(&mut self, block: Ref) {
        let row = (block.at - 1) as usize;
        if let Mark::Out(class) = self.marks[row] {
            self.marks[row] = Mark::Free(class);
            self.words[ROW * row] = self.free[class as usize];
            self.free[class as usize] = block.at;
        }
    }

    #[inline(always)]
    fn load(&self, block: Ref, i: usize) -> u64 {
        self.words[ROW * (block.at - 1) as usize + i]
    }

    #[inline(always)]
    fn store(&mut self, block: Ref, i: usize, value: u64) {
        self.words[ROW * (block.at - 1) as usize + i] = value;
    }
}
