//! What every store of blocks promises.
ghost use Rattle.std.specs.Prelude.{◌≡◌, ℕ, ◌<◌, ◌≤◌, ◌↔◌, Option, Some, None, length, get_or, slice_set, replicate, IfSome, IsNone, option_map};
ghost use Rattle.arc_heap.specs.Blocks.{Blocks, with_block, words_of, IsOut, HasWord};
ghost use Rattle.arc_heap.specs.Sizes.{class_of, size_of};
ghost use Rattle.arc_heap.specs.Stock.{Stock, IsFull, after_take, after_give};

/// The place of a block. No block's place is 0, so that a word can say that it names none by 0.
#[derive(Clone, Copy)]
pub struct Ref {
    pub at: u64,
    ghost above_zero: { 0 < at },
}

/// A store of blocks of words.
pub trait Store {
    /// The blocks that are out.
    ghost out: { Self → Blocks };

    /// What a store of fixed size has left. It is None of a store that grows.
    ghost stock: { Self → Option Stock };

    /// A call of `take` in the first state was asked for so many words, had no block, and left the
    /// other state. Of a store that isn't known only its own `take` says so; such a fact is the record of
    /// a call.
    ghost refuses: { Self → ℕ → Self → Type 0 };

    /// Takes a block of the least size that holds so many words, all of them 0. It is None, and
    /// nothing is changed, where no block of this size can be had: of a store of fixed size, where
    /// none is free and too few words are left; of one that grows, where memory is refused.
    fn take(&mut self, words: usize) -> Option<Ref>
        requires { (0 < words) × (words ≤ 128) }
        ensures fresh { IfSome result (λ r. out self.old r.at ≡ None) }
        ensures taken { IfSome result (λ r. out self.new ≡ with_block (out self.old) r.at (Some (replicate (size_of (class_of words)) 0))) }
        ensures stock_taken { IfSome result (λ r. stock self.new ≡ option_map (after_take (class_of words)) (stock self.old)) }
        ensures asked { IsNone result → refuses self.old words self.new }
        ensures refused { IsNone result → (out self.new ≡ out self.old) × (stock self.new ≡ stock self.old) }
        ensures full { IfSome (stock self.old) (λ left. IsNone result ↔ IsFull left (class_of words)) };

    /// Gives a block back. Its place may serve another block from now on.
    fn give(&mut self, block: Ref)
        requires { IsOut (out self.old) block.at }
        ensures given { out self.new ≡ with_block (out self.old) block.at None }
        ensures stock_given { stock self.new ≡ option_map (after_give (class_of (length (words_of (out self.old block.at))))) (stock self.old) };

    /// The word of a block that has this index.
    fn load(&self, block: Ref, i: usize) -> u64
        requires { HasWord (out self.now) block.at i }
        ensures { result ≡ get_or (words_of (out self.now block.at)) i 0 };

    /// Writes the word of a block that has this index.
    fn store(&mut self, block: Ref, i: usize, value: u64)
        requires { HasWord (out self.old) block.at i }
        ensures stored { out self.new ≡ with_block (out self.old) block.at (Some (slice_set (words_of (out self.old block.at)) i value)) }
        ensures stock_kept { stock self.new ≡ stock self.old };
}
