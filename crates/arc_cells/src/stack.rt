//! A stack, in room that was reserved.
ghost use Rattle.std.specs.Prelude.{◌≡◌, ◌+◌, ◌<◌, ◌≤◌, ◌∷◌, ◌++◌, length, take, drop, IfOk, List, Some, slice_get};
ghost use Rattle.arc_cells.specs.Words.{empty, pushed, with_item, Took};

use arc_spec::event::NoMemory;
use std::alloc::Global;
use std::marker::Model;
use std::mem;

/// Numbers, or what else is copied, of which the last one is on top. It never takes more memory than
/// it was made with.
#[derive(Drop)]
pub struct Stack<T: Copy + Drop> {
    items: Vec<T>,
}

impl<T: Copy + Drop> Model for Stack<T> {
    ghost use Rattle.std.specs.Prelude.{reverse, vec_capacity};
    ghost use Rattle.arc_cells.specs.Words.{Pile};

    ghost Value = { Pile T };

    ghost view = { λ a. record { items = reverse a.items.items; room = vec_capacity a.items } };
}

impl<T: Copy + Drop> Stack<T> {
    /// An empty stack with room for so many. The error is a refusal of their memory.
    pub fn with_room(alloc: Global, room: usize) -> Result<Stack<T>, NoMemory>
        ensures { IfOk result (λ s. s ≡ empty room) }
    {
        Ok(Stack {
            items: Vec::with_capacity(alloc, room)?,
        })
    }

    /// Hands the stack out, and leaves one without room.
    #[inline(always)]
    pub fn lend(&mut self) -> Stack<T>
        ensures { result ≡ self.old }
    {
        let alloc = *self.items.allocator();
        Stack {
            items: mem::replace(&mut self.items, Vec::new(alloc)),
        }
    }

    /// How many there are.
    #[inline(always)]
    pub fn len(&self) -> usize
        ensures { result ≡ length self.now.items }
    {
        self.items.len()
    }

    /// Puts one on top.
    #[inline(always)]
    pub fn push(&mut self, item: T)
        requires { length self.old.items < self.old.room }
        ensures value { self.new ≡ pushed item self.old }
        ensures len { length self.new.items ≡ length self.old.items + 1 }
        ensures room { self.new.room ≡ self.old.room }
    {
        self.items.push_reserved(item);
    }

    /// Takes what is on top.
    #[inline(always)]
    pub fn pop(&mut self) -> T
        requires { 0 < length self.old.items }
        ensures value { self.old ≡ pushed result self.new }
        ensures len { length self.old.items ≡ length self.new.items + 1 }
        ensures room { self.new.room ≡ self.old.room }
    {
        self.items.take_last()
    }

    /// Takes what is on top, if there is anything.
    #[inline(always)]
    pub fn take(&mut self) -> Option<T>
        ensures took { Took self.old result self.new }
        ensures room { self.new.room ≡ self.old.room }
    {
        self.items.pop()
    }

    /// What is on top.
    #[inline(always)]
    pub fn top(&self) -> T
        requires { 0 < length self.now.items }
        ensures { (rest : List T) × (self.now.items ≡ result ∷ rest) }
    {
        self.get(0)
    }

    /// What is below so many others.
    #[inline(always)]
    pub fn get(&self, depth: usize) -> T
        requires { depth < length self.now.items }
        ensures { slice_get self.now.items depth ≡ Some result }
    {
        self.items[self.items.len() - 1 - depth]
    }

    /// Puts one in the place of what is below so many others.
    #[inline(always)]
    pub fn set(&mut self, depth: usize, item: T)
        requires { depth < length self.old.items }
        ensures value { self.new ≡ with_item self.old depth item }
        ensures len { length self.new.items ≡ length self.old.items }
        ensures room { self.new.room ≡ self.old.room }
    {
        let place = self.items.len() - 1 - depth;
        self.items[place] = item;
    }

    /// Takes what is below so many others, which stay.
    #[inline(always)]
    pub fn remove(&mut self, depth: usize) -> T
        requires { depth < length self.old.items }
        ensures value { slice_get self.old.items depth ≡ Some result }
        ensures items { self.new.items ≡ take depth self.old.items ++ drop (depth + 1) self.old.items }
        ensures room { self.new.room ≡ self.old.room }
    {
        let place = self.items.len() - 1 - depth;
        self.items.remove(place)
    }

    /// Takes so many from the top.
    #[inline(always)]
    pub fn forget(&mut self, count: usize)
        requires { count ≤ length self.old.items }
        ensures items { self.new.items ≡ drop count self.old.items }
        ensures room { self.new.room ≡ self.old.room }
    {
        let left = self.items.len() - count;
        self.items.truncate(left);
    }
}
