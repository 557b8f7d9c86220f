//! The objects of a running program, the places that name them, what waits, and the variables of the whole program.
ghost use Rattle.std.specs.Prelude.{◌≡◌, ◌≢◌, ◌+◌, ◌-◌, ◌^◌, ◌<◌, ◌≤◌, ℕ, List, ◌∷◌, ◌++◌, Option, Some, IsNone, IsTrue, ◌↔◌, length, take, drop, map, nat_lt, slice_get, slice_set, slice_index_or, pos, get_or, IfOk};
ghost use Rattle.std.specs.Int.{w64, cast_signed};
ghost use Rattle.arc_spec.specs.Classes.{classes_of};
ghost use Rattle.arc_spec.specs.Objects.{nils};
ghost use Rattle.arc_spec.specs.Statics.{first_statics};
ghost use Rattle.arc_spec.specs.declared.limits.TheConstants.{MOST_LEVELS};
ghost use Rattle.arc_code.specs.CodeSteps.{program_of};
ghost use Rattle.arc_cells.specs.declared.waiting.Waiting.{Waiting};
ghost use Rattle.arc_cells.specs.declared.waiting.Waiting.TheVariants as waits;
ghost use Rattle.arc_cells.specs.Cells.{Cell, IsCell, HasField, with_count, with_phase, with_value, with_word};
ghost use Rattle.arc_cells.specs.BlockRefusal.{Refuses};
ghost use Rattle.arc_cells.specs.Representation.{NamesBlock, Alters, IsLast, NewIn, Turns, no_objects, memory_of, with_places, with_names, with_frames, with_globals, with_strong_globals, order_at, orders_of, items_of, next_in, taking, dropping, declaring, undeclaring, words_of, entering, resuming, settling, handing_over};
ghost use Rattle.arc_cells.specs.Words.{Took, empty};
ghost use Rattle.arc_cells.specs.declared.cell.TheConstants.{MOST_FIELDS};

use crate::cell;
use crate::order::orders_of;
use crate::stack::Stack;
use crate::waiting::{Waiter, Waiting};
use arc_code::code::Code;
use arc_heap::store::{Ref, Store};
use arc_spec::event::NoMemory;
use arc_spec::limits::MOST_LEVELS;
use arc_spec::statics::Statics;
use std::alloc::Global;
use std::marker::Model;

/// A store with the blocks of objects, how many objects were made, the strong places, of which the
/// last ones are the temporaries of the running function, and those before them its variables, the
/// references, `self` of the running function, how many temporaries and variables it has, what waits
/// for it, what is kept from the start to the end, what the variables of the whole program name that name
/// objects, and for each class the fields of its objects that name objects, in the order in which they
/// are destroyed. A word names the object of a block by the block's place, and nil by 0. Only making an
/// object takes memory.
#[derive(Drop)]
pub struct Objects<S: Store + Drop> {
    store: S,
    made: u64,
    places: Stack<u64>,
    names: Stack<u64>,
    receiver: u64,
    temporaries: usize,
    variables: usize,
    frames: Stack<Waiting>,
    statics: Statics,
    strong_globals: Vec<u64>,
    orders: Vec<Vec<usize>>,
}

impl<S: Store + Drop> Model for Objects<S> {
    ghost use Rattle.std.specs.Prelude.{◌≤◌, map};
    ghost use Rattle.arc_spec.specs.declared.limits.TheConstants.{MOST_LEVELS};
    ghost use Rattle.arc_cells.specs.Representation.{Parts, items_of};

    ghost Value = { Parts S };

    ghost view = { λ a. record {
      store = a.store;
      made = a.made;
      places = a.places.items;
      temporaries = a.temporaries;
      variables = a.variables;
      names = a.names.items;
      self = a.receiver;
      room = a.places.room;
      names_room = a.names.room;
      frames = a.frames.items;
      statics = a.statics;
      strong_globals = a.strong_globals.items;
      orders = map items_of a.orders.items;
    } };

    ghost invariant = { λ a. MOST_LEVELS ≤ a.frames.room };
}

impl<S: Store + Drop> Objects<S> {
    /// No objects, with room for as many strong places and references as this code asks for, and its variables
    /// of the whole program as they are first. The error is a refusal of the memory for these and for 2,000 calls.
    pub fn new(alloc: Global, store: S, code: &Code) -> Result<Objects<S>, NoMemory>
        ensures { IfOk result (λ m. m ≡ no_objects store (program_of code.now)) }
    {
        let (places, names, frames) = stacks_for(alloc, code)?;
        let (statics, strong_globals, orders) = variables_for(alloc, code)?;
        Ok(Objects {
            store,
            made: 0,
            places,
            names,
            receiver: 0,
            temporaries: 0,
            variables: 0,
            frames,
            statics,
            strong_globals,
            orders,
        })
    }

    // ---- variables of the whole program

    /// The number that the variable of the whole program with this number holds; that of one that there
    /// isn't is 0.
    #[inline(always)]
    pub fn global(&self, variable: usize) -> i64
        ensures { result ≡ slice_index_or self.now.statics.numbers variable (pos 0) }
    {
        self.statics.number(variable)
    }

    /// This variable of the whole program, where there is one, holds this number.
    #[inline(always)]
    pub fn put_global(&mut self, variable: usize, number: i64)
        ensures { self.new ≡ with_globals self.old (slice_set self.old.statics.numbers variable number) }
    {
        self.statics.put_number(variable, number);
    }

    /// What the variable of the whole program with this number names, where there is one.
    #[inline(always)]
    pub fn strong_global(&self, variable: usize) -> Option<u64>
        ensures { result ≡ slice_get self.now.strong_globals variable }
    {
        self.strong_globals.get(variable).copied()
    }

    /// This variable of the whole program, where there is one, names this.
    #[inline(always)]
    pub fn put_strong_global(&mut self, variable: usize, object: u64)
        ensures { self.new ≡ with_strong_globals self.old (slice_set self.old.strong_globals variable object) }
    {
        if let Some(place) = self.strong_globals.get_mut(variable) {
            *place = object;
        }
    }

    // ---- places

    /// How many temporaries the running function has.
    #[inline(always)]
    pub fn temporaries(&self) -> usize
        ensures { result ≡ self.now.temporaries }
    {
        self.temporaries
    }

    /// What the temporary with so many after it names.
    #[inline(always)]
    pub fn temporary(&self, depth: usize) -> u64
        requires { depth < length self.now.places }
        ensures { slice_get self.now.places depth ≡ Some result }
    {
        self.places.get(depth)
    }

    /// What this variable names.
    #[inline(always)]
    pub fn variable(&self, variable: usize) -> u64
        requires { self.now.temporaries + variable < length self.now.places }
        ensures { slice_get self.now.places (self.now.temporaries + variable) ≡ Some result }
    {
        // The number of places fits a word, and so does the depth of one of them.
        let _places = self.places.len();
        self.places.get(self.temporaries + variable)
    }

    /// This variable names this.
    #[inline(always)]
    pub fn put(&mut self, variable: usize, object: u64)
        requires { self.old.temporaries + variable < length self.old.places }
        ensures { self.new ≡ with_places self.old (slice_set self.old.places (self.old.temporaries + variable) object) }
    {
        // The number of places fits a word, and so does the depth of one of them.
        let _places = self.places.len();
        self.places.set(self.temporaries + variable, object);
    }

    /// A further temporary, which names this.
    #[inline(always)]
    pub fn push(&mut self, object: u64)
        requires few { self.old.temporaries < 2 ^ 64 - 1 }
        requires room { length self.old.places < self.old.room }
        ensures { self.new ≡ taking object self.old }
    {
        self.places.push(object);
        self.temporaries += 1;
    }

    /// The last temporary is gone: what it named.
    #[inline(always)]
    pub fn pop(&mut self) -> u64
        requires some { 0 < self.old.temporaries }
        requires place { 0 < length self.old.places }
        ensures named { self.old.places ≡ result ∷ self.new.places }
        ensures others { self.new ≡ dropping self.old self.new.places }
    {
        self.temporaries -= 1;
        self.places.pop()
    }

    /// The temporary before the last one is gone.
    #[inline(always)]
    pub fn settle(&mut self)
        requires some { 1 < self.old.temporaries }
        requires place { 1 < length self.old.places }
        ensures { self.new ≡ settling self.old }
    {
        let last = self.places.pop();
        self.places.set(0, last);
        self.temporaries -= 1;
    }

    /// A further variable, which is nil.
    #[inline(always)]
    pub fn declare(&mut self)
        requires few { self.old.variables < 2 ^ 64 - 1 }
        requires room { length self.old.places < self.old.room }
        ensures { self.new ≡ declaring self.old }
    {
        self.places.push(0);
        self.variables += 1;
    }

    /// The variables of a function that has no temporary are gone.
    #[inline(always)]
    pub fn undeclare(&mut self)
        requires { self.old.variables ≤ length self.old.places }
        ensures { self.new ≡ undeclaring self.old }
    {
        self.places.forget(self.variables);
        self.variables = 0;
    }

    /// What `self` of the running function names.
    #[inline(always)]
    pub fn receiver(&self) -> u64
        ensures { result ≡ self.now.self }
    {
        self.receiver
    }

    // ---- references

    /// A further reference, which names this.
    #[inline(always)]
    pub fn name(&mut self, object: u64)
        requires { length self.old.names < self.old.names_room }
        ensures { self.new ≡ with_names self.old (object ∷ self.old.names) }
    {
        self.names.push(object);
    }

    /// What the last reference names.
    #[inline(always)]
    pub fn reference(&self) -> u64
        requires { 0 < length self.now.names }
        ensures { slice_get self.now.names 0 ≡ Some result }
    {
        self.names.get(0)
    }

    /// Takes the last reference: what it named.
    #[inline(always)]
    pub fn take(&mut self) -> u64
        requires { 0 < length self.old.names }
        ensures named { self.old.names ≡ result ∷ self.new.names }
        ensures others { self.new ≡ with_names self.old self.new.names }
    {
        self.names.pop()
    }

    /// What the reference below so many others names.
    #[inline(always)]
    pub fn reference_below(&self, depth: usize) -> u64
        requires { depth < length self.now.names }
        ensures { slice_get self.now.names depth ≡ Some result }
    {
        self.names.get(depth)
    }

    /// Takes the reference below so many others, which stay.
    #[inline(always)]
    pub fn take_below(&mut self, depth: usize)
        requires { depth < length self.old.names }
        ensures { self.new ≡ with_names self.old (take depth self.old.names ++ drop (depth + 1) self.old.names) }
    {
        if depth == 0 {
            let _ = self.names.pop();
        } else {
            let _ = self.names.remove(depth);
        }
    }

    /// Takes so many references, the last ones.
    #[inline(always)]
    pub fn forget(&mut self, count: usize)
        requires { count ≤ length self.old.names }
        ensures { self.new ≡ with_names self.old (drop count self.old.names) }
    {
        self.names.forget(count);
    }

    // ---- what waits

    /// Whether one call or end more may run.
    #[inline(always)]
    pub fn have_level(&self) -> bool
        ensures { result ≡ nat_lt (length self.now.frames) MOST_LEVELS }
    {
        self.frames.len() < MOST_LEVELS
    }

    /// A call that goes back to this instruction, of a function with this `self`.
    #[inline(always)]
    pub fn call(&mut self, back: usize, receiver: u64)
        requires { length self.old.frames < MOST_LEVELS }
        ensures { self.new ≡ entering self.old receiver (waits.Call back (words_of self.old)) }
    {
        let waiter = self.waiter();
        self.enter(receiver, Waiting::Call { back, waiter });
    }

    /// The end of this object begins, which goes back to this instruction and goes on with the dealloc
    /// of this class, of so many. The object is `self`.
    #[inline(always)]
    pub fn enter_end(&mut self, back: usize, object: u64, class: usize, classes: usize)
        requires { length self.old.frames < MOST_LEVELS }
        ensures { self.new ≡ entering self.old object (waits.End back (words_of self.old) object (Some class) classes) }
    {
        let waiter = self.waiter();
        self.enter(
            object,
            Waiting::End {
                back,
                waiter,
                object,
                next: Some(class),
                left: classes,
            },
        );
    }

    /// The running function, as it waits.
    #[inline(always)]
    fn waiter(&self) -> Waiter
        ensures { result ≡ words_of self.now }
    {
        Waiter {
            receiver: self.receiver,
            temporaries: self.temporaries,
            variables: self.variables,
        }
    }

    /// A function runs with this `self`, for which this waits.
    #[inline(always)]
    fn enter(&mut self, receiver: u64, frame: Waiting)
        requires { length self.old.frames < MOST_LEVELS }
        ensures { self.new ≡ entering self.old receiver frame }
    {
        self.frames.push(frame);
        self.temporaries = 0;
        self.variables = 0;
        self.receiver = receiver;
    }

    /// What waits for the running function.
    #[inline(always)]
    pub fn last(&self) -> Option<Waiting>
        ensures { slice_get self.now.frames 0 ≡ result }
    {
        if self.frames.len() == 0 {
            return None;
        }
        Some(self.frames.top())
    }

    /// This waits in the place of what waited for the running function.
    #[inline(always)]
    pub fn wait(&mut self, frame: Waiting)
        requires { 0 < length self.old.frames }
        ensures { self.new ≡ with_frames self.old (slice_set self.old.frames 0 frame) }
    {
        self.frames.set(0, frame);
    }

    /// The running function is left: its variables are gone, and what waited for it runs on.
    #[inline(always)]
    pub fn leave(&mut self, waiter: Waiter)
        requires waits { 0 < length self.old.frames }
        requires places { self.old.variables ≤ length self.old.places }
        ensures { self.new ≡ resuming (undeclaring self.old) waiter }
    {
        let _ = self.frames.pop();
        self.places.forget(self.variables);
        self.receiver = waiter.receiver;
        self.temporaries = waiter.temporaries;
        self.variables = waiter.variables;
    }

    /// The same, where it is rare that the function has variables, which is asked first.
    #[inline(always)]
    pub fn leave_bare(&mut self, waiter: Waiter)
        requires waits { 0 < length self.old.frames }
        requires places { self.old.variables ≤ length self.old.places }
        ensures { self.new ≡ resuming (undeclaring self.old) waiter }
    {
        let _ = self.frames.pop();
        if self.variables > 0 {
            self.places.forget(self.variables);
        }
        self.receiver = waiter.receiver;
        self.temporaries = waiter.temporaries;
        self.variables = waiter.variables;
    }

    /// The running function is left with an object: its variables are gone but for the last one, its result. That is a
    /// temporary of what waited for it, which runs on, and the last reference names it.
    #[inline(always)]
    pub fn hand_over(&mut self, waiter: Waiter)
        requires waits { 0 < length self.old.frames }
        requires some { 0 < self.old.variables }
        requires places { self.old.variables ≤ length self.old.places }
        requires few { waiter.temporaries < 2 ^ 64 - 1 }
        requires names { length self.old.names < self.old.names_room }
        ensures { self.new ≡ handing_over self.old waiter }
    {
        self.places.forget(self.variables - 1);
        let result = self.places.top();
        let _ = self.frames.pop();
        self.temporaries = waiter.temporaries + 1;
        self.variables = waiter.variables;
        self.receiver = waiter.receiver;
        self.names.push(result);
    }

    // ---- objects

    /// One more place is counted to name an object.
    #[inline(always)]
    pub fn raise(&mut self, object: u64)
        requires object { NamesBlock (S.out self.old.store) object }
        requires fits { 0 < object → (c : Cell) → IsCell (S.out self.old.store) object c → c.count < 2 ^ 64 - 1 }
        ensures { Alters (memory_of S.out self.old) (memory_of S.out self.new) object (λ c. with_count c (c.count + 1)) }
    {
        if object != 0 {
            cell::hold(&mut self.store, Ref { at: object });
        }
    }

    /// One place less is counted to name an object.
    #[inline(always)]
    pub fn lower(&mut self, object: u64)
        requires object { NamesBlock (S.out self.old.store) object }
        requires some { 0 < object → (c : Cell) → IsCell (S.out self.old.store) object c → 0 < c.count }
        ensures { Alters (memory_of S.out self.old) (memory_of S.out self.new) object (λ c. with_count c (c.count - 1)) }
    {
        if object != 0 {
            cell::release(&mut self.store, Ref { at: object });
        }
    }

    /// Whether the end of an object begins where one place less names it.
    #[inline(always)]
    pub fn is_last(&self, object: u64) -> bool
        requires object { NamesBlock (S.out self.now.store) object }
        ensures { IsTrue result ↔ IsLast (S.out self.now.store) object }
    {
        if object == 0 {
            return false;
        }
        let block = Ref { at: object };
        cell::count_in(&self.store, block) == 1 && cell::is_live(&self.store, block)
    }

    /// Whether the dealloc of an object hasn't begun.
    #[inline(always)]
    pub fn is_live(&self, object: u64) -> bool
        requires some { 0 < object }
        requires object { (c : Cell) × IsCell (S.out self.now.store) object c }
        ensures { (c : Cell) → IsCell (S.out self.now.store) object c → IsTrue result ↔ (c.phase ≡ 0) }
    {
        cell::is_live(&self.store, Ref { at: object })
    }

    /// Whether the fields of an object that name objects are being destroyed.
    #[inline(always)]
    pub fn is_emptying(&self, object: u64) -> bool
        requires some { 0 < object }
        requires object { (c : Cell) × IsCell (S.out self.now.store) object c }
        ensures { (c : Cell) → IsCell (S.out self.now.store) object c → IsTrue result ↔ (c.phase ≡ 2) }
    {
        cell::is_emptying(&self.store, Ref { at: object })
    }

    /// The number of an object's class.
    #[inline(always)]
    pub fn class(&self, object: u64) -> u64
        requires some { 0 < object }
        requires object { (c : Cell) × IsCell (S.out self.now.store) object c }
        ensures { (c : Cell) → IsCell (S.out self.now.store) object c → result ≡ c.class }
    {
        cell::class_in(&self.store, Ref { at: object })
    }

    /// An object's number.
    #[inline(always)]
    pub fn number(&self, object: u64) -> u64
        requires some { 0 < object }
        requires object { (c : Cell) × IsCell (S.out self.now.store) object c }
        ensures { (c : Cell) → IsCell (S.out self.now.store) object c → result ≡ c.number }
    {
        cell::number_in(&self.store, Ref { at: object })
    }

    /// How many places name an object.
    #[inline(always)]
    pub fn count(&self, object: u64) -> u64
        requires some { 0 < object }
        requires object { (c : Cell) × IsCell (S.out self.now.store) object c }
        ensures { (c : Cell) → IsCell (S.out self.now.store) object c → result ≡ c.count }
    {
        cell::count_in(&self.store, Ref { at: object })
    }

    /// The field of an object that has this index.
    #[inline(always)]
    pub fn field(&self, object: u64, index: usize) -> i64
        requires some { 0 < object }
        requires short { index < MOST_FIELDS }
        requires field { HasField (S.out self.now.store) object index }
        ensures { (c : Cell) → IsCell (S.out self.now.store) object c →
            result ≡ cast_signed w64 (get_or c.fields index 0) }
    {
        cell::field_in(&self.store, Ref { at: object }, index)
    }

    /// Writes the field of an object that has this index.
    #[inline(always)]
    pub fn write_field(&mut self, object: u64, index: usize, value: i64)
        requires some { 0 < object }
        requires short { index < MOST_FIELDS }
        requires field { HasField (S.out self.old.store) object index }
        ensures { Alters (memory_of S.out self.old) (memory_of S.out self.new) object (λ c. with_value c index value) }
    {
        cell::write_field(&mut self.store, Ref { at: object }, index, value);
    }

    /// What the field of an object names that has this index among all of its fields.
    #[inline(always)]
    pub fn field_name(&self, object: u64, index: usize) -> u64
        requires some { 0 < object }
        requires short { index < MOST_FIELDS }
        requires field { HasField (S.out self.now.store) object index }
        ensures { (c : Cell) → IsCell (S.out self.now.store) object c → result ≡ get_or c.fields index 0 }
    {
        cell::name_in(&self.store, Ref { at: object }, index)
    }

    /// The field of an object that has this index among all of its fields names this.
    #[inline(always)]
    pub fn put_field_name(&mut self, object: u64, index: usize, name: u64)
        requires some { 0 < object }
        requires short { index < MOST_FIELDS }
        requires field { HasField (S.out self.old.store) object index }
        ensures { Alters (memory_of S.out self.old) (memory_of S.out self.new) object (λ c. with_word c index name) }
    {
        cell::write_name(&mut self.store, Ref { at: object }, index, name);
    }

    /// How many fields that name objects the objects of a class have.
    pub fn field_count(&self, class: usize) -> usize
        ensures { result ≡ length (order_at self.now.orders class) }
    {
        match self.orders.get(class) {
            Some(order) => order.len(),
            None => 0,
        }
    }

    /// The next field of an object of a class that is destroyed, where so many are left.
    pub fn next_field(&self, class: usize, left: usize) -> Option<usize>
        ensures { result ≡ next_in (order_at self.now.orders class) left }
    {
        let order = self.orders.get(class)?;
        let next = order.len().checked_sub(left)?;
        order.get(next).copied()
    }

    /// The fields of an object that name objects are being destroyed from now on.
    pub fn begin_emptying(&mut self, object: u64)
        requires some { 0 < object }
        requires object { (c : Cell) × IsCell (S.out self.old.store) object c }
        ensures { Alters (memory_of S.out self.old) (memory_of S.out self.new) object (λ c. with_phase c 2) }
    {
        cell::begin_emptying(&mut self.store, Ref { at: object });
    }

    /// The last holder of an object lets go of it, and its dealloc begins.
    #[inline(always)]
    pub fn begin_end(&mut self, object: u64)
        requires some { 0 < object }
        requires object { (c : Cell) × IsCell (S.out self.old.store) object c × (0 < c.count) }
        ensures { Alters (memory_of S.out self.old) (memory_of S.out self.new) object
            (λ c. with_phase (with_count c (c.count - 1)) 1) }
    {
        let block = Ref { at: object };
        cell::release(&mut self.store, block);
        cell::begin_end(&mut self.store, block);
    }

    /// An object is gone, and its block is given back.
    #[inline(always)]
    pub fn free(&mut self, object: u64)
        requires some { 0 < object }
        requires object { (c : Cell) × IsCell (S.out self.old.store) object c }
        ensures { Turns S.out self.old self.new object None }
    {
        self.store.give(Ref { at: object });
    }

    /// The block of a new object of a class that has so many fields. It is None where the store has no
    /// block for it, and no store has one for more than 124 fields.
    pub fn make(&mut self, class: u64, fields: usize) -> Option<u64>
        requires { self.old.made < 2 ^ 64 - 1 }
        ensures some { NewIn S.out self.old self.new class fields result }
        ensures few { (word : ℕ) → result ≡ Some word → fields ≤ MOST_FIELDS }
        ensures refused { IsNone result →
            Refuses S.out S.stock S.refuses (4 + fields) self.old.store self.new.store }
    {
        if fields > cell::MOST_FIELDS {
            return None;
        }
        let object = cell::make(&mut self.store, class, fields, self.made + 1)?;
        self.made += 1;
        Some(object.at)
    }
}

/// Stacks with room for as many strong places and references as this code asks for, and for 2,000 calls. The error is a
/// refusal of their memory.
fn stacks_for(
    alloc: Global,
    code: &Code,
) -> Result<(Stack<u64>, Stack<u64>, Stack<Waiting>), NoMemory>
    ensures { IfOk result (λ stacks. (stacks.0 ≡ empty code.now.places) × (stacks.1 ≡ empty code.now.names) × (stacks.2 ≡ empty MOST_LEVELS)) }
{
    let places = Stack::with_room(alloc, code.places)?;
    let names = Stack::with_room(alloc, code.names)?;
    let frames = Stack::with_room(alloc, MOST_LEVELS)?;
    Ok((places, names, frames))
}

/// The numbers that the variables of the whole program hold first, nil for those that name objects, and for each class the
/// order in which the fields of its objects are destroyed that name objects. The error is a refusal of memory.
fn variables_for(
    alloc: Global,
    code: &Code,
) -> Result<(Statics, Vec<u64>, Vec<Vec<usize>>), NoMemory>
    ensures { IfOk result (λ first. (first.0 ≡ first_statics code.now.globals.items) × (first.1.items ≡ nils code.now.strong_globals)
        × (map items_of first.2.items ≡ orders_of (classes_of code.now.classes.items))) }
{
    let statics = Statics::new(alloc, &code.globals)?;
    let strong_globals = vec![in alloc; 0; code.strong_globals]?;
    let orders = orders_of(alloc, &code.classes)?;
    Ok((statics, strong_globals, orders))
}
