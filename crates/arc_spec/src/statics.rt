//! What a running program keeps from its start to its end, beside its objects and the places that name them.
ghost use Rattle.std.specs.Prelude.{◌≡◌, IfOk, pos, slice_index_or, slice_set};
ghost use Rattle.arc_spec.specs.Statics.{first_statics, with_numbers};

use crate::event::NoMemory;
use std::alloc::Global;
use std::marker::Model;

/// The numbers that the variables of the whole program hold, by their numbers. The machine and the interpreter keep them
/// alike.
#[derive(Drop)]
pub struct Statics {
    numbers: Vec<i64>,
}

impl Model for Statics {
    ghost use Rattle.arc_spec.specs.Statics.{Statics as Kept};

    ghost Value = { Kept };

    ghost view = { λ a. record { numbers = a.numbers.items } };
}

impl Statics {
    /// What a program begins with: its variables hold these numbers. The error is a refusal of memory.
    pub fn new(alloc: Global, numbers: &[i64]) -> Result<Statics, NoMemory>
        ensures { IfOk result (λ first. first ≡ first_statics numbers.now) }
    {
        Ok(Statics {
            numbers: Vec::from_slice(alloc, numbers)?,
        })
    }

    /// The number that the variable with this number holds; that of one that there isn't is 0.
    #[inline(always)]
    pub fn number(&self, variable: usize) -> i64
        ensures { result ≡ slice_index_or self.now.numbers variable (pos 0) }
    {
        match self.numbers.get(variable) {
            Some(number) => *number,
            None => 0,
        }
    }

    /// The variable with this number, where there is one, holds this number.
    #[inline(always)]
    pub fn put_number(&mut self, variable: usize, number: i64)
        ensures { self.new ≡ with_numbers self.old (slice_set self.old.numbers variable number) }
    {
        if let Some(place) = self.numbers.get_mut(variable) {
            *place = number;
        }
    }
}
