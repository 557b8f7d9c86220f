//! What functions and methods are given.
ghost use Rattle.std.specs.Prelude.{◌≡◌, IfOk};
ghost use Rattle.arc_spec.specs.World.{nothing_given};
ghost use Rattle.arc_spec.specs.Meaning.{and_number, gives_object};
ghost use Rattle.arc_plain.specs.Views.{given_of, answer_of};

use arc_spec::event::NoMemory;
use std::alloc::Global;

/// The arguments of a call or a message: those that are numbers, and those that are objects or nil.
#[derive(Drop)]
pub struct Given {
    pub numbers: Vec<i64>,
    pub objects: Vec<usize>,
}

/// What a call or a message gives: a number, or an object or nil.
#[derive(Clone, Copy)]
pub struct Answered {
    pub number: i64,
    pub object: usize,
}

/// An object or nil is given.
pub fn object_given(object: usize) -> Answered
    ensures { answer_of result ≡ gives_object object }
{
    Answered { number: 0, object }
}

/// No arguments.
pub fn nothing(alloc: Global) -> Given
    ensures { given_of result ≡ nothing_given }
{
    Given {
        numbers: Vec::new(alloc),
        objects: Vec::new(alloc),
    }
}

/// What a method of a class is given: what got the message, and then the arguments.
pub fn with_receiver(alloc: Global, receiver: i64, given: Given) -> Result<Given, NoMemory>
    ensures { IfOk result (λ passed. given_of passed ≡ and_number receiver (given_of given)) }
{
    let mut numbers = Vec::new(alloc);
    numbers.push(receiver)?;
    numbers.extend_from_slice(&given.numbers)?;
    Ok(Given {
        numbers,
        objects: given.objects,
    })
}
