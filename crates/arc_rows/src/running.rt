//! Programs that run on a machine, and what is seen of them.

ghost use Rattle.arc_code.specs.CodeSteps.{IsSound, program_of};

use arc_code::code::{Code, IoFault};
use arc_code::counted::Counted;
use arc_heap::plain::PlainStore;
use arc_machine::machine::Machine;
use arc_machine::stop::Stop;
use arc_spec::event::NoMemory;
use std::alloc::Global;

/// A machine, what it answered last, what it has printed, and what is left of its input.
#[derive(Drop)]
pub struct Running<'a> {
    machine: Box<Machine<PlainStore>>,
    answer: Result<Stop, IoFault>,
    printed: Vec<u8>,
    rest: &'a [u8],
}

impl<'a> Running<'a> {
    /// A machine at the start of the code.
    pub fn new(alloc: Global, code: Code, input: &'a [u8]) -> Result<Running<'a>, NoMemory>
        requires { IsSound (program_of code) }
    {
        let machine = Machine::new(alloc, code, PlainStore::new(alloc))?;
        Ok(Running {
            machine: Box::new(alloc, machine)?,
            answer: Ok(Stop::StepsUsed),
            printed: Vec::new(alloc),
            rest: input,
        })
    }

    /// Makes so many steps at once.
    pub fn run(&mut self, steps: u64) -> Result<(), NoMemory> {
        let mut reader = Counted::new(self.rest);
        let mut writer = Counted::new(Vec::new(*self.printed.allocator()));
        self.answer = self.machine.run(steps, &mut reader, &mut writer);
        self.rest = *reader.get_ref();
        self.printed.extend_from_slice(writer.get_ref().as_slice())?;
        Ok(())
    }

    /// Makes so many steps one by one.
    pub fn step(&mut self, steps: u64) -> Result<(), NoMemory> {
        for _ in 0..steps {
            self.run(1)?;
        }
        Ok(())
    }

    /// How many steps were made.
    pub fn steps_done(&self) -> u64 {
        self.machine.steps_done()
    }

    /// Whether the same is seen of both: what they answered, how many steps they have made, the events of the last one,
    /// what they have printed, and how much they have read.
    pub fn shows_as(&self, other: &Running) -> bool {
        self.answer == other.answer
            && self.steps_done() == other.steps_done()
            && self.machine.events() == other.machine.events()
            && self.printed.as_slice() == other.printed.as_slice()
            && self.rest.len() == other.rest.len()
    }
}
