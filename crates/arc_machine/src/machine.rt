//! A machine, which runs code.
ghost use Rattle.std.specs.Prelude.{◌≡◌, ◌≢◌, ◌+◌, ◌-◌, ◌^◌, ◌<◌, ◌⊎◌, true, IfOk};
ghost use Rattle.arc_code.specs.Attempts.{HasFailedToRead, HasFailedToWrite};
ghost use Rattle.arc_code.specs.CountedDevices.{failures_of, inner_of, left_in, held_by};
ghost use Rattle.arc_code.specs.CodeSteps.{IsSound, program_of};
ghost use Rattle.arc_steps.specs.Views.{fresh};
ghost use Rattle.arc_machine.specs.RunAnswer.{said};
ghost use Rattle.arc_turns.specs.Runs.{Runs, Troubled, Lacks, is_stopped};

use crate::engine::Engine;
use crate::stop::Stop;
use arc_code::code::{Code, IoFault};
use arc_code::counted::Counted;
use arc_code::device::{Input, Output};
use arc_heap::store::Store;
use arc_spec::event::{Event, NoMemory};
use arc_steps::answer::Answer;
use std::alloc::Global;
use std::marker::Model;

/// Code, with the stack on which it runs, its objects, and the instruction that is next.
#[derive(Drop)]
pub struct Machine<S: Store + Drop> {
    engine: Engine<S>,
}

impl<S: Store + Drop> Model for Machine<S> {
    ghost use Rattle.arc_steps.specs.Views.{Seen, StaysSound};

    ghost Value = { Seen S };

    ghost view = { λ a. a.engine };

    ghost invariant = { λ a. StaysSound S.out a.engine };
}

impl<S: Store + Drop> Machine<S> {
    /// A machine at the start of the code, with its objects in this store. All of its stack, its variables
    /// of the whole program and the room of its strong places and of 2,000 calls are reserved here, and a
    /// step takes no memory but a new object's block, of the store. The error is a refusal of that memory.
    pub fn new(alloc: Global, code: Code, store: S) -> Result<Machine<S>, NoMemory>
        requires { IsSound (program_of code) }
        ensures { IfOk result (λ m. m ≡ fresh (program_of code) store) }
    {
        Ok(Machine {
            engine: Engine::new(alloc, code, store)?,
        })
    }

    /// How many steps were made. A step that a device broke isn't counted, nor one that had no block.
    pub fn steps_done(&self) -> u64
        ensures { result ≡ self.now.steps }
    {
        self.engine.steps()
    }

    /// The events of the last step, of which there is room for 20; of a step that a device broke those that it gave
    /// before, and none where the store had no block. A run without a step leaves them.
    pub fn events(&self) -> &[Event]
        ensures { result.now ≡ self.now.events }
    {
        self.engine.events()
    }

    /// Makes at most so many steps, and says whether the program goes on: `Ended` and `Fault` say
    /// that it is over, and `StepsUsed` that all steps were made, or 2^64 - 1 of them in all. The
    /// error is a reader's or a writer's failure, in a step that is then not made; nor is it made where
    /// the store was asked for the block of a new object and has none, which `NoHeap` says. Once a run
    /// has ended, was stopped or failed, or had no block, each later one does nothing, and answers the
    /// same. A run of no steps does nothing either, nor does one after 2^64 - 1 steps.
    pub fn run<R: Input, W: Output>(
        &mut self,
        steps: u64,
        reader: &mut Counted<R>,
        writer: &mut Counted<W>,
    ) -> Result<Stop, IoFault>
        requires reads { failures_of reader.old < 2 ^ 64 - 1 }
        requires writes { failures_of writer.old < 2 ^ 64 - 1 }
        ensures answer { result ≡ said self.new.answer }
        ensures moves { self.old.answer ≡ Answer.Going → Runs S.out steps self.old self.new
            (left_in R.remaining reader.old) (left_in R.remaining reader.new)
            (held_by W.contents writer.old) (held_by W.contents writer.new) }
        ensures lacks { self.old.answer ≡ Answer.Going → self.new.answer ≡ Answer.NoHeap →
            Lacks S.out S.stock S.refuses self.new }
        ensures used { self.new.answer ≡ Answer.Going →
            (self.new.steps ≡ self.old.steps + steps) ⊎ (self.new.steps ≡ 2 ^ 64 - 1) }
        ensures within { self.old.answer ≡ Answer.Going → is_stopped self.new.answer ≡ true →
            self.new.steps < self.old.steps + steps }
        ensures idle { (steps ≡ 0) ⊎ (self.old.steps ≡ 2 ^ 64 - 1) →
            (self.new ≡ self.old) × (reader.new ≡ reader.old) × (writer.new ≡ writer.old) }
        ensures stays { self.old.answer ≢ Answer.Going →
            (self.new ≡ self.old) × (reader.new ≡ reader.old) × (writer.new ≡ writer.old) }
        ensures cause { self.old.answer ≡ Answer.Going → Troubled self.new.answer
            (failures_of reader.old) (failures_of reader.new)
            (failures_of writer.old) (failures_of writer.new)
            (HasFailedToRead R.reads (inner_of reader.new))
            (HasFailedToWrite W.writes W.flushes (inner_of writer.new)) }
    {
        if !self.engine.is_going() {
            return said_of(self.engine.answer());
        }
        let mut turns = 0;
        while turns < steps && self.engine.is_going() && self.engine.steps() < u64::MAX {
            let most = (steps - turns).min(u64::MAX - self.engine.steps());
            // The last step reports its events, and so is made singly.
            turns += self.engine.run_silently(most - 1);
            let _ = self.engine.advance(reader, writer);
            turns += 1;
        }
        said_of(self.engine.answer())
    }
}

fn said_of(answer: Answer) -> Result<Stop, IoFault>
    ensures { result ≡ said answer }
{
    match answer {
        Answer::Going => Ok(Stop::StepsUsed),
        Answer::Ended(number) => Ok(Stop::Ended(number)),
        Answer::Faulted(fault) => Ok(Stop::Fault(fault)),
        Answer::Broken(fault) => Err(fault),
        Answer::NoHeap => Ok(Stop::NoHeap),
    }
}
