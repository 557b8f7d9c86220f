//! Holds what is seen of a program after steps that are made at once against what is seen after the same steps, made one
//! by one.
//!
//! A machine makes its steps in turns of several, and a run may end anywhere in one. So 300 numbers of steps are chosen at
//! random, one in each of 299 parts of the program's steps and one at their end or after it. A machine that makes single
//! steps comes to each of these numbers in turn. There it is compared with a machine that has come from the number before
//! in one run, and with one that has come from the start in one run. Of a program of 100,000 steps or more the second is
//! done at some of the numbers alone, and of one of more than 2,000,000 steps these are followed and no more.

ghost use Rattle.std.specs.Prelude.{◌<◌, ◌≤◌};

use crate::random::Random;
use crate::running::Running;
use arc_spec::event::NoMemory;
use arc_tool::compile::compile;
use arc_tool::request::{Command, Words};
use std::alloc::Global;
use std::fmt;

/// How many numbers of steps are chosen.
const NUMBERS: u64 = 300;

/// A program of no more steps isn't followed.
const FEW_STEPS: u64 = 1_000;

/// The most steps of a program that are followed.
const MOST_STEPS: u64 = 2_000_000;

/// Of a program of n times so many steps, or a little more, each (n + 1)th number alone is also reached from the start.
const STEPS_ANEW: u64 = 100_000;

/// What is said of a program's states.
#[derive(Clone, Copy)]
pub enum States {
    /// It isn't followed.
    Unseen,
    /// The same is seen, however its steps are made.
    Agree,
    /// The same, of its first `MOST_STEPS` steps.
    AgreeSoFar,
    /// Something else is seen after this many steps.
    NotSame(u64),
}

impl fmt::Display for States {
    fn fmt<W: fmt::Write>(&self, f: &mut fmt::Formatter<W>) -> fmt::Result {
        match self {
            States::Unseen => Ok(()),
            States::Agree => write!(f, ", {NUMBERS} states agree"),
            States::AgreeSoFar => { write!(f, ", {NUMBERS} states of {MOST_STEPS} steps agree") }
            States::NotSame(steps) => write!(f, ", states after {steps} steps DIFFER"),
        }
    }
}

/// A source that is accepted, and the bytes that its program may read.
#[derive(Clone, Copy)]
struct Case<'a> {
    alloc: Global,
    source: &'a [u8],
    input: &'a [u8],
}

/// The program in two machines, which come to the same number of steps.
#[derive(Drop)]
struct Pair<'a> {
    /// This one makes single steps.
    single: Running<'a>,
    /// This one goes on from each number to the next one in one run.
    going: Running<'a>,
    reached: u64,
}

/// What is said of the states of the program that the words run or trace.
pub fn follow(
    alloc: Global,
    words: &Words,
    source: &[u8],
    input: &[u8],
) -> Result<States, NoMemory> {
    let runs = matches!(words.command, Command::Run | Command::Trace);
    if !runs || compile(alloc, source).is_err() {
        return Ok(States::Unseen);
    }
    let case = Case {
        alloc,
        source,
        input,
    };
    let steps = case.steps_within(words.steps.min(MOST_STEPS))?;
    if steps <= FEW_STEPS {
        return Ok(States::Unseen);
    }
    case.states_of(steps.min(MOST_STEPS))
}

impl<'a> Case<'a> {
    /// The program at its start. As the source is accepted, only memory can be refused.
    fn begun(&self) -> Result<Running<'a>, NoMemory> {
        match compile(self.alloc, self.source) {
            Ok(code) => Running::new(self.alloc, code, self.input),
            Err(_) => Err(NoMemory),
        }
    }

    /// How many steps the program makes, at most so many.
    fn steps_within(&self, most: u64) -> Result<u64, NoMemory> {
        let mut running = self.begun()?;
        running.run(most)?;
        Ok(running.steps_done())
    }

    /// What is said of the program's first states, up to so many steps.
    fn states_of(&self, steps: u64) -> Result<States, NoMemory>
        requires { steps ≤ 2000000 }
    {
        match self.difference(steps)? {
            Some(number) => Ok(States::NotSame(number)),
            None if steps == MOST_STEPS => Ok(States::AgreeSoFar),
            None => Ok(States::Agree),
        }
    }

    /// The first of the numbers, chosen among so many steps, at which something else is seen.
    fn difference(&self, steps: u64) -> Result<Option<u64>, NoMemory>
        requires { steps ≤ 2000000 }
    {
        let mut random = Random::new(steps);
        let mut pair = self.pair()?;
        for part in 0..NUMBERS {
            let number = number_in(part, steps, random.next());
            let is_tried = part % (1 + steps / STEPS_ANEW) == 0;
            if !pair.comes_to(number)? || is_tried && !self.shows_as(&pair.single, number)? {
                return Ok(Some(number));
            }
        }
        Ok(None)
    }

    /// Two machines at the program's start.
    fn pair(&self) -> Result<Pair<'a>, NoMemory> {
        let single = self.begun()?;
        let going = self.begun()?;
        Ok(Pair {
            single,
            going,
            reached: 0,
        })
    }

    /// Whether the same is seen after so many steps that are made from the start in one run.
    fn shows_as(&self, single: &Running, steps: u64) -> Result<bool, NoMemory> {
        let mut anew = self.begun()?;
        anew.run(steps)?;
        Ok(single.shows_as(&anew))
    }
}

impl<'a> Pair<'a> {
    /// Has both come to this number of steps, and says whether the same is seen of them there.
    fn comes_to(&mut self, number: u64) -> Result<bool, NoMemory> {
        let more = number.saturating_sub(self.reached);
        self.single.step(more)?;
        self.going.run(more)?;
        self.reached = number;
        Ok(self.single.shows_as(&self.going))
    }
}

/// A number of steps in this part of all steps, chosen by a random number.
fn number_in(part: u64, steps: u64, random: u64) -> u64
    requires part { part < 300 }
    requires steps { steps ≤ 2000000 }
{
    let parts = NUMBERS - 1;
    steps * part / parts + random % (1 + steps / parts)
}
