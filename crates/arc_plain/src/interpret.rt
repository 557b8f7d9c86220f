//! Runs a checked program as its meaning says, with no code in between.
ghost use Rattle.std.specs.Prelude.{◌≡◌, IfOk};
ghost use Rattle.arc_checked.specs.Checked.{program_of};
ghost use Rattle.arc_spec.specs.Meaning.{mean};
ghost use Rattle.arc_spec.specs.World.{nothing_given};
ghost use Rattle.arc_spec.specs.declared.class.Gives.TheVariants.{Number};
ghost use Rattle.arc_spec.specs.Correctness.{meaning_seen};
ghost use Rattle.arc_plain.specs.Views.{Stops, as_int, deeper, seen, world};

use crate::call::call;
use crate::context::Context;
use crate::given::{Answered, nothing};
use crate::halt::Halt;
use crate::progress::{Progress, start};
use arc_checked::program::Checked;
use arc_spec::class::Gives;
use arc_spec::event::{Event, Fault, NoMemory};
use arc_spec::limits::MOST_LEVELS;
use arc_spec::number::low_half;
use std::alloc::Global;
use std::mem;
use std::mem::drop;

/// How a program stopped.
#[derive(Clone, Copy, Debug, PartialEq, Eq)]
pub enum PlainStop {
    /// It ended, with this value of its `main`.
    Ended(i32),
    Fault(Fault),
    /// It goes on, but a loop would have made more turns than the bound.
    Cut,
}

/// What a program showed, and how it stopped.
#[derive(Drop)]
pub struct Answer {
    pub trace: Vec<Event>,
    pub stop: PlainStop,
}

/// Runs the program on the input, where each running of a loop makes at most `bound` turns, and gives what
/// it shows. The only error is a want of memory.
pub fn interpret(
    alloc: Global,
    program: &Checked,
    input: &[u8],
    bound: u64,
) -> Result<Answer, NoMemory>
    ensures { IfOk result (λ answer. meaning_seen (mean (program_of program.now) input.now bound) ≡ seen answer) }
{
    let mut progress = start(alloc, &program.globals, program.strong_globals, input)?;
    let context = Context {
        program,
        bound,
        levels: MOST_LEVELS,
    };
    let answer = run(alloc, &context, &mut progress);
    drop(progress);
    answer
}

/// Calls the program's `main`, and takes what it has shown.
fn run(alloc: Global, context: &Context, progress: &mut Progress) -> Result<Answer, NoMemory>
    ensures { IfOk result (λ answer. meaning_seen (as_int ((deeper context.now).call Number context.now.program.now.main 0 nothing_given (world progress.old))) ≡ seen answer) }
{
    let none = nothing(alloc);
    let left = call(
        alloc,
        context,
        progress,
        Gives::Number,
        context.program.main,
        0,
        &none,
    );
    drop(none);
    let stop = stop_of(left)?;
    let trace = mem::replace(&mut progress.trace, Vec::new(alloc));
    Ok(Answer { trace, stop })
}

/// How a program stopped whose `main` was left so.
fn stop_of(left: Result<Answered, Halt>) -> Result<PlainStop, NoMemory>
    ensures { IfOk result (λ stop. Stops left stop) }
{
    match left {
        Ok(answered) => Ok(PlainStop::Ended(low_half(answered.number))),
        Err(Halt::Stopped(fault)) => Ok(PlainStop::Fault(fault)),
        Err(Halt::Cut) => Ok(PlainStop::Cut),
        Err(Halt::Memory) => Err(NoMemory),
    }
}
