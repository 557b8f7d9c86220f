//! Compiles a source and runs it.
ghost use Rattle.std.specs.Prelude.{◌≡◌, ◌-◌, ◌^◌, ◌<◌, Ok};
ghost use Rattle.arc_code.specs.Attempts.{HasFailedToRead, HasFailedToWrite, HasPassedOn};
ghost use Rattle.arc_code.specs.CountedDevices.{failures_of, inner_of, left_in, held_by};
ghost use Rattle.arc_code.specs.CodeSteps.{IsSound, Program};
ghost use Rattle.arc_turns.specs.Runs.{Lacks};
ghost use Rattle.arc_steps.specs.Views.{fresh};
ghost use Rattle.arc_machine.specs.declared.stop.Stop.TheVariants.{NoHeap};
ghost use Rattle.arc_tool.specs.private.PrintedRun.{PassesPrinted, RanCode, failed_device};
ghost use Rattle.arc_tool.specs.RunAnswers.{Answered, Blames, PassesOn, Untouched, blamed};

use crate::compile::compile;
use crate::refusal::Refusal;
use crate::report::flush;
use arc_code::code::IoFault;
use arc_code::counted::Counted;
use arc_code::device::{Input, Output};
use arc_heap::plain::PlainStore;
use arc_heap::store::Store;
use arc_machine::machine::Machine;
use arc_machine::stop::Stop;
use arc_spec::event::NoMemory;
use std::alloc::Global;
use std::mem::drop;
use thiserror::Error;

/// Why a source was not run to a stop.
#[derive(Clone, Copy, Debug, PartialEq, Eq, Error)]
pub enum ToolFault {
    /// The source is refused.
    #[error("{0}")]
    Refused(Refusal),
    /// Memory was asked for and refused.
    #[error("no memory")]
    Memory,
    /// The reader or the writer failed.
    #[error("{0}")]
    Io(IoFault),
}

impl From<Refusal> for ToolFault {
    ghost use Rattle.arc_tool.specs.Reports.{Becomes};
    ghost use Rattle.arc_tool.specs.declared.run.ToolFault.TheVariants.{Memory, Refused};

    ghost from_gives = { λ r f. Becomes Memory Refused r f };

    fn from(refusal: Refusal) -> ToolFault {
        if refusal.is_memory() {
            ToolFault::Memory
        } else {
            ToolFault::Refused(refusal)
        }
    }
}

impl From<NoMemory> for ToolFault {
    ghost use Rattle.std.specs.Prelude.{◌≡◌};
    ghost use Rattle.arc_tool.specs.declared.run.ToolFault.TheVariants.{Memory};

    ghost from_gives = { λ _ f. f ≡ Memory };

    fn from(_error: NoMemory) -> ToolFault {
        ToolFault::Memory
    }
}

impl From<IoFault> for ToolFault {
    ghost use Rattle.std.specs.Prelude.{◌≡◌};
    ghost use Rattle.arc_tool.specs.declared.run.ToolFault.TheVariants.{Io};

    ghost from_gives = { λ e f. f ≡ Io e };

    fn from(fault: IoFault) -> ToolFault {
        ToolFault::Io(fault)
    }
}

/// Compiles the source and runs its code for at most so many steps. What was printed is flushed at the end, whatever the stop; a flush
/// that fails is the writer's failure. Nothing is read or written before the code and the machine are made. The heap's words aren't
/// used yet: objects are kept in a store that grows.
pub fn run_text<R: Input, W: Output>(
    alloc: Global,
    source: &[u8],
    _heap_words: usize,
    steps: u64,
    reader: &mut Counted<R>,
    writer: &mut Counted<W>,
) -> Result<Stop, ToolFault>
    requires reads { failures_of reader.old < 2 ^ 64 - 1 }
    requires writes { failures_of writer.old < 2 ^ 64 - 1 }
    ensures answered { Answered source.now steps result
        (left_in R.remaining reader.old) (left_in R.remaining reader.new)
        (held_by W.contents writer.old) (held_by W.contents writer.new) }
    ensures untouched { Untouched result reader.old reader.new writer.old writer.new }
    ensures caused { Blames (blamed result) (failures_of reader.old) (failures_of reader.new)
        (failures_of writer.old) (failures_of writer.new)
        (HasFailedToRead R.reads (inner_of reader.new))
        (HasFailedToWrite W.writes W.flushes (inner_of writer.new)) }
    ensures passed_on { PassesOn result (HasPassedOn W.flushes (inner_of writer.new))
        (HasFailedToWrite W.writes W.flushes (inner_of writer.new)) }
{
    let code = compile(alloc, source)?;
    let mut machine = Machine::new(alloc, code, PlainStore::new(alloc))?;
    let ran = run_machine(&mut machine, steps, reader, writer);
    drop(machine);
    let stop = ran?;
    Ok(stop)
}

/// Runs a machine from its start for at most so many steps, over any store, and has what was printed passed on, whatever the stop. The
/// error says which device failed: the reader, where it did, whatever the writer does after it.
fn run_machine<S: Store + Drop, R: Input, W: Output>(
    machine: &mut Machine<S>,
    steps: u64,
    reader: &mut Counted<R>,
    writer: &mut Counted<W>,
) -> Result<Stop, IoFault>
    requires starts { (p : Program) × (store : S) × IsSound p × (machine.old ≡ fresh p store) }
    requires reads { failures_of reader.old < 2 ^ 64 - 1 }
    requires writes { failures_of writer.old < 2 ^ 64 - 1 }
    ensures ran { RanCode machine.old.program steps result
        (left_in R.remaining reader.old) (left_in R.remaining reader.new)
        (held_by W.contents writer.old) (held_by W.contents writer.new) }
    ensures lacks { result ≡ Ok NoHeap → Lacks S.out S.stock S.refuses machine.new }
    ensures caused { Blames (failed_device result) (failures_of reader.old) (failures_of reader.new)
        (failures_of writer.old) (failures_of writer.new)
        (HasFailedToRead R.reads (inner_of reader.new))
        (HasFailedToWrite W.writes W.flushes (inner_of writer.new)) }
    ensures passed_on { PassesPrinted result (HasPassedOn W.flushes (inner_of writer.new))
        (HasFailedToWrite W.writes W.flushes (inner_of writer.new)) }
{
    match machine.run(steps, reader, writer) {
        Ok(stop) => {
            flush(writer)?;
            Ok(stop)
        }
        Err(IoFault::Read) => {
            let _ = flush(writer);
            Err(IoFault::Read)
        }
        Err(IoFault::Write) => Err(IoFault::Write),
    }
}
