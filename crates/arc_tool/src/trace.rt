//! Compiles a source and shows what its program does, in lines.
ghost use Rattle.std.specs.Prelude.{◌≡◌, ◌≢◌, ◌-◌, ◌^◌, ◌<◌, map, IfOk, IfErr, OnErr, Ok, Err};
ghost use Rattle.arc_code.specs.Attempts.{HasFailedToRead, HasFailedToWrite, HasPassedOn};
ghost use Rattle.arc_code.specs.CountedDevices.{failures_of, inner_of, left_in, held_by};
ghost use Rattle.arc_code.specs.CodeSteps.{IsSound, Program};
ghost use Rattle.arc_code.specs.WrittenBytes.{Written};
ghost use Rattle.arc_turns.specs.Runs.{Lacks};
ghost use Rattle.arc_steps.specs.Views.{fresh};
ghost use Rattle.arc_machine.specs.declared.stop.Stop.TheVariants.{NoHeap};
ghost use Rattle.arc_tool.specs.CompiledCode.{bytes_of_name};
ghost use Rattle.arc_tool.specs.RunAnswers.{Blames, PassesOn, Untouched, blamed};
ghost use Rattle.arc_tool.specs.declared.lines.Left.TheVariants.{Stopped};
ghost use Rattle.arc_tool.specs.TraceLines.{events_text, open_after};
ghost use Rattle.arc_tool.specs.private.TraceSteps.{EndsTrace, Followed, Interrupted, new_events};
ghost use Rattle.arc_tool.specs.TraceAnswers.{AnsweredTrace};

use crate::compile::compile_named;
use crate::lines::{Left, open_after, put_end, put_events};
use crate::nowhere::Nowhere;
use crate::report::flush;
use crate::run::ToolFault;
use arc_code::code::IoFault;
use arc_code::counted::Counted;
use arc_code::device::{Input, Output};
use arc_heap::plain::PlainStore;
use arc_heap::store::Store;
use arc_machine::machine::Machine;
use arc_machine::stop::Stop;
use std::alloc::Global;

/// Compiles the source and runs its code for at most so many steps, and writes what it shows in place of what it
/// prints: a line `out ` with two hexadecimal digits for each byte that is printed between two deallocs, a line
/// `dealloc ` with the object's number and its class for each dealloc, and at last how the run was left: `end ` with
/// the program's number, `fault ` with the fault's number and name, `noheap`, `steps`, or `io 91 Read` where the
/// reader failed. What was written is flushed at the end. Nothing is read or written before the code and the machine
/// are made. The heap's words aren't used yet: objects are kept in a store that grows.
pub fn trace_text<R: Input, W: Output>(
    alloc: Global,
    source: &[u8],
    _heap_words: usize,
    steps: u64,
    reader: &mut Counted<R>,
    writer: &mut Counted<W>,
) -> Result<Stop, ToolFault>
    requires reads { failures_of reader.old < 2 ^ 64 - 1 }
    requires writes { failures_of writer.old < 2 ^ 64 - 1 }
    ensures answered { AnsweredTrace source.now steps result
        (left_in R.remaining reader.old) (left_in R.remaining reader.new)
        (held_by W.contents writer.old) (held_by W.contents writer.new)
        (failures_of writer.old) (failures_of writer.new)
        (HasFailedToWrite W.writes W.flushes (inner_of writer.new)) }
    ensures untouched { Untouched result reader.old reader.new writer.old writer.new }
    ensures caused { Blames (blamed result) (failures_of reader.old) (failures_of reader.new)
        (failures_of writer.old) (failures_of writer.new)
        (HasFailedToRead R.reads (inner_of reader.new))
        (HasFailedToWrite W.writes W.flushes (inner_of writer.new)) }
    ensures passed_on { PassesOn result (HasPassedOn W.flushes (inner_of writer.new))
        (HasFailedToWrite W.writes W.flushes (inner_of writer.new)) }
{
    let named = compile_named(alloc, source)?;
    let mut machine = Machine::new(alloc, named.code, PlainStore::new(alloc))?;
    let followed = follow(&mut machine, steps, &named.classes, reader, writer);
    drop(machine);
    let (left, begun) = followed?;
    end_trace(left, begun, writer)
}

/// Writes the end of the text, and has it passed on. Gives how the run stopped, or which device failed: the reader,
/// where it did so before, whatever the writer does now.
fn end_trace<W: Output>(left: Left, begun: bool, writer: &mut Counted<W>) -> Result<Stop, ToolFault>
    requires { failures_of writer.old < 2 ^ 64 - 1 }
    ensures ends { EndsTrace left begun result
        (held_by W.contents writer.old) (held_by W.contents writer.new)
        (failures_of writer.old) (failures_of writer.new)
        (HasFailedToWrite W.writes W.flushes (inner_of writer.new)) }
    ensures passed_on { PassesOn result (HasPassedOn W.flushes (inner_of writer.new))
        (HasFailedToWrite W.writes W.flushes (inner_of writer.new)) }
{
    match left {
        Left::Stopped(stop) => {
            put_end(left, begun, writer)?;
            flush(writer)?;
            Ok(stop)
        }
        Left::Unread => match put_end(left, begun, writer) {
            Ok(()) => {
                let _ = flush(writer);
                Err(ToolFault::Io(IoFault::Read))
            }
            Err(_) => Err(ToolFault::Io(IoFault::Read)),
        },
    }
}

/// Makes at most so many steps, over any store, and writes what each one shows. Gives how the run was left, and
/// whether a line of printed bytes is open. The error is a failure of the writer.
fn follow<S: Store + Drop, R: Input, W: Output>(
    machine: &mut Machine<S>,
    steps: u64,
    classes: &[Vec<u8>],
    reader: &mut Counted<R>,
    writer: &mut Counted<W>,
) -> Result<(Left, bool), IoFault>
    requires starts { (p : Program) × (store : S) × IsSound p × (machine.old ≡ fresh p store) }
    requires reads { failures_of reader.old < 2 ^ 64 - 1 }
    requires writes { failures_of writer.old < 2 ^ 64 - 1 }
    ensures followed { IfOk result (λ left. Followed machine.old.program (map bytes_of_name classes.now) steps left.0 left.1
        (left_in R.remaining reader.old) (left_in R.remaining reader.new)
        (held_by W.contents writer.old) (held_by W.contents writer.new)
        (failures_of reader.old) (failures_of reader.new)
        (failures_of writer.old) (failures_of writer.new)
        (HasFailedToRead R.reads (inner_of reader.new))) }
    ensures lacks { IfOk result (λ left. left.0 ≡ Stopped NoHeap → Lacks S.out S.stock S.refuses machine.new) }
    ensures interrupted { IfErr result (λ fault. Interrupted machine.old.program (map bytes_of_name classes.now) steps fault
        (left_in R.remaining reader.old) (left_in R.remaining reader.new)
        (held_by W.contents writer.old) (held_by W.contents writer.new)
        (failures_of writer.old) (failures_of writer.new)
        (HasFailedToWrite W.writes W.flushes (inner_of writer.new))) }
    ensures reads { OnErr result (failures_of reader.new ≡ failures_of reader.old) }
{
    let mut begun = false;
    for _ in 0..steps {
        let before = machine.steps_done();
        let mut nowhere = Counted::new(Nowhere);
        let answer = machine.run(1, reader, &mut nowhere);
        begun = show(machine, before, classes, begun, writer)?;
        match answer {
            Ok(stop) => {
                if stop != Stop::StepsUsed {
                    return Ok((Left::Stopped(stop), begun));
                }
            }
            Err(IoFault::Read) => return Ok((Left::Unread, begun)),
            Err(IoFault::Write) => unreachable!(),
        }
    }
    Ok((Left::Stopped(Stop::StepsUsed), begun))
}

/// Writes the events of the last step, where the machine has made one since it had made so many. Gives whether a
/// line of printed bytes is open.
fn show<S: Store + Drop, W: Output>(
    machine: &Machine<S>,
    before: u64,
    classes: &[Vec<u8>],
    begun: bool,
    writer: &mut Counted<W>,
) -> Result<bool, IoFault>
    requires { failures_of writer.old < 2 ^ 64 - 1 }
    ensures shown { IfOk result (λ more. Written (Ok tt) (events_text (map bytes_of_name classes.now) begun (new_events machine.now before))
        (held_by W.contents writer.old) (held_by W.contents writer.new)
        (failures_of writer.old) (failures_of writer.new) (Unit {0})) }
    ensures opens { IfOk result (λ more. more ≡ open_after begun (new_events machine.now before)) }
    ensures made { OnErr result (machine.now.steps ≢ before) }
    ensures broken { IfErr result (λ fault. Written (Err fault) (events_text (map bytes_of_name classes.now) begun (new_events machine.now before))
        (held_by W.contents writer.old) (held_by W.contents writer.new)
        (failures_of writer.old) (failures_of writer.new)
        (HasFailedToWrite W.writes W.flushes (inner_of writer.new))) }
{
    if machine.steps_done() == before {
        return Ok(begun);
    }
    put_events(machine.events(), classes, begun, writer)?;
    Ok(open_after(begun, machine.events()))
}
