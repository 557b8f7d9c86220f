//! The whole program, but for reading its file.
ghost use Rattle.std.specs.Prelude.{◌≡◌, ◌-◌, ◌^◌, ◌<◌, ℕ, Result, Err, OnOk, codes};
ghost use Rattle.arc_code.specs.Attempts.{HasFailedToRead, HasFailedToWrite, HasPassedOn};
ghost use Rattle.arc_code.specs.CountedDevices.{failures_of, inner_of};
ghost use Rattle.arc_code.specs.Listing.{listing};
ghost use Rattle.arc_code.specs.CodeSteps.{Program};
ghost use Rattle.arc_tool.specs.CompiledCode.{Compiles};
ghost use Rattle.arc_tool.specs.declared.report.Trouble.{Trouble};
ghost use Rattle.arc_tool.specs.RunAnswers.{Blames};
ghost use Rattle.arc_tool.specs.RefusalStages.{IsCompilable};
ghost use Rattle.arc_tool.specs.CommandAnswers.{Attempted, Flushed, Obeyed, Prints, Reported, Says, UnlessRefused, device_of, source_or, ended_with};

use crate::accept::accept;
use crate::compile::compile;
use crate::report::{Trouble, flush, print_trouble, put, status};
use crate::request::{Command, Words, WordsFault};
use crate::run::run_text;
use crate::trace::trace_text;
use arc_code::code::IoFault;
use arc_code::counted::Counted;
use arc_code::device::{Input, Output};
use arc_code::lines::list;
pub use arc_file::file::FileFault;
use arc_machine::stop::Stop;
use arc_spec::number::low_byte;
use std::alloc::Global;

/// Does what the words ask for with the bytes of their file, which aren't looked at where the words were refused, and gives the status
/// with which the program ends. Trouble is written in one line on `errors`, whose failures are ignored.
pub fn serve<R: Input, W: Output, E: Output>(
    alloc: Global,
    words: Result<Words, WordsFault>,
    file: Result<&[u8], FileFault>,
    input: &mut Counted<R>,
    output: &mut Counted<W>,
    errors: &mut Counted<E>,
) -> u8
    requires reads { failures_of input.old < 2 ^ 64 - 1 }
    requires writes { failures_of output.old < 2 ^ 64 - 1 }
    requires reports { failures_of errors.old < 2 ^ 64 - 1 }
    ensures { (answer : Result ℕ Trouble)
        × Attempted R.remaining W.contents (HasFailedToWrite W.writes W.flushes (inner_of output.new))
        words file.entry answer input.old input.new output.old output.new
        × Blames (device_of answer) (failures_of input.old) (failures_of input.new) (failures_of output.old) (failures_of output.new)
        (HasFailedToRead R.reads (inner_of input.new)) (HasFailedToWrite W.writes W.flushes (inner_of output.new))
        × Flushed answer (HasPassedOn W.flushes (inner_of output.new))
        (HasFailedToWrite W.writes W.flushes (inner_of output.new))
        × Reported E.contents (HasPassedOn E.flushes (inner_of errors.new))
        (HasFailedToWrite E.writes E.flushes (inner_of errors.new))
        answer result errors.old errors.new }
{
    match attempt(alloc, words, file, input, output) {
        Ok(status) => status,
        Err(trouble) => report(&trouble, errors),
    }
}

/// Writes the trouble, and gives its status.
fn report<E: Output>(trouble: &Trouble, errors: &mut Counted<E>) -> u8
    requires { failures_of errors.old < 2 ^ 64 - 1 }
    ensures { Reported E.contents (HasPassedOn E.flushes (inner_of errors.new))
        (HasFailedToWrite E.writes E.flushes (inner_of errors.new))
        (Err trouble.now) result errors.old errors.new }
{
    match print_trouble(trouble, errors) {
        Ok(()) => {
            let _ = flush(errors);
            status(trouble)
        }
        Err(_) => status(trouble),
    }
}

/// The status where there is no trouble.
fn attempt<R: Input, W: Output>(
    alloc: Global,
    words: Result<Words, WordsFault>,
    file: Result<&[u8], FileFault>,
    input: &mut Counted<R>,
    output: &mut Counted<W>,
) -> Result<u8, Trouble>
    requires reads { failures_of input.old < 2 ^ 64 - 1 }
    requires writes { failures_of output.old < 2 ^ 64 - 1 }
    ensures attempted { Attempted R.remaining W.contents (HasFailedToWrite W.writes W.flushes (inner_of output.new))
        words file.entry result input.old input.new output.old output.new }
    ensures blamed { Blames (device_of result) (failures_of input.old) (failures_of input.new)
        (failures_of output.old) (failures_of output.new)
        (HasFailedToRead R.reads (inner_of input.new)) (HasFailedToWrite W.writes W.flushes (inner_of output.new)) }
    ensures passed_on { Flushed result (HasPassedOn W.flushes (inner_of output.new))
        (HasFailedToWrite W.writes W.flushes (inner_of output.new)) }
{
    match words {
        Ok(words) => {
            let source = source_of(file)?;
            obey(alloc, &words, source, input, output)
        }
        Err(WordsFault::Help(text)) => {
            print(text.as_bytes(), output)?;
            Ok(0)
        }
        Err(WordsFault::Usage) => Err(Trouble::Usage),
        Err(WordsFault::Memory) => Err(Trouble::Memory),
    }
}

/// The bytes of the file.
fn source_of<'a>(file: Result<&'a [u8], FileFault>) -> Result<&'a [u8], Trouble>
    ensures { result ≡ source_or file.entry }
{
    match file {
        Ok(source) => Ok(source),
        Err(FileFault::Failed) => Err(Trouble::File),
        Err(FileFault::NoMemory) => Err(Trouble::Memory),
    }
}

/// Does what accepted words ask for.
fn obey<R: Input, W: Output>(
    alloc: Global,
    words: &Words,
    source: &[u8],
    input: &mut Counted<R>,
    output: &mut Counted<W>,
) -> Result<u8, Trouble>
    requires reads { failures_of input.old < 2 ^ 64 - 1 }
    requires writes { failures_of output.old < 2 ^ 64 - 1 }
    ensures obeyed { Obeyed R.remaining W.contents (HasFailedToWrite W.writes W.flushes (inner_of output.new))
        words.now.command source.now words.now.steps result input.old input.new output.old output.new }
    ensures blamed { Blames (device_of result) (failures_of input.old) (failures_of input.new)
        (failures_of output.old) (failures_of output.new)
        (HasFailedToRead R.reads (inner_of input.new)) (HasFailedToWrite W.writes W.flushes (inner_of output.new)) }
    ensures passed_on { Flushed result (HasPassedOn W.flushes (inner_of output.new))
        (HasFailedToWrite W.writes W.flushes (inner_of output.new)) }
{
    match words.command {
        Command::Check => check_source(alloc, source, output),
        Command::Run => {
            let stop = run_text(alloc, source, words.heap, words.steps, input, output)?;
            ended(stop)
        }
        Command::Trace => {
            let stop = trace_text(alloc, source, words.heap, words.steps, input, output)?;
            ended(stop)
        }
        Command::Code => list_source(alloc, source, output),
    }
}

/// Says whether the source is a program.
fn check_source<W: Output>(
    alloc: Global,
    source: &[u8],
    output: &mut Counted<W>,
) -> Result<u8, Trouble>
    requires { failures_of output.old < 2 ^ 64 - 1 }
    ensures checks { UnlessRefused source.now result (output.new ≡ output.old) (IsCompilable source.now
        × Says W.contents (HasFailedToWrite W.writes W.flushes (inner_of output.new)) (codes "ok\n")
        result output.old output.new) }
    ensures blamed { Blames (device_of result) 0 0 (failures_of output.old) (failures_of output.new) ⊥
        (HasFailedToWrite W.writes W.flushes (inner_of output.new)) }
    ensures passed_on { Flushed result (HasPassedOn W.flushes (inner_of output.new))
        (HasFailedToWrite W.writes W.flushes (inner_of output.new)) }
{
    accept(alloc, source)?;
    print(b"ok\n", output)?;
    Ok(0)
}

/// Lists the code of the source.
fn list_source<W: Output>(
    alloc: Global,
    source: &[u8],
    output: &mut Counted<W>,
) -> Result<u8, Trouble>
    requires { failures_of output.old < 2 ^ 64 - 1 }
    ensures lists { UnlessRefused source.now result (output.new ≡ output.old) ((code : Program) × Compiles source.now code
        × Says W.contents (HasFailedToWrite W.writes W.flushes (inner_of output.new)) (listing code.instrs)
        result output.old output.new) }
    ensures blamed { Blames (device_of result) 0 0 (failures_of output.old) (failures_of output.new) ⊥
        (HasFailedToWrite W.writes W.flushes (inner_of output.new)) }
    ensures passed_on { Flushed result (HasPassedOn W.flushes (inner_of output.new))
        (HasFailedToWrite W.writes W.flushes (inner_of output.new)) }
{
    let code = compile(alloc, source)?;
    list(&code, output)?;
    flush(output)?;
    Ok(0)
}

/// The status of a program that ended.
fn ended(stop: Stop) -> Result<u8, Trouble>
    ensures { result ≡ ended_with stop }
{
    match stop {
        Stop::Ended(number) => Ok(low_byte(i64::from(number))),
        Stop::Fault(fault) => Err(Trouble::Fault(fault)),
        Stop::NoHeap => Err(Trouble::NoHeap),
        Stop::StepsUsed => Err(Trouble::StepsUsed),
    }
}

/// Writes the text, and has it passed on.
fn print<W: Output>(text: &[u8], output: &mut Counted<W>) -> Result<(), IoFault>
    requires { failures_of output.old < 2 ^ 64 - 1 }
    ensures prints { Prints W.contents (HasFailedToWrite W.writes W.flushes (inner_of output.new))
        result text.now output.old output.new }
    ensures passed_on { OnOk result (HasPassedOn W.flushes (inner_of output.new)) }
{
    put(text, output)?;
    flush(output)
}
