//! Compares the trace of a compiled program with what the plain interpreter reports.

ghost use Rattle.arc_ast.specs.Tree.{unit_tree};
ghost use Rattle.arc_class.specs.Table.{IsTableOf};

use crate::lines::trace_lines;
use arc_ast::tree::TranslationUnit;
use arc_check::check::check;
use arc_checked::program::Checked;
use arc_class::table::ClassTable;
use arc_code::counted::Counted;
use arc_lex::lex::lex;
use arc_machine::stop::Stop;
use arc_parse::parse::parse;
use arc_plain::interpret::interpret;
use arc_tool::request::{Command, Words};
use arc_tool::trace::trace_text;
use std::alloc::Global;
use std::fmt;

/// The most turns that the plain interpreter makes of a loop.
const MOST_TURNS: u64 = 100_000;

/// The most steps of a program that is compared: the plain interpreter looks for what names an object among all
/// objects, so that it takes long where many were made.
const MOST_STEPS: u64 = 1_000_000;

/// What the comparison says.
#[derive(Clone, Copy)]
pub enum Verdict {
    Agrees,
    Differs,
    /// No program was run to its end within `MOST_STEPS`.
    Uncompared,
}

impl fmt::Display for Verdict {
    fn fmt<W: fmt::Write>(&self, f: &mut fmt::Formatter<W>) -> fmt::Result {
        match self {
            Verdict::Agrees => f.write_str(", arc_plain agrees"),
            Verdict::Differs => f.write_str(", arc_plain DIFFERS"),
            Verdict::Uncompared => Ok(()),
        }
    }
}

/// Whether both have the same trace, where the words run or trace a program that ends within `MOST_STEPS`.
pub fn compare(
    alloc: Global,
    words: &Words,
    source: &[u8],
    input: &[u8],
) -> anyhow::Result<Verdict> {
    let Some(text) = ended_trace(alloc, words, source, input) else {
        return Ok(Verdict::Uncompared);
    };
    let reported = plain_trace(alloc, source, input)?;
    if reported.as_slice() == text.as_slice() {
        Ok(Verdict::Agrees)
    } else {
        Ok(Verdict::Differs)
    }
}

/// The text of the compiled program's trace, where the words run or trace it, and it ends within `MOST_STEPS`.
fn ended_trace(alloc: Global, words: &Words, source: &[u8], input: &[u8]) -> Option<Vec<u8>> {
    if matches!(words.command, Command::Check | Command::Code) {
        return None;
    }
    let mut reader = Counted::new(input);
    let mut writer = Counted::new(Vec::new(alloc));
    let stop = trace_text(
        alloc,
        source,
        words.heap,
        words.steps.min(MOST_STEPS),
        &mut reader,
        &mut writer,
    );
    match stop {
        Ok(Stop::Ended(_)) | Ok(Stop::Fault(_)) => writer.get_ref().clone().ok(),
        Ok(Stop::NoHeap) | Ok(Stop::StepsUsed) | Err(_) => None,
    }
}

/// The text of a source's trace, as the plain interpreter reports it.
fn plain_trace(alloc: Global, source: &[u8], input: &[u8]) -> anyhow::Result<Vec<u8>> {
    let tokens = lex(alloc, source)?;
    let unit = parse(alloc, &tokens)?;
    trace_of_unit(alloc, &unit, input)
}

fn trace_of_unit(alloc: Global, unit: &TranslationUnit, input: &[u8]) -> anyhow::Result<Vec<u8>> {
    let table = Box::new(alloc, ClassTable::build(alloc, unit)?)?;
    trace_with_table(alloc, unit, &table, input)
}

fn trace_with_table<'a>(
    alloc: Global,
    unit: &'a TranslationUnit,
    table: &ClassTable<'a>,
    input: &[u8],
) -> anyhow::Result<Vec<u8>>
    requires { IsTableOf (unit_tree unit.now) table.now }
{
    let program = check(alloc, unit, table)?;
    trace_of_program(alloc, &program, input)
}

fn trace_of_program(alloc: Global, program: &Checked, input: &[u8]) -> anyhow::Result<Vec<u8>> {
    let answer = interpret(alloc, program, input, MOST_TURNS)?;
    let text = trace_lines(alloc, &answer, program.unit)?;
    Ok(text)
}
