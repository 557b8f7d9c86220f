//! Does what a line asks for, and prints what that gives.

use crate::compare::{Verdict, compare};
use crate::lines::is_open;
use crate::row::Row;
use crate::states::{States, follow};
use arc_code::counted::Counted;
use arc_tool::request::{Words, WordsFault};
use arc_tool::serve::{FileFault, serve};
use arc_tool::words::words;
use std::alloc::{AllocError, Global};
use std::io::Write;
use std::rt::Files;
use std::{fs, io};

/// Prints the line, what `arcc` writes to standard output and to standard error, its status, and what the
/// comparisons say.
pub fn show<R: Files + Print + AllocGlobal>(rt: &R, line: &str) -> anyhow::Result<()> {
    let alloc = rt.alloc();
    let row = Row::from(line);
    let input = input_of(rt, &row)?;
    let words = words_of(alloc, &row)?;
    let source = source_of(rt, &row, &words);
    let (verdict, states) = match (&words, &source) {
        (Ok(words), Ok(source)) => judged(alloc, words, source, &input)?,
        _ => (Verdict::Uncompared, States::Unseen),
    };
    println!(rt; "$ arcc {line}")?;
    let status = serve_row(rt, words, &source, &input)?;
    println!(rt; "status {status}{verdict}{states}\n")?;
    Ok(())
}

/// What both comparisons say: that with the plain interpreter, and that of steps made at once and one by one.
fn judged(
    alloc: Global,
    words: &Words,
    source: &[u8],
    input: &[u8],
) -> anyhow::Result<(Verdict, States)> {
    let verdict = compare(alloc, words, source, input)?;
    let states = follow(alloc, words, source, input)?;
    Ok((verdict, states))
}

/// Does what the words ask for, prints what that writes, and gives the status.
fn serve_row<R: Print + AllocGlobal>(
    rt: &R,
    words: Result<Words, WordsFault>,
    source: &Result<Vec<u8>, FileFault>,
    input: &[u8],
) -> io::Result<u8> {
    let alloc = rt.alloc();
    let file: Result<&[u8], FileFault> = match source {
        Ok(bytes) => Ok(bytes),
        Err(fault) => Err(*fault),
    };
    let mut reader = Counted::new(input);
    let mut output = Counted::new(Vec::new(alloc));
    let mut errors = Counted::new(Vec::new(alloc));
    let status = serve(alloc, words, file, &mut reader, &mut output, &mut errors);
    put_lines(rt, output.get_ref())?;
    put_lines(rt, errors.get_ref())?;
    Ok(status)
}

/// The bytes of the standard input.
fn input_of<R: Files + AllocGlobal>(rt: &R, row: &Row) -> io::Result<Vec<u8>> {
    match row.input {
        Some(path) => fs::read(rt, path),
        None => Ok(Vec::new(rt.alloc())),
    }
}

/// What the words of a line say.
fn words_of(alloc: Global, row: &Row) -> Result<Result<Words, WordsFault>, AllocError> {
    let mut all = Vec::new(alloc);
    all.push(String::from_str(alloc, "arcc")?)?;
    for word in row.words.split_whitespace() {
        all.push(String::from_str(alloc, word)?)?;
    }
    Ok(words(alloc, &all))
}

/// The bytes of the source: those in the line, or else those of the file that the words name.
fn source_of<R: Files + AllocGlobal>(
    rt: &R,
    row: &Row,
    words: &Result<Words, WordsFault>,
) -> Result<Vec<u8>, FileFault> {
    match (row.source, words) {
        (Some(source), _) => match Vec::from_slice(rt.alloc(), source.as_bytes()) {
            Ok(bytes) => Ok(bytes),
            Err(_) => Err(FileFault::NoMemory),
        },
        (None, Ok(words)) => match fs::read(rt, words.file.as_str()) {
            Ok(bytes) => Ok(bytes),
            Err(_) => Err(FileFault::Failed),
        },
        (None, Err(_)) => Err(FileFault::Failed),
    }
}

/// Prints the text. Where it leaves a line open, a backslash ends it.
fn put_lines<R: Print>(rt: &R, text: &[u8]) -> io::Result<()> {
    io::writer(rt).write_all(text)?;
    if is_open(text) {
        println!(rt; "\\")?;
    }
    Ok(())
}
