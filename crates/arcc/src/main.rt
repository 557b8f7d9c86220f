//! The program `arcc`: reads its words and its file, does what they ask for, and ends with the status.
#![tactic(auto)]

use arc_code::counted::Counted;
use arc_file::file::{FileFault, read_source};
use arc_tool::report::{Trouble, print_trouble, status};
use arc_tool::request::{Words, WordsFault};
use arc_tool::serve::serve;
use arc_tool::words::words;
use std::alloc::Global;
use std::env;
use std::io::{BufReader, BufWriter, ErrorKind};
use std::process::ExitCode;

/// What the program was called with.
fn called_with(rt: &HostRuntime) -> Result<Words, WordsFault> {
    let alloc: Global = rt.alloc();
    match env::args(rt) {
        Ok(all) => match all.collect::<Vec<String>>(alloc) {
            Ok(all) => words(alloc, &all),
            Err(_) => Err(WordsFault::Memory),
        },
        Err(error) if error.kind() == ErrorKind::OutOfMemory => Err(WordsFault::Memory),
        Err(_) => Err(WordsFault::Usage),
    }
}

fn main(rt: HostRuntime) -> ExitCode {
    let alloc = rt.alloc();
    let mut errors = Counted::new(rt.stderr());
    let (Ok(input), Ok(output)) = (
        BufReader::new(alloc, rt.stdin()),
        BufWriter::new(alloc, rt.stdout()),
    ) else {
        let _ = print_trouble(&Trouble::Memory, &mut errors);
        return ExitCode::from(status(&Trouble::Memory));
    };
    let mut input = Counted::new(input);
    let mut output = Counted::new(output);
    let words = called_with(&rt);
    let bytes = match &words {
        Ok(words) => read_source(&rt, words.file.as_str()),
        Err(_) => Err(FileFault::Failed),
    };
    let done = match &bytes {
        Ok(bytes) => serve(
            alloc,
            words,
            Ok(bytes),
            &mut input,
            &mut output,
            &mut errors,
        ),
        Err(fault) => serve(
            alloc,
            words,
            Err(*fault),
            &mut input,
            &mut output,
            &mut errors,
        ),
    };
    ExitCode::from(done)
}
