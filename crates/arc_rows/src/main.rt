//! The program `arc_rows`: does what each line of the file `rows` asks `arcc` for, and prints what that gives,
//! whether the plain interpreter reports the same, of a program that ends within a million steps, and whether a machine
//! shows the same however its steps are made, of a program of more than 1,000.
//!
//! A line that begins with `#` is a heading. Any other is `WORDS`, the words after `arcc`; `WORDS < INPUT`, with the
//! file of the standard input; or either one with `: SOURCE` after, where the source stands in the line and not in
//! the file that the words name. Where what was written leaves a line open, a backslash ends it.
#![tactic(auto)]

mod compare;
mod lines;
mod random;
mod row;
mod running;
mod show;
mod states;

use crate::show::show;
use std::fs;

fn main(rt: HostRuntime) -> anyhow::Result<()> {
    let rows = fs::read_to_string(&rt, "rows")?;
    for line in rows.as_str().lines() {
        if line.starts_with('#') {
            println!(rt; "{line}\n")?;
        } else {
            show(&rt, line)?;
        }
    }
    Ok(())
}
