//! The lines of the file `rows`.

/// What a line asks for.
#[derive(Clone, Copy)]
pub struct Row<'a> {
    /// The words after `arcc`.
    pub words: &'a str,
    /// The file of the standard input, which is empty where none is named.
    pub input: Option<&'a str>,
    /// The source, where it stands in the line.
    pub source: Option<&'a str>,
}

impl<'a> From<&'a str> for Row<'a> {
    fn from(line: &'a str) -> Row<'a> {
        let (asked, source) = parted(line, ": ");
        let (words, input) = parted(asked, " < ");
        Row {
            words,
            input,
            source,
        }
    }
}

/// What stands before the mark, or the whole line, and what stands after it.
fn parted<'a>(line: &'a str, mark: &str) -> (&'a str, Option<&'a str>) {
    match line.split_once(mark) {
        Some((before, after)) => (before, Some(after)),
        None => (line, None),
    }
}
