//! Sources and their answers, as worked out by hand.
use arc_lex::fault::LexFault;
use arc_lex::lex::lex;
use arc_lex::token::{Token, TokenKind};
use std::alloc::Global;

/// Whether the lexer answers this, as its `Debug` writes it.
fn answers(alloc: Global, source: &str, want: &str) -> bool {
    match format!(in alloc; "{:?}", lex(alloc, source.as_bytes())) {
        Ok(answer) => answer.as_str() == want,
        Err(_) => false,
    }
}

/// Small sources, one in a line, each with its answer after ` => `.
const ANSWERS: &str = r#" => Ok([])
int main(void) { printf("42"); return 7; } => Ok([Token { kind: Word(Int), span: Span { from: 0, to: 3 } }, Token { kind: Name([109, 97, 105, 110]), span: Span { from: 4, to: 8 } }, Token { kind: Mark(OpenParen), span: Span { from: 8, to: 9 } }, Token { kind: Word(Void), span: Span { from: 9, to: 13 } }, Token { kind: Mark(CloseParen), span: Span { from: 13, to: 14 } }, Token { kind: Mark(OpenBrace), span: Span { from: 15, to: 16 } }, Token { kind: Name([112, 114, 105, 110, 116, 102]), span: Span { from: 17, to: 23 } }, Token { kind: Mark(OpenParen), span: Span { from: 23, to: 24 } }, Token { kind: Text([52, 50]), span: Span { from: 24, to: 28 } }, Token { kind: Mark(CloseParen), span: Span { from: 28, to: 29 } }, Token { kind: Mark(Semicolon), span: Span { from: 29, to: 30 } }, Token { kind: Word(Return), span: Span { from: 31, to: 37 } }, Token { kind: Integer(7, false), span: Span { from: 38, to: 39 } }, Token { kind: Mark(Semicolon), span: Span { from: 39, to: 40 } }, Token { kind: Mark(CloseBrace), span: Span { from: 41, to: 42 } }])
x => Ok([Token { kind: Name([120]), span: Span { from: 0, to: 1 } }])
intx => Ok([Token { kind: Name([105, 110, 116, 120]), span: Span { from: 0, to: 4 } }])
 __weak => Ok([Token { kind: Unused, span: Span { from: 1, to: 7 } }])
switch@propertyX. => Ok([Token { kind: Unused, span: Span { from: 0, to: 6 } }, Token { kind: Unused, span: Span { from: 6, to: 15 } }, Token { kind: Name([88]), span: Span { from: 15, to: 16 } }, Token { kind: Unused, span: Span { from: 16, to: 17 } }])
switches => Ok([Token { kind: Name([115, 119, 105, 116, 99, 104, 101, 115]), span: Span { from: 0, to: 8 } }])
"a\n\0" => Ok([Token { kind: Text([97, 10, 0]), span: Span { from: 0, to: 7 } }])
"\t\r\\\'\"" => Ok([Token { kind: Text([9, 13, 92, 39, 34]), span: Span { from: 0, to: 12 } }])
<<= => Ok([Token { kind: Mark(ShiftLeftAssign), span: Span { from: 0, to: 3 } }])
->- => Ok([Token { kind: Mark(Arrow), span: Span { from: 0, to: 2 } }, Token { kind: Mark(Minus), span: Span { from: 2, to: 3 } }])
@classX => Ok([Token { kind: At(Class), span: Span { from: 0, to: 6 } }, Token { kind: Name([88]), span: Span { from: 6, to: 7 } }])
9223372036854775807 => Ok([Token { kind: Integer(9223372036854775807, false), span: Span { from: 0, to: 19 } }])
0 => Ok([Token { kind: Integer(0, false), span: Span { from: 0, to: 1 } }])
9223372036854775808 => Err(Literal(0))
99999999999999999999999 => Err(Literal(0))
9223372036854775808L => Err(Literal(0))
 007 => Err(Literal(1))
1x => Err(Literal(0))
1_ => Err(Literal(0))
1lL => Err(Literal(0))
1l2 => Err(Literal(0))
0xfFl => Ok([Token { kind: Integer(255, true), span: Span { from: 0, to: 5 } }])
'\n' => Ok([Token { kind: Character(10), span: Span { from: 0, to: 4 } }])
1LL// 2 => Ok([Token { kind: Integer(1, true), span: Span { from: 0, to: 3 } }])
/**/ 0 # => Err(Directive(7))
a /* b => Err(OpenComment(2))
'' => Err(Literal(0))
'ab' => Err(Literal(0))
'\' => Err(OpenLiteral(0))
@foo => Err(Directive(0))
"abc => Err(OpenLiteral(0))
"\q => Err(OpenLiteral(0))
"\q" => Err(Literal(0))"#;

/// Whether the lexer answers a line's source as the line says.
fn is_answered(alloc: Global, line: &str) -> bool {
    match line.split_once(" => ") {
        Some((source, want)) => answers(alloc, source, want),
        None => false,
    }
}

/// The first of these lines whose source has another answer, if one has.
fn first_other(alloc: Global, lines: &str) -> Option<&str> {
    for line in lines.lines() {
        if !is_answered(alloc, line) {
            return Some(line);
        }
    }
    None
}

/// Whether sources of two lines have their answers.
fn answers_two_lines(alloc: Global) -> bool {
    let after = "Ok([Token { kind: Integer(0, false), span: Span { from: 9, to: 10 } }])";
    answers(alloc, " #import\n0", after)
        && answers(alloc, "\"abc\n\"", "Err(OpenLiteral(0))")
        && answers(alloc, "\"\\\n\"", "Err(OpenLiteral(0))")
}

#[test]
fn answers_small_sources(rt: HostRuntime) {
    let is_none = first_other(rt.alloc(), ANSWERS).is_none();
    assert!(rt; is_none && answers_two_lines(rt.alloc()));
}

/// The 32 words and marks of the language that no program may use.
const UNUSED: &str =
    "NULL __autoreleasing __unsafe_unretained __weak auto case default double enum extern float goto inline \
    register restrict short signed sizeof struct switch typedef union unsigned volatile @autoreleasepool @optional @property \
    @protocol @required @selector @synthesize .";

/// Whether each of the tokens is of no use.
fn are_unused(tokens: &[Token]) -> bool {
    for token in tokens {
        if !matches!(token.kind, TokenKind::Unused) {
            return false;
        }
    }
    true
}

/// Whether a source has so many tokens, each of no use.
fn has_unused(alloc: Global, source: &str, count: usize) -> bool {
    match lex(alloc, source.as_bytes()) {
        Ok(tokens) => tokens.len() == count && are_unused(&tokens),
        Err(_) => false,
    }
}

#[test]
fn answers_unused_words_and_marks(rt: HostRuntime) {
    assert!(rt; has_unused(rt.alloc(), UNUSED, 32));
}

/// What a source of this byte alone is.
fn wanted(b: u8) -> &'static str {
    match b {
        b' ' | b'\t' | b'\n' | b'\r' | 12 => "blank",
        b'"' | b'\'' => "open",
        b'@' | b'#' => "directive",
        b'a'..=b'z' | b'A'..=b'Z' | b'_' | b'0'..=b'9' => "token",
        b'{' | b'}' | b'(' | b')' | b'[' | b']' | b';' | b',' | b':' | b'.' | b'?' => "token",
        b'<' | b'>' | b'=' | b'+' => "token",
        b'-' | b'*' | b'/' | b'%' | b'&' | b'^' | b'~' | b'!' | b'|' => "token",
        _ => "bad",
    }
}

/// What the lexer says of a source of one byte.
fn told(alloc: Global, source: &[u8]) -> &'static str {
    match lex(alloc, source) {
        Ok(tokens) => { if tokens.is_empty() { "blank" } else { "token" } }
        Err(LexFault::OpenLiteral(0)) => "open",
        Err(LexFault::Directive(0)) => "directive",
        Err(LexFault::BadByte(0)) => "bad",
        Err(_) => "other",
    }
}

/// The first byte of which the lexer says something else, if there is one.
fn first_other_byte(alloc: Global) -> Option<u8> {
    for b in 0..=255u8 {
        if told(alloc, &[b]) != wanted(b) {
            return Some(b);
        }
    }
    None
}

#[test]
fn answers_each_byte(rt: HostRuntime) {
    assert!(rt; first_other_byte(rt.alloc()).is_none());
}

/// How many tokens a source of so many spaces has.
fn tokens_of_spaces(alloc: Global, count: usize) -> Result<usize, LexFault> {
    let spaces = vec![in alloc; b' '; count]?;
    Ok(lex(alloc, &spaces)?.len())
}

#[test]
fn refuses_a_long_source(rt: HostRuntime) {
    let (long, longest) = (
        tokens_of_spaces(rt.alloc(), 1048577),
        tokens_of_spaces(rt.alloc(), 1048576),
    );
    assert!(rt; matches!((long, longest), (Err(LexFault::TooLong), Ok(0))));
}

#[test]
fn names_faults(rt: HostRuntime) {
    let are_numbered = LexFault::BadByte(5).number() == 1 && LexFault::OpenComment(5).number() == 2;
    let is_named = LexFault::Directive(5).name() == "Directive";
    let have_places = LexFault::Literal(5).at() == 5 && LexFault::TooLong.at() == 1048576;
    assert!(rt; are_numbered && is_named && have_places);
}
