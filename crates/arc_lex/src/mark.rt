//! The marks: how they are written, and which of them stands at the front of bytes.
ghost use Rattle.std.specs.Prelude.{◌≡◌};
ghost use Rattle.arc_lex.specs.private.Pieces.{first_front};
ghost use Rattle.arc_lex.specs.Spellings.{mark_bytes};

/// A punctuator of C99, section 6.4.6, or one that Objective-C uses as C does.
#[derive(Clone, Copy, Debug, PartialEq, Eq)]
pub enum Mark {
    OpenBrace,
    CloseBrace,
    OpenParen,
    CloseParen,
    OpenSquare,
    CloseSquare,
    Semicolon,
    Comma,
    Colon,
    Arrow,
    Question,
    Less,
    Greater,
    LessEqual,
    GreaterEqual,
    Equal,
    NotEqual,
    Assign,
    Plus,
    Minus,
    Star,
    Slash,
    Percent,
    Ampersand,
    Caret,
    Tilde,
    Not,
    And,
    Increment,
    Decrement,
    ShiftLeft,
    ShiftRight,
    PlusAssign,
    MinusAssign,
    StarAssign,
    SlashAssign,
    PercentAssign,
    AmpersandAssign,
    CaretAssign,
    ShiftLeftAssign,
    ShiftRightAssign,
    Bar,
    Or,
    BarAssign,
}

/// The marks, the longest first.
pub const MARKS: [Mark; 44] = [
    Mark::ShiftLeftAssign,
    Mark::ShiftRightAssign,
    Mark::Arrow,
    Mark::LessEqual,
    Mark::GreaterEqual,
    Mark::Equal,
    Mark::NotEqual,
    Mark::And,
    Mark::Increment,
    Mark::Decrement,
    Mark::ShiftLeft,
    Mark::ShiftRight,
    Mark::PlusAssign,
    Mark::MinusAssign,
    Mark::StarAssign,
    Mark::SlashAssign,
    Mark::PercentAssign,
    Mark::AmpersandAssign,
    Mark::CaretAssign,
    Mark::Or,
    Mark::BarAssign,
    Mark::OpenBrace,
    Mark::CloseBrace,
    Mark::OpenParen,
    Mark::CloseParen,
    Mark::OpenSquare,
    Mark::CloseSquare,
    Mark::Semicolon,
    Mark::Comma,
    Mark::Colon,
    Mark::Question,
    Mark::Less,
    Mark::Greater,
    Mark::Assign,
    Mark::Plus,
    Mark::Minus,
    Mark::Star,
    Mark::Slash,
    Mark::Percent,
    Mark::Ampersand,
    Mark::Caret,
    Mark::Tilde,
    Mark::Not,
    Mark::Bar,
];

/// The text of a mark.
pub(crate) fn mark_text(mark: Mark) -> &'static str
    ensures { result.now ≡ mark_bytes mark }
{
    match mark {
        Mark::OpenBrace => "{",
        Mark::CloseBrace => "}",
        Mark::OpenParen => "(",
        Mark::CloseParen => ")",
        Mark::OpenSquare => "[",
        Mark::CloseSquare => "]",
        Mark::Semicolon => ";",
        Mark::Comma => ",",
        Mark::Colon => ":",
        Mark::Arrow => "->",
        Mark::Question => "?",
        Mark::Less => "<",
        Mark::Greater => ">",
        Mark::LessEqual => "<=",
        Mark::GreaterEqual => ">=",
        Mark::Equal => "==",
        Mark::NotEqual => "!=",
        Mark::Assign => "=",
        Mark::Plus => "+",
        Mark::Minus => "-",
        Mark::Star => "*",
        Mark::Slash => "/",
        Mark::Percent => "%",
        Mark::Ampersand => "&",
        Mark::Caret => "^",
        Mark::Tilde => "~",
        Mark::Not => "!",
        Mark::And => "&&",
        Mark::Increment => "++",
        Mark::Decrement => "--",
        Mark::ShiftLeft => "<<",
        Mark::ShiftRight => ">>",
        Mark::PlusAssign => "+=",
        Mark::MinusAssign => "-=",
        Mark::StarAssign => "*=",
        Mark::SlashAssign => "/=",
        Mark::PercentAssign => "%=",
        Mark::AmpersandAssign => "&=",
        Mark::CaretAssign => "^=",
        Mark::ShiftLeftAssign => "<<=",
        Mark::ShiftRightAssign => ">>=",
        Mark::Bar => "|",
        Mark::Or => "||",
        Mark::BarAssign => "|=",
    }
}

/// The first of the marks with which the bytes begin.
fn first_mark(marks: &[Mark], bytes: &[u8]) -> Option<Mark>
    ensures { result ≡ first_front mark_bytes marks.now bytes.now }
{
    for mark in marks {
        if bytes.starts_with(mark_text(*mark).as_bytes()) {
            return Some(*mark);
        }
    }
    None
}

/// The longest used mark with which the bytes begin. One that a space ends, or that is sure with its second byte, is
/// found at once.
pub(crate) fn mark_at(bytes: &[u8]) -> Option<Mark>
    ensures { result ≡ first_front mark_bytes MARKS bytes.now }
{
    match bytes {
        [b'{', ..] => Some(Mark::OpenBrace),
        [b'}', ..] => Some(Mark::CloseBrace),
        [b'(', ..] => Some(Mark::OpenParen),
        [b')', ..] => Some(Mark::CloseParen),
        [b'[', ..] => Some(Mark::OpenSquare),
        [b']', ..] => Some(Mark::CloseSquare),
        [b';', ..] => Some(Mark::Semicolon),
        [b',', ..] => Some(Mark::Comma),
        [b':', ..] => Some(Mark::Colon),
        [b'?', ..] => Some(Mark::Question),
        [b'~', ..] => Some(Mark::Tilde),
        [b'=', b' ', ..] => Some(Mark::Assign),
        [b'+', b' ', ..] => Some(Mark::Plus),
        [b'-', b' ', ..] => Some(Mark::Minus),
        [b'*', b' ', ..] => Some(Mark::Star),
        [b'<', b' ', ..] => Some(Mark::Less),
        [b'>', b' ', ..] => Some(Mark::Greater),
        [b'=', b'=', ..] => Some(Mark::Equal),
        [b'!', b'=', ..] => Some(Mark::NotEqual),
        [b'<', b'=', ..] => Some(Mark::LessEqual),
        [b'>', b'=', ..] => Some(Mark::GreaterEqual),
        [b'+', b'=', ..] => Some(Mark::PlusAssign),
        [b'-', b'=', ..] => Some(Mark::MinusAssign),
        [b'+', b'+', ..] => Some(Mark::Increment),
        [b'-', b'-', ..] => Some(Mark::Decrement),
        [b'-', b'>', ..] => Some(Mark::Arrow),
        [b'&', b'&', ..] => Some(Mark::And),
        [b'|', b'|', ..] => Some(Mark::Or),
        [b'<', ..] => first_mark(
            &[
                Mark::ShiftLeftAssign,
                Mark::LessEqual,
                Mark::ShiftLeft,
                Mark::Less,
            ],
            bytes,
        ),
        [b'>', ..] => first_mark(
            &[
                Mark::ShiftRightAssign,
                Mark::GreaterEqual,
                Mark::ShiftRight,
                Mark::Greater,
            ],
            bytes,
        ),
        [b'-', ..] => first_mark(
            &[Mark::Arrow, Mark::Decrement, Mark::MinusAssign, Mark::Minus],
            bytes,
        ),
        [b'=', ..] => first_mark(&[Mark::Equal, Mark::Assign], bytes),
        [b'!', ..] => first_mark(&[Mark::NotEqual, Mark::Not], bytes),
        [b'&', ..] => first_mark(&[Mark::And, Mark::AmpersandAssign, Mark::Ampersand], bytes),
        [b'+', ..] => first_mark(&[Mark::Increment, Mark::PlusAssign, Mark::Plus], bytes),
        [b'*', ..] => first_mark(&[Mark::StarAssign, Mark::Star], bytes),
        [b'/', ..] => first_mark(&[Mark::SlashAssign, Mark::Slash], bytes),
        [b'%', ..] => first_mark(&[Mark::PercentAssign, Mark::Percent], bytes),
        [b'^', ..] => first_mark(&[Mark::CaretAssign, Mark::Caret], bytes),
        [b'|', ..] => first_mark(&[Mark::Or, Mark::BarAssign, Mark::Bar], bytes),
        _ => None,
    }
}
