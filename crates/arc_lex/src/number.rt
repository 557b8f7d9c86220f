//! Integers.
ghost use Rattle.std.specs.Prelude.{◌≡◌, ◌*◌, nat_le, pos, if◌then◌else◌};
ghost use Rattle.arc_lex.specs.Texts.{number_after, leads_with_zero, leads_with_x, may_follow, digit_value, integer_of, integer};
ghost use Rattle.arc_lex.specs.private.Bases.{digits_of, factor};
ghost use Rattle.arc_lex.specs.declared.number.TheConstants.{LARGEST};

use crate::bytes::{Class, begins, run};

/// The largest integer.
const LARGEST: u64 = 9223372036854775807;

/// The base in which an integer is written.
#[derive(Clone, Copy)]
pub enum Base {
    Ten,
    Sixteen,
}

/// The digits of a base.
fn digits_of(base: Base) -> Class
    ensures { result ≡ digits_of base }
{
    match base {
        Base::Ten => Class::Digit,
        Base::Sixteen => Class::Hexadecimal,
    }
}

/// The value of a digit.
fn digit_value(digit: u8) -> u8
    ensures { result ≡ digit_value digit }
{
    if digit <= b'9' {
        digit.saturating_sub(b'0')
    } else if digit <= b'F' {
        digit - 55
    } else {
        digit.saturating_sub(87)
    }
}

/// A number with one digit 0 more, if that is no larger than the largest integer.
fn shifted(base: Base, n: u64) -> Option<u64>
    ensures { result ≡ (if nat_le (n * factor base) LARGEST then Some (n * factor base) else None) }
{
    match base {
        Base::Ten => {
            if n <= LARGEST / 10 {
                Some(n * 10)
            } else {
                None
            }
        }
        Base::Sixteen => {
            if n <= LARGEST / 16 {
                Some(n * 16)
            } else {
                None
            }
        }
    }
}

/// The number that digits are, if it is no larger than the largest integer.
fn value(base: Base, digits: &[u8]) -> Option<i64>
    ensures { result ≡ (if nat_le (number_after (factor base) 0 digits.now) LARGEST then Some (pos (number_after (factor base) 0 digits.now)) else None) }
{
    let mut n: u64 = 0;
    for digit in digits {
        match shifted(base, n) {
            None => return None,
            Some(more) => n = more + u64::from(digit_value(*digit)),
        }
    }
    if n > LARGEST { None } else { Some(n as i64) }
}

/// Whether a 0 stands in front of a digit.
fn leads_with_zero(bytes: &[u8]) -> bool
    ensures { result ≡ leads_with_zero bytes.now }
{
    match bytes {
        [first, second, ..] => *first == b'0' && second.is_ascii_digit(),
        _ => false,
    }
}

/// Whether `0x` or `0X` stands there.
fn leads_with_x(bytes: &[u8]) -> bool
    ensures { result ≡ leads_with_x bytes.now }
{
    match bytes {
        [first, second, ..] => *first == b'0' && (*second == b'x' || *second == b'X'),
        _ => false,
    }
}

/// Whether the bytes may follow an integer's digits: nothing, or the suffix `l`, `L`, `ll` or `LL`.
fn may_follow(bytes: &[u8]) -> bool
    ensures { result ≡ may_follow bytes.now }
{
    match bytes {
        [] => true,
        [b] => *b == b'l' || *b == b'L',
        [b, c] => *b == b'l' && *c == b'l' || *b == b'L' && *c == b'L',
        _ => false,
    }
}

/// The integer of a base that is written so after `0x`, and whether it has a suffix.
fn integer_of(base: Base, bytes: &[u8]) -> Option<(i64, bool)>
    ensures { result ≡ integer_of (digits_of base) (factor base) bytes.now }
{
    let class = digits_of(base);
    let (digits, suffix) = bytes.split_at(run(class, bytes));
    if !begins(class, bytes) || !may_follow(suffix) {
        return None;
    }
    match value(base, digits) {
        None => None,
        Some(value) => Some((value, !suffix.is_empty())),
    }
}

/// The integer that is written so, and whether it has a suffix.
pub fn integer(bytes: &[u8]) -> Option<(i64, bool)>
    ensures { result ≡ integer bytes.now }
{
    if leads_with_x(bytes) {
        integer_of(Base::Sixteen, bytes.split_at(2).1)
    } else if leads_with_zero(bytes) {
        None
    } else {
        integer_of(Base::Ten, bytes)
    }
}
