//! Arithmetic on the numbers of a program. Each is held in 64 bits, whatever its kind.
ghost use Rattle.std.specs.Prelude.{◌≡◌, ◌&&◌, ◌+◌, ◌%◌, ◌^◌, ◌<◌, pos, false};
ghost use Rattle.std.specs.Int.{w64, cast_unsigned, IsNonZero};
ghost use Rattle.arc_spec.specs.Number.{converted, applied, combined, quotient, remainder, count_of_shift, answer, is_least, is_zero, is_minus_one, is_same, low_32, low_byte, byte_or_end};

use arc_ast::tree::{BinaryOperator, Kind, UnaryOperator};

/// The low 32 bits, read as a signed number.
pub fn low_half(number: i64) -> i32
    ensures { result ≡ low_32 number }
{
    ((number.cast_unsigned() % 4_294_967_296) as u32).cast_signed()
}

/// The number as one of this kind (C99, section 6.3.1).
pub fn convert(kind: Kind, number: i64) -> i64
    ensures { result ≡ converted kind number }
{
    match kind {
        Kind::Bool => { if number == 0 { 0 } else { 1 } }
        Kind::Int => i64::from(low_half(number)),
        Kind::Long | Kind::Object | Kind::Void => number,
    }
}

/// What an operator before this operand gives, computed as this kind, where `-` wraps (C99, section 6.5.3.3).
pub fn apply(operator: UnaryOperator, kind: Kind, number: i64) -> i64
    ensures { result ≡ applied operator kind number }
{
    match operator {
        UnaryOperator::Plus => convert(kind, number),
        UnaryOperator::Negate => convert(kind, number.wrapping_neg()),
        UnaryOperator::Complement => convert(kind, !number),
        UnaryOperator::Not => answer(is_zero(number)),
    }
}

/// The answer of an operator, computed as this kind, where sums, products and shifts to the left wrap
/// (C99, sections 6.5.5 to 6.5.14); None is a quotient that is no number of the kind, and its
/// remainder.
pub fn combine(operator: BinaryOperator, kind: Kind, left: i64, right: i64) -> Option<i64>
    ensures { result ≡ combined operator kind left right }
{
    match operator {
        BinaryOperator::Add => Some(convert(kind, left.wrapping_add(right))),
        BinaryOperator::Subtract => Some(convert(kind, left.wrapping_sub(right))),
        BinaryOperator::Multiply => Some(convert(kind, left.wrapping_mul(right))),
        BinaryOperator::Divide => divide(kind, left, right),
        BinaryOperator::Remainder => rest(kind, left, right),
        BinaryOperator::ShiftLeft => Some(convert(kind, left << count_of_shift(kind, right))),
        BinaryOperator::ShiftRight => Some(convert(kind, left) >> count_of_shift(kind, right)),
        BinaryOperator::Less => Some(answer(left < right)),
        BinaryOperator::LessOrEqual => Some(answer(left <= right)),
        BinaryOperator::Greater => Some(answer(left > right)),
        BinaryOperator::GreaterOrEqual => Some(answer(left >= right)),
        BinaryOperator::Equal => Some(answer(is_same(left, right))),
        BinaryOperator::NotEqual => Some(answer(!is_same(left, right))),
        BinaryOperator::BitAnd => Some(convert(kind, left & right)),
        BinaryOperator::BitXor => Some(convert(kind, left ^ right)),
        BinaryOperator::BitOr => Some(convert(kind, left | right)),
        BinaryOperator::And => Some(answer(!is_zero(left) && !is_zero(right))),
        BinaryOperator::Or => Some(answer(!is_zero(left) || !is_zero(right))),
    }
}

/// Whether the numbers are the same.
fn is_same(left: i64, right: i64) -> bool
    ensures { result ≡ is_same left right }
{
    left == right
}

/// The answer of a comparison: 1 where it holds, and else 0 (C99, sections 6.5.8 and 6.5.9).
fn answer(holds: bool) -> i64
    ensures { result ≡ answer holds }
{
    if holds { 1 } else { 0 }
}

/// By how many bits a shift of a number of this kind shifts: the count, modulo the width of the kind.
fn count_of_shift(kind: Kind, count: i64) -> u32
    ensures value { result ≡ count_of_shift kind count }
    ensures few { result < 64 }
{
    let width = match kind {
        Kind::Int => 32,
        Kind::Bool | Kind::Long | Kind::Object | Kind::Void => 64,
    };
    (count.cast_unsigned() % width) as u32
}

/// The quotient, without its fraction, of the two numbers as ones of this kind.
fn divide(kind: Kind, left: i64, right: i64) -> Option<i64>
    ensures { result ≡ quotient kind (converted kind left) (converted kind right) }
{
    let dividend = convert(kind, left);
    let divisor = convert(kind, right);
    if is_zero(divisor) {
        return None;
    }
    if is_excess(kind, dividend, divisor) {
        return None;
    }
    let whole = dividend.wrapping_div(divisor);
    Some(whole)
}

/// What a division of the two numbers, as ones of this kind, leaves, with the sign of the first.
fn rest(kind: Kind, left: i64, right: i64) -> Option<i64>
    ensures { result ≡ remainder kind (converted kind left) (converted kind right) }
{
    let dividend = convert(kind, left);
    let divisor = convert(kind, right);
    if is_zero(divisor) {
        return None;
    }
    if is_excess(kind, dividend, divisor) {
        return None;
    }
    let rest = dividend.wrapping_rem(divisor);
    Some(rest)
}

/// Whether the quotient is too large for the kind.
fn is_excess(kind: Kind, dividend: i64, divisor: i64) -> bool
    ensures { result ≡ (is_least kind dividend && is_minus_one divisor) }
{
    is_least(kind, dividend) && is_minus_one(divisor)
}

fn is_zero(number: i64) -> bool
    ensures value { result ≡ is_zero number }
    ensures nonzero { result ≡ false → IsNonZero w64 number }
{
    number == 0
}

fn is_minus_one(number: i64) -> bool
    ensures { result ≡ is_minus_one number }
{
    number == -1
}

/// Whether the negation of this number is too large for the kind.
fn is_least(kind: Kind, number: i64) -> bool
    ensures { result ≡ is_least kind number }
{
    match kind {
        Kind::Int => number == -2_147_483_648,
        Kind::Bool | Kind::Long | Kind::Object | Kind::Void => number == i64::MIN,
    }
}

/// The low 8 bits, as a byte.
pub fn low_byte(number: i64) -> u8
    ensures { result ≡ low_byte number }
{
    (number.cast_unsigned() % 256) as u8
}

/// A count of printed bytes, which is kept below 2^32, once `more` bytes are printed too.
pub fn add_count(count: i64, more: usize) -> i64
    requires { more < 2 ^ 32 }
    ensures { result ≡ pos ((cast_unsigned w64 count % 2 ^ 32 + more) % 2 ^ 32) }
{
    let sum = count.cast_unsigned() % 4_294_967_296 + more as u64;
    (sum % 4_294_967_296) as i64
}

/// The number of a byte that was read, or -1 at the end of the input.
pub fn byte_or_end(answer: Option<u8>) -> i64
    ensures { result ≡ byte_or_end answer }
{
    match answer {
        Some(byte) => i64::from(byte),
        None => -1,
    }
}
