//! Sums, quotients and bytes that C99 gives, and variables of the whole program.
use arc_ast::tree::{BinaryOperator, Kind, UnaryOperator};
use arc_spec::number::{add_count, apply, byte_or_end, combine, convert, low_byte, low_half};
use arc_spec::statics::Statics;
use std::alloc::Global;

/// Operators, their kinds and operands, each with its result.
static RESULTS: [(BinaryOperator, Kind, i64, i64, Option<i64>); 6] = [
    (
        BinaryOperator::Add,
        Kind::Int,
        2_147_483_647,
        1,
        Some(-2_147_483_648),
    ),
    (
        BinaryOperator::Multiply,
        Kind::Long,
        65_536,
        65_536,
        Some(4_294_967_296),
    ),
    (BinaryOperator::Divide, Kind::Int, -7, 2, Some(-3)),
    (BinaryOperator::Divide, Kind::Int, -2_147_483_648, -1, None),
    (
        BinaryOperator::Divide,
        Kind::Long,
        -2_147_483_648,
        -1,
        Some(2_147_483_648),
    ),
    (BinaryOperator::Divide, Kind::Long, 1, 0, None),
];

/// Whether each of these rows has the operator's result.
fn are_results(rows: &[(BinaryOperator, Kind, i64, i64, Option<i64>)]) -> bool {
    for (operator, kind, left, right, result) in rows {
        if combine(*operator, *kind, *left, *right) != *result {
            return false;
        }
    }
    true
}

#[test]
fn numbers(rt: HostRuntime) {
    let is_int = convert(Kind::Int, 4_294_967_295) == -1;
    let is_truth = convert(Kind::Bool, 4_294_967_296) == 1;
    let is_negated = apply(UnaryOperator::Negate, Kind::Int, -2_147_483_648) == -2_147_483_648;
    assert!(rt; is_int && is_truth && is_negated && are_results(&RESULTS));
}

#[test]
fn bytes(rt: HostRuntime) {
    let are_parts = low_half(4_294_967_301) == 5 && low_byte(-1) == 255;
    let is_count = add_count(4_294_967_295, 3) == 2;
    let are_given = byte_or_end(Some(65)) == 65 && byte_or_end(None) == -1;
    assert!(rt; are_parts && is_count && are_given);
}

/// What three variables of the whole program hold, of which there are two, after the first and the last were given numbers.
fn numbers_held(alloc: Global) -> Option<(i64, i64, i64)> {
    let mut statics = Statics::new(alloc, &[7, -1]).ok()?;
    statics.put_number(0, 8);
    statics.put_number(2, 9);
    Some((statics.number(0), statics.number(1), statics.number(2)))
}

#[test]
fn variables_of_the_whole_program(rt: HostRuntime) {
    assert!(rt; numbers_held(rt.alloc()) == Some((8, -1, 0)));
}
