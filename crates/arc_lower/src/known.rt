//! Of which kind a number is by the form of the expression that gives it.
ghost use Rattle.std.specs.Prelude.{◌≡◌};
ghost use Rattle.arc_checked.specs.Checked.{value};
ghost use Rattle.arc_spec.specs.Number.{is_same};
ghost use Rattle.arc_lower.specs.KnownKinds.{rank, is_within, greater_kind, lesser_kind, least_kind, unary_kind, binary_kind, known_kind};

use arc_ast::tree::{BinaryOperator, Kind, UnaryOperator};
use arc_checked::program::Value;
use arc_spec::number::convert;

/// The rank of a kind of numbers: a kind of a greater rank has all numbers of it.
fn rank(kind: Kind) -> u8
    ensures { result ≡ rank kind }
{
    match kind {
        Kind::Bool => 0,
        Kind::Int => 1,
        Kind::Long | Kind::Object | Kind::Void => 2,
    }
}

/// Whether each number of the one kind is one of the other.
pub(crate) fn is_within(narrow: Kind, wide: Kind) -> bool
    ensures { result ≡ is_within narrow wide }
{
    rank(narrow) <= rank(wide)
}

/// The one of two kinds that has the greater rank.
fn greater_kind(left: Kind, right: Kind) -> Kind
    ensures { result ≡ greater_kind left right }
{
    if is_within(left, right) { right } else { left }
}

/// The one of two kinds that has the lesser rank.
fn lesser_kind(left: Kind, right: Kind) -> Kind
    ensures { result ≡ lesser_kind left right }
{
    if is_within(left, right) { left } else { right }
}

/// Whether two numbers are the same.
fn is_same(left: i64, right: i64) -> bool
    ensures { result ≡ is_same left right }
{
    left == right
}

/// The kind of the least rank that has a number.
fn least_kind(number: i64) -> Kind
    ensures { result ≡ least_kind number }
{
    if is_same(convert(Kind::Bool, number), number) {
        Kind::Bool
    } else if is_same(convert(Kind::Int, number), number) {
        Kind::Int
    } else {
        Kind::Long
    }
}

/// The kind of what an operator before its operand gives, computed as this kind.
fn unary_kind(operator: UnaryOperator, kind: Kind) -> Kind
    ensures { result ≡ unary_kind operator kind }
{
    match operator {
        UnaryOperator::Not => Kind::Bool,
        UnaryOperator::Plus | UnaryOperator::Negate | UnaryOperator::Complement => kind,
    }
}

/// The kind of what an operator between its operands gives, computed as this kind.
pub(crate) fn binary_kind(operator: BinaryOperator, kind: Kind) -> Kind
    ensures { result ≡ binary_kind operator kind }
{
    match operator {
        BinaryOperator::Divide | BinaryOperator::Remainder | BinaryOperator::ShiftRight => {
            Kind::Long
        }
        BinaryOperator::Add
        | BinaryOperator::Subtract
        | BinaryOperator::Multiply
        | BinaryOperator::ShiftLeft
        | BinaryOperator::BitAnd
        | BinaryOperator::BitXor
        | BinaryOperator::BitOr => kind,
        BinaryOperator::Less
        | BinaryOperator::LessOrEqual
        | BinaryOperator::Greater
        | BinaryOperator::GreaterOrEqual
        | BinaryOperator::Equal
        | BinaryOperator::NotEqual
        | BinaryOperator::And
        | BinaryOperator::Or => Kind::Bool,
    }
}

/// The kind of the least rank of which an expression's form says that its number is.
pub(crate) fn known_kind(expression: &Value) -> Kind
    ensures { result ≡ known_kind (value expression.now) }
{
    match expression {
        Value::Number(number) => least_kind(*number),
        Value::Print(_, _) => Kind::Int,
        Value::Unary(operator, kind, _) => unary_kind(*operator, *kind),
        Value::Binary(operator, kind, _, _) => binary_kind(*operator, *kind),
        Value::Conditional(_, first, second) => greater_kind(known_kind(first), known_kind(second)),
        Value::Convert(kind, operand) => lesser_kind(known_kind(operand), *kind),
        Value::AssignNumber(_, operand) => known_kind(operand),
        Value::SetField(_, _, _, operand) => known_kind(operand),
        Value::NotSame(_, _) => Kind::Bool,
        Value::IsObject(_) => Kind::Bool,
        Value::ReadByte => Kind::Long,
        Value::Read(_) => Kind::Long,
        Value::Update(_, _, _, _, _, _) => Kind::Long,
        Value::Call(_, _) => Kind::Long,
        Value::Send(_, _, _) => Kind::Long,
        Value::GetField(_, _, _) => Kind::Long,
        Value::UpdateField(_, _, _, _, _, _, _, _) => Kind::Long,
    }
}
