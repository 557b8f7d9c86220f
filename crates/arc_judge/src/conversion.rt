//! Conversions in formats of printf, and which values they may print.
ghost use Rattle.std.specs.Prelude.{◌≡◌, [], ◌∷◌, ◌&&◌, List, Option, MatchOption};
ghost use Rattle.arc_ast.specs.declared.tree.Kind.{Kind};
ghost use Rattle.arc_scope.specs.Formats.{wanted, suits_kind, suits, fits};

use arc_ast::tree::Kind;
use arc_scope::format::{Begun, Part, Reading, read};

/// The first conversion of a format, and what stands after it.
pub fn next_conversion(format: &[u8]) -> Option<(Part, &[u8])>
    ensures { MatchOption result (wanted format.now ≡ []) (λ x. wanted format.now ≡ x.0 ∷ wanted x.1.now) }
{
    let mut begun = Begun::Nothing;
    for (index, byte) in format.iter().enumerate() {
        match read(begun, *byte) {
            Reading::Goes(next) => begun = next,
            Reading::Gives(Part::Plain(_)) => begun = Begun::Nothing,
            Reading::Gives(part) => return Some((part, format.split_at(index + 1).1)),
        }
    }
    match begun {
        Begun::Nothing => None,
        _ => Some((Part::Unknown, format.split_at(format.len()).1)),
    }
}

/// Whether the first conversion of a format may print a value of the kind, or one that has none, and what stands after it.
pub fn take_conversion(format: &[u8], kind: Option<Kind>) -> (bool, &[u8])
    ensures { (kinds : List (Option Kind)) → fits (wanted format.now) (kind ∷ kinds) ≡ (result.0 && fits (wanted result.1.now) kinds) }
{
    match next_conversion(format) {
        None => (false, format),
        Some((part, scope_after)) => (may_print(part, kind), scope_after),
    }
}

/// Whether the conversion may print a value of the kind, or one that has none.
fn may_print(part: Part, kind: Option<Kind>) -> bool
    ensures { result ≡ suits part kind }
{
    match (part, kind) {
        (Part::Plain(_), _) => true,
        (Part::Unknown, _) => false,
        (_, None) => true,
        (Part::Decimal(wanted), Some(kind)) => suits(wanted, kind),
        (Part::Character, Some(kind)) => suits(Kind::Int, kind),
    }
}

/// Whether a conversion of the first kind may print a value of the second.
fn suits(wanted: Kind, kind: Kind) -> bool
    ensures { result ≡ suits_kind wanted kind }
{
    matches!(
        (wanted, kind),
        (Kind::Int, Kind::Bool | Kind::Int) | (Kind::Long, Kind::Long)
    )
}
