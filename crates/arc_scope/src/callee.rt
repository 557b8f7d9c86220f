//! The functions that a program may call.
ghost use Rattle.std.specs.Prelude.{◌≡◌};
ghost use Rattle.arc_scope.specs.Scopes as scopes;
ghost use Rattle.arc_scope.specs.Views.{known_in};

use arc_ast::tree::Kind;
use arc_class::table::{ClassTable, Declared};

/// The function that a name calls.
#[derive(Clone, Copy)]
pub enum Callee {
    Printf,
    GetChar,
    /// One of the source: what it gives, how many arguments it takes, and which of the functions with a body it is, if it has one.
    Defined(Kind, usize, Option<usize>),
    Unknown,
}

/// The function of which this is known.
fn known(declared: Option<Declared>) -> Callee
    ensures { result ≡ scopes.callee_known declared }
{
    let Some(declared) = declared else {
        return Callee::Unknown;
    };
    match declared.signature.takes {
        None => Callee::Unknown,
        Some(count) => Callee::Defined(declared.signature.result, count, declared.body),
    }
}

/// The function that the name calls.
pub fn callee_of<'a>(table: &ClassTable<'a>, name: &'a [u8]) -> Callee
    ensures { result ≡ scopes.callee (known_in table.now) name.now }
{
    if name == b"printf".as_slice() {
        Callee::Printf
    } else if name == b"getchar".as_slice() {
        Callee::GetChar
    } else if name == b"main".as_slice() {
        Callee::Unknown
    } else {
        known(table.function(name))
    }
}

/// The kind that a call of the function gives.
pub fn result_kind(callee: Callee) -> Kind
    ensures { result ≡ scopes.result_kind callee }
{
    match callee {
        Callee::Defined(result, _, _) => result,
        _ => Kind::Int,
    }
}
