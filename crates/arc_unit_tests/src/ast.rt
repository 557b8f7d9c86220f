//! Types as they are written.
use arc_ast::tree::{Kind, ResultType, TypeName};
use std::alloc::Global;

/// Whether types that name no class, and results, have their kinds.
fn have_kinds_alone() -> bool {
    is_kind(&TypeName::Bool, Kind::Bool)
        && is_kind(&TypeName::Int, Kind::Int)
        && is_kind(&TypeName::Long, Kind::Long)
        && is_kind(&TypeName::Id, Kind::Object)
        && ResultType::Void.kind() == Kind::Void
        && ResultType::Value(TypeName::Int).kind() == Kind::Int
}

fn is_kind(name: &TypeName, kind: Kind) -> bool {
    name.kind() == kind
}

#[test]
fn have_kinds(rt: HostRuntime) {
    assert!(rt; have_kinds_alone());
}

/// The type of objects of the class `A`, which is named at 7.
fn object(alloc: Global) -> Option<TypeName> {
    let name = Vec::from_slice(alloc, b"A").ok()?;
    Some(TypeName::Object(7, name))
}

/// Whether a type is this one.
fn is_object(name: &TypeName) -> bool {
    match name {
        TypeName::Object(at, class) => *at == 7 && class.as_slice() == b"A".as_slice(),
        _ => false,
    }
}

/// Whether that type and a copy of it are the same and have its kind.
fn is_copied(alloc: Global) -> Option<bool> {
    let object = object(alloc)?;
    let copied = object.copy(alloc).ok()?;
    Some(is_object(&copied) && is_kind(&copied, Kind::Object))
}

#[test]
fn are_copied(rt: HostRuntime) {
    assert!(rt; is_copied(rt.alloc()) == Some(true));
}
