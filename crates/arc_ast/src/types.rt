//! Types as they are written.
ghost use Rattle.std.specs.Prelude.{◌≡◌, IfOk};
ghost use Rattle.arc_ast.specs.Tree.{type_tree, result_tree};
ghost use Rattle.arc_ast.specs.Types.{type_kind, result_kind, and_qualifier, both_qualifiers};

use crate::tree::{Kind, Qual, Qualifiers, ResultType, TypeName};
use std::alloc::{AllocError, Global};

impl TypeName {
    /// Returns the kind of a value of this type (C99, section 6.2.5): that of a type of integers, and `Object` of `id`
    /// and of a reference to a class's objects (OPL, "Object Identifiers" and "Static Typing").
    pub fn kind(&self) -> Kind
        ensures { result ≡ type_kind (type_tree self.now) }
    {
        match self {
            TypeName::Bool => Kind::Bool,
            TypeName::Int => Kind::Int,
            TypeName::Long => Kind::Long,
            TypeName::Id | TypeName::Object(_, _) => Kind::Object,
        }
    }

    /// Returns this type again, with the place and the bytes of a class's name; an `Err` where there is no
    /// memory for them.
    pub fn copy(&self, alloc: Global) -> Result<TypeName, AllocError>
        ensures { IfOk result (λ type_name. type_tree type_name ≡ type_tree self.now) }
    {
        match self {
            TypeName::Bool => Ok(TypeName::Bool),
            TypeName::Int => Ok(TypeName::Int),
            TypeName::Long => Ok(TypeName::Long),
            TypeName::Id => Ok(TypeName::Id),
            TypeName::Object(at, name) => Ok(TypeName::Object(*at, Vec::from_slice(alloc, name)?)),
        }
    }
}

impl ResultType {
    /// Returns the kind of a result of this type: `Void` where there is no value, and else that of the value.
    pub fn kind(&self) -> Kind
        ensures { result ≡ result_kind (result_tree self.now) }
    {
        match self {
            ResultType::Void => Kind::Void,
            ResultType::Value(type_name) => type_name.kind(),
            ResultType::Related => Kind::Object,
        }
    }
}

impl Qualifiers {
    /// Returns these and one more.
    pub fn and(self, further: Qual) -> Qualifiers
        ensures { result ≡ and_qualifier self further }
    {
        match self {
            Qualifiers::Unqualified => Qualifiers::Qualified(further),
            _ => Qualifiers::Several,
        }
    }

    /// Returns these and those.
    pub fn both(self, others: Qualifiers) -> Qualifiers
        ensures { result ≡ both_qualifiers self others }
    {
        match others {
            Qualifiers::Unqualified => self,
            Qualifiers::Qualified(further) => self.and(further),
            Qualifiers::Several => Qualifiers::Several,
        }
    }
}
