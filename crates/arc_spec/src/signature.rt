//! What a method's family depends on in addition to its selector, and the families.
use arc_ast::tree::Kind;

/// The family of a method, which says who owns what it takes and returns.
#[derive(Clone, Copy, Debug, PartialEq, Eq)]
pub enum Family {
    Alloc,
    Copy,
    Init,
    MutableCopy,
    New,
    None,
}

/// What a method is sent to, and what it returns.
#[derive(Clone, Copy)]
pub struct Signature {
    /// Whether it is an instance method; else it is a class method.
    pub instance: bool,
    pub result: Kind,
}
