//! The nodes of a tree, and what has them.
use arc_ast::tree::{
    Expr, Field, Function, Global, Implementation, Interface, MethodHead, Parameter, Qualifiers,
    Stmt, TypeName, Variable,
};

/// What has a node.
#[derive(Clone, Copy)]
pub enum Enclosing<'a> {
    Function,
    /// A method of an implementation.
    Method(&'a Implementation, &'a MethodHead),
    Interface(&'a Interface),
    /// An implementation, but for its methods.
    Implementation(&'a Implementation),
    /// The source itself.
    Source,
}

/// A node of a tree.
#[derive(Clone, Copy)]
pub enum Node<'a> {
    Value(&'a Expr),
    Statement(&'a Stmt),
    /// A variable that a declaration makes, of a type after qualifiers.
    Variable(Qualifiers, &'a TypeName, &'a Variable),
    /// The body of a function or of a method, with its parameters.
    Body(&'a [Parameter], &'a [Stmt]),
    Function(&'a Function),
    /// A variable of the whole program.
    Global(&'a Global),
    /// A field that an interface or an implementation declares.
    Field(&'a Field),
    /// A method that an interface declares.
    Declared(&'a MethodHead),
    /// A method that an implementation defines.
    Defined(&'a MethodHead),
}
