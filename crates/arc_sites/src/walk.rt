//! A walk through all sites of a source.
ghost use Rattle.std.specs.Prelude.{◌≡◌, List, Option, Some, OnOk, flat_map, option_map};
ghost use Rattle.arc_ast.specs.Tree.{expr_tree, expr_trees, variable_trees, type_tree, stmt_tree, stmt_trees, parameter_trees, parameters_tree, function_tree, function_trees, global_trees, field_trees, head_trees, method_tree, method_trees, interface_tree, interface_trees, implementation_tree, implementation_trees, unit_tree};
ghost use Rattle.arc_sites.specs.Violations.{first, earlier_of};
ghost use Rattle.arc_sites.specs.Sites as sites;
ghost use Rattle.arc_sites.specs.FoundViolations.{enclosing_of, node_of, found_from};

use crate::node::{Enclosing, Node};
use crate::parameter::named_parameters;
use arc_ast::tree::{
    Expr, Field, Function, Global, Implementation, Interface, Method, MethodHead, Parameter,
    Qualifiers, Stmt, TranslationUnit, TypeName, Variable,
};

/// What looks at each site of a source for violations of some rules.
pub trait Visitor {
    ghost use Rattle.arc_sites.specs.declared.violation.Violation.{Violation};
    ghost use Rattle.arc_sites.specs.Sites as sites;

    /// Why a visit ends before it has looked at the site.
    type Error;

    /// What the rules say of a site.
    ghost violations: { Self → sites.Enclosing → sites.Node → List Violation };

    /// The first violation that it has found.
    ghost found: { Self → Option Violation };

    /// Looks at a site.
    fn visit(&mut self, enclosing: Enclosing, node: Node) -> Result<(), Self::Error>
        ensures found { OnOk result (found self.new ≡ earlier_of (found self.old) (first (violations self.old (enclosing_of enclosing.entry) (node_of node.entry)))) }
        ensures same { OnOk result (violations self.new ≡ violations self.old) };
}

/// Visits an expression, and first what is inside it.
#[cycle(expressions)]
fn expression<V: Visitor>(
    visitor: &mut V,
    enclosing: Enclosing,
    expr: &Expr,
) -> Result<(), V::Error>
    ensures found { OnOk result (V.found visitor.new ≡ found_from (V.violations visitor.old) (V.found visitor.old) (sites.sites (enclosing_of enclosing.entry) (expr_tree expr.now))) }
    ensures same { OnOk result (V.violations visitor.new ≡ V.violations visitor.old) }
{
    inside(visitor, enclosing, expr)?;
    visitor.visit(enclosing, Node::Value(expr))
}

/// Visits what is inside an expression.
#[cycle(expressions)]
fn inside<V: Visitor>(visitor: &mut V, enclosing: Enclosing, expr: &Expr) -> Result<(), V::Error>
    ensures found { OnOk result (V.found visitor.new ≡ found_from (V.violations visitor.old) (V.found visitor.old) (sites.inside (enclosing_of enclosing.entry) (expr_tree expr.now))) }
    ensures same { OnOk result (V.violations visitor.new ≡ V.violations visitor.old) }
{
    match expr {
        Expr::Integer(_, _, _)
        | Expr::Text(_, _)
        | Expr::Nil(_)
        | Expr::Itself(_)
        | Expr::Name(_, _) => Ok(()),
        Expr::Paren(_, operand)
        | Expr::Unary(_, _, operand)
        | Expr::Cast(_, _, operand)
        | Expr::Arrow(_, _, operand, _) => expression(visitor, enclosing, operand),
        Expr::Binary(_, _, left, right)
        | Expr::Assign(_, _, left, right)
        | Expr::Update(_, _, _, _, left, right) => {
            expression(visitor, enclosing, left)?;
            expression(visitor, enclosing, right)
        }
        Expr::Conditional(_, test, first, second) => {
            expression(visitor, enclosing, test)?;
            expression(visitor, enclosing, first)?;
            expression(visitor, enclosing, second)
        }
        Expr::Call(_, _, all) | Expr::SendSuper(_, _, _, _, all) => {
            arguments(visitor, enclosing, all)
        }
        Expr::Send(_, _, receiver, _, all) => {
            expression(visitor, enclosing, receiver)?;
            arguments(visitor, enclosing, all)
        }
    }
}

/// Visits arguments.
#[cycle(expressions)]
fn arguments<V: Visitor>(
    visitor: &mut V,
    enclosing: Enclosing,
    all: &[Expr],
) -> Result<(), V::Error>
    ensures found { OnOk result (V.found visitor.new ≡ found_from (V.violations visitor.old) (V.found visitor.old) (sites.arguments (enclosing_of enclosing.entry) (expr_trees all.now))) }
    ensures same { OnOk result (V.violations visitor.new ≡ V.violations visitor.old) }
{
    for argument in all {
        expression(visitor, enclosing, argument)?;
    }
    Ok(())
}

/// Visits an expression, if there is one.
fn maybe<V: Visitor>(
    visitor: &mut V,
    enclosing: Enclosing,
    expr: &Option<Expr>,
) -> Result<(), V::Error>
    ensures found { OnOk result (V.found visitor.new ≡ found_from (V.violations visitor.old) (V.found visitor.old) (sites.maybe_sites (enclosing_of enclosing.entry) (option_map expr_tree expr.now))) }
    ensures same { OnOk result (V.violations visitor.new ≡ V.violations visitor.old) }
{
    match expr {
        Some(expr) => expression(visitor, enclosing, expr),
        None => Ok(()),
    }
}

/// Visits a declaration's variables.
fn variables<V: Visitor>(
    visitor: &mut V,
    enclosing: Enclosing,
    qualifiers: Qualifiers,
    type_name: &TypeName,
    all: &[Variable],
) -> Result<(), V::Error>
    ensures found { OnOk result (V.found visitor.new ≡ found_from (V.violations visitor.old) (V.found visitor.old) (sites.variable_sites (enclosing_of enclosing.entry) qualifiers (type_tree type_name.now) (variable_trees all.now))) }
    ensures same { OnOk result (V.violations visitor.new ≡ V.violations visitor.old) }
{
    for variable in all {
        visitor.visit(enclosing, Node::Variable(qualifiers, type_name, variable))?;
        maybe(visitor, enclosing, &variable.initial)?;
    }
    Ok(())
}

/// Visits a statement, and then what is inside it.
#[cycle(statements)]
fn statement<V: Visitor>(visitor: &mut V, enclosing: Enclosing, stmt: &Stmt) -> Result<(), V::Error>
    ensures found { OnOk result (V.found visitor.new ≡ found_from (V.violations visitor.old) (V.found visitor.old) (sites.stmt_sites (enclosing_of enclosing.entry) (stmt_tree stmt.now))) }
    ensures same { OnOk result (V.violations visitor.new ≡ V.violations visitor.old) }
{
    visitor.visit(enclosing, Node::Statement(stmt))?;
    within(visitor, enclosing, stmt)
}

/// Visits what is inside a statement.
#[cycle(statements)]
fn within<V: Visitor>(visitor: &mut V, enclosing: Enclosing, stmt: &Stmt) -> Result<(), V::Error>
    ensures found { OnOk result (V.found visitor.new ≡ found_from (V.violations visitor.old) (V.found visitor.old) (sites.within (enclosing_of enclosing.entry) (stmt_tree stmt.now))) }
    ensures same { OnOk result (V.violations visitor.new ≡ V.violations visitor.old) }
{
    match stmt {
        Stmt::Block(_, all) => statements(visitor, enclosing, all),
        Stmt::Empty(_) | Stmt::Break(_) | Stmt::Continue(_) => Ok(()),
        Stmt::Expr(expr) => expression(visitor, enclosing, expr),
        Stmt::Return(_, expr) => maybe(visitor, enclosing, expr),
        Stmt::Variables(_, qualifiers, type_name, all) => {
            variables(visitor, enclosing, *qualifiers, type_name, all)
        }
        Stmt::If(_, test, body) | Stmt::While(_, _, test, body) => {
            expression(visitor, enclosing, test)?;
            statement(visitor, enclosing, body)
        }
        Stmt::IfElse(_, test, then, other) => {
            expression(visitor, enclosing, test)?;
            statement(visitor, enclosing, then)?;
            statement(visitor, enclosing, other)
        }
        Stmt::For(_, beginning, test, step, body) => {
            statement(visitor, enclosing, beginning)?;
            maybe(visitor, enclosing, test)?;
            maybe(visitor, enclosing, step)?;
            statement(visitor, enclosing, body)
        }
    }
}

/// Visits the statements of a block.
#[cycle(statements)]
fn statements<V: Visitor>(
    visitor: &mut V,
    enclosing: Enclosing,
    all: &[Stmt],
) -> Result<(), V::Error>
    ensures found { OnOk result (V.found visitor.new ≡ found_from (V.violations visitor.old) (V.found visitor.old) (sites.all_sites (enclosing_of enclosing.entry) (stmt_trees all.now))) }
    ensures same { OnOk result (V.violations visitor.new ≡ V.violations visitor.old) }
{
    for stmt in all {
        statement(visitor, enclosing, stmt)?;
    }
    Ok(())
}

/// Visits a body, with its parameters, and then what is inside it.
fn body<V: Visitor>(
    visitor: &mut V,
    enclosing: Enclosing,
    parameters: &[Parameter],
    all: &[Stmt],
) -> Result<(), V::Error>
    ensures found { OnOk result (V.found visitor.new ≡ found_from (V.violations visitor.old) (V.found visitor.old) (sites.body_sites (enclosing_of enclosing.entry) (parameter_trees parameters.now) (Some (stmt_trees all.now)))) }
    ensures same { OnOk result (V.violations visitor.new ≡ V.violations visitor.old) }
{
    visitor.visit(enclosing, Node::Body(parameters, all))?;
    statements(visitor, enclosing, all)
}

/// Visits a function.
fn function<V: Visitor>(visitor: &mut V, function: &Function) -> Result<(), V::Error>
    ensures found { OnOk result (V.found visitor.new ≡ found_from (V.violations visitor.old) (V.found visitor.old) (sites.function_sites (function_tree function.now))) }
    ensures same { OnOk result (V.violations visitor.new ≡ V.violations visitor.old) }
{
    let enclosing = Enclosing::Function;
    visitor.visit(enclosing, Node::Function(function))?;
    match &function.body {
        Some(all) => body(
            visitor,
            enclosing,
            named_parameters(&function.parameters),
            all,
        ),
        None => Ok(()),
    }
}

/// Visits some functions.
fn functions<V: Visitor>(visitor: &mut V, all: &[Function]) -> Result<(), V::Error>
    ensures found { OnOk result (V.found visitor.new ≡ found_from (V.violations visitor.old) (V.found visitor.old) (flat_map sites.function_sites (function_trees all.now))) }
    ensures same { OnOk result (V.violations visitor.new ≡ V.violations visitor.old) }
{
    for one in all {
        function(visitor, one)?;
    }
    Ok(())
}

/// Visits some variables of the whole program.
fn globals<V: Visitor>(visitor: &mut V, all: &[Global]) -> Result<(), V::Error>
    ensures found { OnOk result (V.found visitor.new ≡ found_from (V.violations visitor.old) (V.found visitor.old) (flat_map (λ g. sites.site sites.InSource (sites.Global g)) (global_trees all.now))) }
    ensures same { OnOk result (V.violations visitor.new ≡ V.violations visitor.old) }
{
    for global in all {
        visitor.visit(Enclosing::Source, Node::Global(global))?;
    }
    Ok(())
}

/// Visits some fields.
fn fields<V: Visitor>(visitor: &mut V, enclosing: Enclosing, all: &[Field]) -> Result<(), V::Error>
    ensures found { OnOk result (V.found visitor.new ≡ found_from (V.violations visitor.old) (V.found visitor.old) (sites.field_sites (enclosing_of enclosing.entry) (field_trees all.now))) }
    ensures same { OnOk result (V.violations visitor.new ≡ V.violations visitor.old) }
{
    for field in all {
        visitor.visit(enclosing, Node::Field(field))?;
    }
    Ok(())
}

/// Visits the methods that an interface declares.
fn heads<V: Visitor>(
    visitor: &mut V,
    interface: &Interface,
    all: &[MethodHead],
) -> Result<(), V::Error>
    ensures found { OnOk result (V.found visitor.new ≡ found_from (V.violations visitor.old) (V.found visitor.old) (flat_map (λ h. sites.site (sites.InInterface interface.now.name.items) (sites.Declared h)) (head_trees all.now))) }
    ensures same { OnOk result (V.violations visitor.new ≡ V.violations visitor.old) }
{
    for head in all {
        visitor.visit(Enclosing::Interface(interface), Node::Declared(head))?;
    }
    Ok(())
}

/// Visits some interfaces.
fn interfaces<V: Visitor>(visitor: &mut V, all: &[Interface]) -> Result<(), V::Error>
    ensures found { OnOk result (V.found visitor.new ≡ found_from (V.violations visitor.old) (V.found visitor.old) (flat_map sites.interface_sites (interface_trees all.now))) }
    ensures same { OnOk result (V.violations visitor.new ≡ V.violations visitor.old) }
{
    for interface in all {
        fields(visitor, Enclosing::Interface(interface), &interface.fields)?;
        heads(visitor, interface, &interface.methods)?;
    }
    Ok(())
}

/// Visits a method that an implementation defines.
fn method<V: Visitor>(
    visitor: &mut V,
    implementation: &Implementation,
    method: &Method,
) -> Result<(), V::Error>
    ensures found { OnOk result (V.found visitor.new ≡ found_from (V.violations visitor.old) (V.found visitor.old) (sites.method_sites implementation.now.name.items (method_tree method.now))) }
    ensures same { OnOk result (V.violations visitor.new ≡ V.violations visitor.old) }
{
    let enclosing = Enclosing::Method(implementation, &method.head);
    visitor.visit(enclosing, Node::Defined(&method.head))?;
    body(visitor, enclosing, &method.head.parameters, &method.body)
}

/// Visits the methods that an implementation defines.
fn methods<V: Visitor>(
    visitor: &mut V,
    implementation: &Implementation,
    all: &[Method],
) -> Result<(), V::Error>
    ensures found { OnOk result (V.found visitor.new ≡ found_from (V.violations visitor.old) (V.found visitor.old) (flat_map (sites.method_sites implementation.now.name.items) (method_trees all.now))) }
    ensures same { OnOk result (V.violations visitor.new ≡ V.violations visitor.old) }
{
    for one in all {
        method(visitor, implementation, one)?;
    }
    Ok(())
}

/// Visits some implementations.
fn implementations<V: Visitor>(visitor: &mut V, all: &[Implementation]) -> Result<(), V::Error>
    ensures found { OnOk result (V.found visitor.new ≡ found_from (V.violations visitor.old) (V.found visitor.old) (flat_map sites.implementation_sites (implementation_trees all.now))) }
    ensures same { OnOk result (V.violations visitor.new ≡ V.violations visitor.old) }
{
    for implementation in all {
        fields(
            visitor,
            Enclosing::Implementation(implementation),
            &implementation.fields,
        )?;
        methods(visitor, implementation, &implementation.methods)?;
    }
    Ok(())
}

/// Visits each site of a source, up to the first visit that fails; fails as that one does.
pub fn walk<V: Visitor>(visitor: &mut V, unit: &TranslationUnit) -> Result<(), V::Error>
    ensures found { OnOk result (V.found visitor.new ≡ found_from (V.violations visitor.old) (V.found visitor.old) (sites.unit_sites (unit_tree unit.now))) }
    ensures same { OnOk result (V.violations visitor.new ≡ V.violations visitor.old) }
{
    functions(visitor, &unit.functions)?;
    globals(visitor, &unit.globals)?;
    interfaces(visitor, &unit.interfaces)?;
    implementations(visitor, &unit.implementations)
}
