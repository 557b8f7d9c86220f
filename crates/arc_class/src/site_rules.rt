//! The rules that a site of a source breaks by itself.
ghost use Rattle.std.specs.Prelude.{◌≡◌, ◌++◌, option_map, IfOk};
ghost use Rattle.arc_ast.specs.Tree.{expr_tree, stmt_tree, function_tree, global_tree, head_tree, unit_tree};
ghost use Rattle.arc_class.specs.BrokenRules.{first};
ghost use Rattle.arc_class.specs.Fault.{reported};
ghost use Rattle.arc_class.specs.KeptNames.{Knows};
ghost use Rattle.arc_class.specs.FunctionNames.{known};
ghost use Rattle.arc_class.specs.SiteRules as rules;
ghost use Rattle.arc_class.specs.SiteRules.{violations};
ghost use Rattle.arc_sites.specs.FoundViolations.{node_of, violations_of};
ghost use Rattle.arc_sites.specs.Sites as sites;
ghost use Rattle.arc_sites.specs.Sites.{InSource, unit_sites};

use crate::fault::fault_if;
use crate::kept::Source;
use crate::methods::is_hook;
use crate::scopes::{block_fault, body_fault, declaration_fault};
use crate::table::at_name;
use crate::types::{signature_fault, type_fault};
use arc_ast::tree;
use arc_ast::tree::{Expr, Function, MethodHead, Stmt};
use arc_fault::class::ClassFault;
use arc_sites::node::{Enclosing, Node};
use arc_sites::parameter::named_parameters;
use arc_sites::violation::earlier;
use arc_sites::walk::{Visitor, walk};
use std::alloc::{AllocError, Global};

/// The first rule that the sites so far break, each by itself.
#[derive(Drop)]
struct SiteRules<'a, 's> {
    alloc: Global,
    source: &'s Source<'a>,
    fault: Option<ClassFault>,
    ghost known: { ∥ Knows (unit_tree source.now.unit.now) source.now ∥₁ },
}

impl<'a, 's> Visitor for SiteRules<'a, 's> {
    type Error = AllocError;

    ghost violations = { λ rules. violations (unit_tree rules.source.now.unit.now) };

    ghost found = { λ rules. option_map reported rules.fault };

    #[inline(always)]
    fn visit(&mut self, _enclosing: Enclosing, node: Node) -> Result<(), AllocError> {
        let own = self.source.site_fault(self.alloc, node)?;
        self.fault = earlier(self.fault, own);
        Ok(())
    }
}

impl<'a> Source<'a> {
    /// Whether a function of the name is declared, and none has a body.
    fn lacks_body(&self, name: &[u8]) -> bool
        ensures { Knows (unit_tree self.now.unit.now) self.now → result ≡ rules.lacks_body (known (unit_tree self.now.unit.now).functions name.now) }
    {
        match at_name(&self.known, name) {
            None => false,
            Some(declared) => declared.body.is_none(),
        }
    }

    /// The rule that an expression breaks by itself.
    fn expression_fault(&self, expr: &Expr) -> Option<ClassFault>
        ensures { Knows (unit_tree self.now.unit.now) self.now → option_map reported result ≡ first (violations (unit_tree self.now.unit.now) InSource (sites.Value (expr_tree expr.now))) }
    {
        match expr {
            Expr::Call(at, name, _) => {
                let missing = self.lacks_body(name);
                fault_if(missing, ClassFault::UndefinedFunction(*at))
            }
            Expr::Cast(_, written, _) => type_fault(self, written),
            _ => None,
        }
    }

    /// The first rule that a statement breaks by itself.
    fn statement_fault(&self, alloc: Global, stmt: &Stmt) -> Result<Option<ClassFault>, AllocError>
        ensures { Knows (unit_tree self.now.unit.now) self.now → IfOk result (λ fault. option_map reported fault ≡ first (violations (unit_tree self.now.unit.now) InSource (sites.Statement (stmt_tree stmt.now)))) }
    {
        match stmt {
            Stmt::Block(_, all) => block_fault(alloc, all),
            Stmt::Variables(_, _, written, all) => {
                let own = declaration_fault(alloc, all)?;
                Ok(earlier(own, type_fault(self, written)))
            }
            _ => Ok(None),
        }
    }

    /// The first rule that a function breaks by itself.
    fn function_fault(&self, function: &Function) -> Option<ClassFault>
        ensures { Knows (unit_tree self.now.unit.now) self.now → option_map reported result ≡ first (violations (unit_tree self.now.unit.now) InSource (sites.Function (function_tree function.now))) }
    {
        let clashes = self.clashes_with(function);
        let types = signature_fault(
            self,
            &function.result,
            named_parameters(&function.parameters),
        );
        earlier(fault_if(clashes, ClassFault::Duplicate(function.at)), types)
    }

    /// The first rule that a global variable breaks by itself.
    fn global_fault(&self, global: &tree::Global) -> Option<ClassFault>
        ensures { Knows (unit_tree self.now.unit.now) self.now → option_map reported result ≡ first (violations (unit_tree self.now.unit.now) InSource (sites.Global (global_tree global.now))) }
    {
        let again = fault_if(self.is_again(global), ClassFault::Duplicate(global.at));
        earlier(again, type_fault(self, &global.type_name))
    }

    /// The first rule that a method breaks by itself, as it is declared or defined.
    fn head_fault(&self, head: &MethodHead) -> Option<ClassFault>
        ensures { Knows (unit_tree self.now.unit.now) self.now → option_map reported result ≡ first (violations (unit_tree self.now.unit.now) InSource (sites.Declared (head_tree head.now))) }
    {
        let types = signature_fault(self, &head.result, &head.parameters);
        let kind = fault_if(self.changes_kind(head), ClassFault::SelectorKinds(head.at));
        let hook = fault_if(is_hook(head), ClassFault::HookMethod(head.at));
        earlier(types, earlier(kind, hook))
    }

    /// The first rule that a node breaks by itself.
    #[inline(always)]
    fn site_fault(&self, alloc: Global, node: Node) -> Result<Option<ClassFault>, AllocError>
        ensures { Knows (unit_tree self.now.unit.now) self.now → IfOk result (λ fault. option_map reported fault ≡ first (violations (unit_tree self.now.unit.now) InSource (node_of node.entry))) }
    {
        match node {
            Node::Value(expr) => Ok(self.expression_fault(expr)),
            Node::Statement(stmt) => self.statement_fault(alloc, stmt),
            Node::Variable(_, _, _) => Ok(None),
            Node::Body(parameters, body) => body_fault(alloc, parameters, body),
            Node::Function(function) => Ok(self.function_fault(function)),
            Node::Global(global) => Ok(self.global_fault(global)),
            Node::Field(field) => Ok(type_fault(self, &field.type_name)),
            Node::Declared(head) | Node::Defined(head) => Ok(self.head_fault(head)),
        }
    }

    /// The first rule that a site of the source breaks by itself.
    pub fn sites_fault(&self, alloc: Global) -> Result<Option<ClassFault>, AllocError>
        requires { Knows (unit_tree self.now.unit.now) self.now }
        ensures { IfOk result (λ fault. option_map reported fault ≡ first (violations_of (violations (unit_tree self.now.unit.now)) (unit_sites (unit_tree self.now.unit.now)))) }
    {
        let mut rules = SiteRules {
            alloc,
            source: self,
            fault: None,
        };
        walk(&mut rules, self.unit)?;
        Ok(rules.fault)
    }
}
