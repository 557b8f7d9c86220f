//! One look at the functions of a source, before their bodies.
ghost use Rattle.std.specs.Prelude.{◌≡◌, ◌<◌, suc, option_map, if◌then◌else◌, IfOk, OnOk};
ghost use Rattle.arc_ast.specs.declared.tree.Kind.{Kind};
ghost use Rattle.arc_ast.specs.Tree.{function_tree, function_trees, parameter_trees, parameters_tree};
ghost use Rattle.arc_sites.specs.Sites.{named_parameters};
ghost use Rattle.arc_class.specs.Fault.{reported};
ghost use Rattle.arc_class.specs.FunctionRules as rules;
ghost use Rattle.arc_class.specs.private.FunctionSummary.{Sums, IsMore, joined, fault_with, main_with};
ghost use Rattle.arc_class.specs.FunctionNames as names;
ghost use Rattle.arc_class.specs.FunctionNames.{parameter_kinds};

use crate::table::{Declared, Known, Signature, at_name};
use arc_ast::tree::{Function, Kind, Parameter, Parameters};
use arc_fault::class::ClassFault;
use arc_sites::violation::earlier;
use std::alloc::{AllocError, Global};

/// What is known of some functions.
#[derive(Drop)]
pub struct Seen<'a> {
    pub known: Known<'a>,
    /// How many have a body.
    pub bodies: usize,
    /// Which of those is the first that a program can begin with.
    pub main: Option<usize>,
    /// The first rule that they break, but for those of their bodies and that of a missing `main`.
    pub fault: Option<ClassFault>,
}

pub(crate) fn same_kind(a: Kind, b: Kind) -> bool
    ensures { result ≡ rules.same_kind a b }
{
    a == b
}

/// Whether the kinds of these parameters are those of the others, in their order.
pub(crate) fn same_parameters(first: &[Parameter], second: &[Parameter]) -> bool
    ensures { result ≡ rules.same_kinds (parameter_kinds (parameter_trees first.now)) (parameter_kinds (parameter_trees second.now)) }
{
    let mut rest = second;
    for parameter in first {
        let Some((other, others)) = rest.split_first() else {
            return false;
        };
        if !same_kind(parameter.type_name.kind(), other.type_name.kind()) {
            return false;
        }
        rest = others;
    }
    rest.is_empty()
}

fn same_number(a: Option<usize>, b: Option<usize>) -> bool
    ensures { result ≡ rules.same_number a b }
{
    match (a, b) {
        (None, None) => true,
        (Some(a), Some(b)) => a == b,
        _ => false,
    }
}

fn same_signature(a: Signature, b: Signature) -> bool
    ensures { result ≡ rules.same_signature a b }
{
    same_kind(a.result, b.result) && same_number(a.takes, b.takes)
}

pub(crate) fn is_library(name: &[u8]) -> bool
    ensures { result ≡ rules.is_library name.now }
{
    name == b"printf".as_slice() || name == b"getchar".as_slice()
}

/// How many parameters a function has, where they are listed.
fn takes(parameters: &Parameters) -> Option<usize>
    ensures { result ≡ names.takes (parameters_tree parameters.now) }
{
    match parameters {
        Parameters::Listed(all) => {
            let all: &[Parameter] = all;
            Some(all.len())
        }
        Parameters::CountAndTexts => None,
    }
}

fn signature_of(function: &Function) -> Signature
    ensures { result ≡ names.signature (function_tree function.now) }
{
    Signature {
        result: function.result.kind(),
        takes: takes(&function.parameters),
    }
}

/// Whether a program can begin with the function.
fn is_main(function: &Function) -> bool
    ensures { result ≡ names.is_main (function_tree function.now) }
{
    let can_begin = matches!(takes(&function.parameters), None | Some(0));
    let name: &[u8] = &function.name;
    b"main".as_slice() == name && matches!(function.result.kind(), Kind::Int) && can_begin
}

/// Whether the function clashes with those of its name.
fn clashes(earlier: Option<Declared>, function: &Function) -> bool
    ensures { result ≡ rules.clashes earlier (function_tree function.now) }
{
    match earlier {
        None => false,
        Some(earlier) => {
            earlier.body.is_some() && function.body.is_some()
                || !same_signature(earlier.signature, signature_of(function))
        }
    }
}

/// What is known of a name, once one more function of the name is seen, which has this number if it has a body.
fn joined(earlier: Option<Declared>, number: usize, function: &Function) -> Declared
    ensures { result ≡ joined earlier number (function_tree function.now) }
{
    let body = if function.body.is_some() {
        Some(number)
    } else {
        None
    };
    match earlier {
        None => Declared {
            signature: signature_of(function),
            body,
        },
        Some(
            Declared {
                signature,
                body: None,
            },
        ) => Declared { signature, body },
        Some(earlier) => earlier,
    }
}

/// How many functions have a body, once the function is counted too.
fn bodies_with(bodies: usize, function: &Function) -> usize
    requires { bodies < usize.MAX }
    ensures { result ≡ (if names.has_body (function_tree function.now) then suc bodies else bodies) }
{
    match &function.body {
        Some(_) => bodies + 1,
        None => bodies,
    }
}

impl<'a> Seen<'a> {
    /// The fault, once the function is seen too.
    fn fault_with(&self, known: Option<Declared>, function: &Function) -> Option<ClassFault>
        ensures { option_map reported result ≡ fault_with self.now.fault known (function_tree function.now) }
    {
        if is_library(&function.name) || clashes(known, function) {
            earlier(self.fault, Some(ClassFault::Duplicate(function.at)))
        } else {
            self.fault
        }
    }

    /// Which function a program begins with, once the function is seen too.
    fn main_with(&self, function: &Function) -> Option<usize>
        ensures { result ≡ main_with self.now.main self.now.bodies (function_tree function.now) }
    {
        match self.main {
            Some(main) => Some(main),
            None if is_main(function) && function.body.is_some() => Some(self.bodies),
            None => None,
        }
    }

    /// Adds what the function says.
    fn add(&mut self, function: &'a Function) -> Result<(), AllocError>
        requires { self.old.bodies < usize.MAX }
        ensures { OnOk result (IsMore self.old (function_tree function.now) self.new) }
    {
        let earlier = at_name(&self.known, &function.name);
        let fault = self.fault_with(earlier, function);
        let main = self.main_with(function);
        let declared = joined(earlier, self.bodies, function);
        self.known.insert(&function.name, declared)?;
        self.bodies = bodies_with(self.bodies, function);
        self.main = main;
        self.fault = fault;
        Ok(())
    }
}

/// What is known of the functions.
pub fn look<'a>(alloc: Global, functions: &'a [Function]) -> Result<Seen<'a>, AllocError>
    ensures { IfOk result (λ seen. Sums (function_trees functions.now) seen) }
{
    let mut seen = Seen {
        known: Known::with_room(alloc, functions.len())?,
        bodies: 0,
        main: None,
        fault: None,
    };
    for function in functions {
        seen.add(function)?;
    }
    Ok(seen)
}
