//! Methods by their signs and selectors, and the first value of each name.
ghost use Rattle.std.specs.Prelude.{◌≡◌, ℕ, List, [], ◌∷◌, None, IfOk, OnOk};
ghost use Rattle.arc_ast.specs.declared.tree.Sign.{Sign};
ghost use Rattle.arc_ast.specs.Tree.{head_tree, head_trees, method_trees};
ghost use Rattle.arc_class.specs.Classes.{heads, first_head, is_related};
ghost use Rattle.arc_class.specs.KeptNames.{one_at, head_in};
ghost use Rattle.arc_class.specs.Table.{at_name, head_at};
ghost use Rattle.std.specs.Option.{option_or};

use crate::by_name::ByName;
use crate::table::at_name;
use arc_ast::tree::{Kind, Method, MethodHead, ResultType, Sign, TypeName};
use arc_spec::family::{gives_related, method_family};
use std::alloc::{AllocError, Global};

/// Keeps the value for the name, unless there is one.
pub fn keep_first<'a, V: Copy>(
    map: &mut ByName<'a, V>,
    name: &'a [u8],
    value: V,
) -> Result<(), AllocError>
    ensures { OnOk result ((sought : List ℕ) → at_name map.new sought ≡ option_or (at_name map.old sought) (one_at name.now value sought)) }
{
    if map.get(name).is_some() {
        return Ok(());
    }
    map.insert(name, value)?;
    Ok(())
}

/// A method for each sign and selector.
#[derive(Drop)]
pub struct Heads<'a> {
    pub class_methods: ByName<'a, &'a MethodHead>,
    pub instance_methods: ByName<'a, &'a MethodHead>,
}

impl<'a> Heads<'a> {
    /// No methods.
    pub fn new(alloc: Global) -> Heads<'a>
        ensures { (sign : Sign) (selector : List ℕ) → head_at result sign selector ≡ None }
    {
        Heads {
            class_methods: ByName::new(alloc),
            instance_methods: ByName::new(alloc),
        }
    }

    /// No methods, with room for so many of each sign.
    pub fn with_room(alloc: Global, methods: usize) -> Result<Heads<'a>, AllocError>
        ensures { IfOk result (λ heads. (sign : Sign) (selector : List ℕ) → head_at heads sign selector ≡ None) }
    {
        Ok(Heads {
            class_methods: ByName::with_room(alloc, methods)?,
            instance_methods: ByName::with_room(alloc, methods)?,
        })
    }

    /// The method with the selector.
    pub fn get(&self, sign: Sign, selector: &[u8]) -> Option<&'a MethodHead>
        ensures { result ≡ head_at self.now sign selector.now }
    {
        match sign {
            Sign::Class => at_name(&self.class_methods, selector),
            Sign::Instance => at_name(&self.instance_methods, selector),
        }
    }

    /// The methods of the sign.
    pub fn of(&self, sign: Sign) -> &ByName<'a, &'a MethodHead>
        ensures { (selector : List ℕ) → at_name result.now selector ≡ head_at self.now sign selector }
    {
        match sign {
            Sign::Class => &self.class_methods,
            Sign::Instance => &self.instance_methods,
        }
    }

    /// Keeps the method, unless there is one of its sign with its selector.
    pub fn keep(&mut self, head: &'a MethodHead) -> Result<(), AllocError>
        ensures { OnOk result ((sign : Sign) (selector : List ℕ)
            → head_in self.new sign selector ≡ option_or (head_in self.old sign selector) (first_head sign selector (head_tree head.now ∷ []))) }
    {
        match head.sign {
            Sign::Class => keep_first(&mut self.class_methods, &head.selector, head),
            Sign::Instance => keep_first(&mut self.instance_methods, &head.selector, head),
        }
    }

    /// Keeps the first of the methods of each sign with each selector.
    pub fn keep_heads(&mut self, heads: &'a [MethodHead]) -> Result<(), AllocError>
        ensures { OnOk result ((sign : Sign) (selector : List ℕ)
            → head_in self.new sign selector ≡ option_or (head_in self.old sign selector) (first_head sign selector (head_trees heads.now))) }
    {
        for head in heads {
            self.keep(head)?;
        }
        Ok(())
    }

    /// Keeps the first of the methods of each sign with each selector.
    pub fn keep_methods(&mut self, methods: &'a [Method]) -> Result<(), AllocError>
        ensures { OnOk result ((sign : Sign) (selector : List ℕ)
            → head_in self.new sign selector ≡ option_or (head_in self.old sign selector) (first_head sign selector (heads (method_trees methods.now)))) }
    {
        for method in methods {
            self.keep(&method.head)?;
        }
        Ok(())
    }
}

/// Whether a method gives an object of the class that gets the message.
pub fn is_related(head: &MethodHead) -> bool
    ensures { result ≡ is_related (head_tree head.now) }
{
    match &head.result {
        ResultType::Related => true,
        ResultType::Value(TypeName::Id) => {
            gives_related(
                head.sign,
                method_family(head.sign, &head.selector, Kind::Object),
            )
        }
        _ => false,
    }
}
