//! Values as they are made and kept, where memory may run out.
ghost use Rattle.std.specs.Prelude.{◌≡◌, ◌++◌, ◌∷◌, [], IfOk, OnOk};

use std::alloc::{AllocError, Global};

/// The value in a box. AllocError: there was no memory for it.
pub fn boxed<T: Drop>(alloc: Global, value: T) -> Result<Box<T>, AllocError>
    ensures ok { IfOk result (λ made. made.value ≡ value) }
{
    Ok(Box::new(alloc, value)?)
}

/// Puts the value after the others. AllocError: there was no memory for it.
pub fn keep<T: Drop>(all: &mut Vec<T>, value: T) -> Result<(), AllocError>
    ensures items { OnOk result (all.new.items ≡ all.old.items ++ (value ∷ [])) }
{
    Ok(all.push(value)?)
}
