//! Values as they are made and kept, where memory may run out.
ghost use Rattle.std.specs.Prelude.{◌≡◌, ◌++◌, ◌∷◌, [], IfOk, IfErr};
ghost use Rattle.arc_form.specs.declared.fail.Fail.TheVariants.{Memory};

use crate::fail::Read;
use std::alloc::Global;

/// The value in a box.
///
/// `Memory` comes where there is no memory for it.
pub fn boxed<T: Drop>(alloc: Global, value: T) -> Read<Box<T>>
    ensures made { IfOk result (λ made. made.value ≡ value) }
    ensures failed { IfErr result (λ why. why ≡ Memory) }
{
    Ok(Box::new(alloc, value)?)
}

/// Puts the value after the others.
///
/// `Memory` comes where there is no memory for it.
pub fn keep<T: Drop>(all: &mut Vec<T>, value: T) -> Read<()>
    ensures kept { IfOk result (λ _. all.new.items ≡ all.old.items ++ (value ∷ [])) }
    ensures failed { IfErr result (λ why. why ≡ Memory) }
{
    Ok(all.push(value)?)
}
