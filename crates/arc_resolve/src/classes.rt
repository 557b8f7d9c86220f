//! Copies of classes.
ghost use Rattle.std.specs.Prelude.{◌≡◌, IfOk};
ghost use Rattle.arc_spec.specs.Classes.{classes_of};

use arc_spec::class::Class;
use std::alloc::{AllocError, Global};

/// The same classes once more.
pub fn copied(alloc: Global, given: &[Class]) -> Result<Vec<Class>, AllocError>
    ensures { IfOk result (λ all. classes_of all.items ≡ classes_of given.now) }
{
    let mut all = Vec::new(alloc);
    for class in given {
        all.push(Class {
            superclass: class.superclass,
            methods: Vec::from_slice(alloc, &class.methods)?,
            dealloc: class.dealloc,
            fields: class.fields,
        })?;
    }
    Ok(all)
}
