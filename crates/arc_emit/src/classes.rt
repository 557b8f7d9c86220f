//! The classes of code, which are the same as those of its actions.
ghost use Rattle.std.specs.Prelude.{◌≡◌, IfOk, IfErr};
ghost use Rattle.arc_spec.specs.Classes.{classes_of};

use crate::fault::EmitFault;
use arc_spec::class::Class;
use std::alloc::Global;

/// A copy of the classes. Memory: memory was refused.
pub fn copy_classes(alloc: Global, classes: &[Class]) -> Result<Vec<Class>, EmitFault>
    ensures same { IfOk result (λ copies. classes_of copies.items ≡ classes_of classes.now) }
    ensures memory { IfErr result (λ fault. fault ≡ EmitFault.Memory) }
{
    let mut copies = Vec::new(alloc);
    for class in classes {
        let methods = Vec::from_slice(alloc, &class.methods)?;
        copies.push(Class {
            superclass: class.superclass,
            methods,
            dealloc: class.dealloc,
            fields: class.fields,
        })?;
    }
    Ok(copies)
}
