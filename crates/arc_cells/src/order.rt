//! The order in which the fields of the objects of each class are destroyed that name objects.
ghost use Rattle.std.specs.Prelude.{◌≡◌, map, IfOk};
ghost use Rattle.arc_spec.specs.Classes.{classes_of};
ghost use Rattle.arc_cells.specs.Representation.{items_of, orders_of};

use arc_spec::class::Class;
use arc_spec::event::NoMemory;
use arc_spec::order::field_order;
use std::alloc::Global;

/// For each class the fields of its objects that name objects, in the order in which they are destroyed. The
/// error is a refusal of memory.
pub fn orders_of(alloc: Global, classes: &[Class]) -> Result<Vec<Vec<usize>>, NoMemory>
    ensures { IfOk result (λ orders. map items_of orders.items ≡ orders_of (classes_of classes.now)) }
{
    let mut orders = Vec::with_capacity(alloc, classes.len())?;
    for class in 0..classes.len() {
        orders.push(field_order(alloc, classes, class)?)?;
    }
    Ok(orders)
}
