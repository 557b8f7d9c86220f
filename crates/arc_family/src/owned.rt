//! The rules of ownership.
ghost use Rattle.std.specs.Prelude.{◌≡◌, [], IfOk, IfErr};
ghost use Rattle.arc_ast.specs.Tree.{unit_tree};
ghost use Rattle.arc_class.specs.Table.{IsTableOf};
ghost use Rattle.arc_family.specs.Rules.{broken};
ghost use Rattle.arc_family.specs.Fault.{Refuses};

use crate::rules::Ownership;
use arc_checked::program::Checked;
use arc_fault::own::OwnFault;
use arc_sites::walk::walk;
use std::alloc::Global;

/// A program that keeps the rules of ownership.
#[derive(Drop)]
pub struct Owned<'p, 'a, 't> {
    pub program: &'p Checked<'a, 't>,
}

/// The program, which is one that `check` gave, where it keeps the rules of ownership (Objective-C Automatic Reference Counting); else the first rule that its source breaks.
pub fn own<'p, 'a, 't>(
    _alloc: Global,
    program: &'p Checked<'a, 't>,
) -> Result<Owned<'p, 'a, 't>, OwnFault>
    requires { IsTableOf (unit_tree program.now.unit.now) program.now.table.now }
    ensures accepted { IfOk result (λ owned. broken (unit_tree program.now.unit.now) ≡ []) }
    ensures same { IfOk result (λ owned. owned.program.now ≡ program.now) }
    ensures refused { IfErr result (λ fault. Refuses (broken (unit_tree program.now.unit.now)) fault) }
{
    let mut ownership = Ownership {
        unit: program.unit,
        table: program.table,
        fault: None,
    };
    let Ok(()) = walk(&mut ownership, program.unit);
    match ownership.fault {
        Some(fault) => Err(fault),
        None => Ok(Owned { program }),
    }
}
