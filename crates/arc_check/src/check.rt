//! Checks the functions and the methods of a source.
ghost use Rattle.std.specs.Prelude.{◌≡◌, [], IfOk, IfErr};
ghost use Rattle.arc_ast.specs.Tree.{unit_tree};
ghost use Rattle.arc_class.specs.Table.{IsTableOf};
ghost use Rattle.arc_checked.specs.Checked.{program_of};
ghost use Rattle.arc_judge.specs.Fault.{Refuses};
ghost use Rattle.arc_resolve.specs.SourceResolution.{resolved_unit};
ghost use Rattle.arc_judge.specs.Rules.{broken_unit};

use arc_ast::tree::TranslationUnit;
use arc_checked::program::Checked;
use arc_class::table::ClassTable;
use arc_fault::check::CheckFault;
use arc_judge::unit::judge_unit;
use arc_resolve::unit::resolve_unit;
use std::alloc::Global;

/// The resolved program of the source, where it breaks no rule, or the fault that reports the first rule that is broken: the one at the earliest
/// place, and there the one with the lowest number. The fault names a byte of the source. The table is one of the unit.
pub fn check<'a, 't>(
    alloc: Global,
    unit: &'a TranslationUnit,
    table: &'t ClassTable<'a>,
) -> Result<Checked<'a, 't>, CheckFault>
    requires { IsTableOf (unit_tree unit.now) table.now }
    ensures unbroken { IfOk result (λ _. broken_unit (unit_tree unit.now) ≡ []) }
    ensures resolved { IfOk result (λ program. program_of program ≡ resolved_unit (unit_tree unit.now)) }
    ensures source { IfOk result (λ program. program.unit.now ≡ unit.now) }
    ensures table { IfOk result (λ program. program.table.now ≡ table.now) }
    ensures refused { IfErr result (λ fault. Refuses (broken_unit (unit_tree unit.now)) fault) }
{
    if let Some(fault) = judge_unit(alloc, unit, table)? {
        return Err(fault);
    }
    let program = resolve_unit(alloc, unit, table)?;
    Ok(program)
}
