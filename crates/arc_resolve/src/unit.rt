//! Builds the resolved program of a source that breaks no rule.
ghost use Rattle.std.specs.Prelude.{◌≡◌, IfOk};
ghost use Rattle.arc_ast.specs.Tree.{unit_tree};
ghost use Rattle.arc_class.specs.Table.{IsTableOf};
ghost use Rattle.arc_checked.specs.Checked as checked;
ghost use Rattle.arc_checked.specs.Checked.{program_of};
ghost use Rattle.arc_resolve.specs.SourceResolution.{resolved_unit};

use crate::classes::copied;
use crate::global::{first_numbers, strong_globals};
use crate::program::{add_implementations, functions};
use arc_ast::tree::TranslationUnit;
use arc_checked::program::{Checked, CheckedFunction};
use arc_class::table::ClassTable;
use std::alloc::{AllocError, Global};

/// The resolved functions and, after them, the methods of the source. The table is one of the unit.
fn all_functions<'a>(
    alloc: Global,
    unit: &'a TranslationUnit,
    table: &ClassTable<'a>,
) -> Result<Vec<CheckedFunction>, AllocError>
    requires { IsTableOf (unit_tree unit.now) table.now }
    ensures { IfOk result (λ all. checked.functions all.items ≡ (resolved_unit (unit_tree unit.now)).functions) }
{
    let mut all = functions(alloc, table, &unit.functions)?;
    add_implementations(alloc, table, &unit.implementations, &mut all)?;
    Ok(all)
}

/// The resolved program of the source. Where the source breaks a rule, the program is one that nobody asks for. The table is one of the unit.
pub fn resolve_unit<'a, 't>(
    alloc: Global,
    unit: &'a TranslationUnit,
    table: &'t ClassTable<'a>,
) -> Result<Checked<'a, 't>, AllocError>
    requires { IsTableOf (unit_tree unit.now) table.now }
    ensures resolved { IfOk result (λ program. program_of program ≡ resolved_unit (unit_tree unit.now)) }
    ensures source { IfOk result (λ program. program.unit.now ≡ unit.now) }
    ensures table { IfOk result (λ program. program.table.now ≡ table.now) }
{
    Ok(Checked {
        unit,
        table,
        functions: all_functions(alloc, unit, table)?,
        main: table.main,
        globals: first_numbers(alloc, &unit.globals)?,
        strong_globals: strong_globals(&unit.globals),
        classes: copied(alloc, &table.classes)?,
    })
}
