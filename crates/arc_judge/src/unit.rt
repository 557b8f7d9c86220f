//! Finds the first rule that is broken in a source.
ghost use Rattle.std.specs.Prelude.{◌≡◌, IfOk, option_map};
ghost use Rattle.arc_ast.specs.Tree.{unit_tree};
ghost use Rattle.arc_class.specs.BrokenRules.{first};
ghost use Rattle.arc_class.specs.Table.{IsTableOf};
ghost use Rattle.arc_judge.specs.Fault.{reported};
ghost use Rattle.arc_judge.specs.Rules.{broken_unit};

use crate::body::judge_functions;
use crate::global::judge_globals;
use crate::method::{judge_implementations, judge_interfaces};
use arc_ast::tree::TranslationUnit;
use arc_class::table::ClassTable;
use arc_fault::check::CheckFault;
use arc_sites::violation::earlier;
use std::alloc::{AllocError, Global};

/// The first rule that is broken in the source. The table is one of the unit.
pub fn judge_unit<'a>(
    alloc: Global,
    unit: &'a TranslationUnit,
    table: &ClassTable<'a>,
) -> Result<Option<CheckFault>, AllocError>
    requires { IsTableOf (unit_tree unit.now) table.now }
    ensures { IfOk result (λ fault. option_map reported fault ≡ first (broken_unit (unit_tree unit.now))) }
{
    let functions = judge_functions(alloc, table, &unit.functions)?;
    let globals = judge_globals(&unit.globals);
    let interfaces = judge_interfaces(&unit.interfaces);
    let implementations = judge_implementations(alloc, table, &unit.implementations)?;
    let classes = earlier(interfaces, implementations);
    Ok(earlier(functions, earlier(globals, classes)))
}
