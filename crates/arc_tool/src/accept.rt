//! Whether a source is a program, for a process that ends right after.
ghost use Rattle.std.specs.Prelude.{◌≡◌, ℕ, List, [], IfOk, IfErr};
ghost use Rattle.arc_ast.specs.Tree.{unit_tree};
ghost use Rattle.arc_class.specs.ClassRules.{broken};
ghost use Rattle.arc_class.specs.Table.{IsTableOf};
ghost use Rattle.arc_source.specs.Accepted.{Spelled};
ghost use Rattle.arc_tool.specs.RefusalStages.{IsCompilable, IsRefusal};
ghost use Rattle.arc_tool.specs.private.CheckedProgram.{IsChecked};

use crate::refusal::Refusal;
use arc_ast::tree::TranslationUnit;
use arc_check::check::check;
use arc_checked::program::Checked;
use arc_class::table::ClassTable;
use arc_emit::emit::fits;
use arc_family::owned::own;
use arc_lex::lex::lex;
use arc_lower::list::list_actions;
use arc_parse::parse::parse;
use std::alloc::Global;
use std::mem::forget;

/// Whether the source is a program that isn't too large, by the stages of `compile`, of which the last ones only count the instructions; a refusal is that of the
/// first one that refuses. The tokens, the tree and what is made of them aren't given back, which would take a seventh of the time.
pub(crate) fn accept(alloc: Global, source: &[u8]) -> Result<(), Refusal>
    ensures accepted { IfOk result (λ _. IsCompilable source.now) }
    ensures refused { IfErr result (λ refusal. IsRefusal source.now refusal) }
{
    let tokens = lex(alloc, source)?;
    let unit = parse(alloc, &tokens)?;
    forget(tokens);
    let answer = accept_tree(alloc, &unit);
    forget(unit);
    answer
}

/// The same of a tree, whatever source spells it.
fn accept_tree(alloc: Global, unit: &TranslationUnit) -> Result<(), Refusal>
    ensures accepted { (source : List ℕ) → Spelled source (unit_tree unit.now) → IfOk result (λ _. IsCompilable source) }
    ensures refused { (source : List ℕ) → Spelled source (unit_tree unit.now) → IfErr result (λ refusal. IsRefusal source refusal) }
{
    let table = ClassTable::build(alloc, unit)?;
    let answer = accept_unit(alloc, unit, &table);
    forget(table);
    answer
}

/// The same of a tree that breaks no rule of declarations, whose table this is.
fn accept_unit<'a>(
    alloc: Global,
    unit: &'a TranslationUnit,
    table: &ClassTable<'a>,
) -> Result<(), Refusal>
    requires unbroken { broken (unit_tree unit.now) ≡ [] }
    requires table { IsTableOf (unit_tree unit.now) table.now }
    ensures accepted { (source : List ℕ) → Spelled source (unit_tree unit.now) → IfOk result (λ _. IsCompilable source) }
    ensures refused { (source : List ℕ) → Spelled source (unit_tree unit.now) → IfErr result (λ refusal. IsRefusal source refusal) }
{
    let program = check(alloc, unit, table)?;
    let answer = accept_program(alloc, &program);
    forget(program);
    answer
}

/// The same of a program that keeps the rules that are known before those of ownership.
fn accept_program(alloc: Global, program: &Checked) -> Result<(), Refusal>
    requires { IsTableOf (unit_tree program.now.unit.now) program.now.table.now }
    ensures accepted { (source : List ℕ) → IsChecked source program.now → IfOk result (λ _. IsCompilable source) }
    ensures refused { (source : List ℕ) → IsChecked source program.now → IfErr result (λ refusal. IsRefusal source refusal) }
{
    let owned = own(alloc, program)?;
    let actions = list_actions(alloc, &owned)?;
    let count = actions.len();
    forget(actions);
    fits(count)?;
    Ok(())
}
