//! From the bytes of a source to code.
ghost use Rattle.std.specs.Prelude.{◌≡◌, ℕ, List, [], map, IfOk, IfErr};
ghost use Rattle.arc_ast.specs.Tree.{unit_tree};
ghost use Rattle.arc_class.specs.ClassRules.{broken};
ghost use Rattle.arc_class.specs.Table.{IsTableOf};
ghost use Rattle.arc_code.specs.CodeSteps.{IsSound, program_of};
ghost use Rattle.arc_source.specs.Accepted.{Spelled};
ghost use Rattle.arc_tool.specs.CompiledCode.{Compiles, CompilesNamed, class_names, bytes_of_name};
ghost use Rattle.arc_tool.specs.RefusalStages.{IsRefusal};
ghost use Rattle.arc_tool.specs.private.CheckedProgram.{IsChecked};

use crate::refusal::Refusal;
use arc_ast::tree::TranslationUnit;
use arc_check::check::check;
use arc_checked::program::Checked;
use arc_class::table::ClassTable;
use arc_code::code::Code;
use arc_emit::emit::emit;
use arc_family::owned::own;
use arc_lex::lex::lex;
use arc_lower::lower::lower;
use arc_parse::parse::parse;
use arc_spec::event::NoMemory;
use std::alloc::Global;
use std::mem::drop;

/// Code, and the names of the classes that it knows by their numbers.
#[derive(Drop)]
pub(crate) struct Named {
    pub code: Code,
    pub classes: Vec<Vec<u8>>,
}

/// The code of a source. The stages are lexing, parsing, building the table, checking, the rules of ownership, lowering and emitting;
/// a refusal is that of the first one that refuses.
pub fn compile(alloc: Global, source: &[u8]) -> Result<Code, Refusal>
    ensures compiled { IfOk result (λ code. Compiles source.now (program_of code)) }
    ensures sound { IfOk result (λ code. IsSound (program_of code)) }
    ensures refused { IfErr result (λ refusal. IsRefusal source.now refusal) }
{
    let named = compile_named(alloc, source)?;
    Ok(named.code)
}

/// The same, with the names of the source's classes.
pub(crate) fn compile_named(alloc: Global, source: &[u8]) -> Result<Named, Refusal>
    ensures compiled { IfOk result (λ named. CompilesNamed source.now (program_of named.code) (map bytes_of_name named.classes.items)) }
    ensures sound { IfOk result (λ named. IsSound (program_of named.code)) }
    ensures refused { IfErr result (λ refusal. IsRefusal source.now refusal) }
{
    let unit = read_source(alloc, source)?;
    let code = translate(alloc, &unit)?;
    let classes = class_names(alloc, &unit)?;
    Ok(Named { code, classes })
}

/// The tree of a source.
fn read_source(alloc: Global, source: &[u8]) -> Result<TranslationUnit, Refusal>
    ensures read { IfOk result (λ unit. Spelled source.now (unit_tree unit)) }
    ensures refused { IfErr result (λ refusal. IsRefusal source.now refusal) }
{
    let tokens = lex(alloc, source)?;
    let unit = parse(alloc, &tokens)?;
    Ok(unit)
}

/// The code of a tree, whatever source spells it.
fn translate(alloc: Global, unit: &TranslationUnit) -> Result<Code, Refusal>
    ensures compiled { (source : List ℕ) → Spelled source (unit_tree unit.now)
        → IfOk result (λ code. CompilesNamed source (program_of code) (class_names (unit_tree unit.now))) }
    ensures sound { IfOk result (λ code. IsSound (program_of code)) }
    ensures refused { (source : List ℕ) → Spelled source (unit_tree unit.now) → IfErr result (λ refusal. IsRefusal source refusal) }
{
    let table = ClassTable::build(alloc, unit)?;
    let code = translate_unit(alloc, unit, &table);
    drop(table);
    code
}

/// The code of a tree that breaks no rule of declarations, whose table this is.
fn translate_unit<'a>(
    alloc: Global,
    unit: &'a TranslationUnit,
    table: &ClassTable<'a>,
) -> Result<Code, Refusal>
    requires unbroken { broken (unit_tree unit.now) ≡ [] }
    requires table { IsTableOf (unit_tree unit.now) table.now }
    ensures compiled { (source : List ℕ) → Spelled source (unit_tree unit.now)
        → IfOk result (λ code. CompilesNamed source (program_of code) (class_names (unit_tree unit.now))) }
    ensures sound { IfOk result (λ code. IsSound (program_of code)) }
    ensures refused { (source : List ℕ) → Spelled source (unit_tree unit.now) → IfErr result (λ refusal. IsRefusal source refusal) }
{
    let program = check(alloc, unit, table)?;
    translate_program(alloc, &program)
}

/// The code of a program that keeps the rules that are known before those of ownership.
fn translate_program(alloc: Global, program: &Checked) -> Result<Code, Refusal>
    requires { IsTableOf (unit_tree program.now.unit.now) program.now.table.now }
    ensures compiled { (source : List ℕ) → IsChecked source program.now
        → IfOk result (λ code. CompilesNamed source (program_of code) (class_names (unit_tree program.now.unit.now))) }
    ensures sound { IfOk result (λ code. IsSound (program_of code)) }
    ensures refused { (source : List ℕ) → IsChecked source program.now → IfErr result (λ refusal. IsRefusal source refusal) }
{
    let owned = own(alloc, program)?;
    let actions = lower(alloc, &owned)?;
    let emitted = emit(alloc, &actions, program.table);
    drop(actions);
    Ok(emitted?)
}

/// The names of a source's classes in the order of their numbers, of which the root has the first.
fn class_names(alloc: Global, unit: &TranslationUnit) -> Result<Vec<Vec<u8>>, NoMemory>
    ensures { IfOk result (λ names. map bytes_of_name names.items ≡ class_names (unit_tree unit.now)) }
{
    let mut names = Vec::new(alloc);
    names.push(Vec::from_slice(alloc, b"NSObject")?)?;
    for interface in &unit.interfaces {
        names.push(Vec::from_slice(alloc, &interface.name)?)?;
    }
    Ok(names)
}
