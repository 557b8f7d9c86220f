//! How many of each sort a source declares.
ghost use Rattle.std.specs.Prelude.{◌≡◌, IfOk, IfErr};
ghost use Rattle.arc_ast.specs.Tree.{parameter_trees};
ghost use Rattle.arc_class.specs.FunctionNames.{parameter_kinds};
ghost use Rattle.arc_fault.specs.declared.class.ClassFault.TheVariants.{Memory};
ghost use Rattle.arc_spec.specs.Sorts as sorts;

use arc_ast::tree::{Parameter, Qual};
use arc_fault::class::ClassFault;
use arc_spec::sort_counts::{SortCounts, held_by};

/// The counts with one more of the sort. Memory: so many have no numbers.
pub fn one_more(before: SortCounts, sort: Option<Qual>) -> Result<SortCounts, ClassFault>
    ensures counted { IfOk result (λ counts. counts ≡ sorts.with_one sort before) }
    ensures refused { IfErr result (λ fault. fault ≡ Memory) }
{
    match before.with(sort) {
        Some(counts) => Ok(counts),
        None => Err(ClassFault::Memory),
    }
}

/// How many parameters there are of each sort.
pub fn parameter_counts(parameters: &[Parameter]) -> SortCounts
    ensures { result ≡ sorts.counts_of_kinds (parameter_kinds (parameter_trees parameters.now)) }
{
    let mut counts = SortCounts::none();
    for parameter in parameters {
        counts = counts.and(held_by(parameter.type_name.kind()));
    }
    counts
}
