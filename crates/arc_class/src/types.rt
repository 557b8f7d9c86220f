//! The classes that types name.
ghost use Rattle.std.specs.Prelude.{◌≡◌, flat_map, map, option_map};
ghost use Rattle.arc_ast.specs.Tree.{type_tree, result_tree, parameter_trees, unit_tree};
ghost use Rattle.arc_class.specs.BrokenRules.{first};
ghost use Rattle.arc_class.specs.Fault.{reported};
ghost use Rattle.arc_class.specs.KeptNames.{Knows};
ghost use Rattle.arc_class.specs.SiteRules.{unknown_class, result_types, signature_types};

use crate::fault::fault_if;
use crate::kept::Source;
use crate::table::class_number;
use arc_ast::tree::{Parameter, ResultType, TypeName};
use arc_fault::class::ClassFault;
use arc_sites::violation::earlier;

/// The rule that a type breaks.
pub fn type_fault(source: &Source, written: &TypeName) -> Option<ClassFault>
    ensures { Knows (unit_tree source.now.unit.now) source.now → option_map reported result ≡ first (unknown_class (unit_tree source.now.unit.now) (type_tree written.now)) }
{
    match written {
        TypeName::Object(at, name) => {
            let known = class_number(&source.names, name).is_some();
            fault_if(!known, ClassFault::UnknownClass(*at))
        }
        _ => None,
    }
}

/// The rule that the type of a result breaks.
fn result_fault(source: &Source, written: &ResultType) -> Option<ClassFault>
    ensures { Knows (unit_tree source.now.unit.now) source.now → option_map reported result ≡ first (flat_map (unknown_class (unit_tree source.now.unit.now)) (result_types (result_tree written.now))) }
{
    match written {
        ResultType::Value(type_name) => type_fault(source, type_name),
        ResultType::Void | ResultType::Related => None,
    }
}

/// The first rule that the types of parameters break.
fn parameters_fault(source: &Source, parameters: &[Parameter]) -> Option<ClassFault>
    ensures { Knows (unit_tree source.now.unit.now) source.now → option_map reported result ≡ first (flat_map (unknown_class (unit_tree source.now.unit.now)) (map (λ p. p.type) (parameter_trees parameters.now))) }
{
    let mut fault = None;
    for parameter in parameters {
        fault = earlier(fault, type_fault(source, &parameter.type_name));
    }
    fault
}

/// The first rule that the types of a function or a method break.
pub fn signature_fault(
    source: &Source,
    result_type: &ResultType,
    parameters: &[Parameter],
) -> Option<ClassFault>
    ensures { Knows (unit_tree source.now.unit.now) source.now → option_map reported result ≡ first (flat_map (unknown_class (unit_tree source.now.unit.now)) (signature_types (result_tree result_type.now) (parameter_trees parameters.now))) }
{
    let given = result_fault(source, result_type);
    earlier(given, parameters_fault(source, parameters))
}
