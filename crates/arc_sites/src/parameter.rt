//! The parameters of a body.
ghost use Rattle.std.specs.Prelude.{◌≡◌};
ghost use Rattle.arc_ast.specs.Tree.{parameter_trees, parameters_tree};
ghost use Rattle.arc_sites.specs.Sites as sites;

use arc_ast::tree::{Parameter, Parameters};

/// The parameters that have names in a body.
pub fn named_parameters(parameters: &Parameters) -> &[Parameter]
    ensures { parameter_trees result.now ≡ sites.named_parameters (parameters_tree parameters.now) }
{
    match parameters {
        Parameters::Listed(all) => all,
        Parameters::CountAndTexts => &[],
    }
}
