//! The rule for what global variables hold first.
ghost use Rattle.std.specs.Prelude.{◌≡◌, flat_map, option_map};
ghost use Rattle.arc_ast.specs.Tree.{global_tree, global_trees};
ghost use Rattle.arc_class.specs.BrokenRules.{first};
ghost use Rattle.arc_judge.specs.Fault.{reported};
ghost use Rattle.arc_judge.specs.Rules as rules;
ghost use Rattle.arc_judge.specs.Rules.{need_of};

use crate::rule::no_such;
use arc_ast::tree;
use arc_ast::tree::{Constant, Kind};
use arc_fault::check::CheckFault;
use arc_sites::violation::earlier;

/// The rule that a constant breaks with which a variable of the kind begins.
fn judge_constant(wanted: Kind, constant: Constant) -> Option<CheckFault>
    ensures { option_map reported result ≡ first (rules.broken_constant (need_of wanted) constant) }
{
    match constant {
        Constant::Number(at, _) => no_such(Some(wanted), Some(Kind::Int), at),
        Constant::Nil(at) => no_such(Some(wanted), Some(Kind::Object), at),
    }
}

/// The rule that a variable breaks by what it begins with.
fn judge_global(global: &tree::Global) -> Option<CheckFault>
    ensures { option_map reported result ≡ first (rules.broken_global (global_tree global.now)) }
{
    let constant = global.initial?;
    judge_constant(global.type_name.kind(), constant)
}

/// The first rule that variables break by what they begin with.
pub fn judge_globals(globals: &[tree::Global]) -> Option<CheckFault>
    ensures { option_map reported result ≡ first (flat_map rules.broken_global (global_trees globals.now)) }
{
    let mut fault = None;
    for global in globals {
        fault = earlier(fault, judge_global(global));
    }
    fault
}
