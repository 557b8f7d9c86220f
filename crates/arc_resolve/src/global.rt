//! What global variables hold first.
ghost use Rattle.std.specs.Prelude.{◌≡◌, length, IfOk};
ghost use Rattle.std.specs.List.{filter};
ghost use Rattle.arc_ast.specs.Tree.{global_tree, global_trees};
ghost use Rattle.arc_resolve.specs.SourceResolution as resolving;
ghost use Rattle.arc_resolve.specs.private.ResolvedNodes.{first_numbers};

use arc_ast::tree;
use arc_ast::tree::Constant;
use arc_scope::kind::is_object;
use arc_spec::number::convert;
use std::alloc::{AllocError, Global};

/// Whether the variable names objects.
fn names_objects(global: &tree::Global) -> bool
    ensures { result ≡ resolving.names_objects (global_tree global.now) }
{
    is_object(Some(global.type_name.kind()))
}

/// What the variable holds first, which holds a number: what is written, as a number of its kind, or else 0.
fn first_number(global: &tree::Global) -> i64
    ensures { result ≡ resolving.first_number (global_tree global.now) }
{
    let written = match global.initial {
        Some(Constant::Number(_, number)) => number,
        Some(Constant::Nil(_)) | None => 0,
    };
    convert(global.type_name.kind(), written)
}

/// The same of those of these variables that hold numbers, in their order.
pub fn first_numbers(alloc: Global, globals: &[tree::Global]) -> Result<Vec<i64>, AllocError>
    ensures { IfOk result (λ all. all.items ≡ first_numbers (global_trees globals.now)) }
{
    let mut all = Vec::new(alloc);
    for global in globals {
        if !names_objects(global) {
            all.push(first_number(global))?;
        }
    }
    Ok(all)
}

/// How many of the variables name objects.
pub fn strong_globals(globals: &[tree::Global]) -> usize
    ensures { result ≡ length (filter resolving.names_objects (global_trees globals.now)) }
{
    let mut count = 0;
    for global in globals {
        if names_objects(global) {
            count += 1;
        }
    }
    count
}
