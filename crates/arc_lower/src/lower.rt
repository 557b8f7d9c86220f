//! From a program to its actions, and the room that they need.
ghost use Rattle.std.specs.Prelude.{◌≡◌, IfOk};
ghost use Rattle.arc_code.specs.Effects.{room_for};
ghost use Rattle.arc_ir.specs.ActionSteps as acting;
ghost use Rattle.arc_checked.specs.Checked.{program_of};
ghost use Rattle.arc_lower.specs.Heights.{places_in};
ghost use Rattle.arc_lower.specs.LoweringContract.{Performs, IsLowered};

use crate::height::no_height;
use crate::list::list;
use crate::variable::add_operands;
use arc_checked::program::Checked;
use arc_code::effect::Height;
use arc_family::owned::Owned;
use arc_ir::action::Ir;
use arc_spec::event::NoMemory;
use arc_spec::limits::MOST_LEVELS;
use std::alloc::Global;

/// The actions of a program, which do what the program means, and which are exactly those that the
/// program becomes. NoMemory: memory was refused, or a stack that has room for all calls has more
/// places than can be numbered.
pub fn lower(alloc: Global, program: &Owned) -> Result<Ir, NoMemory>
    ensures performs { IfOk result (λ ir. Performs (program_of program.now.program.now) (acting.program_of ir)) }
    ensures exact { IfOk result (λ ir. IsLowered (program_of program.now.program.now) (acting.program_of ir)) }
{
    let mut most = Some(no_height());
    let listed = list(alloc, program.program, &mut most)?;
    let needs = needs_of(alloc, program.program, most.unwrap_or(no_height()))?;
    Ok(Ir {
        actions: listed.actions,
        entries: listed.entries,
        end_step: listed.end_step,
        room: needs.room,
        names: needs.names,
        places: needs.places,
        globals: needs.globals,
        strong_globals: program.program.strong_globals,
        classes: listed.classes,
    })
}

/// What a program needs beside its actions: room for its numbers, references and places, and what its variables hold first.
#[derive(Drop)]
struct Needs {
    room: usize,
    names: usize,
    places: usize,
    globals: Vec<i64>,
}

/// What a program needs whose greatest height is this.
fn needs_of(alloc: Global, program: &Checked, most: Height) -> Result<Needs, NoMemory>
    ensures { IfOk result (λ needs. (needs.room ≡ room_for most.numbers) × (needs.names ≡ room_for most.names) × (needs.places ≡ room_for (places_in most)) × (needs.globals.items ≡ program.now.globals.items)) }
{
    let room = room_for(most.numbers)?;
    let names = room_for(most.names)?;
    let places = room_for(add_operands(most.temporaries, most.variables)?)?;
    let globals = Vec::from_slice(alloc, &program.globals)?;
    Ok(Needs {
        room,
        names,
        places,
        globals,
    })
}

/// The room of a stack for the start of the program and all that may run within one another above it, each with at most so many numbers,
/// references or places. NoMemory: no stack has so many.
fn room_for(most: usize) -> Result<usize, NoMemory>
    ensures { IfOk result (λ room. room ≡ room_for most) }
{
    match most.checked_mul(MOST_LEVELS + 1) {
        Some(room) => Ok(room),
        None => Err(NoMemory),
    }
}
