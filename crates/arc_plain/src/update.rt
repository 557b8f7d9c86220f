//! What an update makes of a place's number.
ghost use Rattle.std.specs.Prelude.{◌≡◌};
ghost use Rattle.arc_spec.specs.Meaning.{updated, given_by};
ghost use Rattle.arc_spec.specs.World.{World};
ghost use Rattle.arc_plain.specs.Views.{Reports};

use crate::halt::Halt;
use arc_ast::tree::{BinaryOperator, Kind, Moment};
use arc_spec::event::Fault;
use arc_spec::number::{combine, convert};

/// What an update gives, its operator, the kind in which it computes, and that of what it updates.
#[derive(Clone, Copy)]
pub struct Update {
    pub moment: Moment,
    pub operator: BinaryOperator,
    pub computed: Kind,
    pub kept: Kind,
}

/// The new number of a place that held the old one.
pub fn renew(update: Update, old: i64, right: i64) -> Result<i64, Halt>
    ensures { (w : World) → Reports (λ n. n) result (updated update.operator update.computed update.kept old right w) w }
{
    match combine(update.operator, update.computed, old, right) {
        Some(number) => Ok(convert(update.kept, number)),
        None => Err(Halt::Stopped(Fault::Arithmetic)),
    }
}

/// Which of the two an update gives.
pub fn given_by(moment: Moment, old: i64, new: i64) -> i64
    ensures { result ≡ given_by moment old new }
{
    match moment {
        Moment::Before => old,
        Moment::After => new,
    }
}
