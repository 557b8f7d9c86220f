//! The parts of a message.
ghost use Rattle.std.specs.Prelude.{◌≡◌, length};
ghost use Rattle.arc_spec.specs.Classes.{class_at, is_root_init};
ghost use Rattle.arc_spec.specs.Meaning.{difference, finds};
ghost use Rattle.arc_spec.specs.Number.{is_zero};
ghost use Rattle.arc_plain.specs.Views.{deeper, given_of};

use crate::context::Context;
use crate::given::Given;
use arc_ast::tree::Sign;
use arc_spec::class::{Gives, look_up};

/// The class that a number is the number of; a number below 0 is none's.
pub fn class_at(number: i64) -> Option<usize>
    ensures { result ≡ class_at number }
{
    usize::try_from(number).ok()
}

/// Who gets a message.
#[derive(Drop)]
pub enum Target {
    /// A class, which comes last, and the class from which the method is looked up.
    Class(Option<usize>, i64),
    /// An object.
    Object(usize),
    /// An object, which comes last, whose method is looked up from this class.
    Super(usize, usize),
}

/// What a message of this sign with this selector and these arguments runs, from a class up.
pub fn find_method(
    context: &Context,
    wanted: Gives,
    from: Option<usize>,
    sign: Sign,
    selector: usize,
    given: &Given,
) -> Option<usize>
    ensures { result ≡ finds (deeper context.now) wanted from sign selector (given_of given.now) }
{
    look_up(
        &context.program.classes,
        from,
        sign,
        selector,
        given.numbers.len(),
        given.objects.len(),
        wanted,
    )
}

/// The number of the selector `new`.
pub const NEW_SELECTOR: usize = 1;

/// The number of the selector `init`.
pub const INIT_SELECTOR: usize = 2;

/// Whether a message is the root's own `init`, where no class has a method that answers it.
pub fn is_root_init(wanted: Gives, selector: usize, given: &Given) -> bool
    ensures { result ≡ is_root_init selector (length (given_of given.now).numbers) (length (given_of given.now).objects) wanted }
{
    selector == INIT_SELECTOR
        && given.numbers.is_empty()
        && given.objects.is_empty()
        && wanted == Gives::Object
}

/// 1 where two references differ, else 0.
pub fn difference(first: usize, second: usize) -> i64
    ensures { result ≡ difference first second }
{
    if first == second { 0 } else { 1 }
}

/// Whether a test fails.
pub fn is_zero(number: i64) -> bool
    ensures { result ≡ is_zero number }
{
    number == 0
}
