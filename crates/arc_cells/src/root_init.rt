//! Messages that the root's own `init` answers.
ghost use Rattle.std.specs.Prelude.{◌≡◌, IsTrue, None, Some};
ghost use Rattle.arc_spec.specs.Classes.{classes_of, is_root_init, lookup};
ghost use Rattle.arc_cells.specs.Patterns.{AsksRoot};

use arc_ast::tree::Sign;
use arc_code::code::Instruction;
use arc_code::instr::Instr;
use arc_spec::class::{Class, Gives, look_up};

/// The number of the selector `init`.
const INIT_SELECTOR: usize = 2;

/// Whether a message to an object is the root's own `init`, where no class has a method that answers it.
pub fn is_root_init(selector: usize, takes: usize, objects: usize, wanted: Gives) -> bool
    ensures { result ≡ is_root_init selector takes objects wanted }
{
    selector == INIT_SELECTOR && takes == 0 && objects == 0 && wanted == Gives::Object
}

/// Whether an instruction is a message to an object with no argument that the root's own `init` answers, as no class from
/// the one on that it names has a method that does.
pub fn asks_root(instr: &Instruction, classes: &[Class]) -> bool
    ensures { IsTrue result → AsksRoot (classes_of classes.now) instr.now }
{
    match *instr {
        Instr::SendToSuper(class, selector, takes, given, wanted) => {
            given == 0
                && is_root_init(selector, takes, given, wanted)
                && is_missing(class, selector, takes, given, wanted, classes)
        }
        _ => false,
    }
}

/// Whether no class from this one on has a method that answers this message.
fn is_missing(
    class: usize,
    selector: usize,
    takes: usize,
    given: usize,
    wanted: Gives,
    classes: &[Class],
) -> bool
    ensures { IsTrue result → lookup (classes_of classes.now) (Some class) Sign.Instance selector takes given wanted ≡ None }
{
    let found = look_up(
        classes,
        Some(class),
        Sign::Instance,
        selector,
        takes,
        given,
        wanted,
    );
    found.is_none()
}
