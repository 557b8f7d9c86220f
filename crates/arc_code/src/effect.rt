//! How many numbers, references and strong places an instruction takes and gives.
ghost use Rattle.std.specs.Prelude.{◌≡◌, ◌^◌, ◌≤◌, suc, IfSome, IfNone};
ghost use Rattle.arc_code.specs.InstructionTable.{on_numbers, of_names, on_names, giving};

use arc_spec::class::Gives;

/// How many numbers are taken from the stack and then put on it, how many references are taken and then given, and
/// how many more temporaries and variables that name objects there are.
#[derive(Clone, Copy)]
pub struct Effect {
    pub numbers_taken: usize,
    pub numbers_given: usize,
    pub names_taken: usize,
    pub names_given: usize,
    pub temporaries: usize,
    pub variables: usize,
}

/// How many numbers, references, temporaries and variables that name objects a function has.
#[derive(Clone, Copy)]
pub struct Height {
    pub numbers: usize,
    pub names: usize,
    pub temporaries: usize,
    pub variables: usize,
}

/// The effect of what takes references and gives numbers.
pub(crate) fn of_names(taken: usize, given: usize, names: usize) -> Effect
    ensures { result ≡ of_names taken given names }
{
    Effect {
        numbers_taken: taken,
        numbers_given: given,
        names_taken: names,
        names_given: 0,
        temporaries: 0,
        variables: 0,
    }
}

/// The effect of what leaves the references and places as they are.
pub(crate) fn on_numbers(taken: usize, given: usize) -> Effect
    ensures { result ≡ on_numbers taken given }
{
    of_names(taken, given, 0)
}

/// The effect of what takes references, gives references, and has temporaries take objects.
pub(crate) fn on_names(taken: usize, given: usize, temporaries: usize) -> Effect
    ensures { result ≡ on_names taken given temporaries }
{
    Effect {
        numbers_taken: 0,
        numbers_given: 0,
        names_taken: taken,
        names_given: given,
        temporaries,
        variables: 0,
    }
}

/// The effect of what takes numbers and references, and gives a number, or an object, which a temporary takes.
pub(crate) fn giving(gives: Gives, taken: usize, names: usize) -> Effect
    ensures { result ≡ giving gives taken names }
{
    match gives {
        Gives::Number => of_names(taken, 1, names),
        Gives::Object => Effect {
            names_given: 1,
            temporaries: 1,
            ..of_names(taken, 0, names)
        },
    }
}

/// How many numbers a message to a class passes, the class and its arguments, and how many references a
/// message to an object takes, that of the object and its arguments. None: these are more than can be counted.
pub(crate) fn one_more(takes: usize) -> Option<usize>
    ensures some { IfSome result (λ sum. sum ≡ suc takes) }
    ensures none { IfNone result (2 ^ 64 ≤ suc takes) }
{
    takes.checked_add(1)
}
