//! From expressions to actions that leave a number on the stack, or a reference to an object.
ghost use Rattle.std.specs.Prelude.{◌≡◌, ◌++◌, suc, [], ◌∷◌, if◌then◌else◌, OnOk, IfOk};
ghost use Rattle.arc_checked.specs.Checked as checked;
ghost use Rattle.arc_checked.specs.Checked.{value, reference, receiver as receiver_of, arguments as arguments_of, program_of};
ghost use Rattle.arc_spec.specs.Resolved as resolved;
ghost use Rattle.arc_lower.specs.PlainActions.{plain_action, plain_actions};
ghost use Rattle.arc_lower.specs.KnownKinds.{binary_kind};
ghost use Rattle.arc_code.specs.declared.instr.Op.TheVariants.{Bin};
ghost use Rattle.arc_code.specs.declared.instr.Instr.TheVariants.{Plain};
ghost use Rattle.arc_lower.specs.Lowered.{old_actions, narrow_actions, value_actions, reference_actions, receiver_actions, argument_actions, below_arguments, message_to, message_action, invoked_actions, sent_actions, making_actions, new_found_actions};
ghost use Rattle.arc_lower.specs.Size.{unused, number_count, object_count, has_new};

use crate::call::append_call;
use crate::frame::StackShape;
use crate::jump::join;
use crate::known::known_kind;
use crate::place::{append_forgets, append_read, append_store};
use crate::print::append_print;
use crate::update::{Update, append_given, append_narrow, append_new, append_old, below_new};
use crate::variable::{append_get, append_set, one_more};
use arc_ast::tree::{Kind, Moment, Sign};
use arc_checked::program::{Argument, Checked, Piece, Receiver, Reference, Value};
use arc_code::instr::{Instr, Op};
use arc_ir::action::{Action, Target};
use arc_spec::class::{Gives, look_up};
use arc_spec::event::NoMemory;
use arc_spec::location::Location;
use std::alloc::Global;

/// Appends one action.
pub(crate) fn append(actions: &mut Vec<Action>, action: Action) -> Result<(), NoMemory>
    ensures { OnOk result (plain_actions actions.new.items ≡ plain_actions actions.old.items ++ plain_action action ∷ []) }
{
    actions.push(action)?;
    Ok(())
}

/// Appends the actions of an expression that gives a number.
#[cycle(expression)]
pub(crate) fn append_value(
    alloc: Global,
    actions: &mut Vec<Action>,
    program: &Checked,
    frame: StackShape,
    expression: &Value,
) -> Result<(), NoMemory>
    ensures { OnOk result (plain_actions actions.new.items ≡ plain_actions actions.old.items ++ value_actions (program_of program.now) frame.slots frame.names frame.operands (value expression.now)) }
{
    match expression {
        Value::Number(number) => append(actions, Instr::Plain(Op::Num(*number))),
        Value::ReadByte => append(actions, Instr::Plain(Op::GetChar)),
        Value::Print(pieces, arguments) => {
            append_printed(alloc, actions, program, frame, pieces, arguments)
        }
        Value::Unary(operator, kind, operand) => {
            let operation = Op::Un(*operator, *kind);
            append_value_then(alloc, actions, program, frame, operand, operation)
        }
        Value::Binary(operator, kind, left, right) => {
            let operation = Op::Bin(*operator, *kind);
            append_both(alloc, actions, program, frame, left, right, operation)
        }
        Value::Conditional(test, first, second) => {
            append_conditional(alloc, actions, program, frame, test, first, second)
        }
        Value::Convert(kind, operand) => {
            append_convert(alloc, actions, program, frame, *kind, operand)
        }
        Value::Read(location) => append_get(actions, frame.slots, frame.operands, *location),
        Value::AssignNumber(location, operand) => {
            append_assign_number(alloc, actions, program, frame, *location, operand)
        }
        Value::Update(moment, location, operator, computed, kept, operand) => {
            let update = Update {
                moment: *moment,
                operator: *operator,
                computed: *computed,
                kept: *kept,
            };
            append_update_variable(alloc, actions, program, frame, *location, update, operand)
        }
        Value::Call(function, arguments) => {
            append_function_call(
                alloc,
                actions,
                program,
                frame,
                Gives::Number,
                *function,
                arguments,
            )
        }
        Value::Send(receiver, selector, arguments) => {
            append_message(
                alloc,
                actions,
                program,
                frame,
                Gives::Number,
                receiver,
                *selector,
                arguments,
            )
        }
        Value::GetField(object, class, index) => {
            let operation = Op::GetField(*class, *index);
            append_reference_then(alloc, actions, program, frame, object, operation)
        }
        Value::SetField(object, class, index, operand) => {
            append_set_field(
                alloc, actions, program, frame, object, *class, *index, operand,
            )
        }
        Value::UpdateField(moment, object, class, index, operator, computed, kept, operand) => {
            let update = Update {
                moment: *moment,
                operator: *operator,
                computed: *computed,
                kept: *kept,
            };
            append_update_field(
                alloc, actions, program, frame, object, *class, *index, update, operand,
            )
        }
        Value::NotSame(left, right) => append_not_same(alloc, actions, program, frame, left, right),
        Value::IsObject(object) => {
            append_reference_then(alloc, actions, program, frame, object, Op::IsObject)
        }
    }
}

/// Appends the actions of an expression whose number nobody uses: an update gives the new one.
pub(crate) fn append_unused(
    alloc: Global,
    actions: &mut Vec<Action>,
    program: &Checked,
    frame: StackShape,
    expression: &Value,
) -> Result<(), NoMemory>
    ensures { OnOk result (plain_actions actions.new.items ≡ plain_actions actions.old.items ++ value_actions (program_of program.now) frame.slots frame.names frame.operands (unused (value expression.now))) }
{
    match expression {
        Value::Update(_, location, operator, computed, kept, operand) => {
            let update = Update {
                moment: Moment::After,
                operator: *operator,
                computed: *computed,
                kept: *kept,
            };
            append_update_variable(alloc, actions, program, frame, *location, update, operand)
        }
        Value::UpdateField(_, object, class, index, operator, computed, kept, operand) => {
            let update = Update {
                moment: Moment::After,
                operator: *operator,
                computed: *computed,
                kept: *kept,
            };
            append_update_field(
                alloc, actions, program, frame, object, *class, *index, update, operand,
            )
        }
        _ => append_value(alloc, actions, program, frame, expression),
    }
}

/// Appends the actions of a call of `printf`, the values' first.
#[cycle(expression)]
fn append_printed(
    alloc: Global,
    actions: &mut Vec<Action>,
    program: &Checked,
    frame: StackShape,
    pieces: &[Piece],
    arguments: &[Argument],
) -> Result<(), NoMemory>
    ensures { OnOk result (plain_actions actions.new.items ≡ plain_actions actions.old.items ++ value_actions (program_of program.now) frame.slots frame.names frame.operands (resolved.Print (checked.pieces pieces.now) (arguments_of arguments.now))) }
{
    append_arguments(alloc, actions, program, frame, arguments)?;
    append_forgets(actions, count_objects(arguments))?;
    append_print(alloc, actions, pieces, count_numbers(arguments))
}

/// Appends the actions of an expression that gives a number, and this operation after them.
#[cycle(expression)]
fn append_value_then(
    alloc: Global,
    actions: &mut Vec<Action>,
    program: &Checked,
    frame: StackShape,
    operand: &Value,
    operation: Op,
) -> Result<(), NoMemory>
    ensures { OnOk result (plain_actions actions.new.items ≡ plain_actions actions.old.items ++ (value_actions (program_of program.now) frame.slots frame.names frame.operands (value operand.now) ++ Plain operation ∷ [])) }
{
    append_value(alloc, actions, program, frame, operand)?;
    append(actions, Instr::Plain(operation))
}

/// Appends the actions of a number that becomes one of this kind.
#[cycle(expression)]
fn append_convert(
    alloc: Global,
    actions: &mut Vec<Action>,
    program: &Checked,
    frame: StackShape,
    kind: Kind,
    operand: &Value,
) -> Result<(), NoMemory>
    ensures { OnOk result (plain_actions actions.new.items ≡ plain_actions actions.old.items ++ value_actions (program_of program.now) frame.slots frame.names frame.operands (resolved.Convert kind (value operand.now))) }
{
    append_value(alloc, actions, program, frame, operand)?;
    append_narrow(actions, known_kind(operand), kind)
}

/// Appends the actions of an expression that gives an object or nil, and this operation after them.
#[cycle(expression)]
fn append_reference_then(
    alloc: Global,
    actions: &mut Vec<Action>,
    program: &Checked,
    frame: StackShape,
    object: &Reference,
    operation: Op,
) -> Result<(), NoMemory>
    ensures { OnOk result (plain_actions actions.new.items ≡ plain_actions actions.old.items ++ (reference_actions (program_of program.now) frame.slots frame.names frame.operands (reference object.now) ++ Plain operation ∷ [])) }
{
    append_reference(alloc, actions, program, frame, object)?;
    append(actions, Instr::Plain(operation))
}

/// Appends the actions of two expressions that give numbers, the left one's first, and this operation
/// after them.
#[cycle(expression)]
fn append_both(
    alloc: Global,
    actions: &mut Vec<Action>,
    program: &Checked,
    frame: StackShape,
    left: &Value,
    right: &Value,
    operation: Op,
) -> Result<(), NoMemory>
    ensures { OnOk result (plain_actions actions.new.items ≡ plain_actions actions.old.items ++ (value_actions (program_of program.now) frame.slots frame.names frame.operands (value left.now) ++ (value_actions (program_of program.now) frame.slots frame.names (suc frame.operands) (value right.now) ++ Plain operation ∷ []))) }
{
    append_value(alloc, actions, program, frame, left)?;
    let operands = one_more(frame.operands)?;
    let above = StackShape { operands, ..frame };
    append_value(alloc, actions, program, above, right)?;
    append(actions, Instr::Plain(operation))
}

/// Appends the actions of a choice of two numbers by a test, of which a run goes through one way.
#[cycle(expression)]
fn append_conditional(
    alloc: Global,
    actions: &mut Vec<Action>,
    program: &Checked,
    frame: StackShape,
    test: &Value,
    first: &Value,
    second: &Value,
) -> Result<(), NoMemory>
    ensures { OnOk result (plain_actions actions.new.items ≡ plain_actions actions.old.items ++ value_actions (program_of program.now) frame.slots frame.names frame.operands (resolved.Conditional (value test.now) (value first.now) (value second.now))) }
{
    append_value(alloc, actions, program, frame, test)?;
    let branch = actions.len();
    append(actions, Instr::JumpZero(Target::Skip(0)))?;
    append_value(alloc, actions, program, frame, first)?;
    let skip = actions.len();
    append(actions, Instr::Jump(Target::Skip(0)))?;
    let other = actions.len();
    append_value(alloc, actions, program, frame, second)?;
    join(actions, branch, skip, other)
}

/// Appends the actions of a choice of two objects by a test, of which a run goes through one way.
#[cycle(expression)]
fn append_object_conditional(
    alloc: Global,
    actions: &mut Vec<Action>,
    program: &Checked,
    frame: StackShape,
    test: &Value,
    first: &Reference,
    second: &Reference,
) -> Result<(), NoMemory>
    ensures { OnOk result (plain_actions actions.new.items ≡ plain_actions actions.old.items ++ reference_actions (program_of program.now) frame.slots frame.names frame.operands (resolved.ObjectConditional (value test.now) (reference first.now) (reference second.now))) }
{
    append_value(alloc, actions, program, frame, test)?;
    let branch = actions.len();
    append(actions, Instr::JumpZero(Target::Skip(0)))?;
    append_reference(alloc, actions, program, frame, first)?;
    let skip = actions.len();
    append(actions, Instr::Jump(Target::Skip(0)))?;
    let other = actions.len();
    append_reference(alloc, actions, program, frame, second)?;
    join(actions, branch, skip, other)
}

/// Appends the actions of an assignment to a variable that holds a number.
#[cycle(expression)]
fn append_assign_number(
    alloc: Global,
    actions: &mut Vec<Action>,
    program: &Checked,
    frame: StackShape,
    location: Location,
    operand: &Value,
) -> Result<(), NoMemory>
    ensures { OnOk result (plain_actions actions.new.items ≡ plain_actions actions.old.items ++ value_actions (program_of program.now) frame.slots frame.names frame.operands (resolved.AssignNumber location (value operand.now))) }
{
    append_value(alloc, actions, program, frame, operand)?;
    append_set(actions, frame.slots, frame.operands, location)
}

/// Appends the actions of an update of a variable that holds a number.
#[cycle(expression)]
fn append_update_variable(
    alloc: Global,
    actions: &mut Vec<Action>,
    program: &Checked,
    frame: StackShape,
    location: Location,
    update: Update,
    operand: &Value,
) -> Result<(), NoMemory>
    ensures { OnOk result (plain_actions actions.new.items ≡ plain_actions actions.old.items ++ value_actions (program_of program.now) frame.slots frame.names frame.operands (resolved.Update update.moment location update.operator update.computed update.kept (value operand.now))) }
{
    append_get(actions, frame.slots, frame.operands, location)?;
    let operands = below_new(update.moment, frame.operands)?;
    let below = StackShape { operands, ..frame };
    append_update(alloc, actions, program, below, update, operand)?;
    append_set(actions, frame.slots, operands, location)?;
    append_given(actions, update.moment)
}

/// Appends the actions of an update of a field of an object, which is found once.
#[cycle(expression)]
fn append_update_field(
    alloc: Global,
    actions: &mut Vec<Action>,
    program: &Checked,
    frame: StackShape,
    object: &Reference,
    class: usize,
    index: usize,
    update: Update,
    operand: &Value,
) -> Result<(), NoMemory>
    ensures { OnOk result (plain_actions actions.new.items ≡ plain_actions actions.old.items ++ value_actions (program_of program.now) frame.slots frame.names frame.operands (resolved.UpdateField update.moment (reference object.now) class index update.operator update.computed update.kept (value operand.now))) }
{
    append_reference(alloc, actions, program, frame, object)?;
    append(actions, Instr::Plain(Op::Again))?;
    append(actions, Instr::Plain(Op::GetField(class, index)))?;
    let operands = below_new(update.moment, frame.operands)?;
    let below = StackShape { operands, ..frame };
    append_update(alloc, actions, program, below, update, operand)?;
    append(actions, Instr::Plain(Op::SetField(class, index)))?;
    append_given(actions, update.moment)
}

/// Appends the actions after the old number that make the new one, below which lie so many operands.
#[cycle(expression)]
fn append_update(
    alloc: Global,
    actions: &mut Vec<Action>,
    program: &Checked,
    below: StackShape,
    update: Update,
    operand: &Value,
) -> Result<(), NoMemory>
    ensures { OnOk result (plain_actions actions.new.items ≡ plain_actions actions.old.items ++ (old_actions update.moment ++ (value_actions (program_of program.now) below.slots below.names (suc below.operands) (value operand.now) ++ (Plain (Bin update.operator update.computed) ∷ narrow_actions (binary_kind update.operator update.computed) update.kept)))) }
{
    append_old(actions, update.moment)?;
    let operands = one_more(below.operands)?;
    let above = StackShape { operands, ..below };
    append_value(alloc, actions, program, above, operand)?;
    append_new(actions, update)
}

/// Appends the actions of a call, the arguments' first.
#[cycle(expression)]
fn append_function_call(
    alloc: Global,
    actions: &mut Vec<Action>,
    program: &Checked,
    frame: StackShape,
    wanted: Gives,
    function: usize,
    arguments: &[Argument],
) -> Result<(), NoMemory>
    ensures { OnOk result (plain_actions actions.new.items ≡ plain_actions actions.old.items ++ invoked_actions (program_of program.now) frame.slots frame.names frame.operands wanted function (arguments_of arguments.now)) }
{
    append_arguments(alloc, actions, program, frame, arguments)?;
    append_call(
        actions,
        program,
        wanted,
        function,
        count_numbers(arguments),
        count_objects(arguments),
    )
}

/// Appends the actions of a message, what gets it first.
#[cycle(expression)]
fn append_message(
    alloc: Global,
    actions: &mut Vec<Action>,
    program: &Checked,
    frame: StackShape,
    wanted: Gives,
    receiver: &Receiver,
    selector: usize,
    arguments: &[Argument],
) -> Result<(), NoMemory>
    ensures { OnOk result (plain_actions actions.new.items ≡ plain_actions actions.old.items ++ sent_actions (program_of program.now) frame.slots frame.names frame.operands wanted (receiver_of receiver.now) selector (arguments_of arguments.now)) }
{
    append_receiver(alloc, actions, program, frame, receiver)?;
    let operands = below_arguments(receiver, frame.operands)?;
    let above = StackShape { operands, ..frame };
    append_arguments(alloc, actions, program, above, arguments)?;
    let numbers = count_numbers(arguments);
    let objects = count_objects(arguments);
    append(
        actions,
        message(wanted, receiver, selector, numbers, objects),
    )
}

/// Appends the actions of `new`, the class that gets it first: that of its own method, where the class or one above it
/// has one, or else of `alloc` and `init`.
#[cycle(expression)]
fn append_new_object(
    alloc: Global,
    actions: &mut Vec<Action>,
    program: &Checked,
    frame: StackShape,
    from: Option<usize>,
    class: &Value,
) -> Result<(), NoMemory>
    ensures { OnOk result (plain_actions actions.new.items ≡ plain_actions actions.old.items ++ reference_actions (program_of program.now) frame.slots frame.names frame.operands (resolved.New from (value class.now))) }
{
    append_value(alloc, actions, program, frame, class)?;
    match (from, class) {
        (Some(from), _) => {
            let found = Instr::SendSuper(from, NEW_SELECTOR, 0, 0, Gives::Object);
            append_new_from(actions, program, from, found)
        }
        (None, Value::Number(number)) if *number >= 0 => {
            let found = Instr::Send(NEW_SELECTOR, 0, 0, Gives::Object);
            append_new_from(actions, program, *number as usize, found)
        }
        (None, _) => append_new_found(actions),
    }
}

/// The number of the selector `new`.
const NEW_SELECTOR: usize = 1;

/// The number of the selector `init`.
const INIT_SELECTOR: usize = 2;

/// Whether the class, or one above it, has a `new` of its own.
fn has_new(program: &Checked, class: usize) -> bool
    ensures { result ≡ has_new (program_of program.now) class }
{
    let found = look_up(
        &program.classes,
        Some(class),
        Sign::Class,
        NEW_SELECTOR,
        0,
        0,
        Gives::Object,
    );
    found.is_some()
}

/// Appends the actions of the root's `new` of the class on top.
fn append_making(actions: &mut Vec<Action>) -> Result<(), NoMemory>
    ensures { OnOk result (plain_actions actions.new.items ≡ plain_actions actions.old.items ++ making_actions) }
{
    append(actions, Instr::Plain(Op::Alloc))?;
    append(actions, Instr::SendTo(INIT_SELECTOR, 0, 0, Gives::Object))?;
    append(actions, Instr::Settle)
}

/// Appends this action, where the class or one above it has a `new` of its own, or else those of the root's.
fn append_new_from(
    actions: &mut Vec<Action>,
    program: &Checked,
    class: usize,
    found: Action,
) -> Result<(), NoMemory>
    ensures { OnOk result (plain_actions actions.new.items ≡ plain_actions actions.old.items ++ (if has_new (program_of program.now) class then plain_action found ∷ [] else making_actions)) }
{
    if has_new(program, class) {
        append(actions, found)
    } else {
        append_making(actions)
    }
}

/// Appends the actions of `new` of the class on top, of which the program finds out whether it has such a method.
fn append_new_found(actions: &mut Vec<Action>) -> Result<(), NoMemory>
    ensures { OnOk result (plain_actions actions.new.items ≡ plain_actions actions.old.items ++ new_found_actions) }
{
    append(actions, Instr::Plain(Op::Finds(NEW_SELECTOR)))?;
    append(actions, Instr::JumpZero(Target::Skip(2)))?;
    append(actions, Instr::Send(NEW_SELECTOR, 0, 0, Gives::Object))?;
    append(actions, Instr::Jump(Target::Skip(3)))?;
    append_making(actions)
}

/// Appends the actions of what gets a message: a class, which lies below the arguments, or an object; `super`
/// in a class method is `self`, the first variable.
#[cycle(expression)]
fn append_receiver(
    alloc: Global,
    actions: &mut Vec<Action>,
    program: &Checked,
    frame: StackShape,
    receiver: &Receiver,
) -> Result<(), NoMemory>
    ensures { OnOk result (plain_actions actions.new.items ≡ plain_actions actions.old.items ++ receiver_actions (program_of program.now) frame.slots frame.names frame.operands (receiver_of receiver.now)) }
{
    match receiver {
        Receiver::ClassValue(value) => append_value(alloc, actions, program, frame, value),
        Receiver::ClassSuper(_) => {
            append_get(actions, frame.slots, frame.operands, Location::Local(0))
        }
        Receiver::ObjectValue(object) => append_reference(alloc, actions, program, frame, object),
        Receiver::ObjectSuper(object, _) => {
            append_reference(alloc, actions, program, frame, object)
        }
    }
}

/// How many operands lie below the arguments of a message to this receiver.
fn below_arguments(receiver: &Receiver, operands: usize) -> Result<usize, NoMemory>
    ensures { IfOk result (λ below. below ≡ below_arguments (receiver_of receiver.now) operands) }
{
    match receiver {
        Receiver::ClassValue(_) | Receiver::ClassSuper(_) => one_more(operands),
        Receiver::ObjectValue(_) | Receiver::ObjectSuper(_, _) => Ok(operands),
    }
}

/// The action that sends a message with so many numbers and so many objects as arguments.
fn message(
    wanted: Gives,
    receiver: &Receiver,
    selector: usize,
    numbers: usize,
    objects: usize,
) -> Action
    ensures { plain_action result ≡ message_action wanted (message_to (receiver_of receiver.now) selector) numbers objects }
{
    match receiver {
        Receiver::ClassValue(_) => Instr::Send(selector, numbers, objects, wanted),
        Receiver::ClassSuper(from) => Instr::SendSuper(*from, selector, numbers, objects, wanted),
        Receiver::ObjectValue(_) => Instr::SendTo(selector, numbers, objects, wanted),
        Receiver::ObjectSuper(_, from) => {
            Instr::SendToSuper(*from, selector, numbers, objects, wanted)
        }
    }
}

/// How many of the arguments are numbers.
fn count_numbers(arguments: &[Argument]) -> usize
    ensures { result ≡ number_count (arguments_of arguments.now) }
{
    let mut count = 0;
    for argument in arguments {
        if matches!(argument, Argument::Number(_)) {
            count += 1;
        }
    }
    count
}

/// How many of the arguments are objects.
fn count_objects(arguments: &[Argument]) -> usize
    ensures { result ≡ object_count (arguments_of arguments.now) }
{
    let mut count = 0;
    for argument in arguments {
        if matches!(argument, Argument::Object(_)) {
            count += 1;
        }
    }
    count
}

/// Appends the actions of an assignment to a field of an object, which is found first.
#[cycle(expression)]
fn append_set_field(
    alloc: Global,
    actions: &mut Vec<Action>,
    program: &Checked,
    frame: StackShape,
    object: &Reference,
    class: usize,
    index: usize,
    operand: &Value,
) -> Result<(), NoMemory>
    ensures { OnOk result (plain_actions actions.new.items ≡ plain_actions actions.old.items ++ value_actions (program_of program.now) frame.slots frame.names frame.operands (resolved.SetField (reference object.now) class index (value operand.now))) }
{
    append_reference(alloc, actions, program, frame, object)?;
    append_value(alloc, actions, program, frame, operand)?;
    append(actions, Instr::Plain(Op::SetField(class, index)))
}

/// Appends the actions that say whether two objects differ, the left one's first.
#[cycle(expression)]
fn append_not_same(
    alloc: Global,
    actions: &mut Vec<Action>,
    program: &Checked,
    frame: StackShape,
    left: &Reference,
    right: &Reference,
) -> Result<(), NoMemory>
    ensures { OnOk result (plain_actions actions.new.items ≡ plain_actions actions.old.items ++ value_actions (program_of program.now) frame.slots frame.names frame.operands (resolved.NotSame (reference left.now) (reference right.now))) }
{
    append_reference(alloc, actions, program, frame, left)?;
    append_reference(alloc, actions, program, frame, right)?;
    append(actions, Instr::Plain(Op::NotSame))
}

/// Appends the actions of an expression that gives an object or nil, to which they leave a reference.
#[cycle(expression)]
pub(crate) fn append_reference(
    alloc: Global,
    actions: &mut Vec<Action>,
    program: &Checked,
    frame: StackShape,
    expression: &Reference,
) -> Result<(), NoMemory>
    ensures { OnOk result (plain_actions actions.new.items ≡ plain_actions actions.old.items ++ reference_actions (program_of program.now) frame.slots frame.names frame.operands (reference expression.now)) }
{
    match expression {
        Reference::Nil => append(actions, Instr::Plain(Op::Nil)),
        Reference::Itself => append(actions, Instr::Plain(Op::ReadSelf)),
        Reference::Variable(location) => append_read(actions, frame.names, *location),
        Reference::AssignObject(location, operand) => {
            append_reference(alloc, actions, program, frame, operand)?;
            append_store(actions, frame.names, *location)?;
            append(actions, Instr::Plain(Op::Hold))
        }
        Reference::GetObjectField(object, class, index) => {
            let operation = Op::ReadField(*class, *index);
            append_reference_then(alloc, actions, program, frame, object, operation)
        }
        Reference::SetObjectField(object, class, index, operand) => {
            append_set_object_field(
                alloc, actions, program, frame, object, *class, *index, operand,
            )
        }
        Reference::Alloc(class) => {
            append_value_then(alloc, actions, program, frame, class, Op::Alloc)
        }
        Reference::New(from, class) => {
            append_new_object(alloc, actions, program, frame, *from, class)
        }
        Reference::ObjectCall(function, arguments) => {
            append_function_call(
                alloc,
                actions,
                program,
                frame,
                Gives::Object,
                *function,
                arguments,
            )
        }
        Reference::ObjectSend(receiver, selector, arguments) => {
            append_message(
                alloc,
                actions,
                program,
                frame,
                Gives::Object,
                receiver,
                *selector,
                arguments,
            )
        }
        Reference::ObjectConditional(test, first, second) => {
            append_object_conditional(alloc, actions, program, frame, test, first, second)
        }
    }
}

/// Appends the actions of an assignment of an object to a field of another one, which is found first.
#[cycle(expression)]
fn append_set_object_field(
    alloc: Global,
    actions: &mut Vec<Action>,
    program: &Checked,
    frame: StackShape,
    object: &Reference,
    class: usize,
    index: usize,
    operand: &Reference,
) -> Result<(), NoMemory>
    ensures { OnOk result (plain_actions actions.new.items ≡ plain_actions actions.old.items ++ reference_actions (program_of program.now) frame.slots frame.names frame.operands (resolved.SetObjectField (reference object.now) class index (reference operand.now))) }
{
    append_reference(alloc, actions, program, frame, object)?;
    append_reference(alloc, actions, program, frame, operand)?;
    append(actions, Instr::StoreField(class, index))?;
    append(actions, Instr::Plain(Op::Hold))
}

/// Appends the actions of arguments, in their order; each number adds an operand, and each object a reference.
#[cycle(expression)]
fn append_arguments(
    alloc: Global,
    actions: &mut Vec<Action>,
    program: &Checked,
    frame: StackShape,
    all: &[Argument],
) -> Result<(), NoMemory>
    ensures { OnOk result (plain_actions actions.new.items ≡ plain_actions actions.old.items ++ argument_actions (program_of program.now) frame.slots frame.names frame.operands (arguments_of all.now)) }
{
    let mut operands = frame.operands;
    for argument in all {
        let above = StackShape { operands, ..frame };
        match argument {
            Argument::Number(value) => {
                append_value(alloc, actions, program, above, value)?;
                operands = one_more(operands)?;
            }
            Argument::Object(object) => {
                append_reference(alloc, actions, program, above, object)?;
            }
        }
    }
    Ok(())
}
