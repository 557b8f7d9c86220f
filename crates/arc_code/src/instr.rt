//! Instructions, of actions and of code alike: they take numbers from a stack and put numbers on it, take references
//! and give references, and keep strong places, which name objects.
//! Each has a row in the table of instructions: its name and operands, as it is listed, and what it takes and
//! gives.

ghost use Rattle.std.specs.Prelude.{◌≡◌, ◌+◌, ◌^◌, ◌≤◌, ◌++◌, ⊤, IfSome, IfNone};
ghost use Rattle.arc_code.specs.InstructionTable.{operand, op_parts, operation_effect, message_operands, parts, effect};
ghost use Rattle.arc_code.specs.Listing.{operands_text};

use crate::code::Piece;
use crate::effect::{Effect, giving, of_names, on_names, on_numbers, one_more};
use arc_ast::tree::{BinaryOperator, Kind, UnaryOperator};
use arc_spec::class::Gives;
use std::alloc::AllocError;

/// What works on the numbers, the references, the places and the objects, and goes on with the next instruction. A
/// depth counts the numbers above the one that is meant. A reference names an object or nil, and holds nothing; a
/// temporary holds what it names until the end of the full-expression; a variable goes by its number.
#[derive(Clone, Copy)]
pub enum Op {
    /// Puts a number on the stack.
    Num(i64),
    /// Takes the right operand and the left one, and puts what the operator gives of them.
    Bin(BinaryOperator, Kind),
    /// Puts what the operator gives of the top number in its place.
    Un(UnaryOperator, Kind),
    /// Puts the top number, as one of this kind, in its place.
    Narrow(Kind),
    /// Takes the top number.
    Pop,
    /// Puts a copy of the number at this depth on the stack.
    Get(usize),
    /// Takes the top number, and puts it in the place of the one at this depth of the rest.
    Set(usize),
    /// Puts the number that the variable of the whole program with this number holds on the stack; that of
    /// one that there isn't is 0.
    GetGlobal(usize),
    /// Takes the top number, and puts it in the variable of the whole program with this number, where there
    /// is one.
    SetGlobal(usize),
    /// Takes a number, prints it in decimal, and adds the number of bytes to the count below it.
    PrintNum,
    /// Takes a number, prints its low 8 bits as a byte, and adds 1 to the count below it.
    PrintByte,
    /// Reads a byte, and puts it on the stack, or -1 at the end of the input.
    GetChar,
    /// A further variable that names objects, which is nil. It gets the number 0, and those of the others rise by 1.
    Declare,
    /// Gives nil, as a reference.
    Nil,
    /// Gives `self`, which a temporary takes.
    ReadSelf,
    /// Gives what the variable with this number names, which a temporary takes.
    ReadRef(usize),
    /// Gives what the variable of the whole program with this number names, which a temporary takes; one that
    /// there isn't names nothing.
    ReadGlobal(usize),
    /// Takes the last reference, and gives what the field with this number of its object names, which a temporary
    /// takes; the class, which comes first, is the one whose own field it is.
    ReadField(usize, usize),
    /// A temporary takes what the last reference names; the reference stays.
    Hold,
    /// Gives the last reference once more; the first stays, and the second holds nothing either.
    Again,
    /// Takes the last reference.
    Forget,
    /// Takes the number of a class, and makes an object of it, which a temporary takes. Gives the object.
    Alloc,
    /// Puts 1 on the stack where the class with the top number, which stays, or one above it, has a class method with
    /// this selector that takes nothing and gives an object, and else 0.
    Finds(usize),
    /// Takes the last reference, and puts the field with this number of its object on the stack; the class, which
    /// comes first, is the one whose own field it is.
    GetField(usize, usize),
    /// Takes the last reference, and puts the top number, which stays, into the field of its object; the class comes
    /// first, and then the field's number.
    SetField(usize, usize),
    /// Takes the last two references, and puts 1 on the stack where they differ, and else 0.
    NotSame,
    /// Takes the last reference, and puts 1 on the stack where it isn't nil, and else 0.
    IsObject,
}

/// One instruction. A jump names where it goes on by a `J`, a call names a function by an `F`, and `T` is a text.
#[derive(Copy, Drop)]
pub enum Instr<J, F, T> {
    /// An operation, which goes on with the next instruction.
    Plain(Op),
    /// Prints a text, and adds the number of its bytes to the count on top.
    PrintText(T),
    /// Goes on elsewhere.
    Jump(J),
    /// Takes a number, and goes on elsewhere where it is 0.
    JumpZero(J),
    /// Calls a function, whose variables stand on the stack; the references of its parameters are the last ones. It
    /// gives what is said here.
    Call(F, Gives),
    /// A message with this selector, so many numbers as arguments, which stand on the stack above the number
    /// of the class that gets it, and so many objects, which the last references name: calls the method that is
    /// looked up from that class and gives what is said here.
    Send(usize, usize, usize, Gives),
    /// The same, with the number of the class from which the method is looked up before the selector.
    SendSuper(usize, usize, usize, usize, Gives),
    /// A message with this selector, so many numbers as arguments, which stand on the stack, and so many objects,
    /// which the last references name, to the object of the reference before these, which is taken: calls the
    /// method that is looked up from the object's class and gives what is said here; the root's own `init` gives the
    /// object. To nil it takes the arguments and gives 0 or nil. What is given as an object a temporary takes.
    SendTo(usize, usize, usize, Gives),
    /// The same, with the number of the class from which the method is looked up before the selector.
    SendToSuper(usize, usize, usize, usize, Gives),
    /// The variable with this number takes what the last reference names, and lets go of what it named;
    /// where that was its last holder, its end begins. The reference stays.
    StoreStrong(usize),
    /// The same of the variable of the whole program with this number, where there is one.
    StoreGlobal(usize),
    /// The same of a field of the object of the reference before the last one, which is taken: the class comes
    /// first whose own field it is, and then the field's number. It is a fault where the fields of that object are
    /// being destroyed.
    StoreField(usize, usize),
    /// The variable with this number lets go of what it named, and is nil.
    Empty(usize),
    /// Drops the temporaries, the last one first, until an object's end begins, after which this instruction
    /// is met again, or none is left.
    DropAll,
    /// The temporary before the last one lets go of what it names, and is no more.
    Settle,
    /// Leaves the function, which has no temporary, and whose variables are nil but for the last one, the place of its
    /// result: takes the top number, and goes back to the instruction after the last call. There the result is the last
    /// reference and the last temporary.
    Give,
    /// Leaves the function, which has no temporary, with its variables, all of them nil: goes back to the
    /// instruction after the last call; after a dealloc it takes the top number, and the object's end goes on; with
    /// neither it takes the top number, with which the program ends.
    Return,
    /// The end of an object goes on: with the dealloc of the next class, with the next of its fields that name
    /// objects, which lets go of what it names, or to its last step, in which the object is gone.
    EndStep,
}

impl<J: Copy, F: Copy, T: Copy> Clone for Instr<J, F, T> {
    ghost is_clone = { λ x y. y ≡ x };

    ghost is_infallible = { λ _. ⊤ };

    fn clone(&self) -> Result<Instr<J, F, T>, AllocError> {
        Ok(*self)
    }
}

/// The operands of an instruction, as they are listed.
#[derive(Clone, Copy)]
pub(crate) enum Operands {
    Nothing,
    Signed(i64),
    One(u64),
    Two(u64, u64),
    Four(u64, u64, u64, u64),
    Five(u64, u64, u64, u64, u64),
}

impl Op {
    /// The operation's name, and its operands.
    pub(crate) fn parts(self) -> (&'static str, Operands)
        ensures name { result.0.now ≡ (op_parts self).0 }
        ensures operands { operands_text result.1 ≡ (op_parts self).1 }
    {
        match self {
            Op::Num(number) => ("Num", Operands::Signed(number)),
            Op::Bin(operator, kind) => ("Bin", Operands::Two(operator as u64, kind as u64)),
            Op::Un(operator, kind) => ("Un", Operands::Two(operator as u64, kind as u64)),
            Op::Narrow(kind) => ("Narrow", Operands::One(kind as u64)),
            Op::Pop => ("Pop", Operands::Nothing),
            Op::Get(depth) => ("Get", Operands::One(depth as u64)),
            Op::Set(depth) => ("Set", Operands::One(depth as u64)),
            Op::GetGlobal(number) => ("GetGlobal", Operands::One(number as u64)),
            Op::SetGlobal(number) => ("SetGlobal", Operands::One(number as u64)),
            Op::PrintNum => ("PrintNum", Operands::Nothing),
            Op::PrintByte => ("PrintByte", Operands::Nothing),
            Op::GetChar => ("GetChar", Operands::Nothing),
            Op::Declare => ("Declare", Operands::Nothing),
            Op::Nil => ("Nil", Operands::Nothing),
            Op::ReadSelf => ("ReadSelf", Operands::Nothing),
            Op::ReadRef(number) => ("ReadRef", Operands::One(number as u64)),
            Op::ReadGlobal(number) => ("ReadGlobal", Operands::One(number as u64)),
            Op::ReadField(class, index) => ("ReadField", Operands::Two(class as u64, index as u64)),
            Op::Hold => ("Hold", Operands::Nothing),
            Op::Again => ("Again", Operands::Nothing),
            Op::Forget => ("Forget", Operands::Nothing),
            Op::Alloc => ("Alloc", Operands::Nothing),
            Op::Finds(selector) => ("Finds", Operands::One(selector as u64)),
            Op::GetField(class, index) => ("GetField", Operands::Two(class as u64, index as u64)),
            Op::SetField(class, index) => ("SetField", Operands::Two(class as u64, index as u64)),
            Op::NotSame => ("NotSame", Operands::Nothing),
            Op::IsObject => ("IsObject", Operands::Nothing),
        }
    }

    /// What the operation takes and gives.
    pub fn effect(self) -> Effect
        ensures { result ≡ operation_effect self }
    {
        match self {
            Op::Num(_) | Op::Get(_) | Op::GetGlobal(_) | Op::GetChar => on_numbers(0, 1),
            Op::Finds(_) => on_numbers(1, 2),
            Op::Bin(_, _) | Op::PrintNum | Op::PrintByte => on_numbers(2, 1),
            Op::Un(_, _) | Op::Narrow(_) => on_numbers(1, 1),
            Op::Pop | Op::Set(_) | Op::SetGlobal(_) => on_numbers(1, 0),
            Op::Declare => Effect {
                variables: 1,
                ..on_numbers(0, 0)
            },
            Op::Nil => on_names(0, 1, 0),
            Op::ReadSelf | Op::ReadRef(_) | Op::ReadGlobal(_) => on_names(0, 1, 1),
            Op::Hold | Op::ReadField(_, _) => on_names(1, 1, 1),
            Op::Again => on_names(1, 2, 0),
            Op::Forget => on_names(1, 0, 0),
            Op::Alloc => Effect {
                numbers_taken: 1,
                ..on_names(0, 1, 1)
            },
            Op::GetField(_, _) | Op::IsObject => of_names(0, 1, 1),
            Op::SetField(_, _) => of_names(1, 1, 1),
            Op::NotSame => of_names(0, 1, 2),
        }
    }
}

impl Instr<usize, usize, Piece> {
    /// The instruction's name, and its operands.
    pub(crate) fn parts(self) -> (&'static str, Operands)
        ensures name { result.0.now ≡ (parts self).0 }
        ensures operands { operands_text result.1 ≡ (parts self).1 }
    {
        match self {
            Instr::Plain(operation) => operation.parts(),
            Instr::PrintText(piece) => (
                "PrintText",
                Operands::Two(u64::from(piece.from), u64::from(piece.len)),
            ),
            Instr::Jump(to) => ("Jump", Operands::One(to as u64)),
            Instr::JumpZero(to) => ("JumpZero", Operands::One(to as u64)),
            Instr::Call(to, gives) => ("Call", Operands::Two(to as u64, gives as u64)),
            Instr::Send(selector, takes, objects, gives) => (
                "Send",
                message(selector, takes, objects, gives),
            ),
            Instr::SendSuper(from, selector, takes, objects, gives) => (
                "SendSuper",
                super_message(from, selector, takes, objects, gives),
            ),
            Instr::SendTo(selector, takes, objects, gives) => (
                "SendTo",
                message(selector, takes, objects, gives),
            ),
            Instr::SendToSuper(from, selector, takes, objects, gives) => (
                "SendToSuper",
                super_message(from, selector, takes, objects, gives),
            ),
            Instr::StoreStrong(number) => ("StoreStrong", Operands::One(number as u64)),
            Instr::StoreGlobal(number) => ("StoreGlobal", Operands::One(number as u64)),
            Instr::StoreField(class, index) => (
                "StoreField",
                Operands::Two(class as u64, index as u64),
            ),
            Instr::Empty(number) => ("Empty", Operands::One(number as u64)),
            Instr::DropAll => ("DropAll", Operands::Nothing),
            Instr::Settle => ("Settle", Operands::Nothing),
            Instr::Give => ("Give", Operands::Nothing),
            Instr::Return => ("Return", Operands::Nothing),
            Instr::EndStep => ("EndStep", Operands::Nothing),
        }
    }
}

impl<J, F, T> Instr<J, F, T> {
    /// What the instruction takes and gives, apart from the places that it lets go; a call gives what its function
    /// does. None: it takes 2^64 numbers and references or more.
    pub fn effect(&self) -> Option<Effect>
        ensures found { IfSome result (λ found. found ≡ effect self.now) }
        ensures none { IfNone result (2 ^ 64 ≤ (effect self.now).numbers_taken + (effect self.now).names_taken) }
    {
        match self {
            Instr::Plain(operation) => Some(operation.effect()),
            Instr::PrintText(_) => Some(on_numbers(1, 1)),
            Instr::Jump(_) | Instr::Empty(_) | Instr::DropAll | Instr::Settle | Instr::EndStep =>
                Some(on_numbers(0, 0)),
            Instr::JumpZero(_) | Instr::Return | Instr::Give => Some(on_numbers(1, 0)),
            Instr::Call(_, gives) => Some(giving(*gives, 0, 0)),
            Instr::Send(_, takes, objects, gives) | Instr::SendSuper(_, _, takes, objects, gives) =>
                {
                    let taken = one_more(*takes)?;
                    Some(giving(*gives, taken, *objects))
                }
            Instr::SendTo(_, takes, objects, gives)
            | Instr::SendToSuper(_, _, takes, objects, gives) => {
                let references = one_more(*objects)?;
                Some(giving(*gives, *takes, references))
            }
            Instr::StoreStrong(_) | Instr::StoreGlobal(_) => Some(on_names(1, 1, 0)),
            Instr::StoreField(_, _) => Some(on_names(2, 1, 0)),
        }
    }
}

/// The operands of a message.
fn message(selector: usize, takes: usize, objects: usize, gives: Gives) -> Operands
    ensures { operands_text result ≡ message_operands selector takes objects gives }
{
    Operands::Four(selector as u64, takes as u64, objects as u64, gives as u64)
}

/// The operands of a message for which the class comes first from which its method is looked up.
fn super_message(
    from: usize,
    selector: usize,
    takes: usize,
    objects: usize,
    gives: Gives,
) -> Operands
    ensures { operands_text result ≡ operand from ++ message_operands selector takes objects gives }
{
    Operands::Five(
        from as u64,
        selector as u64,
        takes as u64,
        objects as u64,
        gives as u64,
    )
}
