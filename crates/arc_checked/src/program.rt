//! A program whose names are resolved, whose kinds are known and whose conversions are written.

use arc_ast::tree::{BinaryOperator, Kind, Moment, TranslationUnit, UnaryOperator};
use arc_class::table::ClassTable;
use arc_spec::class::{Class, Gives};
use arc_spec::location::Location;

/// What a format prints in turn.
#[derive(Drop)]
pub enum Piece {
    /// These bytes, as they are.
    Bytes(Vec<u8>),
    /// The next value, as a decimal number.
    Decimal,
    /// The low 8 bits of the next value, as a byte.
    Character,
}

/// An expression that gives a number; an operator has the kind in which it computes.
#[cycle(expression)]
#[derive(Drop)]
pub enum Value {
    Number(i64),
    /// A call of `getchar`.
    ReadByte,
    /// A call of `printf`, with its format and the values after it.
    Print(Vec<Piece>, Vec<Argument>),
    Unary(UnaryOperator, Kind, Box<Value>),
    Binary(BinaryOperator, Kind, Box<Value>, Box<Value>),
    /// The first of two values where the test is other than 0, else the second.
    Conditional(Box<Value>, Box<Value>, Box<Value>),
    Convert(Kind, Box<Value>),
    /// What a variable holds.
    Read(Location),
    AssignNumber(Location, Box<Value>),
    /// An update of such a variable: what it gives, the variable, the operator, the kind in which it computes and
    /// that of the variable, and the right operand.
    Update(Moment, Location, BinaryOperator, Kind, Kind, Box<Value>),
    /// A call of the function with this number.
    Call(usize, Vec<Argument>),
    /// A message: what gets it, the selector's number, and the arguments.
    Send(Box<Receiver>, usize, Vec<Argument>),
    /// A field that holds a number: the object, the class whose own field it is, and the field's number in the
    /// objects.
    GetField(Box<Reference>, usize, usize),
    /// The same, and what is assigned to the field.
    SetField(Box<Reference>, usize, usize, Box<Value>),
    /// An update of a field: what it gives, the object, the class and the field's number, the operator, the kind in
    /// which it computes and that of the field, and the right operand.
    UpdateField(Moment, Box<Reference>, usize, usize, BinaryOperator, Kind, Kind, Box<Value>),
    /// 1 where the two differ, else 0.
    NotSame(Box<Reference>, Box<Reference>),
    /// 1 where it isn't nil, else 0.
    IsObject(Box<Reference>),
}

/// An expression that gives an object or nil.
#[cycle(expression)]
#[derive(Drop)]
pub enum Reference {
    Nil,
    /// `self`
    Itself,
    /// A variable that names objects, by its number among these.
    Variable(Location),
    /// The first of two objects where the test is other than 0, else the second.
    ObjectConditional(Box<Value>, Box<Reference>, Box<Reference>),
    /// An assignment to such a variable.
    AssignObject(Location, Box<Reference>),
    /// A field that names an object: the object that has it, the class whose own field it is, and its number in
    /// the objects among the fields that name objects.
    GetObjectField(Box<Reference>, usize, usize),
    /// The same, and what is assigned to the field.
    SetObjectField(Box<Reference>, usize, usize, Box<Reference>),
    /// `alloc`: what gives the class's number.
    Alloc(Box<Value>),
    /// `new`: the class from which its method is looked up, where that isn't the class that gets it, and what gives
    /// that one's number.
    New(Option<usize>, Box<Value>),
    /// A call of the function with this number.
    ObjectCall(usize, Vec<Argument>),
    /// A message: what gets it, the selector's number, and the arguments.
    ObjectSend(Box<Receiver>, usize, Vec<Argument>),
}

/// What gets a message.
#[cycle(expression)]
#[derive(Drop)]
pub enum Receiver {
    /// The class whose number this gives.
    ClassValue(Box<Value>),
    /// `super` in a class method: the number of the class from which the method is looked up.
    ClassSuper(usize),
    /// The object that this gives, or nil.
    ObjectValue(Box<Reference>),
    /// `super` in a method of objects: `self`, and the number of the class from which the method is looked up.
    ObjectSuper(Box<Reference>, usize),
}

/// What a function or a method is passed.
#[cycle(expression)]
#[derive(Drop)]
pub enum Argument {
    Number(Box<Value>),
    /// An object or nil.
    Object(Box<Reference>),
}

/// A statement.
#[derive(Drop)]
pub enum Command {
    /// Statements, and how many variables of their own that name objects they have, from the first of
    /// these on.
    Sequence(usize, usize, Vec<Command>),
    Evaluate(Value),
    EvaluateReference(Reference),
    /// What a variable names first.
    InitVariable(usize, Reference),
    Return(Option<Value>),
    /// Returns an object or nil.
    Give(Reference),
    /// The first where the value isn't 0, else the second.
    If(Value, Box<Command>, Box<Command>),
    /// Again and again, while the value, which is asked for before or after each turn, isn't 0: the body, which is the
    /// last one, and then the step.
    While(Moment, Value, Box<Command>, Box<Command>),
    Break,
    Continue,
}

/// A function with how many variables it has that hold numbers, and how many that name objects; what it
/// gives; and whether it owns `self`. Of each sort the first variables are its parameters; those that name
/// objects are so many. The first number of a class method is `self`, and the first variable that names an
/// object of a method that owns `self`.
#[derive(Drop)]
pub struct CheckedFunction {
    pub slots: usize,
    pub names: usize,
    pub parameters: usize,
    pub gives: Gives,
    pub owns: bool,
    pub body: Vec<Command>,
}

/// A checked program: the source that it comes from, and the table of that; its functions with a body, in their order,
/// and then its methods; which of them is `main`; what those of its global variables hold first that hold numbers; how
/// many of its global variables name objects; and its classes, whose methods run functions.
#[derive(Drop)]
pub struct Checked<'a, 't> {
    pub unit: &'a TranslationUnit,
    pub table: &'t ClassTable<'a>,
    pub functions: Vec<CheckedFunction>,
    pub main: usize,
    pub globals: Vec<i64>,
    pub strong_globals: usize,
    pub classes: Vec<Class>,
}
