//! The instructions that give and take references, and those that keep strong places.
ghost use Rattle.std.specs.Prelude.{◌≡◌, ◌+◌, ◌-◌, ◌^◌, ◌<◌, ◌≤◌, []};
ghost use Rattle.arc_code.specs.CodeSteps.{program_of};
ghost use Rattle.arc_steps.specs.Places.{Ready, CanHold, Executes, HasPlaces, machine_view, steps_of};

use crate::answer::Answer;
use crate::place::Place;
use arc_cells::objects::Objects;
use arc_code::code::Code;
use arc_code::instr::{Instr, Op};
use arc_heap::store::Store;

impl Place {
    /// A further variable, which is nil.
    #[inline(always)]
    pub fn declare<S: Store + Drop>(&mut self, code: &Code, objects: &mut Objects<S>) -> Answer
        requires ready { Ready S.out (program_of code.now) (Instr.Plain Op.Declare) (machine_view self.old objects.old) }
        requires place { self.old.at < 2 ^ 64 - 1 }
        requires room { code.now.room ≤ self.old.stack.room }
        requires places { HasPlaces code.now objects.old }
        ensures went { Executes S.out (program_of code.now) (Instr.Plain Op.Declare) result []
            (machine_view self.old objects.old) (machine_view self.new objects.new) }
        ensures at { self.new.at ≡ self.old.at + steps_of result }
        ensures room { self.new.stack.room ≡ self.old.stack.room }
    {
        // There are no more places than the code asks for, whose number fits a word.
        let _places = code.places;
        objects.declare();
        self.at += 1;
        Answer::Going
    }

    /// A further reference, which is nil.
    #[inline(always)]
    pub fn nil<S: Store + Drop>(&mut self, _code: &Code, objects: &mut Objects<S>) -> Answer
        requires ready { Ready S.out (program_of _code.now) (Instr.Plain Op.Nil) (machine_view self.old objects.old) }
        requires place { self.old.at < 2 ^ 64 - 1 }
        requires room { _code.now.room ≤ self.old.stack.room }
        requires places { HasPlaces _code.now objects.old }
        ensures went { Executes S.out (program_of _code.now) (Instr.Plain Op.Nil) result []
            (machine_view self.old objects.old) (machine_view self.new objects.new) }
        ensures at { self.new.at ≡ self.old.at + steps_of result }
        ensures room { self.new.stack.room ≡ self.old.stack.room }
    {
        objects.name(0);
        self.at += 1;
        Answer::Going
    }

    /// A further reference names `self`, which a temporary takes.
    #[inline(always)]
    pub fn read_self<S: Store + Drop>(&mut self, code: &Code, objects: &mut Objects<S>) -> Answer
        requires ready { Ready S.out (program_of code.now) (Instr.Plain Op.ReadSelf) (machine_view self.old objects.old) }
        requires few { CanHold S.out (program_of code.now) (Instr.Plain Op.ReadSelf) (machine_view self.old objects.old) }
        requires place { self.old.at < 2 ^ 64 - 1 }
        requires room { code.now.room ≤ self.old.stack.room }
        requires places { HasPlaces code.now objects.old }
        ensures went { Executes S.out (program_of code.now) (Instr.Plain Op.ReadSelf) result []
            (machine_view self.old objects.old) (machine_view self.new objects.new) }
        ensures at { self.new.at ≡ self.old.at + steps_of result }
        ensures room { self.new.stack.room ≡ self.old.stack.room }
    {
        // There are no more places than the code asks for, whose number fits a word.
        let _places = code.places;
        let object = objects.receiver();
        objects.push(object);
        objects.name(object);
        objects.raise(object);
        self.at += 1;
        Answer::Going
    }

    /// A further reference names what this variable does, which a temporary takes.
    #[inline(always)]
    pub fn read_variable<S: Store + Drop>(
        &mut self,
        variable: usize,
        code: &Code,
        objects: &mut Objects<S>,
    ) -> Answer
        requires ready { Ready S.out (program_of code.now) (Instr.Plain (Op.ReadRef variable)) (machine_view self.old objects.old) }
        requires few { CanHold S.out (program_of code.now) (Instr.Plain (Op.ReadRef variable)) (machine_view self.old objects.old) }
        requires place { self.old.at < 2 ^ 64 - 1 }
        requires room { code.now.room ≤ self.old.stack.room }
        requires places { HasPlaces code.now objects.old }
        ensures went { Executes S.out (program_of code.now) (Instr.Plain (Op.ReadRef variable)) result []
            (machine_view self.old objects.old) (machine_view self.new objects.new) }
        ensures at { self.new.at ≡ self.old.at + steps_of result }
        ensures room { self.new.stack.room ≡ self.old.stack.room }
    {
        // There are no more places than the code asks for, whose number fits a word.
        let _places = code.places;
        let object = objects.variable(variable);
        objects.push(object);
        objects.name(object);
        objects.raise(object);
        self.at += 1;
        Answer::Going
    }

    /// A further reference names what this variable of the whole program does, which a temporary takes.
    #[inline(always)]
    pub fn read_global<S: Store + Drop>(
        &mut self,
        variable: usize,
        code: &Code,
        objects: &mut Objects<S>,
    ) -> Answer
        requires ready { Ready S.out (program_of code.now) (Instr.Plain (Op.ReadGlobal variable)) (machine_view self.old objects.old) }
        requires few { CanHold S.out (program_of code.now) (Instr.Plain (Op.ReadGlobal variable)) (machine_view self.old objects.old) }
        requires place { self.old.at < 2 ^ 64 - 1 }
        requires room { code.now.room ≤ self.old.stack.room }
        requires places { HasPlaces code.now objects.old }
        ensures went { Executes S.out (program_of code.now) (Instr.Plain (Op.ReadGlobal variable)) result []
            (machine_view self.old objects.old) (machine_view self.new objects.new) }
        ensures room { self.new.stack.room ≡ self.old.stack.room }
    {
        // There are no more places than the code asks for, whose number fits a word.
        let _places = code.places;
        let object = objects.strong_global(variable).unwrap_or(0);
        objects.push(object);
        objects.name(object);
        objects.raise(object);
        self.at += 1;
        Answer::Going
    }

    /// A temporary takes what the last reference names.
    #[inline(always)]
    pub fn hold<S: Store + Drop>(&mut self, code: &Code, objects: &mut Objects<S>) -> Answer
        requires ready { Ready S.out (program_of code.now) (Instr.Plain Op.Hold) (machine_view self.old objects.old) }
        requires few { CanHold S.out (program_of code.now) (Instr.Plain Op.Hold) (machine_view self.old objects.old) }
        requires place { self.old.at < 2 ^ 64 - 1 }
        requires room { code.now.room ≤ self.old.stack.room }
        requires places { HasPlaces code.now objects.old }
        ensures went { Executes S.out (program_of code.now) (Instr.Plain Op.Hold) result []
            (machine_view self.old objects.old) (machine_view self.new objects.new) }
        ensures at { self.new.at ≡ self.old.at + steps_of result }
        ensures room { self.new.stack.room ≡ self.old.stack.room }
    {
        // There are no more places than the code asks for, whose number fits a word.
        let _places = code.places;
        let object = objects.reference();
        objects.push(object);
        objects.raise(object);
        self.at += 1;
        Answer::Going
    }

    /// A further reference names what the last one does.
    #[inline(always)]
    pub fn again<S: Store + Drop>(&mut self, _code: &Code, objects: &mut Objects<S>) -> Answer
        requires ready { Ready S.out (program_of _code.now) (Instr.Plain Op.Again) (machine_view self.old objects.old) }
        requires place { self.old.at < 2 ^ 64 - 1 }
        requires room { _code.now.room ≤ self.old.stack.room }
        requires places { HasPlaces _code.now objects.old }
        ensures went { Executes S.out (program_of _code.now) (Instr.Plain Op.Again) result []
            (machine_view self.old objects.old) (machine_view self.new objects.new) }
        ensures at { self.new.at ≡ self.old.at + steps_of result }
        ensures room { self.new.stack.room ≡ self.old.stack.room }
    {
        let object = objects.reference();
        objects.name(object);
        self.at += 1;
        Answer::Going
    }

    /// Takes the last reference.
    #[inline(always)]
    pub fn forget<S: Store + Drop>(&mut self, _code: &Code, objects: &mut Objects<S>) -> Answer
        requires ready { Ready S.out (program_of _code.now) (Instr.Plain Op.Forget) (machine_view self.old objects.old) }
        requires place { self.old.at < 2 ^ 64 - 1 }
        requires room { _code.now.room ≤ self.old.stack.room }
        requires places { HasPlaces _code.now objects.old }
        ensures went { Executes S.out (program_of _code.now) (Instr.Plain Op.Forget) result []
            (machine_view self.old objects.old) (machine_view self.new objects.new) }
        ensures at { self.new.at ≡ self.old.at + steps_of result }
        ensures room { self.new.stack.room ≡ self.old.stack.room }
    {
        let _ = objects.take();
        self.at += 1;
        Answer::Going
    }

    /// Takes the last two references, and puts 1 on the stack where they differ, and else 0.
    #[inline(always)]
    pub fn not_same<S: Store + Drop>(&mut self, _code: &Code, objects: &mut Objects<S>) -> Answer
        requires ready { Ready S.out (program_of _code.now) (Instr.Plain Op.NotSame) (machine_view self.old objects.old) }
        requires place { self.old.at < 2 ^ 64 - 1 }
        requires room { _code.now.room ≤ self.old.stack.room }
        requires places { HasPlaces _code.now objects.old }
        ensures went { Executes S.out (program_of _code.now) (Instr.Plain Op.NotSame) result []
            (machine_view self.old objects.old) (machine_view self.new objects.new) }
        ensures at { self.new.at ≡ self.old.at + steps_of result }
        ensures room { self.new.stack.room ≡ self.old.stack.room }
    {
        let right = objects.take();
        let left = objects.take();
        self.stack.push(i64::from(right != left));
        self.at += 1;
        Answer::Going
    }

    /// Takes the last reference, and puts 1 on the stack where it isn't nil, and else 0.
    #[inline(always)]
    pub fn is_object<S: Store + Drop>(&mut self, _code: &Code, objects: &mut Objects<S>) -> Answer
        requires ready { Ready S.out (program_of _code.now) (Instr.Plain Op.IsObject) (machine_view self.old objects.old) }
        requires place { self.old.at < 2 ^ 64 - 1 }
        requires room { _code.now.room ≤ self.old.stack.room }
        requires places { HasPlaces _code.now objects.old }
        ensures went { Executes S.out (program_of _code.now) (Instr.Plain Op.IsObject) result []
            (machine_view self.old objects.old) (machine_view self.new objects.new) }
        ensures at { self.new.at ≡ self.old.at + steps_of result }
        ensures room { self.new.stack.room ≡ self.old.stack.room }
    {
        let object = objects.take();
        self.stack.push(i64::from(object != 0));
        self.at += 1;
        Answer::Going
    }
}
