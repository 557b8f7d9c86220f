//! The instructions that read and set the variables of the whole program.
ghost use Rattle.std.specs.Prelude.{◌≡◌, ◌+◌, ◌-◌, ◌^◌, ◌<◌, ◌≤◌, []};
ghost use Rattle.arc_code.specs.CodeSteps.{program_of};
ghost use Rattle.arc_steps.specs.Places.{Ready, Executes, HasPlaces, machine_view};

use crate::answer::Answer;
use crate::place::Place;
use arc_cells::objects::Objects;
use arc_code::code::Code;
use arc_code::instr::{Instr, Op};
use arc_heap::store::Store;

impl Place {
    /// Puts the number that this variable of the whole program holds on the stack.
    #[inline(always)]
    pub fn get_global<S: Store + Drop>(
        &mut self,
        variable: usize,
        _code: &Code,
        objects: &mut Objects<S>,
    ) -> Answer
        requires ready { Ready S.out (program_of _code.now) (Instr.Plain (Op.GetGlobal variable)) (machine_view self.old objects.old) }
        requires place { self.old.at < 2 ^ 64 - 1 }
        requires room { _code.now.room ≤ self.old.stack.room }
        requires places { HasPlaces _code.now objects.old }
        ensures went { Executes S.out (program_of _code.now) (Instr.Plain (Op.GetGlobal variable)) result []
            (machine_view self.old objects.old) (machine_view self.new objects.new) }
        ensures going { result ≡ Answer.Going }
        ensures at { self.new.at ≡ self.old.at + 1 }
        ensures room { self.new.stack.room ≡ self.old.stack.room }
    {
        self.stack.push(objects.global(variable));
        self.at += 1;
        Answer::Going
    }

    /// Takes the top number, which this variable of the whole program holds now.
    #[inline(always)]
    pub fn set_global<S: Store + Drop>(
        &mut self,
        variable: usize,
        _code: &Code,
        objects: &mut Objects<S>,
    ) -> Answer
        requires ready { Ready S.out (program_of _code.now) (Instr.Plain (Op.SetGlobal variable)) (machine_view self.old objects.old) }
        requires place { self.old.at < 2 ^ 64 - 1 }
        requires room { _code.now.room ≤ self.old.stack.room }
        requires places { HasPlaces _code.now objects.old }
        ensures went { Executes S.out (program_of _code.now) (Instr.Plain (Op.SetGlobal variable)) result []
            (machine_view self.old objects.old) (machine_view self.new objects.new) }
        ensures going { result ≡ Answer.Going }
        ensures at { self.new.at ≡ self.old.at + 1 }
        ensures room { self.new.stack.room ≡ self.old.stack.room }
    {
        let number = self.stack.pop();
        objects.put_global(variable, number);
        self.at += 1;
        Answer::Going
    }
}
