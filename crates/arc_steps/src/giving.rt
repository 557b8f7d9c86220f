//! The instructions by which functions give objects, and those of `new`.
ghost use Rattle.std.specs.Prelude.{◌≡◌, ◌+◌, ◌-◌, ◌^◌, ◌<◌, ◌≤◌, [], Some};
ghost use Rattle.arc_spec.specs.Classes as classes;
ghost use Rattle.arc_code.specs.CodeSteps.{program_of};
ghost use Rattle.arc_steps.specs.declared.answer.Answer.TheVariants as answers;
ghost use Rattle.arc_steps.specs.Places.{Ready, Executes, machine_view, shown, HasPlaces};
ghost use Rattle.arc_steps.specs.AnswersWithoutCall.{CanGiveBack, GivesBack};

use crate::answer::Answer;
use crate::field::class_of;
use crate::place::Place;
use crate::releasing::{Turn, silent};
use arc_ast::tree::Sign;
use arc_cells::objects::Objects;
use arc_cells::waiting::Waiting;
use arc_code::code::Code;
use arc_code::instr::{Instr, Op};
use arc_heap::store::Store;
use arc_spec::class::{Gives, look_up};
use arc_spec::event::Fault;

impl Place {
    /// Goes back to the instruction after the last call, where the result, which the last variable names, is a temporary
    /// and a reference.
    #[inline(always)]
    pub fn give<S: Store + Drop>(&mut self, code: &Code, objects: &mut Objects<S>) -> Answer
        requires ready { Ready S.out (program_of code.now) Instr.Give (machine_view self.old objects.old) }
        requires place { self.old.at < 2 ^ 64 - 1 }
        requires room { code.now.room ≤ self.old.stack.room }
        requires places { HasPlaces code.now objects.old }
        ensures went { Executes S.out (program_of code.now) Instr.Give result []
            (machine_view self.old objects.old) (machine_view self.new objects.new) }
        ensures room { self.new.stack.room ≡ self.old.stack.room }
    {
        // There are no more places than the code asks for, whose number fits a word.
        let _places = code.places;
        match objects.last() {
            Some(Waiting::Call { back, waiter }) => {
                objects.hand_over(waiter);
                let _ = self.stack.pop();
                self.at = back;
                Answer::Going
            }
            Some(Waiting::End { .. }) => unreachable!(),
            Some(Waiting::Clear { .. }) => unreachable!(),
            None => unreachable!(),
        }
    }

    /// A message that the root's own `init` answers gives the object that gets it, which a temporary takes.
    #[inline(always)]
    pub fn give_back<S: Store + Drop>(
        &mut self,
        object: u64,
        code: &Code,
        objects: &mut Objects<S>,
    ) -> Answer
        requires place { self.old.at < 2 ^ 64 - 1 }
        requires places { HasPlaces code.now objects.old }
        requires can { CanGiveBack S.out objects.old object }
        ensures answer { result ≡ answers.Going }
        ensures at { self.new.at ≡ self.old.at + 1 }
        ensures stack { self.new.stack ≡ self.old.stack }
        ensures parts { GivesBack S.out objects.old objects.new object }
    {
        // There are no more places than the code asks for, whose number fits a word.
        let _places = code.places;
        objects.raise(object);
        objects.push(object);
        self.at += 1;
        Answer::Going
    }

    /// Puts 1 on the stack where the class with the top number, which stays, has a class method with the selector that
    /// takes nothing and gives an object, and else 0.
    #[inline(always)]
    pub fn find_method<S: Store + Drop>(
        &mut self,
        selector: usize,
        code: &Code,
        _objects: &mut Objects<S>,
    ) -> Answer
        requires ready { Ready S.out (program_of code.now) (Instr.Plain (Op.Finds selector)) (machine_view self.old _objects.old) }
        requires place { self.old.at < 2 ^ 64 - 1 }
        requires room { code.now.room ≤ self.old.stack.room }
        requires places { HasPlaces code.now _objects.old }
        ensures went { Executes S.out (program_of code.now) (Instr.Plain (Op.Finds selector)) result []
            (machine_view self.old _objects.old) (machine_view self.new _objects.new) }
        ensures room { self.new.stack.room ≡ self.old.stack.room }
    {
        let class = class_of(self.stack.top());
        let found = look_up(
            &code.classes,
            class,
            Sign::Class,
            selector,
            0,
            0,
            Gives::Object,
        );
        self.stack.push(i64::from(found.is_some()));
        self.at += 1;
        Answer::Going
    }

    /// The temporary before the last one lets go of what it names.
    #[inline(always)]
    pub fn settle<S: Store + Drop>(&mut self, code: &Code, objects: &mut Objects<S>) -> Turn
        requires ready { Ready S.out (program_of code.now) Instr.Settle (machine_view self.old objects.old) }
        requires place { self.old.at < 2 ^ 64 - 1 }
        requires room { code.now.room ≤ self.old.stack.room }
        requires places { HasPlaces code.now objects.old }
        ensures went { Executes S.out (program_of code.now) Instr.Settle result.answer (shown result.event)
            (machine_view self.old objects.old) (machine_view self.new objects.new) }
        ensures room { self.new.stack.room ≡ self.old.stack.room }
    {
        let before = objects.temporary(1);
        if !objects.is_last(before) {
            objects.lower(before);
            objects.settle();
            self.at += 1;
            return silent(Answer::Going);
        }
        if !objects.have_level() {
            return silent(Answer::Faulted(Fault::Depth));
        }
        objects.settle();
        self.begin_end(self.at + 1, before, code, objects)
    }
}
