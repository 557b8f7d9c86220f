//! The instructions by which variables of the whole program and fields take objects.
ghost use Rattle.std.specs.Prelude.{◌≡◌, ◌+◌, ◌-◌, ◌^◌, ◌<◌, ◌≤◌, IsTrue, IfNone, length, slice_get};
ghost use Rattle.arc_spec.specs.Classes.{classes_of};
ghost use Rattle.arc_cells.specs.SubclassRanges.{Descend};
ghost use Rattle.arc_code.specs.CodeSteps.{program_of};
ghost use Rattle.arc_steps.specs.Places.{Ready, CanHold, Executes, Follows, machine_view, shown, HasPlaces};
ghost use Rattle.arc_steps.specs.GlobalFieldStores.{CanReplace, Replaces, FieldReady, FindsField, LastGlobal, LastStored};

use crate::answer::Answer;
use crate::field::is_of;
use crate::place::Place;
use crate::releasing::{Turn, silent};
use arc_cells::objects::Objects;
use arc_cells::span::name_index;
use arc_code::code::Code;
use arc_code::instr::Instr;
use arc_heap::store::Store;
use arc_spec::event::Fault;

/// A place that names the first of these is counted to name the second one instead. Where that begins the end of an
/// object it is false, and nothing is changed.
#[inline(always)]
pub fn replace<S: Store + Drop>(before: u64, object: u64, objects: &mut Objects<S>) -> bool
    requires can { CanReplace S.out objects.old before object }
    ensures { Replaces S.out objects.old objects.new before object result }
{
    if before != object && objects.is_last(before) {
        return false;
    }
    objects.lower(before);
    objects.raise(object);
    true
}

/// The index of the field of the object of the reference before the last one, among all fields of that object; or
/// None, where it has no such field. It is a fault where that reference is nil, where the object's class neither is
/// this one nor comes from it, and where the fields of the object are being destroyed.
#[inline(always)]
fn find_field<S: Store + Drop>(
    class: usize,
    index: usize,
    end: usize,
    code: &Code,
    objects: &Objects<S>,
) -> Result<Option<usize>, Fault>
    requires end { Descend (classes_of code.now.classes.items) class end }
    requires ready { FieldReady S.out objects.now }
    ensures { FindsField S.out (classes_of code.now.classes.items) objects.now class index result }
{
    let holder = objects.reference_below(1);
    if holder == 0 {
        return Err(Fault::NilField);
    }
    let own = objects.class(holder) as usize;
    if !is_of(&code.classes, own, class, end) {
        return Err(Fault::FieldClass);
    }
    if objects.is_emptying(holder) {
        return Err(Fault::Resurrected);
    }
    Ok(name_index(&code.classes, own, index))
}

impl Place {
    /// A variable of the whole program takes what the last reference names. None is one with which the end of an
    /// object begins, and which isn't made.
    #[inline(always)]
    pub fn store_global_soon<S: Store + Drop>(
        &mut self,
        variable: usize,
        code: &Code,
        objects: &mut Objects<S>,
    ) -> Option<Answer>
        requires ready { Ready S.out (program_of code.now) (Instr.StoreGlobal variable) (machine_view self.old objects.old) }
        requires few { CanHold S.out (program_of code.now) (Instr.StoreGlobal variable) (machine_view self.old objects.old) }
        requires place { self.old.at < 2 ^ 64 - 1 }
        requires room { code.now.room ≤ self.old.stack.room }
        requires places { HasPlaces code.now objects.old }
        ensures went { Follows S.out (program_of code.now) (Instr.StoreGlobal variable) result
            (machine_view self.old objects.old) (machine_view self.new objects.new) }
        ensures last { IfNone result ((self.new ≡ self.old) × (objects.new ≡ objects.old) × LastGlobal S.out objects.old variable) }
        ensures room { self.new.stack.room ≡ self.old.stack.room }
    {
        // There are no more places than the code asks for, whose number fits a word.
        let _places = code.places;
        let object = objects.reference();
        if let Some(before) = objects.strong_global(variable) {
            if !replace(before, object, objects) {
                return None;
            }
            objects.put_strong_global(variable, object);
        }
        self.at += 1;
        Some(Answer::Going)
    }

    /// A variable of the whole program takes what the last reference names, and lets go of what it named.
    #[inline(always)]
    pub fn store_global<S: Store + Drop>(
        &mut self,
        variable: usize,
        code: &Code,
        objects: &mut Objects<S>,
    ) -> Turn
        requires ready { Ready S.out (program_of code.now) (Instr.StoreGlobal variable) (machine_view self.old objects.old) }
        requires few { CanHold S.out (program_of code.now) (Instr.StoreGlobal variable) (machine_view self.old objects.old) }
        requires place { self.old.at < 2 ^ 64 - 1 }
        requires room { code.now.room ≤ self.old.stack.room }
        requires places { HasPlaces code.now objects.old }
        ensures went { Executes S.out (program_of code.now) (Instr.StoreGlobal variable) result.answer (shown result.event)
            (machine_view self.old objects.old) (machine_view self.new objects.new) }
        ensures room { self.new.stack.room ≡ self.old.stack.room }
    {
        if let Some(answer) = self.store_global_soon(variable, code, objects) {
            return silent(answer);
        }
        if !objects.have_level() {
            return silent(Answer::Faulted(Fault::Depth));
        }
        let object = objects.reference();
        let Some(before) = objects.strong_global(variable) else {
            unreachable!()
        };
        objects.raise(object);
        objects.put_strong_global(variable, object);
        self.begin_end(self.at + 1, before, code, objects)
    }

    /// A field of the object of the reference before the last one takes what the last one names. None is one with
    /// which the end of an object begins, and which isn't made.
    #[inline(always)]
    pub fn store_field_soon<S: Store + Drop>(
        &mut self,
        class: usize,
        index: usize,
        end: usize,
        code: &Code,
        objects: &mut Objects<S>,
    ) -> Option<Answer>
        requires end { Descend (program_of code.now).classes class end }
        requires ready { Ready S.out (program_of code.now) (Instr.StoreField class index) (machine_view self.old objects.old) }
        requires few { CanHold S.out (program_of code.now) (Instr.StoreField class index) (machine_view self.old objects.old) }
        requires place { self.old.at < 2 ^ 64 - 1 }
        requires room { code.now.room ≤ self.old.stack.room }
        requires places { HasPlaces code.now objects.old }
        ensures went { Follows S.out (program_of code.now) (Instr.StoreField class index) result
            (machine_view self.old objects.old) (machine_view self.new objects.new) }
        ensures last { IfNone result (LastStored S.out (classes_of code.now.classes.items) objects.old class index) }
        ensures room { self.new.stack.room ≡ self.old.stack.room }
    {
        // There are no more places than the code asks for, whose number fits a word.
        let _places = code.places;
        match find_field(class, index, end, code, objects) {
            Err(fault) => return Some(Answer::Faulted(fault)),
            Ok(Some(slot)) => {
                let object = objects.reference();
                let holder = objects.reference_below(1);
                let before = objects.field_name(holder, slot);
                if !replace(before, object, objects) {
                    return None;
                }
                objects.put_field_name(holder, slot, object);
            }
            Ok(None) => {}
        }
        objects.take_below(1);
        self.at += 1;
        Some(Answer::Going)
    }

    /// A field of the object of the reference before the last one, which is taken, takes what the last one names, and
    /// lets go of what it named.
    #[inline(always)]
    pub fn store_field<S: Store + Drop>(
        &mut self,
        class: usize,
        index: usize,
        end: usize,
        code: &Code,
        objects: &mut Objects<S>,
    ) -> Turn
        requires end { Descend (program_of code.now).classes class end }
        requires ready { Ready S.out (program_of code.now) (Instr.StoreField class index) (machine_view self.old objects.old) }
        requires few { CanHold S.out (program_of code.now) (Instr.StoreField class index) (machine_view self.old objects.old) }
        requires place { self.old.at < 2 ^ 64 - 1 }
        requires room { code.now.room ≤ self.old.stack.room }
        requires places { HasPlaces code.now objects.old }
        ensures went { Executes S.out (program_of code.now) (Instr.StoreField class index) result.answer (shown result.event)
            (machine_view self.old objects.old) (machine_view self.new objects.new) }
        ensures room { self.new.stack.room ≡ self.old.stack.room }
    {
        if let Some(answer) = self.store_field_soon(class, index, end, code, objects) {
            return silent(answer);
        }
        if !objects.have_level() {
            return silent(Answer::Faulted(Fault::Depth));
        }
        let object = objects.reference();
        let holder = objects.reference_below(1);
        let Ok(Some(slot)) = find_field(class, index, end, code, objects) else {
            unreachable!()
        };
        let before = objects.field_name(holder, slot);
        objects.raise(object);
        objects.put_field_name(holder, slot, object);
        objects.take_below(1);
        self.begin_end(self.at + 1, before, code, objects)
    }
}
