//! What follows from the table of effects. Nothing here is run.
ghost use Rattle.std.specs.Prelude.{◌≤◌, ℕ, List};
ghost use Rattle.arc_spec.specs.declared.class.Gives.{Gives};
ghost use Rattle.arc_spec.specs.Classes.{Class};
ghost use Rattle.arc_spec.specs.SmallSteps.{Sound};
ghost use Rattle.arc_spec.specs.HolderCounts.{CountsAreExact};
ghost use Rattle.arc_code.specs.declared.instr.Op.{Op};
ghost use Rattle.arc_code.specs.Instructions.{State, operates};
ghost use Rattle.arc_code.specs.CodeSteps.{Program, linked, start, step, IsSound};
ghost use Rattle.arc_code.specs.Effects.{Height, operation_effect, Follows, After, HeightsFit, room_for, NeverHasMore};

/// Each operation takes and gives as many numbers, references and places as the table of effects says.
#[tactic(auto, using(crate::proofs::EffectsFollowed::operation_follows))]
pub fn effects_are_followed()
    ensures { (classes : List Class) (o : Op) (s : State) → After (Follows (operation_effect o) s) (operates classes o s) }
{}

/// Where a table of heights fits code, no run of it has more numbers, references or places than all levels together
/// may have by the greatest heights; with that room it is sound, where it is never stuck and its counts are right.
pub fn heights_bound_runs()
    ensures room { (p : Program) (height : ℕ → Height) (gives : ℕ → Gives) (n r m : ℕ) → HeightsFit (linked p) height gives n r m → NeverHasMore (linked p) (room_for n) (room_for r) (room_for m) }
    ensures sound { (p : Program) (height : ℕ → Height) (gives : ℕ → Gives) (n r m : ℕ) → HeightsFit (linked p) height gives n r m → room_for n ≤ p.room → room_for r ≤ p.names → room_for m ≤ p.places → Sound (step p) (λ s. CountsAreExact s.held) (start p) → IsSound p }
{}
