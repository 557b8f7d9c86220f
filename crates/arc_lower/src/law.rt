//! What follows from the heights of actions, and how many actions there are. Nothing here is run.
ghost use Rattle.std.specs.Prelude.{◌≡◌, ◌≤◌, ℕ, suc, List, length};
ghost use Rattle.arc_spec.specs.Resolved.{Value, Reference, Command, Program};
ghost use Rattle.arc_code.specs.Effects.{HeightsFit, NeverHasMore, room_for};
ghost use Rattle.arc_ir.specs.ActionSteps as acting;
ghost use Rattle.arc_lower.specs.PlainActions.{plain_actions};
ghost use Rattle.arc_lower.specs.Lowered.{full_expression_actions, full_object_expression_actions, Surroundings, command_actions, lowered, entries_of, end_step_of, classes_linked};
ghost use Rattle.arc_lower.specs.Size.{program_size};
ghost use Rattle.arc_code.specs.declared.effect.Height.{Height};
ghost use Rattle.arc_lower.specs.Heights.{between, walk, last_walk, last_height, greatest_height, places_in, height_at, result_at};

/// A full-expression leaves one number more where it is an int, no reference and no temporary, and the parts that tests
/// before it may lead to as they are.
pub fn full_expressions_end()
    ensures value { (P : Program) (base : Height) (pending : List Height) (slots names : ℕ) (e : Value) (a b : ℕ) → last_walk P base (walk (between a b) pending) (full_expression_actions P slots names e) ≡ walk (between (suc a) b) pending }
    ensures reference { (P : Program) (base : Height) (pending : List Height) (slots names : ℕ) (e : Reference) (a b : ℕ) → last_walk P base (walk (between a b) pending) (full_object_expression_actions P slots names e) ≡ walk (between a b) pending }
{}

/// A statement leaves all as it was between it and the one before.
pub fn statements_end()
    ensures { (P : Program) (slots names here : ℕ) (s : Surroundings) (c : Command) → last_height P (between slots names) (between slots names) (command_actions P slots names here s c) ≡ between slots names }
{}

/// The heights of a program's actions fit them: no run has more numbers, references or places than all levels together
/// may have by the greatest heights, and with that room the actions are sound.
pub fn heights_fit()
    ensures fit { (p : acting.Program) (P : Program) → plain_actions p.actions ≡ lowered P → p.entries ≡ entries_of P → p.classes ≡ classes_linked P → HeightsFit (acting.linked p) (height_at P) (result_at P) (greatest_height P).numbers (greatest_height P).names (places_in (greatest_height P)) }
    ensures bounded { (p : acting.Program) (P : Program) → plain_actions p.actions ≡ lowered P → p.entries ≡ entries_of P → p.classes ≡ classes_linked P → NeverHasMore (acting.linked p) (room_for (greatest_height P).numbers) (room_for (greatest_height P).names) (room_for (places_in (greatest_height P))) }
    ensures sound { (p : acting.Program) (P : Program) → plain_actions p.actions ≡ lowered P → p.entries ≡ entries_of P → p.classes ≡ classes_linked P → p.end_step ≡ end_step_of P → room_for (greatest_height P).numbers ≤ p.room → room_for (greatest_height P).names ≤ p.names → room_for (places_in (greatest_height P)) ≤ p.places → acting.IsSound p }
{}

/// A program becomes exactly as many actions as its forms say.
#[tactic(auto, using(crate::proofs::ActionCount::actions_counted))]
pub fn actions_counted()
    ensures { (P : Program) → length (lowered P) ≡ program_size P }
{}
