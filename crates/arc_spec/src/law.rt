//! What the definitions say of known programs, and what follows from them. Nothing here is run.
ghost use Rattle.std.specs.Prelude.{ℕ, pos, List, [], ◌∷◌, codes};
ghost use Rattle.arc_spec.specs.KnownPrograms.{Prints, Shows, forty_two, division_fault, one_byte, wrapped_sum, least_long, class_methods, HasTrace, objects_with_dealloc, dealloc_events, field_of_another_class, sent_to_nil, field_of_nil, chain_of_two, chain_events, replaced_global, replaced_events, resurrection, resurrection_events, written_while_destroyed, written_events, init_gives_nil, init_events, result_of_a_block, result_events};
ghost use Rattle.arc_spec.specs.Correctness.{Observation, Behaves, Steady, Refines, Ends, Faults};
ghost use Rattle.arc_spec.specs.declared.event.Fault.TheVariants.{Arithmetic, Unrecognized, NilField, FieldClass, Resurrected};

/// Programs mean what the language's rules say of them.
pub fn known_programs()
    ensures forty_two { Prints forty_two [] (codes "42") (Ends (pos 7)) }
    ensures division_fault { Prints division_fault [] (codes "14-3") (Faults Arithmetic) }
    ensures one_byte { Prints one_byte (65 ∷ []) (codes "A-1after") (Ends (pos 0)) }
    ensures wrapped_sum { Prints wrapped_sum [] (codes "-2147483648") (Ends (pos 11)) }
    ensures least_long { Prints least_long [] [] (Faults Arithmetic) }
    ensures class_methods { Shows class_methods [] (codes "10 20") (Faults Unrecognized) }
    ensures objects { HasTrace objects_with_dealloc [] dealloc_events (Ends (pos 0)) }
    ensures other_class { Shows field_of_another_class [] [] (Faults FieldClass) }
    ensures nil_message { Prints sent_to_nil [] [] (Ends (pos 0)) }
    ensures nil_field { Prints field_of_nil [] [] (Faults NilField) }
    ensures fields { HasTrace chain_of_two [] chain_events (Ends (pos 0)) }
    ensures global { HasTrace replaced_global [] replaced_events (Ends (pos 0)) }
    ensures held_again { HasTrace resurrection [] resurrection_events (Faults Resurrected) }
    ensures written { HasTrace written_while_destroyed [] written_events (Faults Resurrected) }
    ensures init { HasTrace init_gives_nil [] init_events (Ends (pos 0)) }
    ensures result { HasTrace result_of_a_block [] result_events (Ends (pos 0)) }
{}

/// Runs that refine runs of a meaning do what is meant.
pub fn refinements_compose()
    ensures { (meant a b : List ℕ → ℕ → Observation) → Behaves meant a → Steady a → Refines a b → Behaves meant b }
{}
