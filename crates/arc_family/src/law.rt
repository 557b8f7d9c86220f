//! What the definitions say of known methods. Nothing here is run.
ghost use Rattle.std.specs.Prelude.{◌≡◌, [], ◌∷◌, ◌++◌, codes};
ghost use Rattle.arc_family.specs.KnownFamilies.{of_instance_method, of_class_method, of_int_method, of_void_method};
ghost use Rattle.arc_spec.specs.declared.signature.Family.TheVariants as family;

/// Methods have the families that the language's rules give them.
#[tactic(auto, unfolding(arc_spec::specs::Families::without_underscores, arc_spec::specs::Families::first_component, arc_spec::specs::Families::begins_with_word))]
pub fn known_methods()
    ensures whole_word { of_instance_method (codes "mutableCopy") ≡ family.MutableCopy }
    ensures letter_after { of_instance_method (codes "newThing") ≡ family.New }
    ensures underscore_after { of_instance_method (codes "new_x") ≡ family.New }
    ensures digit_after { of_instance_method (codes "copy2") ≡ family.Copy }
    ensures other_byte_after { of_instance_method (codes "new" ++ 195 ∷ 169 ∷ []) ≡ family.New }
    ensures colon_after { of_instance_method (codes "initWith:") ≡ family.Init }
    ensures underscore_before { of_instance_method (codes "_copyMe") ≡ family.Copy }
    ensures underscores_before { of_instance_method (codes "__init:name:") ≡ family.Init }
    ensures longer_new { of_instance_method (codes "newest") ≡ family.None }
    ensures longer_copy { of_instance_method (codes "copyright") ≡ family.None }
    ensures longer_alloc { of_instance_method (codes "allocate") ≡ family.None }
    ensures second_component { of_instance_method (codes "set:copy:") ≡ family.None }
    ensures capital { of_instance_method (codes "New") ≡ family.None }
    ensures no_name { of_instance_method [] ≡ family.None }
    ensures underscores_alone { of_instance_method (codes "__") ≡ family.None }
    ensures class_alloc { of_class_method (codes "alloc") ≡ family.Alloc }
    ensures class_init { of_class_method (codes "initWith:") ≡ family.None }
    ensures int_new { of_int_method (codes "newCount") ≡ family.None }
    ensures void_init { of_void_method (codes "init") ≡ family.None }
{}
