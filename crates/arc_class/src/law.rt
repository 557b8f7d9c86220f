//! What follows from the definitions. Nothing here is run.
ghost use Rattle.std.specs.Prelude.{◌≡◌, List, [], Some, None};
ghost use Rattle.arc_class.specs.BrokenRules.{Broken, first, IsFirst};

/// Of the rules that are broken one is reported, and none of the others comes before it.
pub fn first_is_reported()
    ensures none { (all : List Broken) → first all ≡ None → all ≡ [] }
    ensures reported { (all : List Broken) (b : Broken) → first all ≡ Some b → IsFirst all b }
{}
