//! Equivalence under replacement at a place.

ghost use Rattle.std.specs.Prelude.{ℕ, List};
ghost use Rattle.castor_alg.specs.declared.context.Context.{Context};
ghost use Rattle.castor_alg.specs.declared.rel.Rel.{Rel};
ghost use Rattle.castor_laws.specs.Replacement.{ReplacementKeeps, TypedAt};

/// In a well-typed relation each place that a path leads to has a context, under which the relation
/// there is well typed.
pub fn places_are_typed()
    ensures { (path : List ℕ) (q : Rel) (context : Context) → TypedAt path q context }
{}

/// A well-typed relation is equivalent to what it becomes where the relation at a path is replaced
/// by one that is equivalent under the context of that place.
pub fn replacement_keeps_equivalence()
    ensures { (path : List ℕ) (new q : Rel) (context : Context) →
        ReplacementKeeps path new q context }
{}
