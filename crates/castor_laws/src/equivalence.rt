//! Relations that are equivalent under a context.

ghost use Rattle.castor_alg.specs.declared.context.Context.{Context};
ghost use Rattle.castor_laws.specs.Congruence.{Congruence, EquivalenceLaws};

/// Under each context equivalence is reflexive on what is well typed, symmetric and transitive.
pub fn equivalence_laws()
    ensures { (context : Context) → EquivalenceLaws context }
{}

/// Each operator keeps equivalence. The bodies of a binder need be equivalent just where its scope
/// has a row of the source's column types.
pub fn equivalence_is_congruence()
    ensures { (context : Context) → Congruence context }
{}
