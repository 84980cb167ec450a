//! Scopes that are fresh.

ghost use Rattle.std.specs.Prelude.{◌≡◌, ℕ, Some};
ghost use Rattle.castor_alg.specs.declared.rel.Rel.{Rel};
ghost use Rattle.castor_alg.specs.FreshScope.{fresh_scope};
ghost use Rattle.castor_laws.specs.Freshness.{FreshIfAbove, IsFresh};

/// A fresh scope is above every scope number that occurs, so it occurs nowhere and isn't free.
pub fn fresh_scope_is_fresh()
    ensures { (q : Rel) (k : ℕ) → fresh_scope q ≡ Some k → IsFresh k q }
{}

/// A scope number above every one that occurs is fresh.
pub fn scope_above_is_fresh()
    ensures { (q : Rel) (k : ℕ) → FreshIfAbove k q }
{}
