//! What expressions and relations depend on in the environment, and their types in the context.

ghost use Rattle.std.specs.Prelude.{ℕ};
ghost use Rattle.castor_alg.specs.declared.expr.Expr.{Expr};
ghost use Rattle.castor_alg.specs.declared.rel.Rel.{Rel};
ghost use Rattle.castor_laws.specs.Independence.{MeaningIgnores, RestsOnFree};
ghost use Rattle.castor_laws.specs.Independence.{RestsOnReads, ValueIgnores};
ghost use Rattle.castor_laws.specs.Independence.{TypeIgnores, TypeRestsOnReads};
ghost use Rattle.castor_laws.specs.Independence.{TypesIgnore, TypesRestOnFree};

/// The value of an expression depends on the environment at the scopes that it reads alone.
pub fn expr_rests_on_reads()
    ensures { (e : Expr) → RestsOnReads e }
{}

/// The meaning of a relation depends on the environment at its free scopes alone.
pub fn rel_rests_on_free()
    ensures { (q : Rel) → RestsOnFree q }
{}

/// Binding a scope that an expression doesn't read leaves its value as it is.
pub fn expr_ignores_unread_scope()
    ensures { (e : Expr) (k : ℕ) → ValueIgnores e k }
{}

/// Binding a scope that isn't free in a relation leaves its meaning as it is.
pub fn rel_ignores_unfree_scope()
    ensures { (q : Rel) (k : ℕ) → MeaningIgnores q k }
{}

/// The type of an expression depends on the scopes of the context that it reads alone.
pub fn expr_type_rests_on_reads()
    ensures { (e : Expr) → TypeRestsOnReads e }
{}

/// The column types of a relation depend on the scopes of the context that are free in it alone.
pub fn rel_types_rest_on_free()
    ensures { (q : Rel) → TypesRestOnFree q }
{}

/// Binding a scope that an expression doesn't read leaves its type as it is.
pub fn expr_type_ignores_unread_scope()
    ensures { (e : Expr) (k : ℕ) → TypeIgnores e k }
{}

/// Binding a scope that isn't free in a relation leaves its column types as they are.
pub fn rel_types_ignore_unfree_scope()
    ensures { (q : Rel) (k : ℕ) → TypesIgnore q k }
{}
