//! What well-typed expressions and relations give is of their types.

ghost use Rattle.castor_alg.specs.declared.context.Context.{Context};
ghost use Rattle.castor_alg.specs.declared.expr.Expr.{Expr};
ghost use Rattle.castor_alg.specs.declared.rel.Rel.{Rel};
ghost use Rattle.castor_alg.specs.ColumnCount.{CountsColumns};
ghost use Rattle.castor_laws.specs.Fitting.{HasColumns, RowsFit, ValueFits};

/// The value of a well-typed expression is of its type, or it faults.
pub fn typed_expr_gives_fitting_value()
    ensures { (e : Expr) → ValueFits e }
{}

/// The rows of a well-typed relation are of its column types.
pub fn typed_rel_gives_fitting_rows()
    ensures { (q : Rel) → RowsFit q }
{}

/// A well-typed relation has 1 to 64 columns.
pub fn typed_rel_has_columns()
    ensures { (q : Rel) (context : Context) → HasColumns q context }
{}

/// A well-typed relation has as many columns as column types.
pub fn columns_are_counted()
    ensures { (q : Rel) (context : Context) → CountsColumns q context }
{}
