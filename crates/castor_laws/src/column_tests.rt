//! Expressions of which each column passes a test.

ghost use Rattle.std.specs.Prelude.{ℕ, Bool};
ghost use Rattle.castor_alg.specs.declared.expr.Expr.{Expr};
ghost use Rattle.castor_laws.specs.ColumnTests.{TypeRestsOnColumns, ValueRestsOnColumns};

/// The value of an expression is the same over two rows that have the same values in its columns.
pub fn expr_rests_on_columns()
    ensures { (test : ℕ → Bool) (e : Expr) → ValueRestsOnColumns test e }
{}

/// The type of an expression is the same over two lists of columns that have the same types where its
/// columns are.
pub fn expr_type_rests_on_columns()
    ensures { (test : ℕ → Bool) (e : Expr) → TypeRestsOnColumns test e }
{}
