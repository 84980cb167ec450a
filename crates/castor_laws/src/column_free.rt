//! Expressions without columns.

ghost use Rattle.castor_alg.specs.declared.expr.Expr.{Expr};
ghost use Rattle.castor_laws.specs.ColumnFree.{ClosedIsColumnFree, TypeIgnoresColumns};
ghost use Rattle.castor_laws.specs.ColumnFree.{ValueIgnoresRow};

/// The value of an expression without columns is the same over every row.
pub fn column_free_expr_ignores_row()
    ensures { (e : Expr) → ValueIgnoresRow e }
{}

/// The type of an expression without columns is the same over all columns.
pub fn column_free_expr_type_ignores_columns()
    ensures { (e : Expr) → TypeIgnoresColumns e }
{}

/// An expression that has a type over no columns is without columns.
pub fn closed_expr_is_column_free()
    ensures { (e : Expr) → ClosedIsColumnFree e }
{}
