//! What each operator means, over what its operands mean.

ghost use Rattle.std.specs.Prelude.{List};
ghost use Rattle.castor_val.specs.declared.row.Row.{Row};
ghost use Rattle.castor_val.specs.declared.table.Table.{Table};
ghost use Rattle.castor_alg.specs.Scopes.{Scopes};
ghost use Rattle.castor_laws.specs.Clauses.{ExprClauses, RelClauses};

/// The value of each of the seven expressions is one step over the values of its parts.
pub fn expr_clauses()
    ensures { (row : Row) (env : Scopes) (params : Row) → ExprClauses row env params }
{}

/// The rows and faults of each of the fourteen relations are one step over those of its operands.
pub fn rel_clauses()
    ensures { (tables : List Table) (env : Scopes) (params : Row) → RelClauses tables env params }
{}
