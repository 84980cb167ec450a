//! What total expressions and total relations give.

ghost use Rattle.castor_alg.specs.declared.expr.Expr.{Expr};
ghost use Rattle.castor_alg.specs.declared.rel.Rel.{Rel};
ghost use Rattle.castor_laws.specs.Faultless.{GivesNoFaults, GivesValue};

/// A total expression has a value, whatever the row, the environment and the parameters are.
pub fn total_expr_gives_value()
    ensures { (e : Expr) → GivesValue e }
{}

/// A total relation has no faults, whatever the tables, the environment and the parameters are.
pub fn total_rel_gives_no_faults()
    ensures { (q : Rel) → GivesNoFaults q }
{}
