//! Outcomes that are the same up to the order of rows, and what the operators make of them.

ghost use Rattle.std.specs.Prelude.{List, IsPermutation};
ghost use Rattle.castor_val.specs.declared.row.Row.{Row};
ghost use Rattle.castor_alg.specs.declared.out.Out.{Out};
ghost use Rattle.castor_alg.specs.declared.rel.Key.{Key};
ghost use Rattle.castor_alg.specs.Sorting.{sorted_by};
ghost use Rattle.castor_laws.specs.Operators.{OperatorsKeep};
ghost use Rattle.castor_alg.specs.Permutation.{Permutes, SameUpToOrder};

/// Rows in another order are a permutation, as std says it.
pub fn permuted_is_permutation()
    ensures { (rows others : List Row) → Permutes rows others → IsPermutation rows others }
{}

/// Every operator keeps rows up to their order, and faults, where its operands and the bodies that
/// it evaluates do.
pub fn operators_keep()
    ensures { OperatorsKeep }
{}

/// Sorting changes the order of rows alone.
pub fn order_changes_order_alone()
    ensures { (keys : List Key) (out : Out) → SameUpToOrder (sorted_by keys out) out }
{}
