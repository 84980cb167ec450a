//! Operators that change places, or that are one where there were two.

ghost use Rattle.std.specs.Prelude.{Result};
ghost use Rattle.castor_val.specs.declared.fault.Faults.{Faults};
ghost use Rattle.castor_val.specs.declared.row.Row.{Row};
ghost use Rattle.castor_alg.specs.declared.out.Out.{Out};
ghost use Rattle.castor_alg.specs.Expression.{Answer};
ghost use Rattle.castor_alg.specs.Rows.{filtered, selected};
ghost use Rattle.castor_laws.specs.Rearrangements.{AfterProjection, ConjunctionCommutes};
ghost use Rattle.castor_laws.specs.Rearrangements.{DistinctTwice, FiltersExchange};
ghost use Rattle.castor_laws.specs.Rearrangements.{MovesInto, SortsUnderFilter, SplitsByTest};

/// Two filters change places, where neither condition faults.
pub fn filters_exchange()
    ensures { FiltersExchange }
{}

/// The sides of a conjunction change places: the same value and the same faults.
pub fn conjunction_commutes()
    ensures { ConjunctionCommutes }
{}

/// A relation is split by a condition that never faults and its negation.
pub fn splits_by_test()
    ensures { SplitsByTest }
{}

/// A filter, a projection or a dependent join after a projection that never faults may go before
/// it.
pub fn after_projection()
    ensures { (g : Row → Row) (r : Out) → AfterProjection g r }
{}

/// A filter moves into the operands of a concatenation and into the body of each binder.
pub fn filter_moves_into()
    ensures { (f : Row → Answer) → MovesInto (filtered f) }
{}

/// A projection moves into the operands of a concatenation and into the body of each binder.
pub fn select_moves_into()
    ensures { (f : Row → Result Row Faults) → MovesInto (selected f) }
{}

/// Rows that are distinct stay as they are where the distinct ones are taken again.
pub fn distinct_twice()
    ensures { DistinctTwice }
{}

/// Sorting and filtering change places, up to the order of rows.
pub fn sorts_under_filter()
    ensures { SortsUnderFilter }
{}
