//! Combinations of two operands: what joins rest on.

ghost use Rattle.castor_laws.specs.Crosses.{CrossExchanges, CrossIsDependent};
ghost use Rattle.castor_laws.specs.Crosses.{FilterOnLeft, FilterOnRight};

/// All pairs of rows are a dependent join, where the second operand has no faults: the same rows in
/// the same order.
pub fn cross_is_dependent()
    ensures { CrossIsDependent }
{}

/// The two operands of a cross change places, up to the order of rows.
pub fn cross_exchanges()
    ensures { CrossExchanges }
{}

/// A filter by columns of the left operand, which never faults, goes to that operand.
pub fn filter_on_left()
    ensures { FilterOnLeft }
{}

/// A filter by columns of the right operand, which never faults, goes to that operand.
pub fn filter_on_right()
    ensures { FilterOnRight }
{}
