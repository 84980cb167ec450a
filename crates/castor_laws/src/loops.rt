//! Dependent joins: loops over rows, one in another.

ghost use Rattle.castor_laws.specs.Loops.{DependentJoinsRegroup, FilterGoesToSource};

/// Two dependent joins may be regrouped: the same rows in the same order, and the same faults.
pub fn dependent_joins_regroup()
    ensures { DependentJoinsRegroup }
{}

/// A filter of each body by the row of the source may go to the source, where nothing faults.
pub fn filter_goes_to_source()
    ensures { FilterGoesToSource }
{}
