//! A filter over groups.

ghost use Rattle.castor_laws.specs.GroupFilters.{FilterUnderGroups};

/// A filter by key columns may come before the grouping, where no aggregate is a sum and the condition never
/// faults.
pub fn filter_under_groups()
    ensures { FilterUnderGroups }
{}
