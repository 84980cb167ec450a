//! Filters and groups over rows that are parted by keys: what turns them into indexes.

ghost use Rattle.castor_laws.specs.Partition.{FilterByBoth, FilterIsLookUp, FilterIsRange};
ghost use Rattle.castor_laws.specs.Partition.{FilterOfDistinct, GroupsAreParts};

/// A filter by `a and b` is a filter by `a` over one by `b`, where `a` never faults.
pub fn filter_by_both()
    ensures { FilterByBoth }
{}

/// Filtering keeps to the distinct rows.
pub fn filter_of_distinct()
    ensures { FilterOfDistinct }
{}

/// A filter by equal keys is a look-up in a hash index, with the same rows in the same order and
/// the same faults.
pub fn filter_is_look_up()
    ensures { FilterIsLookUp }
{}

/// Grouping by keys is a dependent join over the distinct keys, with the same rows in the same
/// order and the same faults.
pub fn groups_are_parts()
    ensures { GroupsAreParts }
{}

/// A filter by bounds is a look-up in an ordered index, with the same rows up to order and the same
/// faults.
pub fn filter_is_range()
    ensures { FilterIsRange }
{}
