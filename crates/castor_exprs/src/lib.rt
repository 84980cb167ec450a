//! Expressions of names: what they mean and their types, or why they are refused; and the lists that stand in
//! the operators of a query file: items, grouping keys, aggregates, sorting keys, index keys and bounds.
#![tactic(auto)]

pub mod bounds;
pub mod expression;
pub mod groups;
pub mod indexes;
pub mod items;
pub mod types;

pub use bounds::{TypedBound, TypedRange, is_bound_of, range_found};
pub use expression::Typed;
pub use groups::{Aggregate, Grouping, all_sum_ints, grouping_found, sorting_keys};
pub use indexes::{IndexKeys, index_keys, is_key_count};
pub use items::{Output, Selection, item_output, items_selected};
pub use types::{have_same_types, have_types, is_same_type};
