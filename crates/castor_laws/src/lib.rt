//! Laws of the algebra: what holds of the meaning of every expression and every relation.
//!
//! Each public function here states a law as its contract, and does nothing. What the laws speak of
//! is defined in castor_alg, and each is proved for all expressions and relations.
#![tactic(auto)]

pub mod clauses;
pub mod column_free;
pub mod column_tests;
pub mod crosses;
pub mod equivalence;
pub mod fitting;
pub mod free_scopes;
pub mod freshness;
pub mod group_filters;
pub mod loops;
pub mod operators;
pub mod partition;
pub mod rearrangements;
pub mod replacement;
pub mod substitution;
pub mod totality;

pub use clauses::{expr_clauses, rel_clauses};
pub use column_free::{
    closed_expr_is_column_free, column_free_expr_ignores_row, column_free_expr_type_ignores_columns,
};
pub use column_tests::{expr_rests_on_columns, expr_type_rests_on_columns};
pub use crosses::{cross_exchanges, cross_is_dependent, filter_on_left, filter_on_right};
pub use equivalence::{equivalence_is_congruence, equivalence_laws};
pub use fitting::{
    columns_are_counted, typed_expr_gives_fitting_value, typed_rel_gives_fitting_rows,
    typed_rel_has_columns,
};
pub use free_scopes::{
    expr_ignores_unread_scope, expr_rests_on_reads, expr_type_ignores_unread_scope,
    expr_type_rests_on_reads, rel_ignores_unfree_scope, rel_rests_on_free,
    rel_types_ignore_unfree_scope, rel_types_rest_on_free,
};
pub use freshness::{fresh_scope_is_fresh, scope_above_is_fresh};
pub use group_filters::filter_under_groups;
pub use loops::{dependent_joins_regroup, filter_goes_to_source};
pub use operators::{operators_keep, order_changes_order_alone, permuted_is_permutation};
pub use partition::{
    filter_by_both, filter_is_look_up, filter_is_range, filter_of_distinct, groups_are_parts,
};
pub use rearrangements::{
    after_projection, conjunction_commutes, distinct_twice, filter_moves_into, filters_exchange,
    select_moves_into, sorts_under_filter, splits_by_test,
};
pub use replacement::{places_are_typed, replacement_keeps_equivalence};
pub use substitution::{
    columns_to_scope_have_its_types, columns_to_scope_keep_parts, columns_to_scope_read_bound_row,
    columns_to_scope_read_its_row, replaced_columns_have_types, replaced_columns_have_values,
    replaced_columns_keep_parts, replaced_scope_has_column_free_values, replaced_scope_has_types,
    replaced_scope_has_values, replaced_scope_keeps_parts,
};
pub use totality::{total_expr_gives_value, total_rel_gives_no_faults};
