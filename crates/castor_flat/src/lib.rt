//! The rewrite rules that neither make nor move a binder.
//!
//! A rule is a row: the form that it rewrites, what that becomes, and when it is refused. Each has a file
//! of its own here, and its row under `specs/` in a file of the same name.
#![tactic(auto)]

mod columns;
mod dedup_twice;
mod filter_concat;
mod filter_dedup;
mod filter_group;
mod filter_into_join;
mod filter_join_left;
mod filter_join_right;
mod filter_merge;
mod filter_out_of_join;
mod filter_split;
mod filter_swap;
mod filter_under_select;
mod forms;
mod items;
mod join_commute;
mod making;
mod order_drop;
mod order_under_filter;
mod rules;
mod select_concat;
mod select_merge;
mod split;

pub use castor_alg::RuleError;
pub use rules::apply;
