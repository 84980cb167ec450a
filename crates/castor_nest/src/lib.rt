//! The rewrite rules that make, move or drop a binder.
//!
//! A rule is a row: the form that it rewrites, what that becomes, and when it is refused. Each has a file
//! of its own here, and its row under `specs/` in a file of the same name.
#![tactic(auto)]

mod rules;
mod store;

pub use castor_alg::RuleError;
pub use rules::apply;
pub use store::store_rows;
