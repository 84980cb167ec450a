//! The algebra: expressions, relations and what they mean, and the trees that later stages make of them.
//!
//! One algebra says both a query and the layout of its data. The definitions under `specs/` give
//! every expression a value or a set of faults, and every relation a list of rows and a set of
//! faults. All other crates are measured by them.
#![tactic(auto)]

pub mod assembly;
pub mod column_counts;
pub mod context;
pub mod copies;
pub mod env;
pub mod evaluation;
pub mod expr;
pub mod expr_typing;
pub mod free_scopes;
pub mod held;
pub mod held_out;
pub mod out;
pub mod phase;
pub mod places;
pub mod rel;
pub mod replacement;
pub mod rule_error;
pub mod scope_numbers;
pub mod scope_substitution;
pub mod sizes;
pub mod stage_error;
pub mod step;
pub mod substitution;
pub mod totality;
pub mod type_env;
pub mod typing;

pub use assembly::{both, boxed};
pub use column_counts::column_count;
pub use context::Context;
pub use copies::{copy, copy_all, copy_bound, copy_expr, copy_exprs};
pub use env::{Env, OwnedEnv};
pub use evaluation::value;
pub use expr::{Expr, Op};
pub use expr_typing::expr_type;
pub use free_scopes::{is_free, is_read};
pub use held::{Entry, Held};
pub use held_out::HeldOut;
pub use out::Out;
pub use phase::Phase;
pub use places::at;
pub use rel::{Agg, Bound, Key, Rel};
pub use replacement::{ReplaceError, replace};
pub use rule_error::RuleError;
pub use scope_numbers::fresh;
pub use scope_substitution::{SubstError, subst_scope};
pub use sizes::{depth, expr_depth, expr_nodes, nodes};
pub use stage_error::StageError;
pub use step::{Arg, FlatRule, NestRule, RuleId, Step};
pub use substitution::{cols_to_scope, subst_cols};
pub use totality::{is_total, is_total_expr};
pub use type_env::TypeEnv;
pub use typing::{TypeError, type_of};
