//! Stages: what of a query is computed when its data is built, and the data that is held for questions.
//!
//! Each part of a query stands in build or in run position. What stands in build position is computed
//! once, over the tables. What stands in run position is computed for each question, over its
//! parameters and the held data, so it may read no table.
#![tactic(auto)]

mod binders;
mod hold_error;
mod holding;
mod keys;
mod source;
mod staging;

pub use castor_alg::StageError;
pub use hold_error::HoldError;
pub use holding::hold;
pub use staging::stage;
