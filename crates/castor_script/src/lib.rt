//! What a script makes of a query, and the keys that a query's rows are known to be sorted by.
#![tactic(auto)]

mod binders;
mod finishing;
mod known_keys;
mod made;
mod settled;
mod step_error;

pub use finishing::finish;
pub use known_keys::{known_keys_are_true, orders};
pub use step_error::StepError;
