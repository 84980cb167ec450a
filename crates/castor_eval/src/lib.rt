//! The evaluator of relations: exactly the rows and the faults that a relation means.
//!
//! The meaning enumerates rows nested. The evaluator groups and finds distinct rows by hashing, sorts
//! with a stable merge sort, and borrows the rows of a table until one of them has to be kept.
#![tactic(auto)]

mod aggregate;
mod cells;
mod distinct;
mod evaluation;
mod filter;
mod group;
mod index;
mod keep;
mod limits;
mod order;
mod part;
mod product;
mod project;

pub use castor_alg::Out;
pub use evaluation::eval;
pub use limits::{Limit, is_above, is_below, lower_limit, upper_limit};
