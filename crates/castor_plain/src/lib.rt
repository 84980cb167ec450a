//! A plain evaluator of relations and a plain reader of held data, for tests to compare with: they read the meaning
//! once more, by nested loops, and share no code with the evaluator and the reader but the order of values.
#![tactic(auto)]

mod aggregates;
mod given;
mod layout;
mod meaning;
mod operators;
mod random;
mod values;

pub use given::{Binding, Given, Line};
pub use layout::plain_layout;
pub use meaning::plain;
pub use operators::Plain;
pub use random::Random;
