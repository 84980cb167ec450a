//! The code for held data: how the data of a query is laid out, with the least ranges that hold it.
#![tactic(auto)]

mod arms;
mod formed;
mod generation;
mod indexes;
mod keys;
mod laid;
mod laying;
mod lists;
mod nodes;
mod parts;
mod places;
mod ranges;
mod scalars;
mod sizes;

pub use generation::{Layout, generate, lay_out};
