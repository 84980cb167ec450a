//! The trees of names that query files are parsed to, what holds of their parts, and how large they are.
#![tactic(auto)]

pub mod depth;
pub mod tree;

pub use depth::is_within;
pub use tree::{Decl, File, Item, PAgg, PBound, PCol, PExpr, PRel, Word};
