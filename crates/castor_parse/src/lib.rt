//! Query files: their grammar, and how a text becomes a tree of names.
#![tactic(auto)]

mod expr;
mod file;
mod kept;
mod limits;
mod parser;
pub mod query;
mod rel;

pub use castor_tokens::Span;
pub use castor_tree::{Decl, File, Item, PAgg, PBound, PCol, PExpr, PRel, Word};
pub use query::{ParseError, parse};
