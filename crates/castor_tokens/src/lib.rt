//! The tokens of query files and scripts, and how a text is cut into them.
#![tactic(auto)]

pub mod cut;
pub mod token;

pub use cut::{CutError, tokens};
pub use token::{Keyword, Kind, Span, Symbol, Token};
