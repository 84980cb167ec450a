//! Names, numbers and types: what a query file means, or why it is refused.
//!
//! A file is a tree of names. The definitions give each of its expressions and relations what it means and
//! which columns it has, or the first refusal; `check` computes just that.
#![tactic(auto)]

pub mod checked;
pub mod file;

pub use castor_names::{Declared, SchemaError};
pub use checked::Checked;
pub use file::check;
