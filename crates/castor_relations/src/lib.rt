//! What a relation of names means and which columns it has, or its first refusal: the walk over its tree.
#![tactic(auto)]

pub mod relation;
