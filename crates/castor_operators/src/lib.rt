//! What relations of names mean. The definitions under `specs/` give each operator what it makes of operands
//! that are found, with its lists and expressions first and then its own conditions, and a whole relation
//! what its tree means; the calls compute one operator each.
#![tactic(auto)]

pub mod binders;
pub mod dedups;
pub mod filters;
pub mod found;
pub mod groups;
pub mod hash_indexes;
pub mod items;
pub mod joins;
pub mod kept;
pub mod operands;
pub mod ordered_indexes;
pub mod orders;
pub mod tables;

pub use binders::{Binding, depjoined, listed};
pub use dedups::deduped;
pub use filters::filtered;
pub use found::{Found, limited};
pub use groups::grouped;
pub use hash_indexes::hashed_by;
pub use items::{scalar_found, selected};
pub use joins::{Joining, joined};
pub use kept::beside;
pub use operands::{Crossing, Operands, concatenated};
pub use ordered_indexes::ordered_by;
pub use orders::order_by;
pub use tables::table_found;
