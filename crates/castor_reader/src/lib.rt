//! The reader of images: the rows, or the faults, that an image gives for values of its parameters.
//!
//! `answer_layout` reads held data under a code as a relation, operator by operator. Rows are rows of
//! cells: their texts are borrowed from the data, the code or the parameters, and none is copied. An index
//! is searched by halving, since its keys ascend in data that fits its code.
#![tactic(auto)]

mod aggregate;
mod answer;
mod asking;
mod cells;
mod distinct;
mod filter;
mod group;
mod index;
mod keep;
mod layout;
mod order;
mod product;
mod project;
mod reading;
mod reply;
mod shapes;
mod values;

pub use asking::ask;
pub use layout::answer_layout;
pub use reply::Reply;
