//! Images: the bytes in which a layout and its data are kept.
//!
//! An image holds the types and names of a query's parameters and columns, the code by which its data is
//! read, and the data. `build` writes the one image of these, and `open_image` accepts exactly the images.
//! `overhead` is the size of all but the data.
#![tactic(auto)]

mod building;
mod error;
mod head;
mod image;
mod names;
mod reading;
mod shapes;
mod sorting;
mod typing;
mod writing;

pub use building::{build, overhead};
pub use error::OpenError;
pub use head::Head;
pub use image::{Image, open_image};
