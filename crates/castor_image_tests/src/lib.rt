//! Tests of images: their bytes, worked out by hand, and what is refused.
#![tactic(auto)]

#[cfg(test)]
mod bytes;
#[cfg(test)]
mod damage;
#[cfg(test)]
mod data;
#[cfg(test)]
mod heads;
#[cfg(test)]
mod images;
