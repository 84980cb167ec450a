//! Tests of the reader against a plain one, which reads a layout by nested loops.
#![tactic(auto)]

#[cfg(test)]
mod asked;
#[cfg(test)]
mod comparison;
#[cfg(test)]
mod images;
