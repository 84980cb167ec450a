//! Tests of the codes for held data, read off small tables by hand.
#![tactic(auto)]

#[cfg(test)]
mod codes;
#[cfg(test)]
mod printed;
#[cfg(test)]
mod queries;
#[cfg(test)]
mod tables;
