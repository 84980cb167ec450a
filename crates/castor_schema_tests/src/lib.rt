//! Tests of the checker: query files with their columns, their queries and their refusals, read off the
//! rules by hand.
#![tactic(auto)]

#[cfg(test)]
mod checks;
#[cfg(test)]
mod found;
#[cfg(test)]
mod limits;
#[cfg(test)]
mod refusals;
