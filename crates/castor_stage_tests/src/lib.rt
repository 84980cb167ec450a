//! Tests of the stages and the held data of queries, read off the rules by hand.
#![tactic(auto)]

#[cfg(test)]
mod asked;
#[cfg(test)]
mod held;
#[cfg(test)]
mod queries;
#[cfg(test)]
mod shown;
#[cfg(test)]
mod stages;
#[cfg(test)]
mod tables;
#[cfg(test)]
mod twice_bound;
