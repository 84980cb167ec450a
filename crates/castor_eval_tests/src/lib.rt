//! Tests of the evaluator: worked relations, and generated ones against a plain evaluator, which computes what relations
//! mean by nested loops.
#![tactic(auto)]

#[cfg(test)]
mod comparison;
#[cfg(test)]
mod expressions;
#[cfg(test)]
mod relations;
#[cfg(test)]
mod tables;
#[cfg(test)]
mod worked;
