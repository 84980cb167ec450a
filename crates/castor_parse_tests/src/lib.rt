//! Tests of the parser: texts with their tokens, trees and refusals, read off the grammar by hand.
#![tactic(auto)]

#[cfg(test)]
mod cuts;
#[cfg(test)]
mod refusals;
#[cfg(test)]
mod shown;
#[cfg(test)]
mod trees;
