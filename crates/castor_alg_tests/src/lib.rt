//! Tests of the algebra: small expressions and relations with what they give, read off the definitions by hand.
#![tactic(auto)]

#[cfg(test)]
mod build;
#[cfg(test)]
mod places;
#[cfg(test)]
mod substitution;
#[cfg(test)]
mod trees;
#[cfg(test)]
mod types;
#[cfg(test)]
mod values;
