//! Tests of storing, finishing and known keys: small queries, read off the rules by hand.
#![tactic(auto)]

#[cfg(test)]
mod build;
#[cfg(test)]
mod finishing;
#[cfg(test)]
mod known_keys;
#[cfg(test)]
mod shown;
#[cfg(test)]
mod storing;
#[cfg(test)]
mod types;
