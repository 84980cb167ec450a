//! Tests of codes: bytes with the codes that they are and why they are none, read off the format by hand.
#![tactic(auto)]

#[cfg(test)]
mod bytes;
#[cfg(test)]
mod fields;
#[cfg(test)]
mod forms;
#[cfg(test)]
mod hostile;
#[cfg(test)]
mod nodes;
#[cfg(test)]
mod shown;
#[cfg(test)]
mod skips;
#[cfg(test)]
mod taken;
