//! The outside as traits: a shelf of named files, a source of bytes and a sink of bytes, with
//! objects in memory and real adapters that meet them, and a counter of steps for contracts.
#![tactic(auto)]

mod failed;
mod failing;
mod moves;
mod outside;
mod paths;
mod shelves;
mod sinks;
mod sources;
mod steps;
mod streams;
#[cfg(test)]
mod tests;

pub use failed::{Failed, ShelfError, TakeError};
pub use moves::{put_all, put_pieces, read_all};
pub use outside::{Shelf, Sink, Source};
pub use paths::PathShelf;
pub use shelves::MemoryShelf;
pub use sinks::{CountSink, MemorySink};
pub use sources::{MemorySource, RepeatSource, SureSource};
pub use steps::Steps;
pub use streams::{ReaderSource, WriterSink};
