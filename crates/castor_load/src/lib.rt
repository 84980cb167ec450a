//! Tables, parameters and answers as records of comma-separated fields.
#![tactic(auto)]

mod cells;
mod error;
mod fields;
mod plain;
mod question;
mod quoting;
mod records;
mod row;
mod table;
#[cfg(test)]
mod tests;
mod writer;

pub use cells::read_cells;
pub use error::LoadError;
pub use plain::is_plain;
pub use question::read_line;
pub use table::load;
pub use writer::RecordWriter;
