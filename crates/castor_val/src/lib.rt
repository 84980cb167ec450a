//! Values, rows and tables, the types of columns, and sets of faults.
#![tactic(auto)]

pub mod column;
mod decimal;
pub mod fault;
pub mod field;
pub mod limits;
pub mod memory;
pub mod order;
pub mod print;
pub mod row;
pub mod row_order;
pub mod table;
#[cfg(test)]
mod tests;
pub mod text;
pub mod value;

pub use column::Column;
pub use fault::{Fault, Faults};
pub use field::FieldError;
pub use limits::{
    MAX_CODE_NODES, MAX_COLUMNS, MAX_DEPTH, MAX_FILE_BYTES, MAX_HASH_COLUMNS, MAX_INPUT_BYTES,
    MAX_NAME, MAX_PARAMS, MAX_QUERY_NODES, MAX_SORTING_KEYS, MAX_SOURCE_BYTES, MAX_TABLES,
    MAX_TEXT,
};
pub use memory::Memory;
pub use order::{compare, compare_rows, is_same, is_same_row};
pub use print::TextBuffer;
pub use row::Row;
pub use row_order::{compare_values, compare_with_cells};
pub use table::Table;
pub use text::Text;
pub use value::{Cell, Ty, Value};
