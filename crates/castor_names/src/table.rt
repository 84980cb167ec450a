//! A declared table.

use castor_val::{Column, Text};
use sqlite_items::Items;

/// A declared table.
#[derive(Drop)]
pub struct Declared {
    pub name: Text,
    pub columns: Items<Column>,
}
