//! Tables of rows.

ghost use Rattle.std.specs.Prelude.{◌≡◌, ◌↔◌, IsTrue, IfOk, OnOk, OnErr, [], ◌∷◌, ◌++◌, length};

use crate::memory::Memory;
use crate::row::Row;
use std::alloc::Global;
use std::marker::Model;

/// A table, which contracts see as the list of its rows.
#[derive(Debug, Drop)]
pub struct Table {
    rows: Vec<Row>,
}

impl Model for Table {
    ghost use Rattle.std.specs.Prelude.{List};
    ghost use Rattle.castor_val.specs.declared.row.Row.{Row};

    ghost Value = { List Row };

    ghost view = { λ t. t.rows.items };
}

impl Table {
    /// The table of no rows.
    pub fn new(alloc: Global) -> Table
        ensures { result ≡ [] }
    {
        Table {
            rows: Vec::new(alloc),
        }
    }

    /// The table of these rows.
    pub fn from_vec(rows: Vec<Row>) -> Table
        ensures { result ≡ rows.items }
    {
        Table { rows }
    }

    /// The rows of the table.
    pub fn into_rows(self) -> Vec<Row>
        ensures { result.items ≡ self }
    {
        let Table { rows } = self;
        rows
    }

    /// The rows of the table, borrowed.
    pub fn as_slice(&self) -> &[Row]
        ensures { result.now ≡ self.now }
    {
        self.rows.as_slice()
    }

    /// The number of rows.
    pub fn len(&self) -> usize
        ensures { result ≡ length self.now }
    {
        self.rows.len()
    }

    /// Whether the table has no rows.
    pub fn is_empty(&self) -> bool
        ensures { IsTrue result ↔ (self.now ≡ []) }
    {
        self.rows.is_empty()
    }

    /// Puts a row at the end. After a refusal the table is unchanged.
    pub fn push(&mut self, row: Row) -> Result<(), Memory>
        ensures ok { OnOk result (self.new ≡ self.old ++ row ∷ []) }
        ensures err { OnErr result (self.new ≡ self.old) }
    {
        self.rows.push(row)?;
        Ok(())
    }

    /// Puts the rows of another table at the end. After a refusal the table is unchanged.
    pub fn append(&mut self, more: Table) -> Result<(), Memory>
        ensures ok { OnOk result (self.new ≡ self.old ++ more) }
        ensures err { OnErr result (self.new ≡ self.old) }
    {
        let Table { mut rows } = more;
        self.rows.append(&mut rows)?;
        Ok(())
    }

    /// An equal table. Linear in the number of values and in the bytes of their texts.
    pub fn copy(&self, alloc: Global) -> Result<Table, Memory>
        ensures { IfOk result (λ t. t ≡ self.now) }
    {
        let mut rows = Vec::new(alloc);
        for row in self.rows.as_slice() {
            rows.push(row.copy(alloc)?)?;
        }
        Ok(Table { rows })
    }
}
