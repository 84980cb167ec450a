//! Rows of values.

ghost use Rattle.std.specs.Prelude.{◌≡◌, ◌↔◌, IsTrue, IfOk, OnOk, OnErr, [], ◌∷◌, ◌++◌, length, map};
ghost use Rattle.castor_val.specs.Values.{value_of};

use crate::memory::Memory;
use crate::value::{Cell, Value};
use std::alloc::Global;
use std::marker::Model;

/// A row, which contracts see as the list of its values.
#[derive(Debug, Drop)]
pub struct Row {
    values: Vec<Value>,
}

impl Model for Row {
    ghost use Rattle.std.specs.Prelude.{List};
    ghost use Rattle.castor_val.specs.declared.value.Value.{Value as OneValue};

    ghost Value = { List OneValue };

    ghost view = { λ r. r.values.items };
}

impl Row {
    /// The row of no values.
    pub fn new(alloc: Global) -> Row
        ensures { result ≡ [] }
    {
        Row {
            values: Vec::new(alloc),
        }
    }

    /// The row of these values.
    pub fn from_vec(values: Vec<Value>) -> Row
        ensures { result ≡ values.items }
    {
        Row { values }
    }

    /// The values of the row, borrowed.
    pub fn as_slice(&self) -> &[Value]
        ensures { result.now ≡ self.now }
    {
        self.values.as_slice()
    }

    /// The number of values.
    pub fn len(&self) -> usize
        ensures { result ≡ length self.now }
    {
        self.values.len()
    }

    /// Whether the row has no values.
    pub fn is_empty(&self) -> bool
        ensures { IsTrue result ↔ (self.now ≡ []) }
    {
        self.values.is_empty()
    }

    /// Puts a value at the end. After a refusal the row is unchanged.
    pub fn push(&mut self, value: Value) -> Result<(), Memory>
        ensures ok { OnOk result (self.new ≡ self.old ++ value ∷ []) }
        ensures err { OnErr result (self.new ≡ self.old) }
    {
        self.values.push(value)?;
        Ok(())
    }

    /// Puts the values of another row at the end. After a refusal the row is unchanged.
    pub fn append(&mut self, more: Row) -> Result<(), Memory>
        ensures ok { OnOk result (self.new ≡ self.old ++ more) }
        ensures err { OnErr result (self.new ≡ self.old) }
    {
        let Row { mut values } = more;
        self.values.append(&mut values)?;
        Ok(())
    }

    /// An equal row. Linear in the number of values and in the bytes of their texts.
    pub fn copy(&self, alloc: Global) -> Result<Row, Memory>
        ensures { IfOk result (λ r. r ≡ self.now) }
    {
        let mut values = Vec::new(alloc);
        for value in self.values.as_slice() {
            values.push(value.copy(alloc)?)?;
        }
        Ok(Row { values })
    }

    /// The row of the values that cells borrow. Linear in their number and in the bytes of their
    /// texts.
    pub fn from_cells(alloc: Global, cells: &[Cell]) -> Result<Row, Memory>
        ensures { IfOk result (λ r. r ≡ map value_of cells.now) }
    {
        let mut values = Vec::new(alloc);
        for cell in cells {
            values.push(cell.to_value(alloc)?)?;
        }
        Ok(Row { values })
    }

    /// The values of the row, borrowed one by one. Linear in their number.
    pub fn cells(&self, alloc: Global) -> Result<Vec<Cell<'_>>, Memory>
        ensures { IfOk result (λ cells. map value_of cells.items ≡ self.now) }
    {
        let mut cells = Vec::new(alloc);
        for value in self.values.as_slice() {
            cells.push(value.cell())?;
        }
        Ok(cells)
    }
}
