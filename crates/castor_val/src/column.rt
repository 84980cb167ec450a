//! Named and typed columns.

ghost use Rattle.std.specs.Prelude.{◌≡◌, IfOk};

use crate::memory::Memory;
use crate::text::Text;
use crate::value::Ty;
use std::alloc::Global;

/// A column of a table, a column of an answer, or a parameter.
#[derive(Debug, Drop)]
pub struct Column {
    /// The name by which queries and headers call it.
    pub name: Text,
    /// The type of its values.
    pub ty: Ty,
}

impl Column {
    /// An equal column. Linear in the length of its name.
    pub fn copy(&self, alloc: Global) -> Result<Column, Memory>
        ensures { IfOk result (λ c. c ≡ self.now) }
    {
        let name = self.name.copy(alloc)?;
        Ok(Column { name, ty: self.ty })
    }
}
