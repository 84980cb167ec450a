//! The order of rows that own their values, and of such a row and borrowed values.

ghost use Rattle.std.specs.Prelude.{◌≡◌, map};
ghost use Rattle.castor_val.specs.Values.{row_cmp, value_of};

use crate::value::{Cell, Value};
use std::cmp::Ordering;

/// How two rows of values are ordered: by the first value in which they differ, and a row before its
/// extensions. Linear in the shorter row and its texts.
pub fn compare_values(a: &[Value], b: &[Value]) -> Ordering
    ensures { result ≡ row_cmp a.now b.now }
{
    a.iter().map(Value::cell).cmp(b.iter().map(Value::cell))
}

/// How a row of values and a row of cells are ordered, as by `compare_values`. Linear in the shorter
/// row and its texts.
pub fn compare_with_cells(values: &[Value], cells: &[Cell]) -> Ordering
    ensures { result ≡ row_cmp values.now (map value_of cells.now) }
{
    values.iter().map(Value::cell).cmp(cells.iter().copied())
}
