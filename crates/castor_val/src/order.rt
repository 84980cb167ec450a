//! The order of values and rows, and when two are the same.

ghost use Rattle.std.specs.Prelude.{◌≡◌, ◌↔◌, IsTrue, map};
ghost use Rattle.castor_val.specs.Cells.{IsValueHash};
ghost use Rattle.castor_val.specs.Values.{IsRowOrder, IsValueOrder, row_cmp, value_of, value_cmp};

use crate::value::Cell;
use std::cmp::Ordering;

/// How two values are ordered: every int before every bool and every bool before every text, ints
/// by number, `false` before `true`, and texts by bytes. Linear in the shorter text.
pub fn compare(a: Cell, b: Cell) -> Ordering
    ensures value { result ≡ value_cmp (value_of a.entry) (value_of b.entry) }

    // The order is total, and ties only equal values.
    ensures law { IsValueOrder }
{
    a.cmp(&b)
}

/// Whether two cells hold one value. Linear in the shorter text.
pub fn is_same(a: Cell, b: Cell) -> bool
    ensures value { IsTrue result ↔ (value_of a.entry ≡ value_of b.entry) }

    // Cells that hold one value are hashed alike.
    ensures law { IsValueHash }
{
    a == b
}

/// How two rows are ordered: by the first value in which they differ, and a row before its
/// extensions. Linear in the shorter row and its texts.
pub fn compare_rows(a: &[Cell], b: &[Cell]) -> Ordering
    ensures rows { result ≡ row_cmp (map value_of a.now) (map value_of b.now) }

    // The order is total, and ties only equal rows.
    ensures law { IsRowOrder }
{
    a.cmp(b)
}

/// Whether two rows have the same values in the same places, as rows of one group of a `groupby`
/// have in its keys. Linear in the shorter row and its texts.
pub fn is_same_row(a: &[Cell], b: &[Cell]) -> bool
    ensures { IsTrue result ↔ (map value_of a.now ≡ map value_of b.now) }
{
    a == b
}
