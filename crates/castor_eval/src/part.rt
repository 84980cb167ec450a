//! Rows that stand in a table or were made, with the faults that were met.

ghost use Rattle.std.specs.Prelude.{◌≡◌, [], IfOk};
ghost use Rattle.std.specs.Cow.{cow_slice_items};
ghost use Rattle.castor_val.specs.Values.{no_faults};
ghost use Rattle.castor_eval.specs.Parts.{out_of};

use castor_alg::Out;
use castor_val::{Faults, Memory, Row, Table};
use std::alloc::Global;
use std::borrow::CowSlice;

/// What a relation gives. The rows of a table are borrowed until one of them has to be kept.
#[derive(Drop)]
pub struct Part<'t> {
    pub rows: CowSlice<'t, Row>,
    pub faults: Faults,
}

impl<'t> Part<'t> {
    /// The rows of a table.
    pub fn of_table(rows: &'t [Row]) -> Part<'t>
        ensures { out_of result ≡ record { rows = rows.now; faults = no_faults } }
    {
        Part {
            rows: CowSlice::Borrowed(rows),
            faults: Faults::NONE,
        }
    }

    /// Rows that were made.
    pub fn made(out: Out) -> Part<'t>
        ensures { out_of result ≡ out }
    {
        let Out { rows, faults } = out;
        Part {
            rows: CowSlice::Owned(rows.into_rows()),
            faults,
        }
    }

    /// No rows.
    pub fn empty(alloc: Global, faults: Faults) -> Part<'t>
        ensures { out_of result ≡ record { rows = []; faults = faults } }
    {
        Part {
            rows: CowSlice::Owned(Vec::new(alloc)),
            faults,
        }
    }

    /// The rows, borrowed.
    pub fn as_slice(&self) -> &[Row]
        ensures { result.now ≡ (out_of self.now).rows }
    {
        self.rows.as_slice()
    }

    /// The rows and the faults, owned. Moves rows that were made, and copies those of a table.
    pub fn into_out(self, alloc: Global) -> Result<Out, Memory>
        ensures { IfOk result (λ out. out ≡ out_of self.entry) }
    {
        let Part { rows, faults } = self;
        let rows = into_rows(alloc, rows)?;
        Ok(Out {
            rows: Table::from_vec(rows),
            faults,
        })
    }
}

/// The rows, owned. Moves rows that were made, and copies those of a table.
pub fn into_rows(alloc: Global, rows: CowSlice<Row>) -> Result<Vec<Row>, Memory>
    ensures { IfOk result (λ r. r.items ≡ cow_slice_items rows.entry) }
{
    match rows {
        CowSlice::Borrowed(rows) => Ok(copy_rows(alloc, rows)?),
        CowSlice::Owned(rows) => Ok(rows),
    }
}

/// Equal rows. Linear in their values and in the bytes of their texts.
fn copy_rows(alloc: Global, rows: &[Row]) -> Result<Vec<Row>, Memory>
    ensures { IfOk result (λ r. r.items ≡ rows.now) }
{
    let mut copies = Vec::new(alloc);
    for row in rows {
        copies.push(row.copy(alloc)?)?;
    }
    Ok(copies)
}
