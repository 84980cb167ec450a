//! Rows of cells, with the faults that were met.

ghost use Rattle.std.specs.Prelude.{◌≡◌, ◌++◌, ◌∷◌, [], OnOk, IfOk};
ghost use Rattle.castor_val.specs.Values.{union, value_of};
ghost use Rattle.castor_code.specs.LayoutMeaning.{nothing, only_faults};
ghost use Rattle.castor_reader.specs.Answers.{out_of, values_in};
ghost use Rattle.castor_reader.specs.HeldValues.{one_row};

use castor_val::{Cell, Faults, Memory};
use std::alloc::Global;

/// What a node gives: rows of cells, and the faults that were met.
#[derive(Drop)]
pub struct Answer<'b> {
    pub rows: Vec<Vec<Cell<'b>>>,
    pub faults: Faults,
}

impl<'b> Answer<'b> {
    /// No rows and no faults.
    pub fn nothing(alloc: Global) -> Answer<'b>
        ensures { out_of result ≡ nothing }
    {
        Answer {
            rows: Vec::new(alloc),
            faults: Faults::NONE,
        }
    }

    /// No rows, and these faults.
    pub fn faulted(alloc: Global, faults: Faults) -> Answer<'b>
        ensures { out_of result ≡ only_faults faults }
    {
        Answer {
            rows: Vec::new(alloc),
            faults,
        }
    }

    /// One row of one cell.
    pub fn single(alloc: Global, cell: Cell<'b>) -> Result<Answer<'b>, Memory>
        ensures { IfOk result (λ a. out_of a ≡ one_row (value_of cell.entry ∷ [])) }
    {
        let mut row = Vec::with_capacity(alloc, 1)?;
        row.push(cell)?;
        Ok(Answer::one(alloc, row)?)
    }

    /// One row.
    pub fn one(alloc: Global, row: Vec<Cell<'b>>) -> Result<Answer<'b>, Memory>
        ensures { IfOk result (λ a. out_of a ≡ one_row (values_in row.entry)) }
    {
        let mut rows = Vec::with_capacity(alloc, 1)?;
        rows.push(row)?;
        Ok(Answer {
            rows,
            faults: Faults::NONE,
        })
    }

    /// Puts the rows of another answer at the end, and its faults to those that were met. Linear in the
    /// rows of the other answer.
    pub fn add(&mut self, more: Answer<'b>) -> Result<(), Memory>
        ensures rows { OnOk result ((out_of self.new).rows ≡ (out_of self.old).rows ++ (out_of more.entry).rows) }
        ensures faults { OnOk result (self.new.faults ≡ union self.old.faults more.entry.faults) }
    {
        let Answer { mut rows, faults } = more;
        self.faults = self.faults.union(faults);
        self.rows.append(&mut rows)?;
        Ok(())
    }
}
