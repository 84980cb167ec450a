//! A text of records, written one after another.

ghost use Rattle.std.specs.Prelude.{◌≡◌, ℕ, List, [], ◌∷◌, ◌++◌, IfOk, OnOk, length, map};
ghost use Rattle.csv.specs.Writing.{default_writer, next_sep, row_text};
ghost use Rattle.castor_val.specs.Fields.{value_text};
ghost use Rattle.castor_val.specs.Values.{value_of};
ghost use Rattle.castor_load.specs.Rows.{names_of};
ghost use Rattle.castor_load.specs.Written.{HasWritten, record_ending, text_of};

use crate::quoting::put_field;
use castor_val::{Cell, Column, Memory, TextBuffer};

/// A text to whose end records are written, each as the default writer of `csv` writes it. Records
/// may differ in their numbers of fields.
///
/// Commas stand between fields and an LF ends a record. A field with a comma, a quote, a CR or an
/// LF in it gets quotes around it and its quotes doubled, and an empty field that is alone in its
/// record gets quotes.
#[derive(Drop)]
pub struct RecordWriter {
    text: Vec<u8>,
}

// What stands before the field at this place of a record.
fn separator(place: usize) -> &'static [u8]
    ensures { result.now ≡ next_sep default_writer place }
{
    if place == 0 { b"" } else { b"," }
}

// Writes the field that stands at this place of a record.
fn put_next(text: &mut Vec<u8>, place: usize, field: &[u8]) -> Result<(), Memory>
    ensures { OnOk result ((before : List ℕ) (fields : List (List ℕ)) → length fields ≡ place
        → HasWritten text.old.items before fields
        → HasWritten text.new.items before (fields ++ field.now ∷ [])) }
{
    text.extend_from_slice(separator(place))?;
    put_field(text, field)?;
    Ok(())
}

// What ends a record: an LF, behind two quotes where the record shows no byte.
fn record_ending(blank: bool) -> &'static [u8]
    ensures { result.now ≡ record_ending blank }
{
    if blank { b"\"\"\n" } else { b"\n" }
}

// Ends the record that began where the text had this length.
fn end_record(text: &mut Vec<u8>, start: usize) -> Result<(), Memory>
    ensures { OnOk result ((before : List ℕ) (fields : List (List ℕ)) → length before ≡ start
        → HasWritten text.old.items before fields
        → text.new.items ≡ before ++ row_text default_writer fields) }
{
    let blank = text.len() == start;
    text.extend_from_slice(record_ending(blank))?;
    Ok(())
}

impl RecordWriter {
    /// A writer of records after these bytes.
    pub fn new(text: Vec<u8>) -> RecordWriter
        ensures text { text_of result ≡ text.items }
    {
        RecordWriter { text }
    }

    /// Writes the record of the names of columns. Linear in their bytes.
    ///
    /// After `Memory` the text may end in a part of the record.
    pub fn write_names(&mut self, columns: &[Column]) -> Result<(), Memory>
        ensures text { OnOk result (text_of self.new
            ≡ text_of self.old ++ row_text default_writer (names_of columns.now)) }
    {
        let start = self.text.len();
        for (place, column) in columns.iter().enumerate() {
            put_next(&mut self.text, place, column.name.as_str().as_bytes())?;
        }
        end_record(&mut self.text, start)
    }

    /// Writes the record of a row of cells, each as it is printed. Linear in the printed bytes.
    ///
    /// After `Memory` the text may end in a part of the record.
    pub fn write_cells(&mut self, row: &[Cell<'_>]) -> Result<(), Memory>
        ensures text { OnOk result (text_of self.new
            ≡ text_of self.old ++ row_text default_writer (map value_text (map value_of row.now))) }
    {
        let start = self.text.len();
        let mut buffer = TextBuffer::new();
        for (place, cell) in row.iter().enumerate() {
            put_next(&mut self.text, place, cell.text(&mut buffer).as_bytes())?;
        }
        end_record(&mut self.text, start)
    }

    /// The bytes from before the first record, and then the records.
    pub fn finish(self) -> Result<Vec<u8>, Memory>
        ensures { IfOk result (λ text. text.items ≡ text_of self) }
    {
        let RecordWriter { text } = self;
        Ok(text)
    }
}
