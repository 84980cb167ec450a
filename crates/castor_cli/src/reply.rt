//! The text of a reply.

ghost use Rattle.std.specs.Prelude.{◌≡◌, ◌++◌, IfOk, OnOk, IsTrue, map};
ghost use Rattle.castor_alg.specs.declared.out.Out.{Out};
ghost use Rattle.castor_load.specs.Written.{text_of};
ghost use Rattle.castor_cli.specs.Faults.{kinds_text};
ghost use Rattle.castor_reader.specs.Answers.{values_in};
ghost use Rattle.castor_reader.specs.Replies.{IsReply};
ghost use Rattle.castor_cli.specs.Replies.{fault_line, head_text, names_record, record_of, reply_text, rows_text};

use castor_image::Head;
use castor_load::RecordWriter;
use castor_reader::Reply;
use castor_val::{Cell, Column, Faults, Memory};
use std::alloc::Global;

/// The kinds of a set of faults in the order division, overflow, norows, joined by commas.
pub fn kinds_text(faults: Faults) -> &'static str
    ensures { result.now ≡ kinds_text faults }
{
    match (faults.division, faults.overflow, faults.norows) {
        (false, false, false) => "",
        (false, false, true) => "norows",
        (false, true, false) => "overflow",
        (false, true, true) => "overflow,norows",
        (true, false, false) => "division",
        (true, false, true) => "division,norows",
        (true, true, false) => "division,overflow",
        (true, true, true) => "division,overflow,norows",
    }
}

// The line of a set of faults.
fn fault_line(alloc: Global, faults: Faults) -> Result<Vec<u8>, Memory>
    ensures { IfOk result (λ line. line.items ≡ fault_line faults) }
{
    let kinds = kinds_text(faults);
    let line = format!(in alloc; "fault {kinds}\n")?;
    Ok(line.into_bytes())
}

// A writer behind the head of a reply of so many rows.
fn after_head(alloc: Global, columns: &[Column], count: usize) -> Result<RecordWriter, Memory>
    ensures { IfOk result (λ w. text_of w ≡ head_text columns.now count) }
{
    let head = format!(in alloc; "rows {count}\n")?;
    let mut writer = RecordWriter::new(head.into_bytes());
    writer.write_names(columns)?;
    Ok(writer)
}

// The number of rows, the names of the columns, and the rows.
fn rows_text(alloc: Global, columns: &[Column], rows: &[Vec<Cell<'_>>]) -> Result<Vec<u8>, Memory>
    ensures { IfOk result (λ text. text.items ≡ rows_text columns.now (map values_in rows.now)) }
{
    let mut writer = after_head(alloc, columns, rows.len())?;
    for row in rows {
        writer.write_cells(row.as_slice())?;
    }
    writer.finish()
}

/// The text of a reply: the line of its faults, or the number of its rows, the record of the columns'
/// names and the records of the rows. Linear in the text.
pub fn reply_text(alloc: Global, head: &Head, reply: &Reply<'_>) -> Result<Vec<u8>, Memory>
    ensures { IfOk result (λ text. (out : Out) → IsReply out reply.now → text.items ≡ reply_text head.now.columns out) }
{
    match reply {
        Reply::Rows(rows) => rows_text(alloc, head.columns.as_slice(), rows.as_slice()),
        Reply::Faults(faults) => fault_line(alloc, *faults),
    }
}
