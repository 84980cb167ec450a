//! The records of a text, one at a time.

ghost use Rattle.std.specs.Prelude.{◌≡◌, ◌∷◌, [], IfOk};
ghost use Rattle.std.specs.Bool.{MatchBool};
ghost use Rattle.csv.specs.Reading.{default_config, records, strip_bom};
ghost use Rattle.csv.specs.Records.{fields_of};
ghost use Rattle.castor_load.specs.Reading.{IsReading, records_left};

use castor_val::Memory;
use csv::{ByteRecord, Reader, ReaderBuilder};
use std::alloc::Global;

/// The records that are left of a text, as `csv` reads them with its defaults. No record is taken
/// for a header, and records may differ in their numbers of fields.
///
/// A comma ends a field and a CR, an LF or both end a record. A field that begins with `"` goes on
/// to the next `"` that isn't doubled, or to the end of the text. Empty lines are no records, and
/// one byte order mark at the start of the text is dropped. Fields are any bytes.
#[derive(Drop)]
pub(crate) struct Records<'a> {
    reader: Reader<&'a [u8]>,
}

impl<'a> Records<'a> {
    /// The records of a text. Takes no memory until the first is read.
    pub(crate) fn new(alloc: Global, text: &'a [u8]) -> Records<'a>
        ensures reading { IsReading result }
        ensures left { records_left result ≡ records default_config (strip_bom text.now) }
    {
        Records {
            reader: ReaderBuilder::new()
                .has_headers(false)
                .flexible(true)
                .from_reader(alloc, text),
        }
    }

    /// Puts the next record into `into`, and says whether there was one. Linear in its bytes, and
    /// the memory of the record before is used again.
    ///
    /// After `Memory` no further record can be read.
    pub(crate) fn next(&mut self, into: &mut ByteRecord) -> Result<bool, Memory>
        requires { IsReading self.old }
        ensures { IfOk result (λ found. MatchBool found
            (IsReading self.new
            × (records_left self.old ≡ fields_of into.new ∷ records_left self.new))
            (records_left self.old ≡ [])) }
    {
        if let Ok(found) = self.reader.read_byte_record(into) {
            return Ok(found);
        }
        Err(Memory)
    }
}
