//! Indexes.

ghost use Rattle.std.specs.Prelude.{◌≡◌, ◌≤◌, ◌*◌, ◌^◌, drop, map};
ghost use Rattle.castor_fixed.specs.Fields.{width};
ghost use Rattle.castor_code.specs.Data.{format, hash_format, ord_format, readers, data_read};
ghost use Rattle.castor_code.specs.Readings.{hash_offsets, ord_offsets};
ghost use Rattle.castor_code.specs.Steps.{many};
ghost use Rattle.castor_image.specs.IndexReadings.{Confirms, entries_read, key_read, keyed_read, sorted_read, value_read};
ghost use Rattle.castor_image.specs.Takes.{Takes};

use super::Input;
use crate::error::OpenError;
use crate::shapes::into_value;
use crate::sorting::sort_by_key;
use crate::writing::{PutError, put_hash, put_ord};
use castor_alg::{Entry, Held};
use castor_code::{Code, Range};
use castor_dir::bucket_count;
use castor_fixed::width;
use castor_val::{Row, Value};
use sqlite_items::Items;
use std::alloc::Global;

/// The most entries of an index that are tried.
const MAX_ENTRIES: u64 = 1 << 62;

impl<'a> Input<'a> {
    /// A hash index. Its entries are read, and then the bytes are compared with those that an index of these
    /// entries has. So the bytes are looked at once more for each hash index around them.
    #[cycle(read)]
    pub fn hash(
        &mut self,
        alloc: Global,
        count: Range,
        body: Range,
        kid: &Code,
        key: &[Code],
    ) -> Result<Held, OpenError>
        ensures { Takes (λ h. h) ((hash_format count body (map format key.now) (format kid.now)).read self.old.rest.now) self.new.rest.now result }
    {
        let front = self.rest;
        let held = self.hash_entries(alloc, count, body, kid, key)?;
        let mut bytes = Vec::new(alloc);
        let put = put_hash(alloc, &mut bytes, count, body, kid, key, &held);
        match confirmed(front, put, bytes.as_slice()) {
            Ok(rest) => {
                self.rest = rest;
                Ok(held)
            }
            Err(why) => Err(why),
        }
    }

    /// An ordered index, read like a hash index.
    #[cycle(read)]
    pub fn ord(
        &mut self,
        alloc: Global,
        count: Range,
        body: Range,
        kid: &Code,
        key: &[Code],
    ) -> Result<Held, OpenError>
        ensures { Takes (λ h. h) ((ord_format count body (map format key.now) (format kid.now)).read self.old.rest.now) self.new.rest.now result }
    {
        let front = self.rest;
        let held = self.ord_entries(alloc, count, body, kid, key)?;
        let mut bytes = Vec::new(alloc);
        let put = put_ord(alloc, &mut bytes, count, body, kid, key, &held);
        match confirmed(front, put, bytes.as_slice()) {
            Ok(rest) => {
                self.rest = rest;
                Ok(held)
            }
            Err(why) => Err(why),
        }
    }

    /// The entries of a hash index by their keys, whatever its offsets say.
    #[cycle(read)]
    fn hash_entries(
        &mut self,
        alloc: Global,
        count: Range,
        body: Range,
        kid: &Code,
        key: &[Code],
    ) -> Result<Held, OpenError>
        ensures { Takes (λ h. h) (entries_read count body hash_offsets (keyed_read (readers (map format key.now)) (data_read kid.now)) self.old.rest.now) self.new.rest.now result }
    {
        let number = self.ranged(count)?;
        let _length = self.ranged(body)?;
        if number > MAX_ENTRIES {
            return Err(OpenError::Memory);
        }
        self.skip_offsets(body, hash_offsets(number));
        let entries = self.entries(alloc, kid, key, number)?;
        Ok(Held::Keyed(Items::from_vec(entries)))
    }

    /// The entries of an ordered index by their keys, whatever its offsets say.
    #[cycle(read)]
    fn ord_entries(
        &mut self,
        alloc: Global,
        count: Range,
        body: Range,
        kid: &Code,
        key: &[Code],
    ) -> Result<Held, OpenError>
        ensures { Takes (λ h. h) (entries_read count body ord_offsets (keyed_read (readers (map format key.now)) (data_read kid.now)) self.old.rest.now) self.new.rest.now result }
    {
        let number = self.ranged(count)?;
        let _length = self.ranged(body)?;
        self.skip_offsets(body, number);
        let entries = self.entries(alloc, kid, key, number)?;
        Ok(Held::Keyed(Items::from_vec(entries)))
    }

    /// Passes over so many offsets, or over all that is left.
    fn skip_offsets(&mut self, body: Range, number: u64)
        ensures { self.new.rest.now ≡ drop (number * width body.hi) self.old.rest.now }
    {
        match number.checked_mul(offset_width(body) as u64) {
            Some(bytes) => self.skip(bytes),
            None => self.rest = &[],
        }
    }

    /// Passes over so many bytes, or over all that is left.
    fn skip(&mut self, bytes: u64)
        ensures { self.new.rest.now ≡ drop bytes self.old.rest.now }
    {
        if bytes >= self.rest.len() as u64 {
            self.rest = &[];
        } else {
            self.rest = &self.rest[bytes as usize..];
        }
    }

    /// So many entries, sorted by their keys.
    #[cycle(read)]
    fn entries(
        &mut self,
        alloc: Global,
        kid: &Code,
        key: &[Code],
        number: u64,
    ) -> Result<Vec<Entry>, OpenError>
        ensures { Takes (λ es. es.items) (sorted_read number (keyed_read (readers (map format key.now)) (data_read kid.now)) self.old.rest.now) self.new.rest.now result }
    {
        let mut entries = self.many_entries(alloc, kid, key, number)?;
        sort_by_key(&mut entries)?;
        Ok(entries)
    }

    /// So many entries, as they stand.
    #[cycle(read)]
    fn many_entries(
        &mut self,
        alloc: Global,
        kid: &Code,
        key: &[Code],
        number: u64,
    ) -> Result<Vec<Entry>, OpenError>
        ensures { Takes (λ es. es.items) (many number (keyed_read (readers (map format key.now)) (data_read kid.now)) self.old.rest.now) self.new.rest.now result }
    {
        let mut entries = Vec::new(alloc);
        for _ in 0..number {
            let entry = match self.entry(alloc, kid, key) {
                Ok(entry) => entry,
                Err(why) => return Err(why),
            };
            entries.push(entry)?;
        }
        Ok(entries)
    }

    /// The values of a key, then a child. The entry is counted where it takes no bytes.
    #[cycle(read)]
    fn entry(&mut self, alloc: Global, kid: &Code, key: &[Code]) -> Result<Entry, OpenError>
        ensures { Takes (λ e. e) (keyed_read (readers (map format key.now)) (data_read kid.now) self.old.rest.now) self.new.rest.now result }
    {
        let before = self.rest.len();
        let key = self.key(alloc, key)?;
        let kid = self.data(alloc, kid)?;
        self.count_empty(before)?;
        Ok(Entry { key, kid })
    }

    /// The values of a key.
    fn key(&mut self, alloc: Global, codes: &[Code]) -> Result<Row, OpenError>
        ensures { Takes (λ row. row) (key_read (readers (map format codes.now)) self.old.rest.now) self.new.rest.now result }
    {
        let mut key = Row::new(alloc);
        for code in codes {
            let value = match self.key_value(alloc, code) {
                Ok(value) => value,
                Err(why) => return Err(why),
            };
            key.push(value)?;
        }
        Ok(key)
    }

    /// A value of a key. Key codes of well-formed codes are those of a single value; for another code there
    /// is no value to hold, which is answered as want of memory.
    fn key_value(&mut self, alloc: Global, code: &Code) -> Result<Value, OpenError>
        ensures { Takes (λ v. v) (value_read (data_read code.now) self.old.rest.now) self.new.rest.now result }
    {
        match code {
            Code::Int { lo, hi } => Ok(into_value(self.int(*lo, *hi)?)),
            Code::Bool => Ok(into_value(self.bool()?)),
            Code::Text { min, max } => Ok(into_value(self.text(alloc, *min, *max)?)),
            _ => Err(OpenError::Memory),
        }
    }
}

/// The offsets of a hash index with so many entries.
fn hash_offsets(entries: u64) -> u64
    requires { entries ≤ 2 ^ 62 }
    ensures { result ≡ hash_offsets entries }
{
    bucket_count(entries) + 1
}

/// The bytes of an offset into a body.
fn offset_width(body: Range) -> u8
    ensures value { result ≡ width body.hi }
    ensures within { result ≤ 8 }
{
    width(0, body.hi as i128)
}

/// The bytes behind an index, where the bytes begin with what was put for it.
fn confirmed<'a>(
    front: &'a [u8],
    put: Result<(), PutError>,
    bytes: &[u8],
) -> Result<&'a [u8], OpenError>
    ensures { Confirms (λ rest. rest.now) put front.now bytes.now result }
{
    match put {
        Ok(()) => {
            if front.starts_with(bytes) {
                Ok(&front[bytes.len()..])
            } else {
                Err(OpenError::NotImage)
            }
        }
        Err(PutError::NotFit) => Err(OpenError::NotImage),
        Err(PutError::Memory) => Err(OpenError::Memory),
    }
}
