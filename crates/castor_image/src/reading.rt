//! What images hold, read from the front of bytes.

ghost use Rattle.std.specs.Prelude.{◌≡◌, ◌+◌, ◌∷◌, ◌↔◌, [], IsTrue, map, MatchResult};
ghost use Rattle.castor_alg.specs.declared.held.Held.{Parts};
ghost use Rattle.castor_code.specs.Data.{format, readers, data_read};
ghost use Rattle.castor_code.specs.Readings.{in_order, inner_read, list_read, parts_read};
ghost use Rattle.castor_code.specs.Steps.{many};
ghost use Rattle.castor_image.specs.Takes.{Takes, second_read};
ghost use Rattle.castor_image.specs.declared.error.OpenError.TheVariants as error;

mod head;
mod index;
mod numbers;
mod values;

use crate::error::OpenError;
use castor_alg::Held;
use castor_code::{Code, Range};
use sqlite_items::{Boxed, Items};
use std::alloc::Global;
use std::slice;

/// How many children of a list, and entries of an index, that take no bytes an image may hold in all. The
/// number of those isn't bound by the bytes.
const MAX_EMPTY: u64 = 65_536;

/// What is left to read.
#[derive(Drop)]
pub struct Input<'a> {
    rest: &'a [u8],
    /// How many children and entries without bytes may still come.
    empty: u64,
}

impl<'a> Input<'a> {
    /// All of the bytes.
    pub fn new(bytes: &'a [u8]) -> Input<'a>
        ensures { result.rest.now ≡ bytes.now }
    {
        Input {
            rest: bytes,
            empty: MAX_EMPTY,
        }
    }

    /// The bytes that are left.
    pub fn rest(&self) -> &'a [u8]
        ensures { result.now ≡ self.now.rest.now }
    {
        self.rest
    }

    /// The held data of a code. `NotImage` comes exactly where no data of the code comes first, and else
    /// `Memory`. Linear in the bytes that are read, for one code.
    #[cycle(read)]
    pub fn data(&mut self, alloc: Global, code: &Code) -> Result<Held, OpenError>
        ensures { Takes (λ h. h) (data_read code.now self.old.rest.now) self.new.rest.now result }
    {
        match code {
            Code::Int { lo, hi } => self.int(*lo, *hi),
            Code::Bool => self.bool(),
            Code::Text { min, max } => self.text(alloc, *min, *max),
            Code::Cross(kids) => self.parts(alloc, kids.as_slice()),
            Code::Concat(kids) => self.parts(alloc, kids.as_slice()),
            Code::List { count, body, kid } => self.list(alloc, *count, *body, kid.get()),
            Code::Hash {
                count,
                body,
                key,
                kid,
                ..
            } => self.hash(alloc, *count, *body, kid.get(), key.as_slice()),
            Code::Ord {
                count,
                body,
                key,
                kid,
                ..
            } => self.ord(alloc, *count, *body, kid.get(), slice::from_ref(key.get())),
            Code::Select(_, kid) => self.inner(alloc, kid.get()),
            Code::Filter(_, kid) => self.inner(alloc, kid.get()),
            Code::Dep(_, first, second) => match self.data(alloc, first.get()) {
                Ok(part) => self.second(alloc, second.get(), part),
                Err(why) => Err(why),
            },
            Code::Group(_, _, kid) => self.inner(alloc, kid.get()),
            Code::Order(_, kid) => self.inner(alloc, kid.get()),
            Code::Dedup(kid) => self.inner(alloc, kid.get()),
        }
    }

    /// The second of two parts, whose first is read.
    #[cycle(read)]
    fn second(&mut self, alloc: Global, kid: &Code, first: Held) -> Result<Held, OpenError>
        ensures { Takes (λ h. h) (second_read first (data_read kid.now) self.old.rest.now) self.new.rest.now result }
    {
        match self.data(alloc, kid) {
            Ok(part) => pair(alloc, first, part),
            Err(why) => Err(why),
        }
    }

    /// One part for each kid.
    #[cycle(read)]
    fn parts(&mut self, alloc: Global, kids: &[Code]) -> Result<Held, OpenError>
        ensures { Takes (λ h. h) (parts_read (readers (map format kids.now)) self.old.rest.now) self.new.rest.now result }
    {
        Ok(Held::Parts(self.in_order(alloc, kids)?))
    }

    #[cycle(read)]
    fn in_order(&mut self, alloc: Global, kids: &[Code]) -> Result<Items<Held>, OpenError>
        ensures { Takes (λ hs. hs) (in_order (readers (map format kids.now)) self.old.rest.now) self.new.rest.now result }
    {
        let mut parts = Items::new(alloc);
        for kid in kids {
            let part = match self.data(alloc, kid) {
                Ok(part) => part,
                Err(why) => return Err(why),
            };
            parts.push(part)?;
        }
        Ok(parts)
    }

    #[cycle(read)]
    fn inner(&mut self, alloc: Global, kid: &Code) -> Result<Held, OpenError>
        ensures { Takes (λ h. h) (inner_read (data_read kid.now) self.old.rest.now) self.new.rest.now result }
    {
        Ok(Held::Inner(Boxed::new(alloc, self.data(alloc, kid)?)?))
    }

    /// Children, which take just the bytes that the body length says.
    #[cycle(read)]
    fn list(
        &mut self,
        alloc: Global,
        count: Range,
        body: Range,
        kid: &Code,
    ) -> Result<Held, OpenError>
        ensures { Takes (λ h. h) (list_read count body (data_read kid.now) self.old.rest.now) self.new.rest.now result }
    {
        let number = self.ranged(count)?;
        let length = self.ranged(body)?;
        let before = self.rest.len() as u64;
        let rows = self.many(alloc, kid, number)?;
        if took(before, self.rest.len() as u64, length) {
            Ok(Held::Rows(rows))
        } else {
            Err(OpenError::NotImage)
        }
    }

    /// So many children of one code.
    #[cycle(read)]
    fn many(&mut self, alloc: Global, kid: &Code, number: u64) -> Result<Items<Held>, OpenError>
        ensures { Takes (λ hs. hs) (many number (data_read kid.now) self.old.rest.now) self.new.rest.now result }
    {
        let mut rows = Items::new(alloc);
        for _ in 0..number {
            let row = match self.child(alloc, kid) {
                Ok(row) => row,
                Err(why) => return Err(why),
            };
            rows.push(row)?;
        }
        Ok(rows)
    }

    /// A child, which is counted where it takes no bytes.
    #[cycle(read)]
    fn child(&mut self, alloc: Global, kid: &Code) -> Result<Held, OpenError>
        ensures { Takes (λ h. h) (data_read kid.now self.old.rest.now) self.new.rest.now result }
    {
        let before = self.rest.len();
        let row = self.data(alloc, kid)?;
        self.count_empty(before)?;
        Ok(row)
    }

    /// Counts a child or an entry where nothing was read since so many bytes were left.
    fn count_empty(&mut self, before: usize) -> Result<(), OpenError>
        ensures { MatchResult result (λ u. self.new.rest.now ≡ self.old.rest.now) (λ e. e ≡ error.Memory) }
    {
        if self.rest.len() < before {
            return Ok(());
        }
        match self.empty.checked_sub(1) {
            Some(empty) => {
                self.empty = empty;
                Ok(())
            }
            None => Err(OpenError::Memory),
        }
    }
}

/// Whether so many bytes were read, by how many were left before and are left now.
fn took(before: u64, now: u64, length: u64) -> bool
    ensures { IsTrue result ↔ (before ≡ length + now) }
{
    now <= before && before - now == length
}

/// Two parts.
fn pair(alloc: Global, first: Held, second: Held) -> Result<Held, OpenError>
    ensures { MatchResult result (λ h. h ≡ Parts (first ∷ second ∷ [])) (λ e. e ≡ error.Memory) }
{
    let mut parts = Items::new(alloc);
    parts.push(first)?;
    parts.push(second)?;
    Ok(Held::Parts(parts))
}
