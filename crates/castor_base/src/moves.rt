// Whole reads and whole writes.
ghost use Rattle.std.specs.Prelude.{◌≡◌, ◌+◌, ◌<◌, ◌≤◌, length, take, drop, vec_len, IfOk, OnOk, OnErr, IfErr};
ghost use Rattle.std.specs.List.{flat_map};
ghost use Rattle.std.specs.Io.KnownBytes.{Consumes, Appends, Keeps, IsAtEnd};
ghost use Rattle.castor_base.specs.Causes.{Rose, HasCause};
ghost use Rattle.castor_base.specs.Moves.{AppendsPrefix, TakeWhy};

use crate::{Failed, Sink, Source, TakeError};
use std::alloc::{AllocError, Global};

// How many bytes a call of `take` has room for at most: 64 KiB.
const PIECE: u64 = 65536;

// Makes room for a piece after the bytes that were taken, where none is left. The room ends one
// byte after the limit, since that byte shows that there are too many.
fn make_room(all: &mut Vec<u8>, taken: usize, limit: u64) -> Result<(), AllocError>
    requires within { taken ≤ limit }
    requires room { taken ≤ vec_len all.old }
    requires most { vec_len all.old ≤ limit + 1 }
    ensures some { OnOk result (taken < vec_len all.new) }
    ensures most { vec_len all.new ≤ limit + 1 }
    ensures front { take taken all.new.items ≡ take taken all.old.items }
{
    if taken < all.len() {
        return Ok(());
    }
    let room = (limit - taken as u64).min(PIECE - 1) as usize + 1;
    all.resize(taken + room, 0)
}

// Takes the next bytes into the room after those that were taken.
fn take_after<I: Source>(source: &mut I, all: &mut Vec<u8>, taken: usize) -> Result<usize, Failed>
    requires { taken < vec_len all.old }
    ensures len { vec_len all.new ≡ vec_len all.old }
    ensures front { take taken all.new.items ≡ take taken all.old.items }
    ensures bound { IfOk result (λ n. taken + n ≤ vec_len all.new) }
    ensures bytes { IfOk result (λ n. Consumes (I.left source.old) (I.left source.new) (take n (drop taken all.new.items))) }
    ensures end { IfOk result (λ n. n ≡ 0 → IsAtEnd (I.left source.new)) }
    ensures err { OnErr result (Keeps (I.left source.old) (I.left source.new)) }
    ensures cause { HasCause (I.faults source.old) (I.faults source.new) result }
{
    source.take(&mut all[taken..])
}

/// Takes all the bytes that are left, up to a limit, and answers them.
///
/// `Failed` comes only where the source's count of faults rose, `TooLong` exactly where more than
/// `limit` bytes were taken, else `Memory`. At most `limit` + 1 bytes are taken, in pieces of up
/// to 64 KiB; after a refusal they are gone. Linear in the bytes taken, whatever the pieces.
pub fn read_all<I: Source>(alloc: Global, source: &mut I, limit: u64) -> Result<Vec<u8>, TakeError>
    ensures bytes { IfOk result (λ bytes. Consumes (I.left source.old) (I.left source.new) bytes.items) }
    ensures end { OnOk result (IsAtEnd (I.left source.new)) }
    ensures within { IfOk result (λ bytes. length bytes.items ≤ limit) }
    ensures why { IfErr result (TakeWhy (I.left source.old) (I.left source.new) limit
        (Rose (I.faults source.old) (I.faults source.new))) }
    ensures later { I.faults source.old ≤ I.faults source.new }
{
    let mut all = Vec::new(alloc);
    let mut taken = 0;
    loop {
        if make_room(&mut all, taken, limit).is_err() {
            return Err(TakeError::Memory);
        }
        match take_after(source, &mut all, taken) {
            Ok(0) => break,
            Ok(n) => taken += n,
            Err(Failed) => return Err(TakeError::Failed),
        }
        if taken as u64 > limit {
            return Err(TakeError::TooLong);
        }
    }
    all.truncate(taken);
    Ok(all)
}

/// Gives all the bytes.
///
/// `Failed` comes only where the sink's count of faults rose, and then a prefix of the bytes went
/// out. Takes no memory. Linear in the bytes.
pub fn put_all<K: Sink>(sink: &mut K, bytes: &[u8]) -> Result<(), Failed>
    ensures ok { OnOk result (Appends (K.given sink.old) (K.given sink.new) bytes.now) }
    ensures err { OnErr result (AppendsPrefix (K.given sink.old) (K.given sink.new) bytes.now) }
    ensures cause { OnErr result (Rose (K.faults sink.old) (K.faults sink.new)) }
    ensures later { K.faults sink.old ≤ K.faults sink.new }
{
    let mut at = 0;
    while at < bytes.len() {
        let n = sink.put(&bytes[at..])?;
        at += n;
    }
    Ok(())
}

/// Gives several pieces, one after the other, and none after one that fails.
///
/// `Failed` comes only where the sink's count of faults rose, and then a prefix of the pieces'
/// bytes, taken together, went out. Takes no memory. Linear in the bytes and pieces.
pub fn put_pieces<K: Sink>(sink: &mut K, pieces: &[&[u8]]) -> Result<(), Failed>
    ensures ok { OnOk result (Appends (K.given sink.old) (K.given sink.new) (flat_map (λ p. p.now) pieces.now)) }
    ensures err { OnErr result (AppendsPrefix (K.given sink.old) (K.given sink.new) (flat_map (λ p. p.now) pieces.now)) }
    ensures cause { OnErr result (Rose (K.faults sink.old) (K.faults sink.new)) }
    ensures later { K.faults sink.old ≤ K.faults sink.new }
{
    for piece in pieces {
        put_all(sink, piece)?;
    }
    Ok(())
}
