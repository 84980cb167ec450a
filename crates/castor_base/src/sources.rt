// Sources in memory.
ghost use Rattle.std.specs.Prelude.{◌≡◌, ◌≤◌, ◌-◌, Some, ℕ, length, take, drop, min, vec_len, replicate, IsOk, IsErr, IsTrue, IfOk};
ghost use Rattle.std.specs.Io.{ReadsAtMost};
ghost use Rattle.std.specs.Io.KnownBytes.{ReadConsumes};
ghost use Rattle.castor_base.specs.Causes.{HasCause};

use crate::failing::FailingCalls;
use crate::{Failed, Source};

// Copies the front of a slice into the front of another, as much as both have room for.
fn copy_front(from: &[u8], to: &mut [u8]) -> usize
    ensures count { result ≡ min (length from.now) (length to.old) }
    ensures copied { take result to.new ≡ take result from.now }
{
    let n = from.len().min(to.len());
    to[..n].copy_from_slice(&from[..n]);
    n
}

/// Bytes in memory. No call fails.
#[derive(Drop)]
pub struct SureSource {
    bytes: Vec<u8>,
    at: usize,
    ghost within: { at ≤ vec_len bytes },
}

impl SureSource {
    ghost use Rattle.castor_base.specs.Sources.{sure_left};

    /// A source with these bytes left.
    pub fn new(bytes: Vec<u8>) -> Self
        ensures { sure_left result ≡ bytes.items }
    {
        SureSource { bytes, at: 0 }
    }

    /// The bytes that are left.
    pub fn left(&self) -> &[u8]
        ensures { result.now ≡ sure_left self.now }
    {
        &self.bytes[self.at..]
    }
}

impl Source for SureSource {
    ghost use Rattle.castor_base.specs.Sources.{sure_left};

    ghost left = { λ s. Some (sure_left s) };

    ghost faults = { λ s. 0 };

    /// Takes as many bytes as are left and have room.
    fn take(&mut self, buf: &mut [u8]) -> Result<usize, Failed>
        ensures bound { ReadsAtMost result buf.new }
        ensures bytes { ReadConsumes (Some (sure_left self.old)) (Some (sure_left self.new)) result buf.new }
        ensures cause { HasCause 0 0 result }
        ensures full { IfOk result (λ n. n ≡ min (length (sure_left self.old)) (length buf.new)) }
        ensures sure { IsOk result }
    {
        let n = copy_front(&self.bytes[self.at..], buf);
        self.at += n;
        Ok(n)
    }
}

/// Bytes in memory, with a list of the calls of `take` that are to fail.
#[derive(Drop)]
pub struct MemorySource {
    bytes: SureSource,
    failing: FailingCalls,
}

impl MemorySource {
    ghost use Rattle.castor_base.specs.Failing.{failing_numbers, calls_seen, faults_seen};
    ghost use Rattle.castor_base.specs.Sources.{source_left, source_failing};

    /// A source with these bytes left. The calls to fail are given by number, counted from 0.
    pub fn new(bytes: Vec<u8>, failing: Vec<u64>) -> Self
        ensures left { source_left result ≡ bytes.items }
        ensures failing { failing_numbers (source_failing result) ≡ failing.items }
        ensures calls { calls_seen (source_failing result) ≡ 0 }
        ensures faults { faults_seen (source_failing result) ≡ 0 }
    {
        MemorySource {
            bytes: SureSource::new(bytes),
            failing: FailingCalls::new(failing),
        }
    }

    /// The bytes that are left.
    pub fn left(&self) -> &[u8]
        ensures { result.now ≡ source_left self.now }
    {
        self.bytes.left()
    }

    /// How many calls of `take` there were.
    pub(crate) fn calls(&self) -> u64
        ensures { result ≡ calls_seen (source_failing self.now) }
    {
        self.failing.seen()
    }

    /// How many of the calls failed.
    pub(crate) fn faults(&self) -> u64
        ensures { result ≡ faults_seen (source_failing self.now) }
    {
        self.failing.faults()
    }
}

impl Source for MemorySource {
    ghost use Rattle.castor_base.specs.Failing.{fails_next, faults_seen, CountsCall};
    ghost use Rattle.castor_base.specs.Sources.{source_left, source_failing};

    ghost left = { λ s. Some (source_left s) };

    ghost faults = { λ s. faults_seen (source_failing s) };

    /// Takes as many bytes as are left and have room. It fails exactly at the calls that are to.
    fn take(&mut self, buf: &mut [u8]) -> Result<usize, Failed>
        ensures bound { ReadsAtMost result buf.new }
        ensures bytes { ReadConsumes (Some (source_left self.old)) (Some (source_left self.new)) result buf.new }
        ensures cause { HasCause (faults_seen (source_failing self.old)) (faults_seen (source_failing self.new)) result }
        ensures full { IfOk result (λ n. n ≡ min (length (source_left self.old)) (length buf.new)) }
        ensures counts { CountsCall (source_failing self.old) (source_failing self.new) result }
        ensures only_planned { IsErr result → IsTrue (fails_next (source_failing self.old)) }
    {
        if self.failing.count_call() {
            self.failing.count_fault();
            return Err(Failed);
        }
        self.bytes.take(buf)
    }
}

/// One byte, over and over, that many times: a long input that takes no memory. No call fails.
#[derive(Drop)]
pub struct RepeatSource {
    byte: u8,
    left: u64,
}

impl RepeatSource {
    ghost use Rattle.castor_base.specs.Sources.{repeat_left};

    /// A source with the byte left `count` times.
    pub fn new(byte: u8, count: u64) -> Self
        ensures { repeat_left result ≡ replicate count byte }
    {
        RepeatSource { byte, left: count }
    }
}

impl Source for RepeatSource {
    ghost use Rattle.castor_base.specs.Sources.{repeat_left};

    ghost left = { λ s. Some (repeat_left s) };

    ghost faults = { λ s. 0 };

    /// Takes as many bytes as are left and have room.
    fn take(&mut self, buf: &mut [u8]) -> Result<usize, Failed>
        ensures bound { ReadsAtMost result buf.new }
        ensures bytes { ReadConsumes (Some (repeat_left self.old)) (Some (repeat_left self.new)) result buf.new }
        ensures cause { HasCause 0 0 result }
        ensures full { IfOk result (λ n. n ≡ min (length (repeat_left self.old)) (length buf.new)) }
        ensures sure { IsOk result }
    {
        let n = self.left.min(buf.len() as u64);
        buf[..n as usize].fill(self.byte);
        self.left -= n;
        Ok(n as usize)
    }
}
