// Sinks in memory.
ghost use Rattle.std.specs.Prelude.{◌≡◌, ◌⊎◌, ◌+◌, Some, None, length, IsOk, IsErr, IfOk, IsTrue};
ghost use Rattle.std.specs.Io.{WritesAtMost};
ghost use Rattle.std.specs.Io.KnownBytes.{WriteAppends};
ghost use Rattle.castor_base.specs.Causes.{HasCause, counted};

use crate::failing::FailingCalls;
use crate::{Failed, Sink};

/// What was given, in memory, with a list of the calls of `put` that are to fail.
///
/// It grows by the allocator of the vector that it was made with.
#[derive(Drop)]
pub struct MemorySink {
    bytes: Vec<u8>,
    failing: FailingCalls,
}

impl MemorySink {
    ghost use Rattle.castor_base.specs.Failing.{failing_numbers, calls_seen, faults_seen};
    ghost use Rattle.castor_base.specs.Sinks.{sink_given, sink_failing};

    /// A sink that was given these bytes. The calls to fail are given by number, counted from 0.
    pub fn new(given: Vec<u8>, failing: Vec<u64>) -> Self
        ensures given { sink_given result ≡ given.items }
        ensures failing { failing_numbers (sink_failing result) ≡ failing.items }
        ensures calls { calls_seen (sink_failing result) ≡ 0 }
        ensures faults { faults_seen (sink_failing result) ≡ 0 }
    {
        MemorySink {
            bytes: given,
            failing: FailingCalls::new(failing),
        }
    }

    /// All bytes that were given.
    pub fn given(&self) -> &[u8]
        ensures { result.now ≡ sink_given self.now }
    {
        &self.bytes
    }

    /// How many calls of `put` there were.
    pub(crate) fn calls(&self) -> u64
        ensures { result ≡ calls_seen (sink_failing self.now) }
    {
        self.failing.seen()
    }

    /// How many of the calls failed.
    pub(crate) fn faults(&self) -> u64
        ensures { result ≡ faults_seen (sink_failing self.now) }
    {
        self.failing.faults()
    }
}

impl Sink for MemorySink {
    ghost use Rattle.castor_base.specs.Failing.{fails_next, faults_seen, CountsCall};
    ghost use Rattle.castor_base.specs.Sinks.{sink_given, sink_failing, HasToGrow};

    ghost given = { λ s. Some (sink_given s) };

    ghost faults = { λ s. faults_seen (sink_failing s) };

    /// Takes the piece whole. It fails exactly at the calls that are to and where its vector has
    /// to grow and no memory is found.
    fn put(&mut self, bytes: &[u8]) -> Result<usize, Failed>
        ensures bound { WritesAtMost result bytes.now }
        ensures some { IfOk result (λ n. n ≡ 0 → length bytes.now ≡ 0) }
        ensures bytes { WriteAppends (Some (sink_given self.old)) (Some (sink_given self.new)) result bytes.now }
        ensures cause { HasCause (faults_seen (sink_failing self.old)) (faults_seen (sink_failing self.new)) result }
        ensures whole { IfOk result (λ n. n ≡ length bytes.now) }
        ensures counts { CountsCall (sink_failing self.old) (sink_failing self.new) result }
        ensures only_planned { IsErr result → IsTrue (fails_next (sink_failing self.old)) ⊎ HasToGrow self.old bytes.now }
    {
        if self.failing.count_call() {
            self.failing.count_fault();
            return Err(Failed);
        }
        if self.bytes.extend_from_slice(bytes).is_err() {
            self.failing.count_fault();
            return Err(Failed);
        }
        Ok(bytes.len())
    }
}

/// The number of the bytes that were given, and nothing of them. No call fails.
#[derive(Drop)]
pub struct CountSink {
    count: u64,
}

impl CountSink {
    ghost use Rattle.castor_base.specs.Sinks.{count_of};

    /// A sink that was given nothing.
    pub fn new() -> Self
        ensures { count_of result ≡ 0 }
    {
        CountSink { count: 0 }
    }

    /// How many bytes were given. The number stops at 2^64 - 1.
    pub fn count(&self) -> u64
        ensures { result ≡ count_of self.now }
    {
        self.count
    }
}

impl Sink for CountSink {
    ghost use Rattle.castor_base.specs.Sinks.{count_of};

    ghost given = { λ s. None };

    ghost faults = { λ s. 0 };

    /// Takes the piece whole.
    fn put(&mut self, bytes: &[u8]) -> Result<usize, Failed>
        ensures bound { WritesAtMost result bytes.now }
        ensures some { IfOk result (λ n. n ≡ 0 → length bytes.now ≡ 0) }
        ensures bytes { WriteAppends None None result bytes.now }
        ensures cause { HasCause 0 0 result }
        ensures whole { IfOk result (λ n. n ≡ length bytes.now) }
        ensures count { count_of self.new ≡ counted (count_of self.old + length bytes.now) }
        ensures sure { IsOk result }
    {
        self.count = self.count.saturating_add(bytes.len() as u64);
        Ok(bytes.len())
    }
}
