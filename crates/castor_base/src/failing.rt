// Which calls of an object in memory are to fail.
ghost use Rattle.std.specs.Prelude.{◌≡◌, ◌≤◌};
ghost use Rattle.castor_base.specs.Causes.{Rose};

/// The calls of an object in memory that are to fail, by their numbers counted from 0, and the
/// object's counts of calls and of faults. Both counts stop at 2^64 - 1.
#[derive(Drop)]
pub(crate) struct FailingCalls {
    numbers: Vec<u64>,
    seen: u64,
    faults: u64,
}

impl FailingCalls {
    ghost use Rattle.castor_base.specs.Failing.{failing_numbers, calls_seen, faults_seen, fails_next, after_call, after_fault};

    /// No call was made yet. The numbers stand in any order.
    pub(crate) fn new(numbers: Vec<u64>) -> Self
        ensures numbers { failing_numbers result ≡ numbers.items }
        ensures seen { calls_seen result ≡ 0 }
        ensures faults { faults_seen result ≡ 0 }
    {
        FailingCalls {
            numbers,
            seen: 0,
            faults: 0,
        }
    }

    /// How many calls there were.
    pub(crate) fn seen(&self) -> u64
        ensures { result ≡ calls_seen self.now }
    {
        self.seen
    }

    /// How many faults were counted.
    pub(crate) fn faults(&self) -> u64
        ensures { result ≡ faults_seen self.now }
    {
        self.faults
    }

    /// Counts a call, and answers whether it is to fail. Linear in the numbers.
    pub(crate) fn count_call(&mut self) -> bool
        ensures listed { result ≡ fails_next self.old }
        ensures after { self.new ≡ after_call self.old }
        ensures faults { faults_seen self.new ≡ faults_seen self.old }
    {
        let fails = self.numbers.contains(&self.seen);
        self.seen = self.seen.saturating_add(1);
        fails
    }

    /// Counts a fault.
    pub(crate) fn count_fault(&mut self)
        ensures after { self.new ≡ after_fault self.old }
        ensures rose { Rose (faults_seen self.old) (faults_seen self.new) }
        ensures later { faults_seen self.old ≤ faults_seen self.new }
    {
        self.faults = self.faults.saturating_add(1);
    }
}
