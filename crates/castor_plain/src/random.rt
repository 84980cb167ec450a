//! Numbers from a seed.

ghost use Rattle.std.specs.Prelude.{◌<◌};

/// A sequence of numbers that looks random and is the same for one seed: the xorshift generator of
/// 64 bits with the shifts 13, 7 and 17 (Marsaglia, "Xorshift RNGs", 2003).
#[derive(Clone, Copy)]
pub struct Random {
    state: u64,
}

impl Random {
    /// The sequence of a seed.
    pub fn new(seed: u64) -> Random {
        Random { state: seed }
    }

    fn next(&mut self) -> u64 {
        let mut x = self.state;
        x ^= x << 13;
        x ^= x >> 7;
        x ^= x << 17;
        self.state = x;
        x >> 16
    }

    /// The next number, below a limit.
    pub fn below(&mut self, limit: u32) -> u32
        requires { 0 < limit }
        ensures { result < limit }
    {
        (self.next() % u64::from(limit)) as u32
    }
}
