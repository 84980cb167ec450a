//! The faults that the evaluation of a query can meet, and sets of them.

ghost use Rattle.std.specs.Prelude.{◌≡◌, ◌↔◌, IsTrue, not};
ghost use Rattle.castor_val.specs.Values.{has_fault, has_faults, no_faults, union};

/// Why an expression or an aggregate has no value.
#[derive(Clone, Copy, Debug, PartialEq, Eq)]
pub enum Fault {
    /// A division or a remainder by zero.
    Division,
    /// A whole number that is no int.
    Overflow,
    /// The least or the greatest value of no rows, which a fault line calls `norows`.
    NoRows,
}

/// A set of faults: for each kind, whether the set has it.
#[derive(Clone, Copy, Debug, PartialEq, Eq)]
pub struct Faults {
    /// Whether it has `Fault::Division`.
    pub division: bool,
    /// Whether it has `Fault::Overflow`.
    pub overflow: bool,
    /// Whether it has `Fault::NoRows`.
    pub norows: bool,
}

impl Faults {
    /// The empty set.
    pub const NONE: Faults = Faults {
        division: false,
        overflow: false,
        norows: false,
    };

    /// The set of `Fault::Division` alone.
    pub const DIVISION: Faults = Faults {
        division: true,
        overflow: false,
        norows: false,
    };

    /// The set of `Fault::Overflow` alone.
    pub const OVERFLOW: Faults = Faults {
        division: false,
        overflow: true,
        norows: false,
    };

    /// The set of `Fault::NoRows` alone.
    pub const NOROWS: Faults = Faults {
        division: false,
        overflow: false,
        norows: true,
    };

    /// Whether the set has a fault.
    pub fn contains(self, fault: Fault) -> bool
        ensures { result ≡ has_fault self fault }
    {
        match fault {
            Fault::Division => self.division,
            Fault::Overflow => self.overflow,
            Fault::NoRows => self.norows,
        }
    }

    /// The faults that are in either set.
    pub fn union(self, more: Faults) -> Faults
        ensures { result ≡ union self more }
    {
        Faults {
            division: self.division || more.division,
            overflow: self.overflow || more.overflow,
            norows: self.norows || more.norows,
        }
    }

    /// Whether the set has no fault.
    pub fn is_empty(self) -> bool
        ensures test { result ≡ not (has_faults self) }
        ensures none { IsTrue result ↔ (self ≡ no_faults) }
    {
        !(self.division || self.overflow || self.norows)
    }
}

/// The set of a fault alone.
impl From<Fault> for Faults {
    ghost use Rattle.castor_val.specs.Values.{fault_set};

    ghost from_gives = { λ fault set. set ≡ fault_set fault };

    fn from(fault: Fault) -> Faults {
        match fault {
            Fault::Division => Faults::DIVISION,
            Fault::Overflow => Faults::OVERFLOW,
            Fault::NoRows => Faults::NOROWS,
        }
    }
}
