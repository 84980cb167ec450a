//! Refusals to hold data.

use castor_val::Faults;

/// Why no data is held for a query.
#[derive(Clone, Copy, Debug, PartialEq, Eq)]
pub enum HoldError {
    /// Sources or scalars fault: the faults of all that are met.
    Faults(Faults),
    Memory,
}
