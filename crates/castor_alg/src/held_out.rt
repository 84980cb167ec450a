//! What a relation stores.

use crate::held::Held;
use castor_val::Faults;

/// The tree of values that a relation stores, and the faults of all sources and scalars that were met.
/// Where there are faults, leaves that stand for scalars that fault hold `false`.
#[derive(Drop)]
pub struct HeldOut {
    pub held: Held,
    pub faults: Faults,
}
