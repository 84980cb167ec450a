//! What a relation gives.

use castor_val::{Faults, Table};

/// The rows of a relation, in order, and its faults.
#[derive(Drop)]
pub struct Out {
    pub rows: Table,
    pub faults: Faults,
}
