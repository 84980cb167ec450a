//! Build time and question time.

/// When a part of a query is computed, and when the row of a scope is known.
#[derive(Clone, Copy, Debug, PartialEq, Eq)]
pub enum Phase {
    /// As the data is built, over the tables.
    Build,
    /// As a question comes, over its parameters and the held data.
    Run,
}
