//! The type of reader code.

use castor_alg::{Agg, Bound, Expr, Key};
use sqlite_items::{Boxed, Items};

/// The numbers from `lo` to `hi`, both included.
#[derive(Clone, Copy, Debug, PartialEq, Eq)]
pub struct Range {
    pub lo: u64,
    pub hi: u64,
}

/// How stored data is read: a relation whose rows stand in bytes.
///
/// `count` is the range of the number of children or entries, and `body` that of the number of their
/// bytes.
#[derive(Drop)]
pub enum Code {
    /// One row of an int, which is at least `lo` and at most `hi`.
    Int {
        lo: i64,
        hi: i64,
    },
    /// One row of a bool.
    Bool,
    /// One row of a text, which has at least `min` and at most `max` bytes.
    Text {
        min: u16,
        max: u16,
    },
    /// All combinations of rows.
    Cross(Items<Code>),
    /// The rows of one kid after those of another.
    Concat(Items<Code>),
    /// The rows of each child in turn.
    List {
        count: Range,
        body: Range,
        kid: Boxed<Code>,
    },
    /// The rows of the child whose key equals the values of `by`. `key` has a code for each column of
    /// the key.
    Hash {
        count: Range,
        body: Range,
        key: Items<Code>,
        kid: Boxed<Code>,
        by: Items<Expr>,
    },
    /// The rows of each child whose key is within a lower and an upper bound, ascending.
    Ord {
        count: Range,
        body: Range,
        key: Boxed<Code>,
        kid: Boxed<Code>,
        lo: Bound,
        hi: Bound,
    },
    Select(Items<Expr>, Boxed<Code>),
    Filter(Expr, Boxed<Code>),
    /// The scope, what is read first, and what is read under each row of the first.
    Dep(u32, Boxed<Code>, Boxed<Code>),
    /// The grouping keys, the aggregates, and what is grouped.
    Group(Items<u32>, Items<Agg>, Boxed<Code>),
    Order(Items<Key>, Boxed<Code>),
    /// The distinct rows.
    Dedup(Boxed<Code>),
}
