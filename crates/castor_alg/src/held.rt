//! Held data: the tree of values that is stored for a query.

use castor_val::{Row, Value};
use sqlite_items::{Boxed, Items};

/// Stored values, in the shape of the relation that they are stored for.
#[cycle(held)]
#[derive(Drop)]
pub enum Held {
    /// The value of a scalar.
    Leaf(Value),
    /// One part for each operand of a `Cross`, `Concat` or `DepJoin`.
    Parts(Items<Held>),
    /// One child for each row of the source of a `List`.
    Rows(Items<Held>),
    /// One entry for each distinct row of the source of a `Hash` or `Ord`, ascending by key.
    Keyed(Items<Entry>),
    /// What the operand of a `Select`, `Filter`, `Group`, `Order` or `Dedup` stores.
    Inner(Boxed<Held>),
}

/// A key of an index, and what is stored under it.
#[cycle(held)]
#[derive(Drop)]
pub struct Entry {
    pub key: Row,
    pub kid: Held,
}
