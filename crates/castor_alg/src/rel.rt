//! Relations.

use crate::expr::Expr;
use sqlite_items::{Boxed, Items};

/// An aggregate over the rows of a group. `Sum`, `Min` and `Max` name a column, from 0.
#[derive(Clone, Copy, Debug, PartialEq, Eq)]
pub enum Agg {
    Count,
    Sum(u32),
    Min(u32),
    Max(u32),
}

/// A sorting key: a column, from 0, and whether it falls.
#[derive(Clone, Copy, Debug, PartialEq, Eq)]
pub struct Key {
    pub col: u32,
    pub desc: bool,
}

/// One end of the range of an ordered index.
#[derive(Drop)]
pub enum Bound {
    /// No limit.
    Any,
    /// Up to the value, which is in the range.
    Incl(Expr),
    /// Up to the value, which isn't.
    Excl(Expr),
}

/// A relation: a list of rows and a set of faults, under tables, the rows of the scopes in force, and
/// parameters.
///
/// In a binder (`DepJoin`, `List`, `Hash`, `Ord`) the number is the scope, the first relation is the
/// source and the second the body. The scope is bound to a row of the source in the body alone.
/// The operands of a relation are its relations, numbered from 0 as they are written here.
#[derive(Drop)]
pub enum Rel {
    /// A table, from 0.
    Table(u32),
    /// One row of one value.
    Scalar(Expr),
    /// All combinations of rows.
    Cross(Items<Rel>),
    /// The rows of one operand after those of another.
    Concat(Items<Rel>),
    Select(Items<Expr>, Boxed<Rel>),
    Filter(Expr, Boxed<Rel>),
    /// The pairs of rows on which the condition is true.
    Join(Expr, Boxed<Rel>, Boxed<Rel>),
    /// `depjoin`: the rows of the body under each row of the source.
    DepJoin(u32, Boxed<Rel>, Boxed<Rel>),
    /// `groupby`: the grouping keys, the aggregates, and what is grouped.
    Group(Items<u32>, Items<Agg>, Boxed<Rel>),
    /// `orderby`: the rows sorted stably by the keys.
    Order(Items<Key>, Boxed<Rel>),
    /// `dedup`: the distinct rows.
    Dedup(Boxed<Rel>),
    /// `list`: a stored list, what `DepJoin` gives.
    List(u32, Boxed<Rel>, Boxed<Rel>),
    /// `hash`, a hash index: the body under the row of the source that equals the values looked up.
    Hash(u32, Boxed<Rel>, Boxed<Rel>, Items<Expr>),
    /// `ordered`, an ordered index: the body under each distinct row of the source within a lower and an
    /// upper bound, ascending.
    Ord(u32, Boxed<Rel>, Boxed<Rel>, Bound, Bound),
}
