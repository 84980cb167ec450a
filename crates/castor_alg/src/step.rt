//! Scripts: the steps that rewrite a query into its layout, and the names of the rewrite rules.

use crate::expr::Expr;
use sqlite_items::Items;

/// The rules on relations without binders, in the order of their numbers, which are 1 to 18.
#[derive(Clone, Copy, Debug, PartialEq, Eq)]
pub enum FlatRule {
    FilterSplit,
    FilterMerge,
    FilterSwap,
    FilterUnderSelect,
    SelectMerge,
    FilterIntoJoin,
    FilterOutOfJoin,
    FilterJoinLeft,
    FilterJoinRight,
    JoinCommute,
    Split,
    FilterConcat,
    SelectConcat,
    DedupTwice,
    FilterDedup,
    OrderDrop,
    OrderUnderFilter,
    FilterGroup,
}

/// The rules that make, move or drop a binder, in the order of their numbers, which are 19 to 30.
#[derive(Clone, Copy, Debug, PartialEq, Eq)]
pub enum NestRule {
    Store,
    DepToList,
    ListToDep,
    JoinToDep,
    Into,
    FilterToSource,
    Assoc,
    GroupToDep,
    FilterToHash,
    FilterToOrdered,
    ThroughSelect,
    OrderIntoList,
}

/// A rewrite rule.
#[derive(Clone, Copy, Debug, PartialEq, Eq)]
pub enum RuleId {
    Flat(FlatRule),
    Nest(NestRule),
}

/// What a step gives its rule: `Split` takes a predicate, every other rule nothing.
#[derive(Drop)]
pub enum Arg {
    Nothing,
    Pred(Expr),
}

/// A step of a script.
#[derive(Drop)]
pub enum Step {
    /// Rewrites the relation at a path by a rule. The path has the numbers of operands, from the root
    /// downwards.
    At {
        path: Items<u32>,
        rule: RuleId,
        arg: Arg,
    },
    /// Lets the cost choose, for at most this many turns.
    Auto(u32),
    /// Stores whatever doesn't depend on the question.
    Finish,
}
