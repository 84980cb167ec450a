//! Rules by name.

ghost use Rattle.std.specs.Prelude.{IfOk};
ghost use Rattle.castor_val.specs.Gives.{Gives};
ghost use Rattle.castor_alg.specs.Typing.{Typed};
ghost use Rattle.castor_alg.specs.Equivalence.{Equivalent};
ghost use Rattle.castor_alg.specs.declared.rule_error.RuleError.TheVariants as error;
ghost use Rattle.castor_flat.specs.Rules.{flat_row, plain_row};

use crate::dedup_twice::dedup_twice;
use crate::filter_concat::filter_concat;
use crate::filter_dedup::filter_dedup;
use crate::filter_group::filter_group;
use crate::filter_into_join::filter_into_join;
use crate::filter_join_left::filter_join_left;
use crate::filter_join_right::filter_join_right;
use crate::filter_merge::filter_merge;
use crate::filter_out_of_join::filter_out_of_join;
use crate::filter_split::filter_split;
use crate::filter_swap::filter_swap;
use crate::filter_under_select::filter_under_select;
use crate::join_commute::join_commute;
use crate::order_drop::order_drop;
use crate::order_under_filter::order_under_filter;
use crate::select_concat::select_concat;
use crate::select_merge::select_merge;
use crate::split::split;
use castor_alg::{Arg, Context, FlatRule, Rel, RuleError};
use std::alloc::Global;

/// What a rule makes of a relation: an equivalent one, well typed with the same column types. `fresh` is
/// a scope that no part of the relation has; these rules bind none.
///
/// `split` alone takes an argument: a condition over the relation's columns that reads nothing else.
/// The refusals come in this order, each exactly where the rule's row says so: `BadArgument` where the
/// argument isn't the rule's; `Shape` where the relation hasn't the form; `NotTotal` where a part that
/// the rule moves may fault. Else `Memory`. Linear in the relation.
pub fn apply(
    alloc: Global,
    rule: FlatRule,
    query: &Rel,
    arg: &Arg,
    _fresh: u32,
    types: &Context,
) -> Result<Rel, RuleError>
    requires typed { Typed query.now types.now }
    ensures row { Gives (λ r. r) error.Memory (flat_row rule arg.now types.now query.now) result }
    ensures keeps { IfOk result (λ r. Equivalent types.now query.now r) }
{
    rewritten(alloc, rule, query, arg, types)
}

fn rewritten(
    alloc: Global,
    rule: FlatRule,
    query: &Rel,
    arg: &Arg,
    types: &Context,
) -> Result<Rel, RuleError>
    ensures { Gives (λ r. r) error.Memory (flat_row rule arg.now types.now query.now) result }
{
    match (rule, arg) {
        (rule, Arg::Nothing) => plain(alloc, rule, query, types),
        (FlatRule::Split, Arg::Pred(p)) => split(alloc, query, p, types),
        (_, Arg::Pred(_)) => Err(RuleError::BadArgument),
    }
}

/// What a rule makes without an argument.
fn plain(alloc: Global, rule: FlatRule, query: &Rel, types: &Context) -> Result<Rel, RuleError>
    ensures { Gives (λ r. r) error.Memory (plain_row rule types.now query.now) result }
{
    match rule {
        FlatRule::FilterSplit => filter_split(alloc, query),
        FlatRule::FilterMerge => filter_merge(alloc, query),
        FlatRule::FilterSwap => filter_swap(alloc, query),
        FlatRule::FilterUnderSelect => filter_under_select(alloc, query),
        FlatRule::SelectMerge => select_merge(alloc, query),
        FlatRule::FilterIntoJoin => filter_into_join(alloc, query),
        FlatRule::FilterOutOfJoin => filter_out_of_join(alloc, query),
        FlatRule::FilterJoinLeft => filter_join_left(alloc, query, types.tables.as_slice()),
        FlatRule::FilterJoinRight => filter_join_right(alloc, query, types.tables.as_slice()),
        FlatRule::JoinCommute => join_commute(alloc, query, types.tables.as_slice()),
        FlatRule::FilterConcat => filter_concat(alloc, query),
        FlatRule::SelectConcat => select_concat(alloc, query),
        FlatRule::DedupTwice => dedup_twice(alloc, query),
        FlatRule::FilterDedup => filter_dedup(alloc, query),
        FlatRule::OrderDrop => order_drop(alloc, query),
        FlatRule::OrderUnderFilter => order_under_filter(alloc, query),
        FlatRule::FilterGroup => filter_group(alloc, query),
        FlatRule::Split => Err(RuleError::BadArgument),
    }
}
