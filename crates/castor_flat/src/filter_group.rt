//! The rule `filter-group`: a filter by keys comes before the grouping.

ghost use Rattle.std.specs.Prelude.{◌≡◌, map, not};
ghost use Rattle.std.specs.List.{list_all};
ghost use Rattle.castor_val.specs.Gives.{Gives};
ghost use Rattle.castor_alg.specs.declared.expr.Expr.{Col};
ghost use Rattle.castor_alg.specs.declared.rule_error.RuleError.TheVariants as error;
ghost use Rattle.castor_alg.specs.Substitution.{subst_cols};
ghost use Rattle.castor_alg.specs.Totality.{is_sum};
ghost use Rattle.castor_flat.specs.FilterGroup.{filter_group, is_over_keys};
ghost use Rattle.castor_flat.specs.Making.{Makes};

use crate::columns::{columns_of, has_columns_within};
use crate::forms::{filter_of, group_of};
use crate::making::{filter_over, given, group_over};
use castor_alg::{Agg, Expr, Rel, RuleError, copy, is_total_expr, subst_cols};
use castor_val::Memory;
use std::alloc::Global;

/// `filter(p, groupby(ks, as, r))` becomes `groupby(ks, as, filter(p, r))`, in whose condition each `#i` is
/// the column of the `i`-th key. `Shape` comes, too, where there are no keys, where there is a sum, and
/// where a column of `p` isn't one of a key; `NotTotal` where `p` isn't total. Linear in the relation.
pub fn filter_group(alloc: Global, query: &Rel) -> Result<Rel, RuleError>
    ensures { Gives (λ r. r) error.Memory (filter_group query.now) result }
{
    let Some((condition, inner)) = filter_of(query) else {
        return Err(RuleError::Shape);
    };
    let Some((keys, aggs, operand)) = group_of(inner) else {
        return Err(RuleError::Shape);
    };
    if !is_over_keys(keys, aggs, condition) {
        return Err(RuleError::Shape);
    }
    if !is_total_expr(condition) {
        return Err(RuleError::NotTotal);
    }
    let filtered = filter_over(alloc, of_keys(alloc, condition, keys), copy(alloc, operand));
    given(group_over(alloc, keys, aggs, filtered))
}

/// A condition by the columns of keys.
fn of_keys(alloc: Global, condition: &Expr, keys: &[u32]) -> Result<Expr, Memory>
    ensures { Makes (subst_cols (map Col keys.now) condition.now) result }
{
    let columns = columns_of(alloc, keys)?;
    subst_cols(alloc, condition, columns.as_slice())
}

/// Whether there are keys and no sum, and the condition has columns of keys alone.
fn is_over_keys(keys: &[u32], aggs: &[Agg], condition: &Expr) -> bool
    ensures { result ≡ is_over_keys keys.now aggs.now condition.now }
{
    !keys.is_empty() && have_no_sum(aggs) && has_columns_within(condition, 0, keys.len() as u64)
}

fn have_no_sum(aggs: &[Agg]) -> bool
    ensures { result ≡ list_all (λ a. not (is_sum a)) aggs.now }
{
    aggs.iter().all(|agg| !is_sum(*agg))
}

fn is_sum(agg: Agg) -> bool
    ensures { result ≡ is_sum agg }
{
    matches!(agg, Agg::Sum(_))
}
