//! The rule `filter-join-left`: a filter over a join goes to its left operand.

ghost use Rattle.castor_val.specs.Gives.{Gives};
ghost use Rattle.castor_alg.specs.declared.rule_error.RuleError.TheVariants as error;
ghost use Rattle.castor_flat.specs.FilterJoinLeft.{filter_join_left, to_left};

use crate::columns::{has_columns_within, widths};
use crate::forms::{filter_of, join_of};
use crate::making::{filter_over, given, join_over};
use castor_alg::{Expr, Rel, RuleError, copy, copy_expr, is_total_expr};
use castor_val::Ty;
use sqlite_items::Items;
use std::alloc::Global;

/// `filter(p, join(c, r, s))` becomes `join(c, filter(p, r), s)`. `Shape` comes, too, where a column of `p`
/// isn't one of `r`, and `NotTotal` where `p` or `c` isn't total. Linear in the relation.
pub fn filter_join_left(alloc: Global, query: &Rel, tables: &[Items<Ty>]) -> Result<Rel, RuleError>
    ensures { Gives (λ r. r) error.Memory (filter_join_left tables.now query.now) result }
{
    let Some((condition, inner)) = filter_of(query) else {
        return Err(RuleError::Shape);
    };
    let Some((joining, left, right)) = join_of(inner) else {
        return Err(RuleError::Shape);
    };
    let (first, _) = widths(left, right, tables)?;
    to_left(alloc, first, condition, joining, left, right)
}

/// The filter by a condition over the left operand, which has so many columns.
fn to_left(
    alloc: Global,
    first: u32,
    condition: &Expr,
    joining: &Expr,
    left: &Rel,
    right: &Rel,
) -> Result<Rel, RuleError>
    ensures { Gives (λ r. r) error.Memory (to_left first condition.now joining.now left.now right.now) result }
{
    if !has_columns_within(condition, 0, first as u64) {
        return Err(RuleError::Shape);
    }
    if !(is_total_expr(condition) && is_total_expr(joining)) {
        return Err(RuleError::NotTotal);
    }
    let left = filter_over(alloc, copy_expr(alloc, condition), copy(alloc, left));
    let joining = copy_expr(alloc, joining);
    given(join_over(alloc, joining, left, copy(alloc, right)))
}
