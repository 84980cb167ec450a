//! The rule `filter-join-right`: a filter over a join goes to its right operand.

ghost use Rattle.std.specs.Prelude.{◌+◌, ◌<◌, ◌^◌};
ghost use Rattle.castor_val.specs.Gives.{Gives};
ghost use Rattle.castor_alg.specs.declared.rule_error.RuleError.TheVariants as error;
ghost use Rattle.castor_alg.specs.Substitution.{subst_cols};
ghost use Rattle.castor_flat.specs.Columns as columns;
ghost use Rattle.castor_flat.specs.FilterJoinRight.{filter_join_right, to_right};
ghost use Rattle.castor_flat.specs.Making.{Makes};

use crate::columns::{has_columns_within, over_second, widths};
use crate::forms::{filter_of, join_of};
use crate::making::{filter_over, given, join_over};
use castor_alg::{Expr, Rel, RuleError, copy, copy_expr, is_total_expr, subst_cols};
use castor_val::{Memory, Ty};
use sqlite_items::Items;
use std::alloc::Global;

/// `filter(p, join(c, r, s))` becomes `join(c, r, filter(p, s))`, in whose condition each column has the
/// number that it has in `s`. `Shape` comes, too, where a column of `p` isn't one of `s`, and `NotTotal`
/// where `p` or `c` isn't total. Linear in the relation.
pub fn filter_join_right(alloc: Global, query: &Rel, tables: &[Items<Ty>]) -> Result<Rel, RuleError>
    ensures { Gives (λ r. r) error.Memory (filter_join_right tables.now query.now) result }
{
    let Some((condition, inner)) = filter_of(query) else {
        return Err(RuleError::Shape);
    };
    let Some((joining, left, right)) = join_of(inner) else {
        return Err(RuleError::Shape);
    };
    let (first, second) = widths(left, right, tables)?;
    to_right(alloc, first, second, condition, joining, left, right)
}

/// The filter by a condition over the right operand, where the operands have so many columns.
fn to_right(
    alloc: Global,
    first: u32,
    second: u32,
    condition: &Expr,
    joining: &Expr,
    left: &Rel,
    right: &Rel,
) -> Result<Rel, RuleError>
    requires { first + second < 2 ^ 32 }
    ensures { Gives (λ r. r) error.Memory (to_right first second condition.now joining.now left.now right.now) result }
{
    if !has_columns_within(condition, first as u64, (first + second) as u64) {
        return Err(RuleError::Shape);
    }
    if !(is_total_expr(condition) && is_total_expr(joining)) {
        return Err(RuleError::NotTotal);
    }
    let lowered = lowered(alloc, condition, first, second);
    let right = filter_over(alloc, lowered, copy(alloc, right));
    let joining = copy_expr(alloc, joining);
    given(join_over(alloc, joining, copy(alloc, left), right))
}

/// A condition over the second of two operands, by the numbers of columns there.
fn lowered(alloc: Global, condition: &Expr, left: u32, right: u32) -> Result<Expr, Memory>
    ensures { Makes (subst_cols (columns.over_second left right) condition.now) result }
{
    let columns = over_second(alloc, left, right)?;
    subst_cols(alloc, condition, columns.as_slice())
}
