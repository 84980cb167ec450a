//! The rule `join-commute`: the operands of a join change places.

ghost use Rattle.std.specs.Prelude.{◌+◌, ◌<◌, ◌^◌};
ghost use Rattle.castor_val.specs.Gives.{Gives};
ghost use Rattle.castor_alg.specs.declared.rule_error.RuleError.TheVariants as error;
ghost use Rattle.castor_flat.specs.Columns.{changed_places};
ghost use Rattle.castor_flat.specs.JoinCommute.{commuted, join_commute};
ghost use Rattle.castor_flat.specs.Making.{Makes};

use crate::columns::{changed_places, widths};
use crate::forms::join_of;
use crate::making::{given, join_over, select_over};
use castor_alg::{Expr, Rel, RuleError, copy, copy_exprs, subst_cols};
use castor_val::{Memory, Ty};
use sqlite_items::Items;
use std::alloc::Global;

/// `join(c, r, s)` becomes a projection of `join(c, s, r)` to the columns of `r` and then those of `s`, which
/// `c` reads in their new places. Linear in the relation.
pub fn join_commute(alloc: Global, query: &Rel, tables: &[Items<Ty>]) -> Result<Rel, RuleError>
    ensures { Gives (λ r. r) error.Memory (join_commute tables.now query.now) result }
{
    let Some((condition, left, right)) = join_of(query) else {
        return Err(RuleError::Shape);
    };
    let (first, second) = widths(left, right, tables)?;
    given(commuted(alloc, first, second, condition, left, right))
}

/// The projection of the join whose operands, of so many columns, have changed places.
fn commuted(
    alloc: Global,
    first: u32,
    second: u32,
    condition: &Expr,
    left: &Rel,
    right: &Rel,
) -> Result<Rel, Memory>
    requires { second + first < 2 ^ 32 }
    ensures { Makes (commuted (changed_places first second) condition.now left.now right.now) result }
{
    let columns = changed_places(alloc, first, second)?;
    projected(alloc, columns.as_slice(), condition, left, right)
}

fn projected(
    alloc: Global,
    columns: &[Expr],
    condition: &Expr,
    left: &Rel,
    right: &Rel,
) -> Result<Rel, Memory>
    ensures { Makes (commuted columns.now condition.now left.now right.now) result }
{
    let condition = subst_cols(alloc, condition, columns);
    let joined = join_over(alloc, condition, copy(alloc, right), copy(alloc, left));
    select_over(alloc, copy_exprs(alloc, columns), joined)
}
