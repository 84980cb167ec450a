//! The rule `select-merge`: two projections become one.

ghost use Rattle.castor_val.specs.Gives.{Gives};
ghost use Rattle.castor_alg.specs.declared.rule_error.RuleError.TheVariants as error;
ghost use Rattle.castor_flat.specs.SelectMerge.{select_merge};

use crate::forms::select_of;
use crate::items::{are_total, replaced_in_each};
use crate::making::{given, select_over};
use castor_alg::{Rel, RuleError, copy};
use std::alloc::Global;

/// `select(es, select(fs, r))` becomes `select(es, r)`, in whose items each `#i` is the `i`-th of `fs`.
/// `NotTotal` comes where one of `fs` isn't total. Linear in what is made.
pub fn select_merge(alloc: Global, query: &Rel) -> Result<Rel, RuleError>
    ensures { Gives (λ r. r) error.Memory (select_merge query.now) result }
{
    let Some((outer, inner)) = select_of(query) else {
        return Err(RuleError::Shape);
    };
    let Some((items, operand)) = select_of(inner) else {
        return Err(RuleError::Shape);
    };
    if !are_total(items) {
        return Err(RuleError::NotTotal);
    }
    let merged = replaced_in_each(alloc, outer, items);
    given(select_over(alloc, merged, copy(alloc, operand)))
}
