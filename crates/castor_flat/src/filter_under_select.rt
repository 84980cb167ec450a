//! The rule `filter-under-select`: a filter goes below a projection.

ghost use Rattle.castor_val.specs.Gives.{Gives};
ghost use Rattle.castor_alg.specs.declared.rule_error.RuleError.TheVariants as error;
ghost use Rattle.castor_flat.specs.FilterUnderSelect.{filter_under_select};

use crate::forms::{filter_of, select_of};
use crate::items::are_total;
use crate::making::{filter_over, given, select_over};
use castor_alg::{Rel, RuleError, copy, copy_exprs, subst_cols};
use std::alloc::Global;

/// `filter(p, select(es, r))` becomes `select(es, filter(p, r))`, in whose condition each `#i` is the `i`-th
/// of `es`. `NotTotal` comes where one of `es` isn't total. Linear in what is made.
pub fn filter_under_select(alloc: Global, query: &Rel) -> Result<Rel, RuleError>
    ensures { Gives (λ r. r) error.Memory (filter_under_select query.now) result }
{
    let Some((condition, inner)) = filter_of(query) else {
        return Err(RuleError::Shape);
    };
    let Some((items, operand)) = select_of(inner) else {
        return Err(RuleError::Shape);
    };
    if !are_total(items) {
        return Err(RuleError::NotTotal);
    }
    let condition = subst_cols(alloc, condition, items);
    let filtered = filter_over(alloc, condition, copy(alloc, operand));
    given(select_over(alloc, copy_exprs(alloc, items), filtered))
}
