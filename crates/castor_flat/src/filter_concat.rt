//! The rule `filter-concat`: a filter goes into each operand of a concatenation.

ghost use Rattle.std.specs.Prelude.{map};
ghost use Rattle.castor_val.specs.Gives.{Gives};
ghost use Rattle.castor_alg.specs.declared.rel.Rel.{Filter};
ghost use Rattle.castor_alg.specs.declared.rule_error.RuleError.TheVariants as error;
ghost use Rattle.castor_flat.specs.FilterConcat.{filter_concat};
ghost use Rattle.castor_flat.specs.Making.{Makes};

use crate::forms::{concat_of, filter_of};
use crate::making::{concat_over, filter_over, given};
use castor_alg::{Expr, Rel, RuleError, copy, copy_expr};
use castor_val::Memory;
use sqlite_items::Items;
use std::alloc::Global;

/// `filter(p, concat(r1, .., rn))` becomes `concat(filter(p, r1), .., filter(p, rn))`. Linear in what is
/// made.
pub fn filter_concat(alloc: Global, query: &Rel) -> Result<Rel, RuleError>
    ensures { Gives (λ r. r) error.Memory (filter_concat query.now) result }
{
    let Some((condition, inner)) = filter_of(query) else {
        return Err(RuleError::Shape);
    };
    let Some(operands) = concat_of(inner) else {
        return Err(RuleError::Shape);
    };
    given(concat_over(filter_over_each(alloc, condition, operands)))
}

fn filter_over_each(alloc: Global, condition: &Expr, rs: &[Rel]) -> Result<Items<Rel>, Memory>
    ensures { Makes (map (Filter condition.now) rs.now) result }
{
    let mut filters = Items::new(alloc);
    for r in rs {
        filters.push(filter_copy(alloc, condition, r)?)?;
    }
    Ok(filters)
}

fn filter_copy(alloc: Global, condition: &Expr, r: &Rel) -> Result<Rel, Memory>
    ensures { Makes (Filter condition.now r.now) result }
{
    filter_over(alloc, copy_expr(alloc, condition), copy(alloc, r))
}
