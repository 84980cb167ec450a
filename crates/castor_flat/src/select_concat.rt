//! The rule `select-concat`: a projection goes into each operand of a concatenation.

ghost use Rattle.std.specs.Prelude.{map};
ghost use Rattle.castor_val.specs.Gives.{Gives};
ghost use Rattle.castor_alg.specs.declared.rel.Rel.{Select};
ghost use Rattle.castor_alg.specs.declared.rule_error.RuleError.TheVariants as error;
ghost use Rattle.castor_flat.specs.Making.{Makes};
ghost use Rattle.castor_flat.specs.SelectConcat.{select_concat};

use crate::forms::{concat_of, select_of};
use crate::making::{concat_over, given, select_over};
use castor_alg::{Expr, Rel, RuleError, copy, copy_exprs};
use castor_val::Memory;
use sqlite_items::Items;
use std::alloc::Global;

/// `select(es, concat(r1, .., rn))` becomes `concat(select(es, r1), .., select(es, rn))`. Linear in what is
/// made.
pub fn select_concat(alloc: Global, query: &Rel) -> Result<Rel, RuleError>
    ensures { Gives (λ r. r) error.Memory (select_concat query.now) result }
{
    let Some((items, inner)) = select_of(query) else {
        return Err(RuleError::Shape);
    };
    let Some(operands) = concat_of(inner) else {
        return Err(RuleError::Shape);
    };
    given(concat_over(select_over_each(alloc, items, operands)))
}

fn select_over_each(alloc: Global, items: &[Expr], rs: &[Rel]) -> Result<Items<Rel>, Memory>
    ensures { Makes (map (Select items.now) rs.now) result }
{
    let mut selects = Items::new(alloc);
    for r in rs {
        selects.push(select_copy(alloc, items, r)?)?;
    }
    Ok(selects)
}

fn select_copy(alloc: Global, items: &[Expr], r: &Rel) -> Result<Rel, Memory>
    ensures { Makes (Select items.now r.now) result }
{
    select_over(alloc, copy_exprs(alloc, items), copy(alloc, r))
}
