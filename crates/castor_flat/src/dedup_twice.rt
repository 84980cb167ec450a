//! The rule `dedup-twice`: the distinct rows of distinct rows are these.

ghost use Rattle.castor_val.specs.Gives.{Gives};
ghost use Rattle.castor_alg.specs.declared.rule_error.RuleError.TheVariants as error;
ghost use Rattle.castor_flat.specs.DedupTwice.{dedup_twice};

use crate::forms::dedup_of;
use crate::making::{dedup_over, given};
use castor_alg::{Rel, RuleError, copy};
use std::alloc::Global;

/// `dedup(dedup(r))` becomes `dedup(r)`. Linear in the relation.
pub fn dedup_twice(alloc: Global, query: &Rel) -> Result<Rel, RuleError>
    ensures { Gives (λ r. r) error.Memory (dedup_twice query.now) result }
{
    let Some(inner) = dedup_of(query) else {
        return Err(RuleError::Shape);
    };
    let Some(operand) = dedup_of(inner) else {
        return Err(RuleError::Shape);
    };
    given(dedup_over(alloc, copy(alloc, operand)))
}
