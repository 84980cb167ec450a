//! The rule `order-drop`: rows are left as they come.

ghost use Rattle.castor_val.specs.Gives.{Gives};
ghost use Rattle.castor_alg.specs.declared.rule_error.RuleError.TheVariants as error;
ghost use Rattle.castor_flat.specs.OrderDrop.{order_drop};

use crate::forms::order_of;
use crate::making::given;
use castor_alg::{Rel, RuleError, copy};
use std::alloc::Global;

/// `orderby(ks, r)` becomes `r`. Linear in the relation.
pub fn order_drop(alloc: Global, query: &Rel) -> Result<Rel, RuleError>
    ensures { Gives (λ r. r) error.Memory (order_drop query.now) result }
{
    let Some((_, operand)) = order_of(query) else {
        return Err(RuleError::Shape);
    };
    given(copy(alloc, operand))
}
