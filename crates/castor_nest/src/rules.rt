//! Rules by name.

ghost use Rattle.std.specs.Prelude.{◌≡◌, ◌<◌, All, IfOk};
ghost use Rattle.castor_val.specs.Gives.{Gives};
ghost use Rattle.castor_alg.specs.declared.step.NestRule.TheVariants.{Store};
ghost use Rattle.castor_alg.specs.FreshScope.{scope_numbers};
ghost use Rattle.castor_alg.specs.Typing.{Typed};
ghost use Rattle.castor_alg.specs.Equivalence.{Equivalent};
ghost use Rattle.castor_alg.specs.declared.rule_error.RuleError.TheVariants as error;
ghost use Rattle.castor_nest.specs.Store.{store_row, stored};

use crate::store::store_rows;
use castor_alg::{Arg, Context, NestRule, Rel, RuleError, copy};
use castor_val::{Memory, Ty};
use sqlite_items::Items;
use std::alloc::Global;

/// What a rule makes of a relation: an equivalent one, well typed with the same column types. `fresh` is
/// the scope that a new binder gets.
///
/// `Store` is the one rule that is written yet. It takes every relation; `BadArgument` comes exactly where
/// it is given an argument. Linear in the relation.
pub fn apply(
    alloc: Global,
    rule: NestRule,
    query: &Rel,
    arg: &Arg,
    fresh: u32,
    types: &Context,
) -> Result<Rel, RuleError>
    requires written { rule ≡ Store }
    requires typed { Typed query.now types.now }
    requires above { All (λ k. k < fresh) (scope_numbers query.now) }
    ensures row { Gives (λ r. r) error.Memory (store_row arg.now fresh types.now query.now) result }
    ensures keeps { IfOk result (λ r. Equivalent types.now query.now r) }
{
    match rule {
        NestRule::Store => match arg {
            Arg::Nothing => Ok(store_copy(alloc, query, fresh, types.tables.as_slice())?),
            Arg::Pred(_) => Err(RuleError::BadArgument),
        },
        _ => unreachable!(),
    }
}

fn store_copy(alloc: Global, query: &Rel, fresh: u32, tables: &[Items<Ty>]) -> Result<Rel, Memory>
    ensures { IfOk result (λ r. r ≡ stored tables.now fresh query.now) }
{
    store_rows(alloc, copy(alloc, query)?, fresh, tables)
}
