//! Limits of the look-up of a range, with their values.

ghost use Rattle.std.specs.Prelude.{◌≡◌, map};
ghost use Rattle.castor_val.specs.Values.{value_of};
ghost use Rattle.castor_alg.specs.Indexes.{lower, upper};
ghost use Rattle.castor_alg.specs.Scopes.{scopes_of};
ghost use Rattle.castor_eval.specs.Ranges.{above, below, lower_of, upper_of};

use castor_alg::{Bound, Env, value};
use castor_val::{Cell, Faults, compare};

/// One end of a range, with its value.
#[derive(Clone, Copy)]
pub enum Limit<'a> {
    Any,
    Incl(Cell<'a>),
    Excl(Cell<'a>),
}

/// The value of a lower bound.
pub fn lower_limit<'e, 'a>(
    bound: &'a Bound,
    env: &Env<'e, 'a>,
    params: &[Cell<'a>],
) -> Result<Limit<'a>, Faults>
    ensures { lower_of result ≡ lower bound.now (scopes_of env.now) (map value_of params.now) }
{
    match bound {
        Bound::Any => Ok(Limit::Any),
        Bound::Incl(e) => match value(e, &[], env, params) {
            Ok(cell) => Ok(Limit::Incl(cell)),
            Err(faults) => Err(faults),
        },
        Bound::Excl(e) => match value(e, &[], env, params) {
            Ok(cell) => Ok(Limit::Excl(cell)),
            Err(faults) => Err(faults),
        },
    }
}

/// The value of an upper bound.
pub fn upper_limit<'e, 'a>(
    bound: &'a Bound,
    env: &Env<'e, 'a>,
    params: &[Cell<'a>],
) -> Result<Limit<'a>, Faults>
    ensures { upper_of result ≡ upper bound.now (scopes_of env.now) (map value_of params.now) }
{
    match bound {
        Bound::Any => Ok(Limit::Any),
        Bound::Incl(e) => match value(e, &[], env, params) {
            Ok(cell) => Ok(Limit::Incl(cell)),
            Err(faults) => Err(faults),
        },
        Bound::Excl(e) => match value(e, &[], env, params) {
            Ok(cell) => Ok(Limit::Excl(cell)),
            Err(faults) => Err(faults),
        },
    }
}

/// Whether a value is within a lower limit.
pub fn is_above(cell: Cell, from: &Limit) -> bool
    ensures { result ≡ above from.now (value_of cell.entry) }
{
    match *from {
        Limit::Any => true,
        Limit::Incl(limit) => compare(cell, limit).is_ge(),
        Limit::Excl(limit) => compare(cell, limit).is_gt(),
    }
}

/// Whether a value is within an upper limit.
pub fn is_below(cell: Cell, to: &Limit) -> bool
    ensures { result ≡ below to.now (value_of cell.entry) }
{
    match *to {
        Limit::Any => true,
        Limit::Incl(limit) => compare(cell, limit).is_le(),
        Limit::Excl(limit) => compare(cell, limit).is_lt(),
    }
}
