//! What is kept while something else is found. Callers hold no relation across a `?`, and so prove soon.

ghost use Rattle.std.specs.Prelude.{◌≡◌, IfErr, IfOk, Ok, Err, true, false};

use castor_alg::{Rel, both, boxed};
use castor_names::SchemaError;
use castor_val::Memory;
use sqlite_items::Boxed;
use std::alloc::Global;

/// What is kept, beside what is found. Where that is refused, what is kept is let go.
pub fn beside<A: Drop, B: Drop>(
    kept: A,
    found: Result<B, SchemaError>,
) -> Result<(A, B), SchemaError>
    ensures kept { IfOk result (λ both. both.0 ≡ kept) }
    ensures found { IfOk result (λ both. found ≡ Ok both.1) }
    ensures why { IfErr result (λ why. found ≡ Err why) }
{
    match found {
        Ok(found) => Ok((kept, found)),
        Err(why) => Err(why),
    }
}

/// What is kept where it is allowed. Where it isn't, it is let go.
pub fn kept_where<A: Drop>(kept: A, is_allowed: bool, why: SchemaError) -> Result<A, SchemaError>
    ensures kept { IfOk result (λ same. same ≡ kept) }
    ensures allowed { IfOk result (λ same. is_allowed ≡ true) }
    ensures why { IfErr result (λ cause. cause ≡ why) }
    ensures refused { IfErr result (λ cause. is_allowed ≡ false) }
{
    if is_allowed { Ok(kept) } else { Err(why) }
}

/// Two relations in boxes, as the operands of one.
pub fn pair(alloc: Global, first: Rel, second: Rel) -> Result<(Boxed<Rel>, Boxed<Rel>), Memory>
    ensures first { IfOk result (λ pair. pair.0 ≡ first) }
    ensures second { IfOk result (λ pair. pair.1 ≡ second) }
{
    both(boxed(alloc, Ok(first)), boxed(alloc, Ok(second)))
}
