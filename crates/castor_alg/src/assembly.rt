//! Parts that are put together where there was memory for each.

ghost use Rattle.std.specs.Prelude.{◌≡◌, IfOk, Ok};

use castor_val::Memory;
use sqlite_items::Boxed;
use std::alloc::Global;

/// What was made, in a box.
pub fn boxed<T: Drop>(alloc: Global, made: Result<T, Memory>) -> Result<Boxed<T>, Memory>
    ensures { IfOk result (λ kept. made ≡ Ok kept) }
{
    Ok(Boxed::new(alloc, made?)?)
}

/// Both that were made. Where one wasn't, the other is let go.
pub fn both<A: Drop, B: Drop>(a: Result<A, Memory>, b: Result<B, Memory>) -> Result<(A, B), Memory>
    ensures first { IfOk result (λ pair. a ≡ Ok pair.0) }
    ensures second { IfOk result (λ pair. b ≡ Ok pair.1) }
{
    match a {
        Ok(a) => match b {
            Ok(b) => Ok((a, b)),
            Err(why) => Err(why),
        },
        Err(why) => Err(why),
    }
}
