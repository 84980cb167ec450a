//! What is kept while the parser reads on. No caller holds a tree across a `?`, and so each proves soon.

ghost use Rattle.std.specs.Prelude.{◌≡◌, Err, IfErr, IfOk, IsOk, Ok};

use crate::parser::Stop;

/// What is kept, with what is read next. Where nothing is read, what is kept is let go.
pub fn beside<A: Drop, B: Drop>(kept: A, next: Result<B, Stop>) -> Result<(A, B), Stop>
    ensures kept { IfOk result (λ both. both.0 ≡ kept) }
    ensures next { IfOk result (λ both. next ≡ Ok both.1) }
    ensures why { IfErr result (λ why. next ≡ Err why) }
{
    match next {
        Ok(next) => Ok((kept, next)),
        Err(why) => Err(why),
    }
}

/// What is kept, where what has to come next was there. Where it wasn't, what is kept is let go.
pub fn before<A: Drop>(kept: A, next: Result<(), Stop>) -> Result<A, Stop>
    ensures kept { IfOk result (λ same. same ≡ kept) }
    ensures next { IfOk result (λ same. IsOk next) }
    ensures why { IfErr result (λ why. next ≡ Err why) }
{
    match next {
        Ok(()) => Ok(kept),
        Err(why) => Err(why),
    }
}
