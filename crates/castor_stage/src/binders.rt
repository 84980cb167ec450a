//! The phases of the scopes in force.

ghost use Rattle.std.specs.Prelude.{◌≡◌};
ghost use Rattle.castor_stage.specs.Binders.{phases_of};

use castor_alg::Phase;

/// The scopes in force, each with the phase in which its row is known, the innermost binder first.
/// Where a scope is bound twice the innermost binder counts.
#[derive(Clone, Copy)]
pub enum Binders<'b> {
    Outside,
    /// A scope, its phase, and the binders outside.
    Bind(u32, Phase, &'b Binders<'b>),
}

impl<'b> Binders<'b> {
    /// The phase of a scope, none where it isn't bound. Linear in the binders inside the one that counts.
    pub fn phase(&self, scope: u32) -> Option<Phase>
        ensures { result ≡ phases_of self.now scope }
    {
        match self {
            Binders::Outside => None,
            Binders::Bind(bound, phase, outer) => {
                if *bound == scope {
                    Some(*phase)
                } else {
                    outer.phase(scope)
                }
            }
        }
    }
}
