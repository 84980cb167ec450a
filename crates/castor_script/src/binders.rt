//! The scopes in force, and which of them are run scopes.

ghost use Rattle.std.specs.Prelude.{◌≡◌};
ghost use Rattle.castor_script.specs.Binders.{run_scopes_of};

/// The binders around a relation in run position, the innermost first. Where a scope is bound twice the
/// innermost binder counts.
#[derive(Clone, Copy)]
pub enum Binders<'b> {
    Outside,
    /// A scope that has its row only when a question comes, and the binders outside.
    Run(u32, &'b Binders<'b>),
    /// A scope that has its row when the data is built, and the binders outside.
    Build(u32, &'b Binders<'b>),
}

impl<'b> Binders<'b> {
    /// Whether the scope has its row only when a question comes. A scope that isn't bound doesn't. Linear
    /// in the binders inside the one that counts.
    pub fn is_run(&self, scope: u32) -> bool
        ensures { result ≡ run_scopes_of self.now scope }
    {
        match self {
            Binders::Outside => false,
            Binders::Run(bound, outer) => *bound == scope || outer.is_run(scope),
            Binders::Build(bound, outer) => *bound != scope && outer.is_run(scope),
        }
    }
}
