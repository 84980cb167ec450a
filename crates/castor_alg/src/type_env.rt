//! Contexts within the bodies of binders.

ghost use Rattle.std.specs.Prelude.{◌≡◌, option_and_then, slice_get};
ghost use Rattle.castor_alg.specs.TypeEnvs.{context_of};
ghost use Rattle.castor_alg.specs.Typing.{scope_types};

use crate::context::Context;
use castor_val::Ty;
use sqlite_items::Items;

/// A context and the scopes that the binders around a relation add to it, the innermost first.
#[derive(Clone, Copy)]
pub enum TypeEnv<'e> {
    Outer(&'e Context),
    /// A scope, the types of its row, and what stands outside its binder.
    Bind(u32, &'e [Ty], &'e TypeEnv<'e>),
}

impl<'e> TypeEnv<'e> {
    /// The context outside of all binders. Linear in the scopes that binders add.
    pub fn outer(&self) -> &'e Context
        ensures tables { result.now.tables ≡ (context_of self.now).tables }
        ensures params { result.now.params ≡ (context_of self.now).params }
    {
        match self {
            TypeEnv::Outer(context) => context,
            TypeEnv::Bind(_, _, outer) => outer.outer(),
        }
    }

    /// The type of a parameter, from 0, if there is such a parameter. Linear in the scopes that binders
    /// add.
    pub fn param(&self, at: u32) -> Option<Ty>
        ensures { result ≡ slice_get (context_of self.now).params at }
    {
        type_at(self.outer().params.as_slice(), at)
    }

    /// The type of a column, from 0, of the row of a scope, if there is such a column. Linear in the
    /// scopes in force.
    pub fn scope_column(&self, scope: u32, at: u32) -> Option<Ty>
        ensures { result ≡ option_and_then (λ types. slice_get types at) (scope_types (context_of self.now).scopes scope) }
    {
        match self {
            TypeEnv::Outer(context) => column_of_entry(context.scopes.as_slice(), scope, at),
            TypeEnv::Bind(bound, types, outer) => {
                if *bound == scope {
                    type_at(types, at)
                } else {
                    outer.scope_column(scope, at)
                }
            }
        }
    }
}

/// The type of a column of the last entry for the scope.
fn column_of_entry(entries: &[(u32, Items<Ty>)], scope: u32, at: u32) -> Option<Ty>
    ensures { result ≡ option_and_then (λ types. slice_get types at) (scope_types entries.now scope) }
{
    let mut found = None;
    for (bound, types) in entries {
        if *bound == scope {
            found = type_at(types.as_slice(), at);
        }
    }
    found
}

/// The type in a column, from 0, if there is such a column.
pub fn type_at(types: &[Ty], at: u32) -> Option<Ty>
    ensures { result ≡ slice_get types.now at }
{
    types.get(at as usize).copied()
}
