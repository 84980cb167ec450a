//! `hash`.

ghost use Rattle.castor_val.specs.Gives.{Gives};
ghost use Rattle.castor_names.specs.Scopes.{scopes_of};
ghost use Rattle.castor_names.specs.declared.error.SchemaError.TheVariants as error;
ghost use Rattle.castor_operators.specs.Operators.{hashed, hashed_by};

use crate::binders::Binding;
use crate::found::Found;
use crate::kept::beside;
use castor_alg::Rel;
use castor_exprs::{IndexKeys, have_types, index_keys, is_key_count};
use castor_names::{Declarations, SchemaError, Scopes};
use castor_tree::PExpr;
use sqlite_items::Boxed;
use std::alloc::Global;

/// `hash`: a key for each column of the source, of its type.
#[tactic(auto, unfolding(crate::specs::Operators::hashed))]
fn hashed(alloc: Global, binding: Binding, keys: IndexKeys) -> Result<Found, SchemaError>
    ensures { Gives (λ found. found) error.Memory (hashed binding keys) result }
{
    if !is_key_count(binding.columns.len(), keys.types.len()) {
        return Err(SchemaError::WrongCount);
    }
    if !have_types(binding.columns.as_slice(), keys.types.as_slice()) {
        return Err(SchemaError::TypeMismatch);
    }
    let inner = binding.body;
    let source = Boxed::new(alloc, binding.source)?;
    let body = Boxed::new(alloc, inner.query)?;
    Ok(Found {
        query: Rel::Hash(binding.number, source, body, keys.exprs),
        columns: inner.columns,
        next: inner.next,
    })
}

/// `hash`: its keys over no columns.
#[tactic(auto, unfolding(crate::specs::Operators::hashed_by))]
pub fn hashed_by(
    alloc: Global,
    known: &Declarations,
    scopes: &Scopes<'_>,
    es: &[PExpr],
    binding: Binding,
) -> Result<Found, SchemaError>
    ensures { Gives (λ found. found) error.Memory (hashed_by known.now (scopes_of scopes.now) es.now binding) result }
{
    let keys = index_keys(alloc, known, scopes, es);
    let (binding, keys) = beside(binding, keys)?;
    hashed(alloc, binding, keys)
}
