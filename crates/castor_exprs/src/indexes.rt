//! The keys of `hash`.

ghost use Rattle.std.specs.Prelude.{◌≡◌};
ghost use Rattle.castor_val.specs.Gives.{Gives};
ghost use Rattle.castor_exprs.specs.Indexes.{index_keys, is_key_count};
ghost use Rattle.castor_names.specs.Scopes.{scopes_of};
ghost use Rattle.castor_names.specs.declared.error.SchemaError.TheVariants as error;

use crate::expression::expression;
use castor_alg::Expr;
use castor_names::{Declarations, SchemaError, Scopes};
use castor_tree::PExpr;
use castor_val::{MAX_HASH_COLUMNS, Ty};
use sqlite_items::Items;
use std::alloc::Global;

/// The keys of a hash index: their expressions and their types.
#[derive(Drop)]
pub struct IndexKeys {
    pub exprs: Items<Expr>,
    pub types: Items<Ty>,
}

/// The keys of a hash index, or the first refusal. They read no columns.
#[tactic(auto, unfolding(crate::specs::Indexes::index_keys, crate::specs::Indexes::with_index_key))]
pub fn index_keys(
    alloc: Global,
    known: &Declarations,
    scopes: &Scopes<'_>,
    es: &[PExpr],
) -> Result<IndexKeys, SchemaError>
    ensures { Gives (λ keys. keys) error.Memory (index_keys known.now (scopes_of scopes.now) es.now) result }
{
    let mut found = IndexKeys {
        exprs: Items::new(alloc),
        types: Items::new(alloc),
    };
    for e in es {
        let key = expression(alloc, known, scopes, &[], e)?;
        found.exprs.push(key.expr)?;
        found.types.push(key.ty)?;
    }
    Ok(found)
}

/// Whether there are 1 to 4 columns, and as many keys.
pub fn is_key_count(columns: usize, keys: usize) -> bool
    ensures { result ≡ is_key_count columns keys }
{
    1 <= columns && columns <= MAX_HASH_COLUMNS && columns == keys
}
