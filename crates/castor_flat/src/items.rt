//! Lists of expressions.

ghost use Rattle.std.specs.Prelude.{◌≡◌, map};
ghost use Rattle.std.specs.List.{list_all};
ghost use Rattle.castor_alg.specs.Substitution.{subst_cols};
ghost use Rattle.castor_alg.specs.Totality.{is_total_expr};
ghost use Rattle.castor_flat.specs.Making.{Makes};

use castor_alg::{Expr, is_total_expr, subst_cols};
use castor_val::Memory;
use sqlite_items::Items;
use std::alloc::Global;

/// Whether each expression is total. Linear in the trees.
pub fn are_total(es: &[Expr]) -> bool
    ensures { result ≡ list_all is_total_expr es.now }
{
    es.iter().all(|e| is_total_expr(e))
}

/// The expressions with each `Col(i)` replaced by the expression of number i. Linear in what is made.
pub fn replaced_in_each(alloc: Global, es: &[Expr], by: &[Expr]) -> Result<Items<Expr>, Memory>
    ensures { Makes (map (subst_cols by.now) es.now) result }
{
    let mut replaced = Items::new(alloc);
    for e in es {
        replaced.push(subst_cols(alloc, e, by)?)?;
    }
    Ok(replaced)
}
