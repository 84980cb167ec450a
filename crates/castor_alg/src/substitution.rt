//! Expressions in which columns are replaced.

ghost use Rattle.std.specs.Prelude.{◌≡◌, IfOk};
ghost use Rattle.castor_alg.specs.Substitution.{cols_to_scope, replacing, subst_cols};

use crate::assembly::{both, boxed};
use crate::copies::copy_expr;
use crate::expr::Expr;
use castor_val::{Memory, Value};
use std::alloc::Global;

/// The expression with each `Col(i)` replaced by the expression of number i, from 0. Where there is no
/// such expression, `false` stands, which is what a missing column gives. Linear in the tree that is
/// made and in the bytes of its texts.
pub fn subst_cols(alloc: Global, e: &Expr, by: &[Expr]) -> Result<Expr, Memory>
    ensures { IfOk result (λ made. made ≡ subst_cols by.now e.now) }
{
    match e {
        Expr::Col(at) => replacing(alloc, by, *at),
        Expr::Scope(scope, at) => Ok(Expr::Scope(*scope, *at)),
        Expr::Param(at) => Ok(Expr::Param(*at)),
        Expr::Lit(literal) => Ok(Expr::Lit(literal.copy(alloc)?)),
        Expr::Bin(op, a, b) => {
            let a = boxed(alloc, subst_cols(alloc, a.get(), by));
            let b = boxed(alloc, subst_cols(alloc, b.get(), by));
            let (a, b) = both(a, b)?;
            Ok(Expr::Bin(*op, a, b))
        }
        Expr::Not(a) => Ok(Expr::Not(boxed(alloc, subst_cols(alloc, a.get(), by))?)),
        Expr::If(condition, a, b) => {
            let condition = boxed(alloc, subst_cols(alloc, condition.get(), by));
            let a = boxed(alloc, subst_cols(alloc, a.get(), by));
            let b = boxed(alloc, subst_cols(alloc, b.get(), by));
            let (condition, (a, b)) = both(condition, both(a, b))?;
            Ok(Expr::If(condition, a, b))
        }
    }
}

/// A copy of the expression of this number, and `false` where there is none.
pub fn replacing(alloc: Global, by: &[Expr], at: u32) -> Result<Expr, Memory>
    ensures { IfOk result (λ made. made ≡ replacing by.now at) }
{
    match by.get(at as usize) {
        Some(e) => Ok(copy_expr(alloc, e)?),
        None => Ok(Expr::Lit(Value::Bool(false))),
    }
}

/// The expression with each `Col(i)` replaced by `Scope(scope, i)`. Linear in the tree and in the bytes
/// of its texts.
pub fn cols_to_scope(alloc: Global, e: &Expr, scope: u32) -> Result<Expr, Memory>
    ensures { IfOk result (λ made. made ≡ cols_to_scope scope e.now) }
{
    match e {
        Expr::Col(at) => Ok(Expr::Scope(scope, *at)),
        Expr::Scope(read, at) => Ok(Expr::Scope(*read, *at)),
        Expr::Param(at) => Ok(Expr::Param(*at)),
        Expr::Lit(literal) => Ok(Expr::Lit(literal.copy(alloc)?)),
        Expr::Bin(op, a, b) => {
            let a = boxed(alloc, cols_to_scope(alloc, a.get(), scope));
            let b = boxed(alloc, cols_to_scope(alloc, b.get(), scope));
            let (a, b) = both(a, b)?;
            Ok(Expr::Bin(*op, a, b))
        }
        Expr::Not(a) => Ok(Expr::Not(boxed(alloc, cols_to_scope(alloc, a.get(), scope))?)),
        Expr::If(condition, a, b) => {
            let condition = boxed(alloc, cols_to_scope(alloc, condition.get(), scope));
            let a = boxed(alloc, cols_to_scope(alloc, a.get(), scope));
            let b = boxed(alloc, cols_to_scope(alloc, b.get(), scope));
            let (condition, (a, b)) = both(condition, both(a, b))?;
            Ok(Expr::If(condition, a, b))
        }
    }
}
