//! Expressions, and what stands beside them in codes.

ghost use Rattle.std.specs.Prelude.{◌≡◌, ◌++◌, OnOk, map, true};
ghost use Rattle.castor_code.specs.CodeForms.{agg_form, bound_form, expr_form, key_form, literal_form, some_form};
ghost use Rattle.castor_code.specs.Forms.{in_turn, list_form, u32_form};

use super::numbers::{put_bool, put_int, put_text, put_u8, put_u16, put_u32};
use crate::tag::{ExprTag, op_number};
use castor_alg::{Agg, Bound, Expr, Key};
use castor_val::{Memory, Value};

pub fn put_expr(out: &mut Vec<u8>, e: &Expr) -> Result<(), Memory>
    requires { (expr_form e.now).sound ≡ true }
    ensures { OnOk result (out.new.items ≡ out.old.items ++ (expr_form e.now).bytes) }
{
    match e {
        Expr::Col(at) => {
            put_u8(out, ExprTag::Col as u8)?;
            Ok(put_u32(out, *at)?)
        }
        Expr::Scope(scope, at) => {
            put_u8(out, ExprTag::Scope as u8)?;
            put_u32(out, *scope)?;
            Ok(put_u32(out, *at)?)
        }
        Expr::Param(at) => {
            put_u8(out, ExprTag::Param as u8)?;
            Ok(put_u32(out, *at)?)
        }
        Expr::Lit(literal) => Ok(put_literal(out, literal)?),
        Expr::Bin(op, a, b) => {
            put_u8(out, ExprTag::Bin as u8)?;
            put_u8(out, op_number(*op))?;
            put_expr(out, a.get())?;
            Ok(put_expr(out, b.get())?)
        }
        Expr::Not(a) => {
            put_u8(out, ExprTag::Not as u8)?;
            Ok(put_expr(out, a.get())?)
        }
        Expr::If(condition, a, b) => {
            put_u8(out, ExprTag::If as u8)?;
            put_expr(out, condition.get())?;
            put_expr(out, a.get())?;
            Ok(put_expr(out, b.get())?)
        }
    }
}

fn put_literal(out: &mut Vec<u8>, literal: &Value) -> Result<(), Memory>
    requires { (literal_form literal.now).sound ≡ true }
    ensures { OnOk result (out.new.items ≡ out.old.items ++ (literal_form literal.now).bytes) }
{
    match literal {
        Value::Int(number) => {
            put_u8(out, ExprTag::Int as u8)?;
            Ok(put_int(out, *number)?)
        }
        Value::Bool(truth) => {
            put_u8(out, ExprTag::Bool as u8)?;
            Ok(put_bool(out, *truth)?)
        }
        Value::Text(text) => {
            put_u8(out, ExprTag::Text as u8)?;
            Ok(put_text(out, text.as_str())?)
        }
    }
}

/// Expressions one after the other.
pub fn put_exprs(out: &mut Vec<u8>, es: &[Expr]) -> Result<(), Memory>
    requires { (in_turn (map expr_form es.now)).sound ≡ true }
    ensures { OnOk result (out.new.items ≡ out.old.items ++ (in_turn (map expr_form es.now)).bytes) }
{
    for e in es {
        put_expr(out, e)?;
    }
    Ok(())
}

/// A list of expressions.
pub fn put_some_exprs(out: &mut Vec<u8>, es: &[Expr]) -> Result<(), Memory>
    requires { (some_form expr_form es.now).sound ≡ true }
    ensures { OnOk result (out.new.items ≡ out.old.items ++ (some_form expr_form es.now).bytes) }
{
    put_u16(out, es.len() as u16)?;
    Ok(put_exprs(out, es)?)
}

pub fn put_bound(out: &mut Vec<u8>, bound: &Bound) -> Result<(), Memory>
    requires { (bound_form bound.now).sound ≡ true }
    ensures { OnOk result (out.new.items ≡ out.old.items ++ (bound_form bound.now).bytes) }
{
    match bound {
        Bound::Any => Ok(put_u8(out, 0)?),
        Bound::Incl(e) => {
            put_u8(out, 1)?;
            Ok(put_expr(out, e)?)
        }
        Bound::Excl(e) => {
            put_u8(out, 2)?;
            Ok(put_expr(out, e)?)
        }
    }
}

/// A list of column numbers.
pub fn put_columns(out: &mut Vec<u8>, columns: &[u32]) -> Result<(), Memory>
    requires { (list_form u32_form columns.now).sound ≡ true }
    ensures { OnOk result (out.new.items ≡ out.old.items ++ (list_form u32_form columns.now).bytes) }
{
    put_u16(out, columns.len() as u16)?;
    for column in columns {
        put_u32(out, *column)?;
    }
    Ok(())
}

fn put_agg(out: &mut Vec<u8>, agg: Agg) -> Result<(), Memory>
    ensures { OnOk result (out.new.items ≡ out.old.items ++ (agg_form agg).bytes) }
{
    match agg {
        Agg::Count => Ok(put_u8(out, 0)?),
        Agg::Sum(at) => {
            put_u8(out, 1)?;
            Ok(put_u32(out, at)?)
        }
        Agg::Min(at) => {
            put_u8(out, 2)?;
            Ok(put_u32(out, at)?)
        }
        Agg::Max(at) => {
            put_u8(out, 3)?;
            Ok(put_u32(out, at)?)
        }
    }
}

/// A list of aggregates.
pub fn put_aggs(out: &mut Vec<u8>, aggs: &[Agg]) -> Result<(), Memory>
    requires { (list_form agg_form aggs.now).sound ≡ true }
    ensures { OnOk result (out.new.items ≡ out.old.items ++ (list_form agg_form aggs.now).bytes) }
{
    put_u16(out, aggs.len() as u16)?;
    for agg in aggs {
        put_agg(out, *agg)?;
    }
    Ok(())
}

fn put_key(out: &mut Vec<u8>, key: Key) -> Result<(), Memory>
    ensures { OnOk result (out.new.items ≡ out.old.items ++ (key_form key).bytes) }
{
    put_u32(out, key.col)?;
    Ok(put_bool(out, key.desc)?)
}

/// A list of sorting keys.
pub fn put_keys(out: &mut Vec<u8>, keys: &[Key]) -> Result<(), Memory>
    requires { (some_form key_form keys.now).sound ≡ true }
    ensures { OnOk result (out.new.items ≡ out.old.items ++ (some_form key_form keys.now).bytes) }
{
    put_u16(out, keys.len() as u16)?;
    for key in keys {
        put_key(out, *key)?;
    }
    Ok(())
}
