//! Codes.

ghost use Rattle.std.specs.Prelude.{◌≡◌, ◌++◌, OnOk, map, true};
ghost use Rattle.castor_code.specs.CodeForms.{code_bytes, code_form, dep_head, filter_parts, form_in, group_form, group_parts, hash_head, hash_tail, int_parts, key_code_form, key_codes_form, list_parts, ord_head, ord_tail, order_parts, select_parts, some_form, text_parts};
ghost use Rattle.castor_code.specs.Forms.{in_turn, node};
ghost use Rattle.castor_code.specs.Tags.{tag_number};
ghost use Rattle.castor_fixed.specs.Fields.{field};

use super::exprs::{
    put_aggs, put_bound, put_columns, put_expr, put_exprs, put_keys, put_some_exprs,
};
use super::numbers::{put_int, put_ranges, put_u8, put_u16, put_u32};
use crate::code::{Code, Range};
use crate::tag::CodeTag;
use castor_alg::{Agg, Bound, Expr, Key};
use castor_val::Memory;

#[cycle(put)]
pub fn put_code(out: &mut Vec<u8>, code: &Code) -> Result<(), Memory>
    requires { (code_form code.now).form.sound ≡ true }
    ensures { OnOk result (out.new.items ≡ out.old.items ++ code_bytes code.now) }
{
    match code {
        Code::Int { lo, hi } => Ok(put_int_code(out, *lo, *hi)?),
        Code::Bool => Ok(put_tag(out, CodeTag::Bool)?),
        Code::Text { min, max } => Ok(put_text_code(out, *min, *max)?),
        Code::Cross(kids) => Ok(put_kids(out, CodeTag::Cross, kids.as_slice())?),
        Code::Concat(kids) => Ok(put_kids(out, CodeTag::Concat, kids.as_slice())?),
        Code::List { count, body, kid } => Ok(put_list(out, *count, *body, kid.get())?),
        Code::Hash {
            count,
            body,
            key,
            kid,
            by,
        } => {
            put_hash_key(out, *count, *body, key.as_slice())?;
            Ok(put_hash_kid(out, kid.get(), by.as_slice())?)
        }
        Code::Ord {
            count,
            body,
            key,
            kid,
            lo,
            hi,
        } => {
            put_ord_key(out, *count, *body, key.get())?;
            Ok(put_ord_kid(out, kid.get(), lo, hi)?)
        }
        Code::Select(es, kid) => Ok(put_select(out, kid.get(), es.as_slice())?),
        Code::Filter(e, kid) => Ok(put_filter(out, kid.get(), e)?),
        Code::Dep(scope, first, second) => {
            put_dep_first(out, *scope, first.get())?;
            Ok(put_code(out, second.get())?)
        }
        Code::Group(keys, aggs, kid) => {
            Ok(put_group(out, keys.as_slice(), aggs.as_slice(), kid.get())?)
        }
        Code::Order(keys, kid) => Ok(put_order(out, keys.as_slice(), kid.get())?),
        Code::Dedup(kid) => Ok(put_dedup(out, kid.get())?),
    }
}

fn put_tag(out: &mut Vec<u8>, tag: CodeTag) -> Result<(), Memory>
    ensures { OnOk result (out.new.items ≡ out.old.items ++ field 255 (tag_number tag)) }
{
    put_u8(out, tag as u8)
}

fn put_int_code(out: &mut Vec<u8>, lo: i64, hi: i64) -> Result<(), Memory>
    ensures { OnOk result (out.new.items ≡ out.old.items ++ (node 1 (int_parts lo hi)).bytes) }
{
    put_tag(out, CodeTag::Int)?;
    put_int(out, lo)?;
    put_int(out, hi)
}

fn put_text_code(out: &mut Vec<u8>, min: u16, max: u16) -> Result<(), Memory>
    ensures { OnOk result (out.new.items ≡ out.old.items ++ (node 3 (text_parts min max)).bytes) }
{
    put_tag(out, CodeTag::Text)?;
    put_u16(out, min)?;
    put_u16(out, max)
}

/// A node whose parts are a list of codes.
#[cycle(put)]
fn put_kids(out: &mut Vec<u8>, tag: CodeTag, kids: &[Code]) -> Result<(), Memory>
    requires { (some_form form_in (map code_form kids.now)).sound ≡ true }
    ensures { OnOk result (out.new.items ≡ out.old.items ++ (node (tag_number tag) (some_form form_in (map code_form kids.now))).bytes) }
{
    put_tag(out, tag)?;
    put_some(out, kids)
}

#[cycle(put)]
fn put_list(out: &mut Vec<u8>, count: Range, body: Range, kid: &Code) -> Result<(), Memory>
    requires { (list_parts count body (code_form kid.now).form).sound ≡ true }
    ensures { OnOk result (out.new.items ≡ out.old.items ++ (node 6 (list_parts count body (code_form kid.now).form)).bytes) }
{
    put_tag(out, CodeTag::List)?;
    put_ranges(out, count, body)?;
    put_code(out, kid)
}

/// A hash index up to the codes of its key.
#[cycle(put)]
fn put_hash_key(out: &mut Vec<u8>, count: Range, body: Range, key: &[Code]) -> Result<(), Memory>
    requires { (key_codes_form (map code_form key.now)).sound ≡ true }
    ensures { OnOk result (out.new.items ≡ out.old.items ++ (hash_head count body (map code_form key.now)).bytes) }
{
    put_tag(out, CodeTag::Hash)?;
    put_ranges(out, count, body)?;
    put_key_codes(out, key)
}

/// The kid of a hash index, and what is looked up.
#[cycle(put)]
fn put_hash_kid(out: &mut Vec<u8>, kid: &Code, by: &[Expr]) -> Result<(), Memory>
    requires { (hash_tail (code_form kid.now).form by.now).sound ≡ true }
    ensures { OnOk result (out.new.items ≡ out.old.items ++ (hash_tail (code_form kid.now).form by.now).bytes) }
{
    put_code(out, kid)?;
    put_exprs(out, by)
}

/// The number of codes of a key, and the codes.
#[cycle(put)]
fn put_key_codes(out: &mut Vec<u8>, key: &[Code]) -> Result<(), Memory>
    requires { (key_codes_form (map code_form key.now)).sound ≡ true }
    ensures { OnOk result (out.new.items ≡ out.old.items ++ (key_codes_form (map code_form key.now)).bytes) }
{
    put_u8(out, key.len() as u8)?;
    put_each_key(out, key)
}

/// The codes of a key one after the other.
#[cycle(put)]
fn put_each_key(out: &mut Vec<u8>, key: &[Code]) -> Result<(), Memory>
    requires { (in_turn (map key_code_form (map code_form key.now))).sound ≡ true }
    ensures { OnOk result (out.new.items ≡ out.old.items ++ (in_turn (map key_code_form (map code_form key.now))).bytes) }
{
    for code in key {
        put_code(out, code)?;
    }
    Ok(())
}

/// An ordered index up to the code of its key.
#[cycle(put)]
fn put_ord_key(out: &mut Vec<u8>, count: Range, body: Range, key: &Code) -> Result<(), Memory>
    requires { (code_form key.now).form.sound ≡ true }
    ensures { OnOk result (out.new.items ≡ out.old.items ++ (ord_head count body (code_form key.now)).bytes) }
{
    put_tag(out, CodeTag::Ord)?;
    put_ranges(out, count, body)?;
    put_code(out, key)
}

/// The kid of an ordered index, and the bounds.
#[cycle(put)]
fn put_ord_kid(out: &mut Vec<u8>, kid: &Code, lo: &Bound, hi: &Bound) -> Result<(), Memory>
    requires { (ord_tail (code_form kid.now).form lo.now hi.now).sound ≡ true }
    ensures { OnOk result (out.new.items ≡ out.old.items ++ (ord_tail (code_form kid.now).form lo.now hi.now).bytes) }
{
    put_code(out, kid)?;
    put_bound(out, lo)?;
    put_bound(out, hi)
}

#[cycle(put)]
fn put_select(out: &mut Vec<u8>, kid: &Code, es: &[Expr]) -> Result<(), Memory>
    requires { (select_parts es.now (code_form kid.now).form).sound ≡ true }
    ensures { OnOk result (out.new.items ≡ out.old.items ++ (node 9 (select_parts es.now (code_form kid.now).form)).bytes) }
{
    put_tag(out, CodeTag::Select)?;
    put_some_exprs(out, es)?;
    put_code(out, kid)
}

#[cycle(put)]
fn put_filter(out: &mut Vec<u8>, kid: &Code, e: &Expr) -> Result<(), Memory>
    requires { (filter_parts e.now (code_form kid.now).form).sound ≡ true }
    ensures { OnOk result (out.new.items ≡ out.old.items ++ (node 10 (filter_parts e.now (code_form kid.now).form)).bytes) }
{
    put_tag(out, CodeTag::Filter)?;
    put_expr(out, e)?;
    put_code(out, kid)
}

/// A dependent join up to what is read first.
#[cycle(put)]
fn put_dep_first(out: &mut Vec<u8>, scope: u32, first: &Code) -> Result<(), Memory>
    requires { (code_form first.now).form.sound ≡ true }
    ensures { OnOk result (out.new.items ≡ out.old.items ++ (dep_head scope (code_form first.now).form).bytes) }
{
    put_tag(out, CodeTag::Dep)?;
    put_u32(out, scope)?;
    put_code(out, first)
}

#[cycle(put)]
fn put_group(out: &mut Vec<u8>, keys: &[u32], aggs: &[Agg], kid: &Code) -> Result<(), Memory>
    requires { (group_parts keys.now aggs.now (code_form kid.now).form).sound ≡ true }
    ensures { OnOk result (out.new.items ≡ out.old.items ++ (node 12 (group_parts keys.now aggs.now (code_form kid.now).form)).bytes) }
{
    put_tag(out, CodeTag::Group)?;
    put_grouping(out, keys, aggs)?;
    put_code(out, kid)
}

/// What rows are grouped by, and the aggregates.
fn put_grouping(out: &mut Vec<u8>, keys: &[u32], aggs: &[Agg]) -> Result<(), Memory>
    requires { (group_form keys.now aggs.now).sound ≡ true }
    ensures { OnOk result (out.new.items ≡ out.old.items ++ (group_form keys.now aggs.now).bytes) }
{
    put_columns(out, keys)?;
    put_aggs(out, aggs)
}

#[cycle(put)]
fn put_order(out: &mut Vec<u8>, keys: &[Key], kid: &Code) -> Result<(), Memory>
    requires { (order_parts keys.now (code_form kid.now).form).sound ≡ true }
    ensures { OnOk result (out.new.items ≡ out.old.items ++ (node 13 (order_parts keys.now (code_form kid.now).form)).bytes) }
{
    put_tag(out, CodeTag::Order)?;
    put_keys(out, keys)?;
    put_code(out, kid)
}

#[cycle(put)]
fn put_dedup(out: &mut Vec<u8>, kid: &Code) -> Result<(), Memory>
    requires { (code_form kid.now).form.sound ≡ true }
    ensures { OnOk result (out.new.items ≡ out.old.items ++ (node 14 (code_form kid.now).form).bytes) }
{
    put_tag(out, CodeTag::Dedup)?;
    put_code(out, kid)
}

/// A list of codes.
#[cycle(put)]
fn put_some(out: &mut Vec<u8>, codes: &[Code]) -> Result<(), Memory>
    requires { (some_form form_in (map code_form codes.now)).sound ≡ true }
    ensures { OnOk result (out.new.items ≡ out.old.items ++ (some_form form_in (map code_form codes.now)).bytes) }
{
    put_u16(out, codes.len() as u16)?;
    put_each(out, codes)
}

/// Codes one after the other.
#[cycle(put)]
fn put_each(out: &mut Vec<u8>, codes: &[Code]) -> Result<(), Memory>
    requires { (in_turn (map form_in (map code_form codes.now))).sound ≡ true }
    ensures { OnOk result (out.new.items ≡ out.old.items ++ (in_turn (map form_in (map code_form codes.now))).bytes) }
{
    for code in codes {
        put_code(out, code)?;
    }
    Ok(())
}
