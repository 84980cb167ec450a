//! Codes as texts, on one line each.

use castor_alg::{Agg, Bound, Expr, Key, Op};
use castor_code::{Code, Range};
use castor_val::Value;
use std::alloc::AllocError;

fn symbol(op: Op) -> &'static str {
    match op {
        Op::Or => "or",
        Op::And => "and",
        Op::Eq => "=",
        Op::Ne => "!=",
        Op::Lt => "<",
        Op::Le => "<=",
        Op::Gt => ">",
        Op::Ge => ">=",
        Op::Add => "+",
        Op::Sub => "-",
        Op::Mul => "*",
        Op::Div => "/",
        Op::Rem => "%",
    }
}

fn push_literal(text: &mut String, literal: &Value) -> Result<(), AllocError> {
    match literal {
        Value::Int(number) => write!(text, "{number}"),
        Value::Bool(truth) => write!(text, "{truth}"),
        Value::Text(letters) => write!(text, "'{}'", letters.as_str()),
    }
}

fn push_expr(text: &mut String, e: &Expr) -> Result<(), AllocError> {
    match e {
        Expr::Col(at) => write!(text, "#{at}"),
        Expr::Scope(scope, at) => write!(text, "s{scope}.{at}"),
        Expr::Param(at) => write!(text, "${at}"),
        Expr::Lit(literal) => push_literal(text, literal),
        Expr::Bin(op, a, b) => {
            text.push_str("(")?;
            push_expr(text, a.get())?;
            write!(text, " {} ", symbol(*op))?;
            push_expr(text, b.get())?;
            text.push_str(")")
        }
        Expr::Not(a) => {
            text.push_str("not ")?;
            push_expr(text, a.get())
        }
        Expr::If(condition, a, b) => {
            text.push_str("if ")?;
            push_expr(text, condition.get())?;
            text.push_str(" then ")?;
            push_expr(text, a.get())?;
            text.push_str(" else ")?;
            push_expr(text, b.get())
        }
    }
}

fn push_exprs(text: &mut String, es: &[Expr]) -> Result<(), AllocError> {
    text.push_str(" [")?;
    for e in es {
        text.push_str(" ")?;
        push_expr(text, e)?;
    }
    text.push_str(" ]")
}

fn push_bound(text: &mut String, side: &str, bound: &Bound) -> Result<(), AllocError> {
    text.push_str(side)?;
    match bound {
        Bound::Any => text.push_str(" any"),
        Bound::Incl(e) => {
            text.push_str(" with ")?;
            push_expr(text, e)
        }
        Bound::Excl(e) => {
            text.push_str(" without ")?;
            push_expr(text, e)
        }
    }
}

fn push_columns(text: &mut String, columns: &[u32]) -> Result<(), AllocError> {
    text.push_str(" [")?;
    for column in columns {
        write!(text, " #{column}")?;
    }
    text.push_str(" ]")
}

fn push_agg(text: &mut String, agg: Agg) -> Result<(), AllocError> {
    match agg {
        Agg::Count => text.push_str(" count"),
        Agg::Sum(at) => write!(text, " sum #{at}"),
        Agg::Min(at) => write!(text, " min #{at}"),
        Agg::Max(at) => write!(text, " max #{at}"),
    }
}

fn push_aggs(text: &mut String, aggs: &[Agg]) -> Result<(), AllocError> {
    text.push_str(" [")?;
    for agg in aggs {
        push_agg(text, *agg)?;
    }
    text.push_str(" ]")
}

fn push_keys(text: &mut String, keys: &[Key]) -> Result<(), AllocError> {
    text.push_str(" [")?;
    for key in keys {
        let direction = if key.desc { "falling" } else { "rising" };
        write!(text, " #{} {direction}", key.col)?;
    }
    text.push_str(" ]")
}

fn push_ranges(text: &mut String, name: &str, count: Range, body: Range) -> Result<(), AllocError> {
    text.push_str(name)?;
    write!(
        text,
        " {}..{} in {}..{}",
        count.lo, count.hi, body.lo, body.hi
    )
}

#[cycle(push)]
fn push_codes(text: &mut String, name: &str, codes: &[Code]) -> Result<(), AllocError> {
    text.push_str(name)?;
    text.push_str(" [")?;
    for code in codes {
        text.push_str(" ")?;
        push_code(text, code)?;
    }
    text.push_str(" ]")
}

#[cycle(push)]
fn push_over(text: &mut String, kid: &Code) -> Result<(), AllocError> {
    text.push_str(" over ")?;
    push_code(text, kid)
}

#[cycle(push)]
fn push_list(text: &mut String, count: Range, body: Range, kid: &Code) -> Result<(), AllocError> {
    push_ranges(text, "list", count, body)?;
    push_over(text, kid)
}

#[cycle(push)]
fn push_hash_key(
    text: &mut String,
    count: Range,
    body: Range,
    key: &[Code],
) -> Result<(), AllocError> {
    push_ranges(text, "hash", count, body)?;
    push_codes(text, " by", key)
}

#[cycle(push)]
fn push_hash_kid(text: &mut String, kid: &Code, by: &[Expr]) -> Result<(), AllocError> {
    push_exprs(text, by)?;
    push_over(text, kid)
}

#[cycle(push)]
fn push_ord_key(
    text: &mut String,
    count: Range,
    body: Range,
    key: &Code,
) -> Result<(), AllocError> {
    push_ranges(text, "ord", count, body)?;
    text.push_str(" by ")?;
    push_code(text, key)
}

#[cycle(push)]
fn push_ord_kid(text: &mut String, kid: &Code, lo: &Bound, hi: &Bound) -> Result<(), AllocError> {
    push_bound(text, " from", lo)?;
    push_bound(text, " to", hi)?;
    push_over(text, kid)
}

#[cycle(push)]
fn push_select(text: &mut String, kid: &Code, es: &[Expr]) -> Result<(), AllocError> {
    text.push_str("select")?;
    push_exprs(text, es)?;
    push_over(text, kid)
}

#[cycle(push)]
fn push_filter(text: &mut String, kid: &Code, e: &Expr) -> Result<(), AllocError> {
    text.push_str("filter ")?;
    push_expr(text, e)?;
    push_over(text, kid)
}

#[cycle(push)]
fn push_first(text: &mut String, scope: u32, first: &Code) -> Result<(), AllocError> {
    text.push_str("dep ")?;
    push_code(text, first)?;
    write!(text, " as s{scope}")
}

#[cycle(push)]
fn push_group(text: &mut String, kid: &Code, keys: &[u32], aggs: &[Agg]) -> Result<(), AllocError> {
    text.push_str("group")?;
    push_columns(text, keys)?;
    push_aggs(text, aggs)?;
    push_over(text, kid)
}

#[cycle(push)]
fn push_order(text: &mut String, kid: &Code, keys: &[Key]) -> Result<(), AllocError> {
    text.push_str("order")?;
    push_keys(text, keys)?;
    push_over(text, kid)
}

#[cycle(push)]
fn push_dedup(text: &mut String, kid: &Code) -> Result<(), AllocError> {
    text.push_str("dedup")?;
    push_over(text, kid)
}

/// Puts the text of a code at the end.
#[cycle(push)]
pub fn push_code(text: &mut String, code: &Code) -> Result<(), AllocError> {
    match code {
        Code::Int { lo, hi } => write!(text, "int {lo}..{hi}"),
        Code::Bool => text.push_str("bool"),
        Code::Text { min, max } => write!(text, "text {min}..{max}"),
        Code::Cross(kids) => push_codes(text, "cross", kids.as_slice()),
        Code::Concat(kids) => push_codes(text, "concat", kids.as_slice()),
        Code::List { count, body, kid } => push_list(text, *count, *body, kid.get()),
        Code::Hash {
            count,
            body,
            key,
            kid,
            by,
        } => {
            push_hash_key(text, *count, *body, key.as_slice())?;
            push_hash_kid(text, kid.get(), by.as_slice())
        }
        Code::Ord {
            count,
            body,
            key,
            kid,
            lo,
            hi,
        } => {
            push_ord_key(text, *count, *body, key.get())?;
            push_ord_kid(text, kid.get(), lo, hi)
        }
        Code::Select(es, kid) => push_select(text, kid.get(), es.as_slice()),
        Code::Filter(e, kid) => push_filter(text, kid.get(), e),
        Code::Dep(scope, first, second) => {
            push_first(text, *scope, first.get())?;
            push_over(text, second.get())
        }
        Code::Group(keys, aggs, kid) => {
            push_group(text, kid.get(), keys.as_slice(), aggs.as_slice())
        }
        Code::Order(keys, kid) => push_order(text, kid.get(), keys.as_slice()),
        Code::Dedup(kid) => push_dedup(text, kid.get()),
    }
}
