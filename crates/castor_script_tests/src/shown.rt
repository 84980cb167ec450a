//! The shapes of relations as texts: the names of operators, tables as `t0`, scopes as `s0`, and of the
//! expressions those of scalars that are just a column of a scope, as `s0.1`. Each operand of a `cross` or
//! `concat` stands behind a space.

use castor_alg::{Expr, Rel};
use castor_val::{TextBuffer, Value};
use std::alloc::{AllocError, Global};

type Pushed = Result<(), AllocError>;

fn push_number(text: &mut String, before: &str, number: u32) -> Pushed {
    text.push_str(before)?;
    let value = Value::Int(i64::from(number));
    text.push_str(value.cell().text(&mut TextBuffer::new()))
}

fn push_value(text: &mut String, e: &Expr) -> Pushed {
    match e {
        Expr::Scope(scope, at) => {
            push_number(text, "s", *scope)?;
            push_number(text, ".", *at)
        }
        _ => text.push_str("value"),
    }
}

#[cycle(push)]
fn push_all(text: &mut String, name: &str, operands: &[Rel]) -> Pushed {
    text.push_str(name)?;
    for operand in operands {
        text.push_str(" ")?;
        push(text, operand)?;
    }
    text.push_str(")")
}

#[cycle(push)]
fn push_last(text: &mut String, before: &str, operand: &Rel) -> Pushed {
    text.push_str(before)?;
    push(text, operand)?;
    text.push_str(")")
}

#[cycle(push)]
fn push_source(text: &mut String, name: &str, source: &Rel, scope: u32) -> Pushed {
    text.push_str(name)?;
    push(text, source)?;
    push_number(text, " as s", scope)
}

#[cycle(push)]
fn push(text: &mut String, query: &Rel) -> Pushed {
    match query {
        Rel::Table(at) => push_number(text, "t", *at),
        Rel::Scalar(e) => push_value(text, e),
        Rel::Cross(rs) => push_all(text, "cross(", rs.as_slice()),
        Rel::Concat(rs) => push_all(text, "concat(", rs.as_slice()),
        Rel::Select(_, r) => push_last(text, "select(", r.get()),
        Rel::Filter(_, r) => push_last(text, "filter(", r.get()),
        Rel::Join(_, r, s) => {
            text.push_str("join(")?;
            push(text, r.get())?;
            push_last(text, ", ", s.get())
        }
        Rel::DepJoin(k, r, s) => {
            push_source(text, "depjoin(", r.get(), *k)?;
            push_last(text, ", ", s.get())
        }
        Rel::Group(_, _, r) => push_last(text, "groupby(", r.get()),
        Rel::Order(_, r) => push_last(text, "orderby(", r.get()),
        Rel::Dedup(r) => push_last(text, "dedup(", r.get()),
        Rel::List(k, r, s) => {
            push_source(text, "list(", r.get(), *k)?;
            push_last(text, ", ", s.get())
        }
        Rel::Hash(k, r, s, _) => {
            push_source(text, "hash(", r.get(), *k)?;
            push_last(text, ", ", s.get())
        }
        Rel::Ord(k, r, s, _, _) => {
            push_source(text, "ordered(", r.get(), *k)?;
            push_last(text, ", ", s.get())
        }
    }
}

fn shape(alloc: Global, query: &Rel) -> Result<String, AllocError> {
    let mut text = String::new(alloc);
    push(&mut text, query)?;
    Ok(text)
}

/// The shape of a relation.
pub fn shown(alloc: Global, query: Rel) -> Result<String, AllocError> {
    shape(alloc, &query)
}
