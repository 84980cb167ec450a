//! Codes as texts: a line for each node with its ranges, two spaces deeper than the node around it.

use castor_code::{Code, Range};
use std::alloc::{AllocError, Global};
use std::fmt::Write;

#[cycle(push)]
fn push_code(text: &mut String, depth: usize, code: &Code) -> Result<(), AllocError> {
    push_indent(text, depth)?;
    match code {
        Code::Int { lo, hi } => push_ints(text, *lo, *hi),
        Code::Bool => text.push_str("bool\n"),
        Code::Text { min, max } => push_lengths(text, *min, *max),
        Code::Cross(kids) => push_node(text, "cross", depth, kids.as_slice()),
        Code::Concat(kids) => push_node(text, "concat", depth, kids.as_slice()),
        Code::List { count, body, kid } => {
            push_ranges(text, "list", *count, *body)?;
            push_code(text, depth.saturating_add(1), kid.get())
        }
        Code::Hash {
            count,
            body,
            key,
            kid,
            by: _,
        } => {
            push_ranges(text, "hash", *count, *body)?;
            push_codes(text, depth.saturating_add(1), key.as_slice())?;
            push_code(text, depth.saturating_add(1), kid.get())
        }
        Code::Ord {
            count,
            body,
            key,
            kid,
            lo: _,
            hi: _,
        } => {
            push_ranges(text, "ordered", *count, *body)?;
            push_code(text, depth.saturating_add(1), key.get())?;
            push_code(text, depth.saturating_add(1), kid.get())
        }
        Code::Select(_, kid) => push_inner(text, "select", depth, kid.get()),
        Code::Filter(_, kid) => push_inner(text, "filter", depth, kid.get()),
        Code::Dep(_, first, second) => {
            text.push_str("depjoin\n")?;
            push_code(text, depth.saturating_add(1), first.get())?;
            push_code(text, depth.saturating_add(1), second.get())
        }
        Code::Group(_, _, kid) => push_inner(text, "groupby", depth, kid.get()),
        Code::Order(_, kid) => push_inner(text, "orderby", depth, kid.get()),
        Code::Dedup(kid) => push_inner(text, "dedup", depth, kid.get()),
    }
}

fn push_indent(text: &mut String, depth: usize) -> Result<(), AllocError> {
    for _ in 0..depth {
        text.push_str("  ")?;
    }
    Ok(())
}

fn push_ints(text: &mut String, lo: i64, hi: i64) -> Result<(), AllocError> {
    write!(text, "int {lo}..{hi}\n")
}

fn push_lengths(text: &mut String, min: u16, max: u16) -> Result<(), AllocError> {
    write!(text, "text {min}..{max}\n")
}

fn push_ranges(text: &mut String, name: &str, count: Range, body: Range) -> Result<(), AllocError> {
    let (count_lo, count_hi) = (count.lo, count.hi);
    let (body_lo, body_hi) = (body.lo, body.hi);
    write!(
        text,
        "{name} count {count_lo}..{count_hi} body {body_lo}..{body_hi}\n"
    )
}

#[cycle(push)]
fn push_inner(text: &mut String, name: &str, depth: usize, kid: &Code) -> Result<(), AllocError> {
    text.push_str(name)?;
    text.push_str("\n")?;
    push_code(text, depth.saturating_add(1), kid)
}

#[cycle(push)]
fn push_node(text: &mut String, name: &str, depth: usize, kids: &[Code]) -> Result<(), AllocError> {
    text.push_str(name)?;
    text.push_str("\n")?;
    push_codes(text, depth.saturating_add(1), kids)
}

#[cycle(push)]
fn push_codes(text: &mut String, depth: usize, codes: &[Code]) -> Result<(), AllocError> {
    for code in codes {
        push_code(text, depth, code)?;
    }
    Ok(())
}

/// The text of a code, without what is evaluated for each question.
pub fn printed(alloc: Global, code: Code) -> Result<String, AllocError> {
    let mut text = String::new(alloc);
    push_code(&mut text, 0, &code)?;
    Ok(text)
}
