//! Held data as a text: parts in round brackets, rows in square ones, entries in curly ones, what an
//! operand stores in angles.

use castor_alg::{Entry, Held};
use castor_val::{Row, TextBuffer, Value};
use std::alloc::{AllocError, Global};

fn push_value(text: &mut String, value: &Value) -> Result<(), AllocError> {
    text.push_str(value.cell().text(&mut TextBuffer::new()))
}

fn push_row(text: &mut String, row: &Row) -> Result<(), AllocError> {
    let mut comma = "";
    for value in row.as_slice() {
        text.push_str(comma)?;
        push_value(text, value)?;
        comma = ",";
    }
    Ok(())
}

#[cycle(push)]
fn push_held(text: &mut String, held: &Held) -> Result<(), AllocError> {
    match held {
        Held::Leaf(value) => push_value(text, value),
        Held::Parts(parts) => push_all(text, "(", parts.as_slice(), ")"),
        Held::Rows(kids) => push_all(text, "[", kids.as_slice(), "]"),
        Held::Keyed(entries) => push_entries(text, entries.as_slice()),
        Held::Inner(kid) => push_inner(text, kid.get()),
    }
}

#[cycle(push)]
fn push_inner(text: &mut String, kid: &Held) -> Result<(), AllocError> {
    text.push_str("<")?;
    push_held(text, kid)?;
    text.push_str(">")
}

#[cycle(push)]
fn push_all(text: &mut String, open: &str, kids: &[Held], close: &str) -> Result<(), AllocError> {
    text.push_str(open)?;
    for kid in kids {
        text.push_str(" ")?;
        push_held(text, kid)?;
    }
    text.push_str(close)
}

#[cycle(push)]
fn push_entries(text: &mut String, entries: &[Entry]) -> Result<(), AllocError> {
    text.push_str("{")?;
    for entry in entries {
        text.push_str(" ")?;
        push_row(text, &entry.key)?;
        text.push_str(":")?;
        push_held(text, &entry.kid)?;
    }
    text.push_str("}")
}

/// The text of held data.
pub fn shown(alloc: Global, held: &Held) -> Result<String, AllocError> {
    let mut text = String::new(alloc);
    push_held(&mut text, held)?;
    Ok(text)
}
