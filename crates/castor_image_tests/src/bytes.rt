//! The images of the tests, and what becomes of bytes.

use castor_alg::{Entry, Held};
use castor_image::{Image, OpenError, build, open_image};
use castor_val::{TextBuffer, Value};
use std::alloc::{AllocError, Global};

/// The image of a table of one int column, `x`, with the rows 7 and 9.
pub const TWO_ROWS: [u8; 84] = [
    b'C', b'A', b'S', b'T', b'I', b'M', b'G', b'1', // no parameter, and one column
    0, 1, 0, 1, b'x', // the lengths of code and data
    53, 0, 0, 0, 0, 0, 0, 0, 2, 0, 0, 0, 0, 0, 0, 0, // a list of 2 children in 2 bytes
    6, 2, 0, 0, 0, 0, 0, 0, 0, 2, 0, 0, 0, 0, 0, 0, 0, 2, 0, 0, 0, 0, 0, 0, 0, 2, 0, 0, 0, 0, 0, 0,
    0, // a cross of one int from 7 to 9
    4, 1, 0, 1, 7, 0, 0, 0, 0, 0, 0, 0, 9, 0, 0, 0, 0, 0, 0, 0, // the rows
    0, 2,
];

/// The image of orders (id, cust, total) by the customer that is asked for: ann has (1, ann, 30) and
/// (3, ann, 5), and bob has (2, bob, 20).
pub const ORDERS: [u8; 193] = *b"CASTIMG1\
    \x01\x02\x01c\
    \x03\x00\x02id\x02\x04cust\x00\x05total\
    w\x00\x00\x00\x00\x00\x00\x00\
    \x1c\x00\x00\x00\x00\x00\x00\x00\
    \x07\x02\x00\x00\x00\x00\x00\x00\x00\x02\x00\x00\x00\x00\x00\x00\x00\
    \x19\x00\x00\x00\x00\x00\x00\x00\x19\x00\x00\x00\x00\x00\x00\x00\
    \x01\x03\x03\x00\x03\x00\
    \x06\x01\x00\x00\x00\x00\x00\x00\x00\x02\x00\x00\x00\x00\x00\x00\x00\
    \x05\x00\x00\x00\x00\x00\x00\x00\x0a\x00\x00\x00\x00\x00\x00\x00\
    \x04\x03\x00\
    \x01\x01\x00\x00\x00\x00\x00\x00\x00\x03\x00\x00\x00\x00\x00\x00\x00\
    \x03\x03\x00\x03\x00\
    \x01\x05\x00\x00\x00\x00\x00\x00\x00\x1e\x00\x00\x00\x00\x00\x00\x00\
    \x22\x00\x00\x00\x00\
    \x00\x00\x19\
    ann\x01\x05\x00ann\x19\x02ann\x00\
    bob\x00\x00\x01bob\x0f";

/// What bytes are opened as.
#[derive(Clone, Copy, Debug, PartialEq, Eq)]
pub enum Opened {
    /// An image, whose content is built to the same bytes.
    Same,
    /// An image, whose content is built to other bytes.
    Other,
    NotImage,
    Memory,
}

fn rebuilt(alloc: Global, image: &Image<'_>, bytes: &[u8]) -> Opened {
    match build(alloc, image.head(), image.code(), image.decoded()) {
        Ok(again) => {
            if again.as_slice() == bytes {
                Opened::Same
            } else {
                Opened::Other
            }
        }
        Err(_) => Opened::Memory,
    }
}

/// What bytes are opened as.
pub fn found(alloc: Global, bytes: &[u8]) -> Opened {
    match open_image(alloc, bytes) {
        Ok(image) => rebuilt(alloc, &image, bytes),
        Err(OpenError::NotImage) => Opened::NotImage,
        Err(OpenError::Memory) => Opened::Memory,
    }
}

fn push_value(text: &mut String, value: &Value) -> Result<(), AllocError> {
    let mut buffer = TextBuffer::new();
    text.push_str(value.cell().text(&mut buffer))
}

#[cycle(push)]
fn push_held(text: &mut String, held: &Held) -> Result<(), AllocError> {
    match held {
        Held::Leaf(value) => push_value(text, value),
        Held::Parts(parts) => {
            text.push_str("(")?;
            push_all(text, parts.as_slice())?;
            text.push_str(")")
        }
        Held::Rows(rows) => {
            text.push_str("[")?;
            push_all(text, rows.as_slice())?;
            text.push_str("]")
        }
        Held::Keyed(entries) => {
            text.push_str("{")?;
            push_entries(text, entries.as_slice())?;
            text.push_str("}")
        }
        Held::Inner(inner) => push_held(text, inner.get()),
    }
}

#[cycle(push)]
fn push_all(text: &mut String, all: &[Held]) -> Result<(), AllocError> {
    for (at, held) in all.iter().enumerate() {
        if at > 0 {
            text.push_str(" ")?;
        }
        push_held(text, held)?;
    }
    Ok(())
}

#[cycle(push)]
fn push_entries(text: &mut String, entries: &[Entry]) -> Result<(), AllocError> {
    for entry in entries {
        for value in entry.key.as_slice() {
            push_value(text, value)?;
            text.push_str(":")?;
        }
        push_held(text, &entry.kid)?;
    }
    Ok(())
}

/// Held data as text: values with a space between them, parts in `()`, the children of a list in `[]`, and
/// the entries of an index in `{}`, each child behind its key.
pub fn held_text(alloc: Global, held: &Held) -> Result<String, AllocError> {
    let mut text = String::new(alloc);
    push_held(&mut text, held)?;
    Ok(text)
}
