//! Images that are opened: what they hold, and that it is built to the same bytes again.

use crate::bytes::{ORDERS, Opened, TWO_ROWS, found, held_text};
use castor_code::Code;
use castor_image::{Head, Image, OpenError, open_image};
use castor_val::{Column, Ty};
use std::alloc::{AllocError, Global};
use std::process::Abort;
use std::test::Fail;

fn text_of(alloc: Global, image: Image) -> Result<String, AllocError> {
    held_text(alloc, image.decoded())
}

/// The held data of an image as text.
fn decoded(alloc: Global, bytes: &[u8]) -> Result<String, OpenError> {
    match open_image(alloc, bytes) {
        Ok(image) => Ok(text_of(alloc, image)?),
        Err(why) => Err(why),
    }
}

/// An int column of 8 bytes a row, with the least and the greatest int.
const WIDE: [u8; 98] = *b"CASTIMG1\
    \x00\x01\x00\x01x\
    \x35\x00\x00\x00\x00\x00\x00\x00\
    \x10\x00\x00\x00\x00\x00\x00\x00\
    \x06\x02\x00\x00\x00\x00\x00\x00\x00\x02\x00\x00\x00\x00\x00\x00\x00\
    \x10\x00\x00\x00\x00\x00\x00\x00\x10\x00\x00\x00\x00\x00\x00\x00\
    \x04\x01\x00\x01\x00\x00\x00\x00\x00\x00\x00\x80\xff\xff\xff\xff\xff\xff\xff\x7f\
    \x00\x00\x00\x00\x00\x00\x00\x00\xff\xff\xff\xff\xff\xff\xff\xff";

#[test]
fn images_are_built_again(rt: HostRuntime) {
    assert_eq!(rt; found(rt.alloc(), TWO_ROWS.as_slice()), Opened::Same);
    assert_eq!(rt; found(rt.alloc(), WIDE.as_slice()), Opened::Same);
    assert_eq!(rt; found(rt.alloc(), ORDERS.as_slice()), Opened::Same);
}

#[test]
fn images_hold_their_data(rt: HostRuntime) -> Result<(), Fail> {
    let cases = [
        (TWO_ROWS.as_slice(), "[(7) (9)]"),
        (
            WIDE.as_slice(),
            "[(-9223372036854775808) (9223372036854775807)]",
        ),
        (
            ORDERS.as_slice(),
            "{ann:[(1 ann 30) (3 ann 5)]bob:[(2 bob 20)]}",
        ),
    ];
    for case in cases.as_slice() {
        let text = decoded(rt.alloc(), case.0)?;
        assert_eq!(rt; text.as_str(), case.1);
    }
    Ok(())
}

fn is_column(column: Option<&Column>, name: &str, ty: Ty) -> bool {
    match column {
        Some(column) => column.name.as_str() == name && column.ty == ty,
        None => false,
    }
}

fn is_orders(head: &Head) -> bool {
    head.params.len() == 1
        && is_column(head.params.get(0), "c", Ty::Text)
        && head.columns.len() == 3
        && is_column(head.columns.get(0), "id", Ty::Int)
        && is_column(head.columns.get(1), "cust", Ty::Text)
        && is_column(head.columns.get(2), "total", Ty::Int)
}

fn is_hash(code: &Code) -> bool {
    match code {
        Code::Hash { key, by, .. } => key.len() == 1 && by.len() == 1,
        _ => false,
    }
}

fn says_orders(image: Image) -> bool {
    is_orders(image.head()) && is_hash(image.code())
}

/// Whether bytes are an image that says that it holds the orders by customer.
fn are_orders(alloc: Global, bytes: &[u8]) -> Result<bool, OpenError> {
    match open_image(alloc, bytes) {
        Ok(image) => Ok(says_orders(image)),
        Err(why) => Err(why),
    }
}

#[test]
fn an_image_says_what_it_answers_and_how(rt: HostRuntime) -> Result<(), Fail> {
    let are_orders = are_orders(rt.alloc(), ORDERS.as_slice())?;
    assert!(rt; are_orders);
    Ok(())
}
