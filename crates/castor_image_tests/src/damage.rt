//! Damaged images.

use crate::bytes::{ORDERS, Opened, TWO_ROWS, found};
use std::alloc::{AllocError, Global};
use std::process::Abort;
use std::test::Fail;

/// Where the offsets of the orders stand, at the front of their data.
const ORDERS_OFFSETS: usize = 165;

/// What bytes are opened as with another byte at a place.
fn found_with(alloc: Global, bytes: &[u8], at: usize, byte: u8) -> Result<Opened, AllocError> {
    let mut changed = Vec::from_slice(alloc, bytes)?;
    if at < changed.len() {
        changed[at] = byte;
    }
    Ok(found(alloc, changed.as_slice()))
}

/// What bytes are opened as with one byte more at the end.
fn found_before(alloc: Global, bytes: &[u8], byte: u8) -> Result<Opened, AllocError> {
    let mut longer = Vec::from_slice(alloc, bytes)?;
    longer.push(byte)?;
    Ok(found(alloc, longer.as_slice()))
}

/// What bytes are opened as with a byte and the one after it exchanged.
fn found_exchanged(alloc: Global, bytes: &[u8], at: usize) -> Result<Opened, AllocError> {
    let mut changed = Vec::from_slice(alloc, bytes)?;
    if at < changed.len() && 1 < changed.len() - at {
        changed.swap(at, at + 1);
    }
    Ok(found(alloc, changed.as_slice()))
}

#[test]
fn no_front_part_of_two_rows_is_an_image(rt: HostRuntime) {
    for length in 0..TWO_ROWS.len() {
        let front = &TWO_ROWS.as_slice()[..length];
        let opened = found(rt.alloc(), front);
        assert_eq!(rt; opened, Opened::NotImage, "the first {length} bytes");
    }
}

#[test]
fn no_front_part_of_the_orders_is_an_image(rt: HostRuntime) {
    for length in 0..ORDERS.len() {
        let front = &ORDERS.as_slice()[..length];
        let opened = found(rt.alloc(), front);
        assert_eq!(rt; opened, Opened::NotImage, "the first {length} bytes");
    }
}

#[test]
fn no_image_stands_before_more_bytes(rt: HostRuntime) -> Result<(), Fail> {
    let opened = found_before(rt.alloc(), ORDERS.as_slice(), 0)?;
    assert_eq!(rt; opened, Opened::NotImage);
    Ok(())
}

/// What two rows with a byte raised by one are. The bytes that can be raised are the letter of the column's
/// name, the tag of the cross, which becomes a concat, the greatest int of a row, and the row 7, which becomes
/// an 8.
fn two_rows_raised(at: usize) -> Opened {
    match at {
        12 | 62 | 74 | 82 => Opened::Same,
        _ => Opened::NotImage,
    }
}

#[test]
fn two_rows_with_a_raised_byte_are_another_image_or_none(rt: HostRuntime) -> Result<(), Fail> {
    for at in 0..TWO_ROWS.len() {
        let byte = TWO_ROWS[at].wrapping_add(1);
        let opened = found_with(rt.alloc(), TWO_ROWS.as_slice(), at, byte)?;
        assert_eq!(rt; opened, two_rows_raised(at), "byte {at}");
    }
    Ok(())
}

/// Whether bytes are no image, or are built again from what they hold.
fn is_same_or_none(opened: Opened) -> bool {
    opened == Opened::Same || opened == Opened::NotImage
}

#[test]
fn orders_with_a_raised_byte_are_another_image_or_none(rt: HostRuntime) -> Result<(), Fail> {
    for at in 0..ORDERS.len() {
        let byte = ORDERS[at].wrapping_add(1);
        let opened = found_with(rt.alloc(), ORDERS.as_slice(), at, byte)?;
        assert!(rt; is_same_or_none(opened), "byte {at}");
    }
    Ok(())
}

#[test]
fn offsets_are_where_the_entries_stand(rt: HostRuntime) -> Result<(), Fail> {
    // The offsets 00 00 19 become 00 19 00.
    let opened = found_exchanged(rt.alloc(), ORDERS.as_slice(), ORDERS_OFFSETS + 1)?;
    assert_eq!(rt; opened, Opened::NotImage);
    Ok(())
}
