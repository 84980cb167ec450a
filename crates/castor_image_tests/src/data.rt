//! Data that is none of its code, and data of no bytes.

use crate::bytes::{Opened, found};
use std::alloc::{AllocError, Global};
use std::process::Abort;
use std::test::Fail;

/// The head of an image of one int column, `x`, and of one text column.
const INT_HEAD: [u8; 5] = *b"\x00\x01\x00\x01x";

const TEXT_HEAD: [u8; 5] = *b"\x00\x01\x02\x01x";

/// An int from 7 to 9.
const INT: [u8; 17] = *b"\x01\x07\x00\x00\x00\x00\x00\x00\x00\x09\x00\x00\x00\x00\x00\x00\x00";

/// A text of one byte.
const TEXT: [u8; 5] = *b"\x03\x01\x00\x01\x00";

/// A list of any number of fives, which take no byte.
const FIVES: [u8; 50] = *b"\x06\
    \x00\x00\x00\x00\x00\x00\x00\x00\xff\xff\xff\xff\xff\xff\xff\xff\
    \x00\x00\x00\x00\x00\x00\x00\x00\x00\x00\x00\x00\x00\x00\x00\x00\
    \x01\x05\x00\x00\x00\x00\x00\x00\x00\x05\x00\x00\x00\x00\x00\x00\x00";

/// An ordered index of two bytes as keys, each with a five, without bounds.
const INDEX: [u8; 69] = *b"\x08\
    \x02\x00\x00\x00\x00\x00\x00\x00\x02\x00\x00\x00\x00\x00\x00\x00\
    \x02\x00\x00\x00\x00\x00\x00\x00\x02\x00\x00\x00\x00\x00\x00\x00\
    \x01\x00\x00\x00\x00\x00\x00\x00\x00\xff\x00\x00\x00\x00\x00\x00\x00\
    \x01\x05\x00\x00\x00\x00\x00\x00\x00\x05\x00\x00\x00\x00\x00\x00\x00\
    \x00\x00";

/// An ordered index of two fives as keys, each with a five, without bounds.
const EMPTY_INDEX: [u8; 69] = *b"\x08\
    \x02\x00\x00\x00\x00\x00\x00\x00\x02\x00\x00\x00\x00\x00\x00\x00\
    \x00\x00\x00\x00\x00\x00\x00\x00\x00\x00\x00\x00\x00\x00\x00\x00\
    \x01\x05\x00\x00\x00\x00\x00\x00\x00\x05\x00\x00\x00\x00\x00\x00\x00\
    \x01\x05\x00\x00\x00\x00\x00\x00\x00\x05\x00\x00\x00\x00\x00\x00\x00\
    \x00\x00";

/// An image, if these are parts of one.
fn image(alloc: Global, head: &[u8], code: &[u8], data: &[u8]) -> Result<Vec<u8>, AllocError> {
    let mut bytes = Vec::from_slice(alloc, b"CASTIMG1")?;
    bytes.extend_from_slice(head)?;
    bytes.extend_from_slice(&(code.len() as u64).to_le_bytes())?;
    bytes.extend_from_slice(&(data.len() as u64).to_le_bytes())?;
    bytes.extend_from_slice(code)?;
    bytes.extend_from_slice(data)?;
    Ok(bytes)
}

/// What an image of these parts is opened as.
fn found_of(alloc: Global, head: &[u8], code: &[u8], data: &[u8]) -> Result<Opened, AllocError> {
    let bytes = image(alloc, head, code, data)?;
    Ok(found(alloc, bytes.as_slice()))
}

#[test]
fn an_int_is_within_its_range(rt: HostRuntime) -> Result<(), Fail> {
    let cases: [(&[u8], Opened); 4] = [
        (b"\x02", Opened::Same),
        (b"\x03", Opened::NotImage),
        (b"", Opened::NotImage),
        (b"\x02\x02", Opened::NotImage),
    ];
    for case in cases.as_slice() {
        let opened = found_of(rt.alloc(), INT_HEAD.as_slice(), INT.as_slice(), case.0)?;
        assert_eq!(rt; opened, case.1, "{:?}", case.0);
    }
    Ok(())
}

#[test]
fn a_text_is_of_its_length_and_of_utf8(rt: HostRuntime) -> Result<(), Fail> {
    let cases: [(&[u8], Opened); 4] = [
        (b"a", Opened::Same),
        (b"\xff", Opened::NotImage),
        (b"", Opened::NotImage),
        (b"ab", Opened::NotImage),
    ];
    for case in cases.as_slice() {
        let opened = found_of(rt.alloc(), TEXT_HEAD.as_slice(), TEXT.as_slice(), case.0)?;
        assert_eq!(rt; opened, case.1, "{:?}", case.0);
    }
    Ok(())
}

#[test]
fn a_code_fits_its_head(rt: HostRuntime) -> Result<(), Fail> {
    let int = found_of(
        rt.alloc(),
        TEXT_HEAD.as_slice(),
        INT.as_slice(),
        b"\x02".as_slice(),
    )?;
    assert_eq!(rt; int, Opened::NotImage, "an int is no text");
    let text = found_of(
        rt.alloc(),
        INT_HEAD.as_slice(),
        TEXT.as_slice(),
        b"a".as_slice(),
    )?;
    assert_eq!(rt; text, Opened::NotImage, "a text is no int");
    Ok(())
}

#[test]
fn entries_stand_in_the_order_of_their_keys(rt: HostRuntime) -> Result<(), Fail> {
    let cases: [(&[u8], Opened); 4] = [
        (b"\x00\x01\x03\x04", Opened::Same),
        (b"\x00\x01\x04\x03", Opened::NotImage),
        (b"\x00\x01\x03\x03", Opened::NotImage),
        // Other offsets.
        (b"\x01\x00\x03\x04", Opened::NotImage),
    ];
    for case in cases.as_slice() {
        let opened = found_of(rt.alloc(), INT_HEAD.as_slice(), INDEX.as_slice(), case.0)?;
        assert_eq!(rt; opened, case.1, "{:?}", case.0);
    }
    Ok(())
}

#[test]
fn a_key_of_no_bytes_stands_once(rt: HostRuntime) -> Result<(), Fail> {
    let opened = found_of(
        rt.alloc(),
        INT_HEAD.as_slice(),
        EMPTY_INDEX.as_slice(),
        b"".as_slice(),
    )?;
    assert_eq!(rt; opened, Opened::NotImage);
    Ok(())
}

/// What a list of so many fives is opened as.
fn found_fives(alloc: Global, number: u64) -> Result<Opened, AllocError> {
    found_of(
        alloc,
        INT_HEAD.as_slice(),
        FIVES.as_slice(),
        &number.to_le_bytes(),
    )
}

#[test]
fn children_of_no_bytes_are_held_up_to_a_limit(rt: HostRuntime) -> Result<(), Fail> {
    let cases = [
        (0, Opened::Same),
        (3, Opened::Same),
        (65_536, Opened::Same),
        (65_537, Opened::Memory),
        (u64::MAX, Opened::Memory),
    ];
    for case in cases.as_slice() {
        let opened = found_fives(rt.alloc(), case.0)?;
        assert_eq!(rt; opened, case.1, "{} children", case.0);
    }
    Ok(())
}
