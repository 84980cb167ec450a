//! Heads at their limits.

use crate::bytes::{Opened, found};
use std::alloc::{AllocError, Global};
use std::process::Abort;
use std::test::Fail;

const PARAMS: [&str; 17] = [
    "a", "b", "c", "d", "e", "f", "g", "h", "i", "j", "k", "l", "m", "n", "o", "p", "q",
];

const COLUMNS: [&str; 65] = ["x"; 65];

const NAME_OF_64: &str = "a_23456789_23456789_23456789_23456789_23456789_23456789_23456789";

const NAME_OF_65: &str = "a_23456789_23456789_23456789_23456789_23456789_23456789_234567890";

/// The types and names of int columns, behind their number.
fn push_columns(bytes: &mut Vec<u8>, names: &[&str]) -> Result<(), AllocError> {
    bytes.push((names.len() % 256) as u8)?;
    for name in names {
        bytes.push(0)?;
        bytes.push((name.len() % 256) as u8)?;
        bytes.extend_from_slice(name.as_bytes())?;
    }
    Ok(())
}

fn push_length(bytes: &mut Vec<u8>, length: usize) -> Result<(), AllocError> {
    bytes.extend_from_slice(&(length as u64).to_le_bytes())
}

/// An image, if its head is one, of a cross of as many ints as there are columns. Each int is 0 and takes no
/// byte.
fn zeros(alloc: Global, params: &[&str], columns: &[&str]) -> Result<Vec<u8>, AllocError> {
    let mut bytes = Vec::from_slice(alloc, b"CASTIMG1")?;
    push_columns(&mut bytes, params)?;
    push_columns(&mut bytes, columns)?;
    let ints = columns.len() % 256;
    push_length(&mut bytes, 3 + 17 * ints)?;
    push_length(&mut bytes, 0)?;
    bytes.extend_from_slice(&[4, ints as u8, 0])?;
    for _ in 0..ints {
        bytes.push(1)?;
        bytes.extend_from_slice(&[0; 16])?;
    }
    Ok(bytes)
}

/// What an image with these names is opened as.
fn found_zeros(alloc: Global, params: &[&str], columns: &[&str]) -> Result<Opened, AllocError> {
    let bytes = zeros(alloc, params, columns)?;
    Ok(found(alloc, bytes.as_slice()))
}

#[test]
fn heads_are_within_their_limits(rt: HostRuntime) -> Result<(), Fail> {
    let params = PARAMS.as_slice();
    let columns = COLUMNS.as_slice();
    let cases = [
        (&params[..0], &columns[..1], Opened::Same),
        (&params[..16], &columns[..1], Opened::Same),
        (&params[..17], &columns[..1], Opened::NotImage),
        (&params[..1], &columns[..0], Opened::NotImage),
        (&params[..1], &columns[..64], Opened::Same),
        (&params[..1], &columns[..65], Opened::NotImage),
    ];
    for case in cases.as_slice() {
        let opened = found_zeros(rt.alloc(), case.0, case.1)?;
        assert_eq!(rt; opened, case.2, "{:?}, {:?}", case.0, case.1);
    }
    Ok(())
}

#[test]
fn names_are_words_of_64_bytes_and_those_of_parameters_are_distinct(
    rt: HostRuntime,
) -> Result<(), Fail> {
    let cases = [
        ("a", "b", Opened::Same),
        ("a", "a", Opened::NotImage),
        ("a", "", Opened::NotImage),
        ("a", NAME_OF_64, Opened::Same),
        ("a", NAME_OF_65, Opened::NotImage),
        ("a", "2a", Opened::NotImage),
        ("a", "_2", Opened::Same),
        ("a", "a-b", Opened::NotImage),
        ("a", "table", Opened::Same),
    ];
    for case in cases.as_slice() {
        let opened = found_zeros(rt.alloc(), &[case.0, case.1], &["x"])?;
        assert_eq!(rt; opened, case.2, "{}, {}", case.0, case.1);
    }
    Ok(())
}

#[test]
fn names_of_columns_may_repeat(rt: HostRuntime) -> Result<(), Fail> {
    let opened = found_zeros(rt.alloc(), &["x"], &["x", "x"])?;
    assert_eq!(rt; opened, Opened::Same);
    Ok(())
}
