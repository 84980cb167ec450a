//! The images of the tests.

use castor_dir::key_hash;
use castor_val::Cell;
use std::alloc::{AllocError, Global};

/// The image of orders (id, cust, total) by the customer that is asked for: ann has (1, ann, 30) and
/// (3, ann, 5), and bob has (2, bob, 20).
pub const ORDERS: [u8; 193] = *b"CASTIMG1\
    \x01\x02\x01c\
    \x03\x00\x02id\x02\x04cust\x00\x05total\
    w\x00\x00\x00\x00\x00\x00\x00\
    \x1c\x00\x00\x00\x00\x00\x00\x00\
    \x07\x02\x00\x00\x00\x00\x00\x00\x00\x02\x00\x00\x00\x00\x00\x00\x00\
    \x19\x00\x00\x00\x00\x00\x00\x00\x19\x00\x00\x00\x00\x00\x00\x00\
    \x01\x03\x03\x00\x03\x00\
    \x06\x01\x00\x00\x00\x00\x00\x00\x00\x02\x00\x00\x00\x00\x00\x00\x00\
    \x05\x00\x00\x00\x00\x00\x00\x00\x0a\x00\x00\x00\x00\x00\x00\x00\
    \x04\x03\x00\
    \x01\x01\x00\x00\x00\x00\x00\x00\x00\x03\x00\x00\x00\x00\x00\x00\x00\
    \x03\x03\x00\x03\x00\
    \x01\x05\x00\x00\x00\x00\x00\x00\x00\x1e\x00\x00\x00\x00\x00\x00\x00\
    \x22\x00\x00\x00\x00\
    \x00\x00\x19\
    ann\x01\x05\x00ann\x19\x02ann\x00\
    bob\x00\x00\x01bob\x0f";

/// An int from 0 to 255, in one byte.
const BYTE: [u8; 17] = *b"\x01\x00\x00\x00\x00\x00\x00\x00\x00\xff\x00\x00\x00\x00\x00\x00\x00";

/// The head of an image that asks for an int, `k`, and gives an int column, `x`.
const HEAD: [u8; 8] = *b"\x01\x00\x01k\x01\x00\x01x";

fn push_range(out: &mut Vec<u8>, lo: u64, hi: u64) -> Result<(), AllocError> {
    out.extend_from_slice(&lo.to_le_bytes())?;
    out.extend_from_slice(&hi.to_le_bytes())?;
    Ok(())
}

/// The bytes of an image of these parts.
fn image(alloc: Global, code: &[u8], data: &[u8]) -> Result<Vec<u8>, AllocError> {
    let mut bytes = Vec::from_slice(alloc, b"CASTIMG1")?;
    bytes.extend_from_slice(&HEAD)?;
    bytes.extend_from_slice(&(code.len() as u64).to_le_bytes())?;
    bytes.extend_from_slice(&(data.len() as u64).to_le_bytes())?;
    bytes.extend_from_slice(code)?;
    bytes.extend_from_slice(data)?;
    Ok(bytes)
}

/// Whether a key falls into the first of two buckets.
fn is_first(key: u8) -> bool {
    key_hash(&[Cell::Int(i64::from(key))]) % 2 == 0
}

/// Two keys, ascending, that fall into one bucket of two.
pub fn sharing() -> (u8, u8) {
    let first = is_first(1);
    for key in 2..255u8 {
        if is_first(key) == first {
            return (1, key);
        }
    }
    (1, 255)
}

/// A hash index of two keys, ascending, that share a bucket, over the ints 10 and 20, by `$0`.
pub fn hash(alloc: Global, one: u8, other: u8) -> Result<Vec<u8>, AllocError> {
    let mut code = Vec::from_slice(alloc, b"\x07")?;
    push_range(&mut code, 2, 2)?;
    push_range(&mut code, 4, 4)?;
    code.push(1)?;
    code.extend_from_slice(&BYTE)?;
    code.extend_from_slice(&BYTE)?;
    code.extend_from_slice(b"\x22\x00\x00\x00\x00")?;
    let beyond_first = if is_first(one) { 4 } else { 0 };
    let data = [0, beyond_first, 4, one, 10, other, 20];
    image(alloc, code.as_slice(), data.as_slice())
}

/// An ordered index of the keys 3, 5 and 9 over the ints 30, 50 and 90, between these bounds.
pub fn ordered(alloc: Global, lo: &[u8], hi: &[u8]) -> Result<Vec<u8>, AllocError> {
    let mut code = Vec::from_slice(alloc, b"\x08")?;
    push_range(&mut code, 3, 3)?;
    push_range(&mut code, 6, 6)?;
    code.extend_from_slice(&BYTE)?;
    code.extend_from_slice(&BYTE)?;
    code.extend_from_slice(lo)?;
    code.extend_from_slice(hi)?;
    image(alloc, code.as_slice(), &[0, 2, 4, 3, 30, 5, 50, 9, 90])
}

/// A list of so many ints from 0 to 255.
fn push_list(code: &mut Vec<u8>, length: u64) -> Result<(), AllocError> {
    code.push(6)?;
    push_range(code, length, length)?;
    push_range(code, length, length)?;
    code.extend_from_slice(&BYTE)?;
    Ok(())
}

/// The distinct numbers below `$0` that are one more than 5, 1, 5 or 9, the greatest first.
pub fn falling(alloc: Global) -> Result<Vec<u8>, AllocError> {
    let mut code = Vec::from_slice(alloc, b"\x0d\x01\x00\x00\x00\x00\x00\x01")?;
    code.extend_from_slice(b"\x0e")?;
    code.extend_from_slice(b"\x0a\x26\x04\x20\x00\x00\x00\x00\x22\x00\x00\x00\x00")?;
    code.extend_from_slice(
        b"\x09\x01\x00\x26\x08\x20\x00\x00\x00\x00\x23\x01\x00\x00\x00\x00\x00\x00\x00",
    )?;
    push_list(&mut code, 4)?;
    image(alloc, code.as_slice(), &[5, 1, 5, 9])
}

/// How many there are in all: those of 3, 8 and 20 that are above 7, those above 10, and 1 and 2.
pub fn counted(alloc: Global) -> Result<Vec<u8>, AllocError> {
    let mut code = Vec::from_slice(alloc, b"\x0c\x00\x00\x01\x00\x00\x05\x02\x00")?;
    code.extend_from_slice(b"\x0b\x07\x00\x00\x00")?;
    push_list(&mut code, 2)?;
    code.extend_from_slice(
        b"\x0a\x26\x04\x21\x07\x00\x00\x00\x00\x00\x00\x00\x20\x00\x00\x00\x00",
    )?;
    push_list(&mut code, 3)?;
    push_list(&mut code, 2)?;
    image(alloc, code.as_slice(), &[7, 10, 3, 8, 20, 1, 2])
}
