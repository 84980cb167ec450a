//! Questions to images.

use crate::comparison::{Outcome, asked};
use crate::images::{ORDERS, counted, falling, hash, ordered, sharing};
use castor_val::Cell;
use std::process::Abort;
use std::test::Fail;

#[test]
fn orders_are_found_by_customer(rt: HostRuntime) -> Result<(), Fail> {
    let cases = [("ann", 2), ("bob", 1), ("", 0), ("annb", 0), ("zoe", 0)];
    for (name, rows) in cases {
        let found = asked(rt.alloc(), &ORDERS, &[Cell::Text(name)])?;
        assert_eq!(rt; found, Outcome::Rows(rows), "{name}");
    }
    Ok(())
}

#[test]
fn keys_that_share_a_bucket_are_told_apart(rt: HostRuntime) -> Result<(), Fail> {
    let (one, other) = sharing();
    let bytes = hash(rt.alloc(), one, other)?;
    for key in 0..256i64 {
        let is_key = key == i64::from(one) || key == i64::from(other);
        let due = Outcome::Rows(if is_key { 1 } else { 0 });
        let found = asked(rt.alloc(), bytes.as_slice(), &[Cell::Int(key)])?;
        assert_eq!(rt; found, due, "{key}");
    }
    Ok(())
}

#[test]
fn ranges_hold_their_ends_or_not(rt: HostRuntime) -> Result<(), Fail> {
    // No bound, the parameter, and the parameter excluded.
    let any = b"\x00".as_slice();
    let with = b"\x01\x22\x00\x00\x00\x00".as_slice();
    let without = b"\x02\x22\x00\x00\x00\x00".as_slice();
    let cases = [
        (any, any, 5, 3),
        (with, any, 5, 2),
        (without, any, 5, 1),
        (any, with, 5, 2),
        (any, without, 5, 1),
        (with, with, 5, 1),
        (without, with, 5, 0),
        (without, without, 4, 0),
        (with, any, 10, 0),
        (any, with, 2, 0),
        (with, any, -1, 3),
        (any, without, 256, 3),
    ];
    for (lo, hi, number, rows) in cases {
        let bytes = ordered(rt.alloc(), lo, hi)?;
        let found = asked(rt.alloc(), bytes.as_slice(), &[Cell::Int(number)])?;
        assert_eq!(rt; found, Outcome::Rows(rows), "{number}");
    }
    Ok(())
}

#[test]
fn a_bound_that_faults_gives_its_faults(rt: HostRuntime) -> Result<(), Fail> {
    // 1 / $0, excluded.
    let bytes = ordered(
        rt.alloc(),
        b"\x02\x26\x0b\x23\x01\x00\x00\x00\x00\x00\x00\x00\x22\x00\x00\x00\x00",
        b"\x00",
    )?;
    let found = asked(rt.alloc(), bytes.as_slice(), &[Cell::Int(0)])?;
    assert_eq!(rt; found, Outcome::Faults);
    Ok(())
}

#[test]
fn operators_are_read_over_their_operands(rt: HostRuntime) -> Result<(), Fail> {
    let bytes = falling(rt.alloc())?;
    for (number, rows) in [(0, 0), (3, 1), (10, 2), (11, 3)] {
        let found = asked(rt.alloc(), bytes.as_slice(), &[Cell::Int(number)])?;
        assert_eq!(rt; found, Outcome::Rows(rows), "{number}");
    }
    Ok(())
}

#[test]
fn a_second_part_is_read_under_each_row_of_the_first(rt: HostRuntime) -> Result<(), Fail> {
    let bytes = counted(rt.alloc())?;
    let found = asked(rt.alloc(), bytes.as_slice(), &[Cell::Int(0)])?;
    assert_eq!(rt; found, Outcome::Rows(1));
    Ok(())
}
