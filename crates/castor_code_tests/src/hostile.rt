//! Bytes that are deep, long, or promise more than there is.

use crate::bytes::Repeated;
use crate::taken::is_code;
use castor_val::Memory;
use std::alloc::Global;
use std::process::Abort;
use std::test::Fail;

fn are_code(alloc: Global, repeated: Repeated<'_>) -> Result<bool, Memory> {
    let bytes = repeated.bytes(alloc)?;
    is_code(alloc, bytes.as_slice())
}

fn repeated<'a>(front: &'a [u8], part: &'a [u8], times: u32, back: &'a [u8]) -> Repeated<'a> {
    Repeated {
        front,
        part,
        times,
        back,
    }
}

#[test]
fn a_code_is_at_most_64_deep(rt: HostRuntime) -> Result<(), Fail> {
    let cases = [
        // So many dedups over a bool.
        (repeated(&[], &[14], 63, &[2]), true),
        (repeated(&[], &[14], 64, &[2]), false),
        (repeated(&[], &[14], 1_000_000, &[2]), false),
        // So many crosses of one kid.
        (repeated(&[], &[4, 1, 0], 63, &[2]), true),
        (repeated(&[], &[4, 1, 0], 64, &[2]), false),
        // A filter by so many times not true.
        (repeated(&[10], &[39], 62, &[36, 1, 2]), true),
        (repeated(&[10], &[39], 63, &[36, 1, 2]), false),
        (repeated(&[10], &[39], 1_000_000, &[36, 1, 2]), false),
    ];
    for case in cases.as_slice() {
        let found = are_code(rt.alloc(), case.0)?;
        assert_eq!(rt; found, case.1, "{} times {:?}", case.0.times, case.0.part);
    }
    Ok(())
}

#[test]
fn a_code_has_at_most_8192_nodes(rt: HostRuntime) -> Result<(), Fail> {
    let cases = [
        // A cross of so many bools.
        (repeated(&[4, 0xff, 0x1f], &[2], 8191, &[]), true),
        (repeated(&[4, 0x00, 0x20], &[2], 8192, &[]), false),
        // A select of so many literals over a bool.
        (repeated(&[9, 0xfe, 0x1f], &[36, 0], 8190, &[2]), true),
        (repeated(&[9, 0xff, 0x1f], &[36, 0], 8191, &[2]), false),
    ];
    for case in cases.as_slice() {
        let found = are_code(rt.alloc(), case.0)?;
        assert_eq!(rt; found, case.1, "{} times {:?}", case.0.times, case.0.part);
    }
    Ok(())
}

#[test]
fn lists_that_are_no_nodes_have_at_most_65535_items(rt: HostRuntime) -> Result<(), Fail> {
    let cases = [
        // A group by so many columns, of so many counts, an order by so many keys, a text of so many bytes.
        repeated(&[12, 0xff, 0xff], &[7, 0, 0, 0], 65_535, &[0, 0, 2]),
        repeated(&[12, 0, 0, 0xff, 0xff], &[0], 65_535, &[2]),
        repeated(&[13, 0xff, 0xff], &[7, 0, 0, 0, 1], 65_535, &[2]),
        repeated(&[10, 37, 0xff, 0xff], &[97], 65_535, &[2]),
    ];
    for case in cases.as_slice() {
        let whole = are_code(rt.alloc(), *case)?;
        assert!(rt; whole, "{:?}", case.front);
        let more = Repeated {
            times: 65_536,
            ..*case
        };
        let is_longer = are_code(rt.alloc(), more)?;
        assert!(rt; !is_longer, "{:?}", case.front);
    }
    Ok(())
}

#[test]
fn a_promise_is_no_kid(rt: HostRuntime) -> Result<(), Fail> {
    let fronts: [&[u8]; 9] = [
        &[4, 0xff, 0xff],
        &[4, 0xff, 0xff, 4, 0xff, 0xff],
        &[5, 0xff, 0xff],
        &[9, 0xff, 0xff],
        &[10, 37, 0xff, 0xff],
        &[12, 0xff, 0xff],
        &[12, 0, 0, 0xff, 0xff],
        &[13, 0xff, 0xff],
        &[13, 0xff, 0xff, 1, 0, 0, 0, 0],
    ];
    for front in fronts.as_slice() {
        let found = is_code(rt.alloc(), *front)?;
        assert!(rt; !found, "{front:?}");
    }
    Ok(())
}
