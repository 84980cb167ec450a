//! What codes that are well formed never have.

use crate::taken::taken_for;
use castor_val::Memory;
use std::alloc::Global;
use std::process::Abort;
use std::test::Fail;

// The ranges of a count from 1 to 2 and of a body length from 3 to 4.
const RANGES: &str = "0100000000000000 0200000000000000 0300000000000000 0400000000000000";

#[test]
fn bytes_that_are_no_code(rt: HostRuntime) -> Result<(), Fail> {
    let cases = [
        // No bytes, and no node's tag.
        "",
        "00",
        "0f",
        "20",
        "ff",
        "0e 00",
        "0e 20",
        "0a 00 02",
        "0a 02 02",
        "0a 1f 02",
        "0a 29 02",
        // An end before the end.
        "01 0700000000000000",
        "03 0000 00",
        "04 0200 02",
        "0a 24 01",
        "0e",
        // A least number above a greatest.
        "01 0000000000000000 ffffffffffffffff",
        "03 0200 0100",
        // A list without an item.
        "04 0000",
        "05 0000",
        "09 0000 02",
        "0d 0000 02",
        // A group without a key and an aggregate.
        "0c 0000 0000 02",
        // A bool and a direction are 0 or 1, and there are four aggregates.
        "0a 24 02 02",
        "0d 0100 00000000 02 02",
        "0c 0000 0100 04 00000000 02",
        // A text that is no UTF-8, and one that isn't there.
        "0a 25 0100 ff 02",
        "0a 25 0200 c3 02",
        "0a 25 0400 61 02",
    ];
    for case in cases.as_slice() {
        let text = taken_for(rt.alloc(), *case)?;
        assert_eq!(rt; text.as_str(), "no code", "{case}");
    }
    Ok(())
}

#[test]
fn no_count_and_no_body_length_falls(rt: HostRuntime) -> Result<(), Fail> {
    let cases = [
        (
            "06 0200000000000000 0200000000000000 0000000000000000 0000000000000000 02",
            "list 2..2 in 0..0 over bool",
        ),
        (
            "06 0200000000000000 0100000000000000 0000000000000000 0000000000000000 02",
            "no code",
        ),
        (
            "06 0000000000000000 0000000000000000 0001000000000000 ff00000000000000 02",
            "no code",
        ),
        (
            "07 0200000000000000 0100000000000000 0000000000000000 0000000000000000 01 02 02 24 00",
            "no code",
        ),
        (
            "07 0000000000000000 0000000000000000 0200000000000000 0100000000000000 01 02 02 24 00",
            "no code",
        ),
        (
            "08 0200000000000000 0100000000000000 0000000000000000 0000000000000000 02 02 00 00",
            "no code",
        ),
        (
            "08 0000000000000000 0000000000000000 0200000000000000 0100000000000000 02 02 00 00",
            "no code",
        ),
    ];
    for case in cases.as_slice() {
        let text = taken_for(rt.alloc(), case.0)?;
        assert_eq!(rt; text.as_str(), case.1, "{}", case.0);
    }
    Ok(())
}

// What bytes behind the tag of an index and its ranges are taken for.
fn taken_behind(alloc: Global, tag: &str, digits: &str) -> Result<String, Memory> {
    let text = format!(in alloc; "{tag} {RANGES} {digits}")?;
    taken_for(alloc, text.as_str())
}

#[test]
fn a_key_has_1_to_4_columns_of_single_values(rt: HostRuntime) -> Result<(), Fail> {
    let cases = [
        (
            "07",
            "04 02 02 02 02 02 24 00 24 01 24 00 24 01",
            "hash 1..2 in 3..4 by [ bool bool bool bool ] [ false true false true ] over bool",
        ),
        ("07", "00 02", "no code"),
        (
            "07",
            "05 02 02 02 02 02 02 24 00 24 00 24 00 24 00 24 00",
            "no code",
        ),
        // An expression less than keys, and one more.
        ("07", "02 02 02 02 24 00", "no code"),
        ("07", "01 02 02 24 00 24 00", "no code"),
        // A key that is a relation.
        ("07", "01 0e 02 02 24 00", "no code"),
        ("07", "02 02 04 0100 02 02 24 00 24 00", "no code"),
        ("08", "0e 02 02 00 00", "no code"),
        // There are three bounds.
        ("08", "02 02 00 03 24 00", "no code"),
    ];
    for case in cases.as_slice() {
        let text = taken_behind(rt.alloc(), case.0, case.1)?;
        assert_eq!(rt; text.as_str(), case.2, "{} {}", case.0, case.1);
    }
    Ok(())
}
