//! Every node of codes and of expressions, there and back.

use crate::bytes::bytes_of;
use crate::taken::{taken, taken_for};
use castor_val::Memory;
use std::alloc::Global;
use std::process::Abort;
use std::test::Fail;

// A list of exactly 2 children in 2 bytes, each a cross of an int from 7 to 9.
const WORKED: &str = "06 0200000000000000 0200000000000000 0200000000000000 0200000000000000
    04 0100 01 0700000000000000 0900000000000000";

#[test]
fn the_worked_list_is_53_bytes_and_no_others(rt: HostRuntime) -> Result<(), Fail> {
    let bytes = bytes_of(rt.alloc(), WORKED)?;
    assert_eq!(rt; bytes.len(), 53);
    let whole = taken(rt.alloc(), bytes.as_slice())?;
    assert_eq!(rt; whole.as_str(), "list 2..2 in 2..2 over cross [ int 7..9 ]");
    for length in 0..bytes.len() {
        let front = taken(rt.alloc(), &bytes[..length])?;
        assert_eq!(rt; front.as_str(), "no code", "the first {length} bytes");
    }
    Ok(())
}

#[test]
fn nothing_stands_behind_a_code(rt: HostRuntime) -> Result<(), Fail> {
    let mut bytes = bytes_of(rt.alloc(), WORKED)?;
    bytes.push(0)?;
    let more = taken(rt.alloc(), bytes.as_slice())?;
    assert_eq!(rt; more.as_str(), "no code");
    Ok(())
}

#[test]
fn each_code_has_its_bytes(rt: HostRuntime) -> Result<(), Fail> {
    let cases = [
        ("01 feffffffffffffff 0102000000000000", "int -2..513"),
        ("02", "bool"),
        ("03 0102 0304", "text 513..1027"),
        ("04 0200 02 03 0500 ffff", "cross [ bool text 5..65535 ]"),
        ("05 0100 02", "concat [ bool ]"),
        (
            "06 0100000000000000 ffffffffffffffff 0000000000000000 0001000000000000 02",
            "list 1..18446744073709551615 in 0..256 over bool",
        ),
        (
            "07 0100000000000000 0200000000000000 0300000000000000 0400000000000000
                02 02 03 0000 0900 0e 02 22 00000000 24 01",
            "hash 1..2 in 3..4 by [ bool text 0..9 ] [ $0 true ] over dedup over bool",
        ),
        (
            "08 0100000000000000 0200000000000000 0300000000000000 0400000000000000
                02 0e 02 00 00",
            "ord 1..2 in 3..4 by bool from any to any over dedup over bool",
        ),
        (
            "08 0100000000000000 0200000000000000 0300000000000000 0400000000000000
                02 02 01 24 00 02 24 01",
            "ord 1..2 in 3..4 by bool from with false to without true over bool",
        ),
        (
            "08 0100000000000000 0200000000000000 0300000000000000 0400000000000000
                02 02 02 24 00 01 24 01",
            "ord 1..2 in 3..4 by bool from without false to with true over bool",
        ),
        (
            "09 0200 20 07000000 24 00 02",
            "select [ #7 false ] over bool",
        ),
        ("0a 24 01 02", "filter true over bool"),
        (
            "0b 09080706 02 03 0000 0000",
            "dep bool as s101124105 over text 0..0",
        ),
        (
            "0c 0200 03000000 04030201
                0400 00 01 01000000 02 02000000 03 08070605 02",
            "group [ #3 #16909060 ] [ count sum #1 min #2 max #84281096 ] over bool",
        ),
        ("0c 0100 00000000 0000 02", "group [ #0 ] [ ] over bool"),
        ("0c 0000 0100 00 02", "group [ ] [ count ] over bool"),
        (
            "0d 0200 01000000 01 02000000 00 02",
            "order [ #1 falling #2 rising ] over bool",
        ),
        ("0e 02", "dedup over bool"),
        (
            "07 0200000000000000 0200000000000000 1900000000000000 1900000000000000 01 03 0300 0300
                06 0100000000000000 0200000000000000 0500000000000000 0a00000000000000
                04 0300 01 0100000000000000 0300000000000000 03 0300 0300
                01 0500000000000000 1e00000000000000 22 00000000",
            "hash 2..2 in 25..25 by [ text 3..3 ] [ $0 ] over list 1..2 in 5..10 over cross [ int 1..3 text 3..3 int 5..30 ]",
        ),
    ];
    for case in cases.as_slice() {
        let text = taken_for(rt.alloc(), case.0)?;
        assert_eq!(rt; text.as_str(), case.1, "{}", case.0);
    }
    Ok(())
}

// What the bytes of an expression are taken for, as the condition of a filter.
fn taken_under_filter(alloc: Global, digits: &str) -> Result<String, Memory> {
    let text = format!(in alloc; "0a {digits} 02")?;
    taken_for(alloc, text.as_str())
}

#[test]
fn each_expression_has_its_bytes(rt: HostRuntime) -> Result<(), Fail> {
    let cases = [
        ("20 04030201", "filter #16909060 over bool"),
        ("21 01000000 ffffffff", "filter s1.4294967295 over bool"),
        ("22 02000000", "filter $2 over bool"),
        (
            "23 0000000000000080",
            "filter -9223372036854775808 over bool",
        ),
        (
            "23 ffffffffffffff7f",
            "filter 9223372036854775807 over bool",
        ),
        ("24 00", "filter false over bool"),
        ("24 01", "filter true over bool"),
        ("25 0000", "filter '' over bool"),
        ("25 0400 61 c3b1 62", "filter 'añb' over bool"),
        (
            "27 28 24 00 27 24 01 24 00",
            "filter not if false then not true else false over bool",
        ),
        ("26 00 24 00 24 01", "filter (false or true) over bool"),
        ("26 01 24 00 24 01", "filter (false and true) over bool"),
        ("26 02 24 00 24 01", "filter (false = true) over bool"),
        ("26 03 24 00 24 01", "filter (false != true) over bool"),
        ("26 04 24 00 24 01", "filter (false < true) over bool"),
        ("26 05 24 00 24 01", "filter (false <= true) over bool"),
        ("26 06 24 00 24 01", "filter (false > true) over bool"),
        ("26 07 24 00 24 01", "filter (false >= true) over bool"),
        ("26 08 24 00 24 01", "filter (false + true) over bool"),
        ("26 09 24 00 24 01", "filter (false - true) over bool"),
        ("26 0a 24 00 24 01", "filter (false * true) over bool"),
        ("26 0b 24 00 24 01", "filter (false / true) over bool"),
        ("26 0c 24 00 24 01", "filter (false % true) over bool"),
        ("26 0d 24 00 24 01", "no code"),
    ];
    for case in cases.as_slice() {
        let text = taken_under_filter(rt.alloc(), case.0)?;
        assert_eq!(rt; text.as_str(), case.1, "{}", case.0);
    }
    Ok(())
}
