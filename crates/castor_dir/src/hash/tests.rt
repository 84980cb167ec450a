//! The published vectors of FNV-1a, and keys by their bytes.

use super::{BASIS, key_hash, with_bytes};
use castor_val::Cell;

#[test]
fn hashes_bytes_by_the_published_vectors(rt: HostRuntime) {
    assert_eq!(rt; with_bytes(BASIS, b""), 0xcbf2_9ce4_8422_2325);
    assert_eq!(rt; with_bytes(BASIS, b"a"), 0xaf63_dc4c_8601_ec8c);
    assert_eq!(rt; with_bytes(BASIS, b"foobar"), 0x8594_4171_f739_67e8);
}

#[test]
fn hashes_a_key_by_the_bytes_of_its_values(rt: HostRuntime) {
    let bytes = b"\xfe\xff\xff\xff\xff\xff\xff\xff\x01a\xff\x00";
    let key = [
        Cell::Int(-2),
        Cell::Bool(true),
        Cell::Text("a"),
        Cell::Bool(false),
    ];
    assert_eq!(rt; key_hash(&key), with_bytes(BASIS, bytes));
    assert_eq!(rt; key_hash(&[]), BASIS);
}

#[test]
fn ends_a_text_with_a_byte_that_no_text_has(rt: HostRuntime) {
    assert_eq!(rt; key_hash(&[Cell::Text("a")]), with_bytes(BASIS, b"a\xff"));
    let split_late = key_hash(&[Cell::Text("ab"), Cell::Text("c")]);
    let split_early = key_hash(&[Cell::Text("a"), Cell::Text("bc")]);
    assert!(rt; split_late != split_early);
}
