//! Worked widths, and fields by their bytes.

use super::{get, put, width};

// For each width, the greatest number whose fields have it.
const GREATEST: [u64; 9] = [
    0,
    0xff,
    0xffff,
    0xff_ffff,
    0xffff_ffff,
    0xff_ffff_ffff,
    0xffff_ffff_ffff,
    0xff_ffff_ffff_ffff,
    0xffff_ffff_ffff_ffff,
];

#[test]
fn widths_change_past_each_power_of_256(rt: HostRuntime) {
    for (bytes, greatest) in GREATEST.iter().enumerate() {
        let greatest = *greatest as i128;
        assert_eq!(rt; width(0, greatest) as usize, bytes, "up to {greatest}");
        if greatest < u64::MAX as i128 {
            assert_eq!(rt;
                width(0, greatest + 1) as usize,
                bytes + 1,
                "past {greatest}"
            );
        }
    }
}

#[test]
fn widths_go_by_the_span_alone(rt: HostRuntime) {
    assert_eq!(rt; width(i64::MIN as i128, i64::MAX as i128), 8);
    assert_eq!(rt; width(7, 7), 0);
    assert_eq!(rt; width(-1, 254), 1);
    assert_eq!(rt; width(-1, 255), 2);
    assert_eq!(rt; width(u64::MAX as i128 - 255, u64::MAX as i128), 1);
}

#[test]
fn puts_the_least_byte_first_and_leaves_the_rest(rt: HostRuntime) {
    let mut bytes = [0xaa; 4];
    put(&mut bytes, 3, 0x01_0203);
    assert_eq!(rt; bytes, [0x03, 0x02, 0x01, 0xaa]);
    put(&mut bytes, 0, 0);
    assert_eq!(rt; bytes, [0x03, 0x02, 0x01, 0xaa]);
}

#[test]
fn gets_what_the_first_bytes_say(rt: HostRuntime) {
    let bytes = [0x03, 0x02, 0x01, 0, 0, 0, 0, 0x80];
    assert_eq!(rt; get(&bytes, 0), 0);
    assert_eq!(rt; get(&bytes, 2), 0x0203);
    assert_eq!(rt; get(&bytes, 8), 0x8000_0000_0001_0203);
}
