//! How many fields are read to pass over data.

ghost use Rattle.std.specs.Prelude.{◌≡◌, true};
ghost use Rattle.castor_code.specs.CodeForms.{is_well_formed};

use crate::bytes::bytes_of;
use castor_code::{Code, CodeError, decode, skip_reads};
use castor_val::Memory;
use std::alloc::Global;
use std::process::Abort;
use std::test::Fail;

fn reads_past(code: Code) -> u64
    requires { is_well_formed code ≡ true }
{
    skip_reads(&code)
}

// The fields that are read to pass over the data of a code, and None where the digits are no code.
fn skipped_by(alloc: Global, digits: &str) -> Result<Option<u64>, Memory> {
    let bytes = bytes_of(alloc, digits)?;
    match decode(alloc, bytes.as_slice()) {
        Ok(code) => Ok(Some(reads_past(code))),
        Err(CodeError::NotCode) => Ok(None),
        Err(CodeError::Memory) => Err(Memory),
    }
}

#[test]
fn a_skip_reads_lengths_and_counts(rt: HostRuntime) -> Result<(), Fail> {
    let cases = [
        ("01 0000000000000000 0900000000000000", 0),
        ("02", 0),
        ("03 0000 0900", 1),
        // The sum of the kids.
        ("04 0300 03 0000 0900 02 03 0000 0900", 2),
        ("05 0200 03 0000 0900 04 0200 03 0000 0000 03 0000 0000", 3),
        // Once for a list, whatever its children are, and twice for an index.
        (
            "06 0000000000000000 0900000000000000 0000000000000000 0900000000000000
                04 0200 03 0000 0900 03 0000 0900",
            1,
        ),
        (
            "07 0000000000000000 0900000000000000 0000000000000000 0900000000000000
                01 03 0000 0900 04 0300 03 0000 0900 03 0000 0900 03 0000 0900 24 00",
            2,
        ),
        (
            "08 0000000000000000 0900000000000000 0000000000000000 0900000000000000
                03 0000 0900 04 0300 03 0000 0900 03 0000 0900 03 0000 0900 00 00",
            2,
        ),
        // Those of the kid.
        ("09 0100 24 00 03 0000 0900", 1),
        ("0a 24 00 04 0200 03 0000 0900 03 0000 0900", 2),
        ("0c 0000 0100 00 03 0000 0900", 1),
        ("0d 0100 00000000 00 03 0000 0900", 1),
        ("0e 04 0200 03 0000 0900 03 0000 0900", 2),
        // The sum of the two.
        (
            "0b 00000000 03 0000 0900
                08 0000000000000000 0900000000000000 0000000000000000 0900000000000000
                02 02 00 00",
            3,
        ),
    ];
    for case in cases.as_slice() {
        let found = skipped_by(rt.alloc(), case.0)?;
        assert_eq!(rt; found, Some(case.1), "{}", case.0);
    }
    Ok(())
}
