//! Fields at the front of bytes and at their end.

use castor_code::fields::{number_at, push_field};
use std::process::Abort;
use std::test::Fail;

#[test]
fn a_field_is_put_at_the_end_and_read_at_the_front(rt: HostRuntime) -> Result<(), Fail> {
    let mut bytes = Vec::new(rt.alloc());
    push_field(&mut bytes, 0, 0)?;
    push_field(&mut bytes, 300, 256)?;
    push_field(&mut bytes, 255, 7)?;
    assert_eq!(rt; bytes.as_slice(), [0, 1, 7].as_slice());
    let found = number_at(bytes.as_slice(), 300);
    assert_eq!(rt; found, Some((256, [7].as_slice())));
    assert_eq!(rt; number_at(bytes.as_slice(), 0), Some((0, bytes.as_slice())));
    // A number above the greatest, and bytes that end in a field.
    assert_eq!(rt;
        number_at(bytes.as_slice(), 256),
        Some((256, [7].as_slice()))
    );
    assert_eq!(rt; number_at(&[1, 1], 256), None);
    assert_eq!(rt; number_at(&[1], 256), None);
    Ok(())
}
