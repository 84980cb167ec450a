//! The decimal text of an int, written from its last digit to its first.

ghost use Rattle.std.specs.Prelude.{◌≡◌, ◌^◌, ◌<◌, ◌≤◌, drop};
ghost use Rattle.std.specs.Fmt.{decimal, signed_decimal};

use std::str;

/// The most bytes that the text of an int has: those of -9223372036854775808.
pub(crate) const MAX_INT_TEXT: usize = 20;

/// The int in decimal, after `-` where it is negative.
pub(crate) fn int_text(number: i64, room: &mut [u8; MAX_INT_TEXT]) -> &str
    ensures { result.now ≡ signed_decimal number }
{
    let start = write_int(number, room);
    str::from_utf8(&room[start..]).unwrap()
}

// Writes an int up to the end of the room, and gives the place where it starts.
fn write_int(number: i64, room: &mut [u8; MAX_INT_TEXT]) -> usize
    ensures within { result ≤ 20 }
    ensures written { drop result room.new ≡ signed_decimal number }
{
    let start = write_digits(number.unsigned_abs(), room);
    if number >= 0 {
        return start;
    }
    room[start - 1] = b'-';
    start - 1
}

// Writes digits up to the end of the room, and gives the place of the first, before which there is
// room for a sign.
fn write_digits(number: u64, room: &mut [u8; MAX_INT_TEXT]) -> usize
    requires { number ≤ 2 ^ 63 }
    ensures within { result < 20 }
    ensures sign { 0 < result }
    ensures written { drop result room.new ≡ decimal number }
{
    let mut left = number;
    let mut at = MAX_INT_TEXT - 1;
    while left >= 10 {
        room[at] = b'0' + (left % 10) as u8;
        left /= 10;
        at -= 1;
    }
    room[at] = b'0' + left as u8;
    at
}
