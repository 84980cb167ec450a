//! Numbers in fields of 0 to 8 bytes, the least byte first.
//!
//! A field for the whole numbers of a range holds a number less the least of the range, in the
//! fewest bytes that serve for the whole range.
#![tactic(auto)]

ghost use Rattle.std.specs.Prelude.{◌≡◌, ◌≤◌, ◌<◌, ◌^◌, ◌-◌, ◌++◌, ◌-ℤ◌, ◌≤ℤ◌, ◌<ℤ◌, pos, negsuc, length, take, drop};
ghost use Rattle.byteorder.specs.Endian.{little_bytes, little_number};
ghost use Rattle.castor_fixed.specs.Fields.{IsFewestBytes, ReadsFields, range_width, width};

use byteorder::{ByteOrder, LittleEndian};

#[cfg(test)]
mod tests;

/// The width of the fields for the whole numbers from `lo` to `hi`: the fewest bytes w, from 0 to 8,
/// with `hi - lo < 256^w`.
pub fn width(lo: i128, hi: i128) -> u8
    requires order { lo ≤ℤ hi }
    requires span { (hi -ℤ lo) <ℤ pos (2 ^ 64) }
    requires low { negsuc (2 ^ 63 - 1) ≤ℤ lo }
    requires high { hi <ℤ pos (2 ^ 64) }
    ensures value { result ≡ range_width lo hi }
    ensures fewest { IsFewestBytes lo hi result }
{
    fewest_bytes((hi - lo) as u64)
}

// The fewest bytes that hold every number from 0 to `most`.
fn fewest_bytes(most: u64) -> u8
    ensures value { result ≡ width most }
    ensures within { result ≤ 8 }
{
    let mut rest = most;
    let mut bytes = 0;
    while rest > 0 {
        rest /= 256;
        bytes += 1;
    }
    bytes
}

/// Writes `n` into the first `w` bytes of `buf`, the least byte first, and leaves the rest. `get`
/// gives it back.
pub fn put(buf: &mut [u8], w: u8, n: u64)
    requires small { w ≤ 8 }
    requires room { w ≤ length buf.old }
    requires fits { n < 256 ^ w }
    ensures written { buf.new ≡ little_bytes w n ++ drop w buf.old }
    ensures read_back { little_number w buf.new ≡ n }
{
    if w == 0 {
        return;
    }
    LittleEndian::write_uint(buf, n, w as usize);
}

/// The number in the first `w` bytes of `buf`, the least byte first. A `put` of it there changes
/// nothing.
pub fn get(buf: &[u8], w: u8) -> u64
    requires small { w ≤ 8 }
    requires room { w ≤ length buf.now }
    ensures value { result ≡ little_number w buf.now }
    ensures fits { result < 256 ^ w }
    ensures bytes { little_bytes w result ≡ take w buf.now }
    ensures written_back { little_bytes w result ++ drop w buf.now ≡ buf.now }

    // A field is read as its number, and what is read as a number is its field.
    ensures law { ReadsFields }
{
    if w == 0 {
        return 0;
    }
    LittleEndian::read_uint(buf, w as usize)
}
