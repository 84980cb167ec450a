//! The least ranges that hold numbers.

ghost use Rattle.std.specs.Prelude.{◌≡◌, ◌-◌, ◌≤◌};
ghost use Rattle.std.specs.Int.{int_gap};
ghost use Rattle.castor_code.specs.declared.code.Code.{Int};
ghost use Rattle.castor_fixed.specs.Fields.{width};
ghost use Rattle.castor_ltype.specs.Ranges.{greater, int_code, least_range, lesser};

use castor_code::Range;
use castor_fixed::width;

/// The least range that holds all the numbers, and from 0 to 0 where there are none. Linear in their
/// number.
pub fn least_range(numbers: &[u64]) -> Range
    ensures value { result ≡ least_range numbers.now }
{
    let [first, rest @ ..] = numbers else {
        return Range { lo: 0, hi: 0 };
    };
    let mut lo = *first;
    let mut hi = *first;
    for number in rest {
        lo = lo.min(*number);
        hi = hi.max(*number);
    }
    Range { lo, hi }
}

/// The ints from `lo` to `hi`, both included.
#[derive(Clone, Copy, Debug, PartialEq, Eq)]
pub struct Ends {
    pub lo: i64,
    pub hi: i64,
}

/// The least ends between which all the ints stand, and 0 and 0 where there are none. Linear in their
/// number.
pub fn least_ends(numbers: &[i64]) -> Ends
    ensures value { int_code numbers.now ≡ Int result.lo result.hi }
{
    let [first, rest @ ..] = numbers else {
        return Ends { lo: 0, hi: 0 };
    };
    let mut lo = *first;
    let mut hi = *first;
    for number in rest {
        lo = lesser(lo, *number);
        hi = greater(hi, *number);
    }
    Ends { lo, hi }
}

fn lesser(a: i64, b: i64) -> i64
    ensures { result ≡ lesser a b }
{
    if b < a { b } else { a }
}

fn greater(a: i64, b: i64) -> i64
    ensures { result ≡ greater a b }
{
    if a < b { b } else { a }
}

/// The width of the fields for the ints between ends, in bytes.
pub fn int_width(ends: Ends) -> u64
    ensures { result ≡ width (int_gap ends.lo ends.hi) }
{
    if ends.hi < ends.lo {
        return 0;
    }
    u64::from(width(i128::from(ends.lo), i128::from(ends.hi)))
}

/// The width of the fields for the numbers of a range, in bytes.
pub fn range_width(range: Range) -> u64
    ensures value { result ≡ width (range.hi - range.lo) }
    ensures within { result ≤ 8 }
{
    field_width(range.hi.saturating_sub(range.lo))
}

/// The width of the fields for the numbers from 0 to `most`, in bytes.
pub fn field_width(most: u64) -> u64
    ensures value { result ≡ width most }
    ensures within { result ≤ 8 }
{
    u64::from(width(0, i128::from(most)))
}
