//! Numbers of bytes, which are added up as far as 64 bits hold them.

ghost use Rattle.std.specs.Prelude.{◌≡◌, ◌+◌, IfOk, drop, map, sum, take};
ghost use Rattle.castor_ltype.specs.Sizes as size;

use castor_val::Memory;
use std::alloc::Global;

/// The sum of two sizes. One of 2^64 bytes or more is in no memory.
pub fn sum_of(a: u64, b: u64) -> Result<u64, Memory>
    ensures { IfOk result (λ sum. sum ≡ a + b) }
{
    match a.checked_add(b) {
        Some(sum) => Ok(sum),
        None => Err(Memory),
    }
}

/// A size of 0 for each thing.
pub fn no_sizes<T>(alloc: Global, things: &[T]) -> Result<Vec<u64>, Memory>
    ensures { IfOk result (λ sizes. sizes.items ≡ map (λ thing. 0) things.now) }
{
    let mut sizes = Vec::new(alloc);
    for _thing in things {
        sizes.push(0)?;
    }
    Ok(sizes)
}

/// The sizes with another added at each place.
pub fn added(alloc: Global, sizes: &[u64], more: &[u64]) -> Result<Vec<u64>, Memory>
    ensures { IfOk result (λ sums. sums.items ≡ size.added sizes.now more.now) }
{
    let mut sums = Vec::new(alloc);
    let mut rest = more;
    for size in sizes {
        let [other, behind @ ..] = rest else {
            return Ok(sums);
        };
        sums.push(sum_of(*size, *other)?)?;
        rest = behind;
    }
    Ok(sums)
}

/// The sums of so many sizes, of so many after these, and so on.
pub fn sums(alloc: Global, counts: &[u64], sizes: &[u64]) -> Result<Vec<u64>, Memory>
    ensures { IfOk result (λ sums. sums.items ≡ size.sums counts.now sizes.now) }
{
    let mut sums = Vec::new(alloc);
    let mut rest = sizes;
    for count in counts {
        let (these, behind) = cut(rest, *count);
        sums.push(total(these)?)?;
        rest = behind;
    }
    Ok(sums)
}

// The first sizes, so many or all that there are, and the others.
fn cut(sizes: &[u64], count: u64) -> (&[u64], &[u64])
    ensures first { result.0.now ≡ take count sizes.now }
    ensures rest { result.1.now ≡ drop count sizes.now }
{
    let at = count.min(sizes.len() as u64) as usize;
    sizes.split_at(at)
}

fn total(sizes: &[u64]) -> Result<u64, Memory>
    ensures { IfOk result (λ total. total ≡ sum sizes.now) }
{
    let mut total = 0;
    for size in sizes {
        total = sum_of(total, *size)?;
    }
    Ok(total)
}
