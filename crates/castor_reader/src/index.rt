//! Look-ups in the entries of an index, whose keys ascend.

ghost use Rattle.std.specs.Prelude.{◌≡◌, ◌≤◌, length, map, not, take, drop, true, if◌then◌else◌, None, Some};
ghost use Rattle.std.specs.Option.{option_copied};
ghost use Rattle.std.specs.Ordering.{is_eq, is_lt};
ghost use Rattle.castor_val.specs.Values.{column, row_cmp, value_of};
ghost use Rattle.castor_code.specs.Directories.{ascending};
ghost use Rattle.castor_code.specs.LayoutMeaning.{entries_within};
ghost use Rattle.castor_reader.specs.Entries.{held_first, held_under, single_keys};
ghost use Rattle.castor_eval.specs.Ranges.{above, below};

use castor_alg::{Entry, Held};
use castor_eval::{Limit, is_above, is_below};
use castor_val::{Cell, compare_with_cells};

/// What is held under the key that equals this one. Compares with as many keys as the number of entries
/// can be halved.
pub fn find<'h>(entries: &'h [Entry], key: &[Cell]) -> Option<&'h Held>
    requires { ascending entries.now ≡ true }
    ensures { option_copied result ≡ held_under entries.now (map value_of key.now) }
{
    let at = entries.partition_point(|entry| is_before(entry, key));
    first_under(&entries[at..], key)
}

// What is held by the first of entries, where its key is this one.
fn first_under<'h>(entries: &'h [Entry], key: &[Cell]) -> Option<&'h Held>
    ensures { option_copied result ≡ held_first entries.now (map value_of key.now) }
{
    match entries {
        [] => None,
        [entry, ..] => kid_at(entry, key),
    }
}

// Whether an entry stands before a key.
fn is_before(entry: &Entry, key: &[Cell]) -> bool
    ensures { result ≡ is_lt (row_cmp entry.now.key (map value_of key.now)) }
{
    compare_with_cells(entry.key.as_slice(), key).is_lt()
}

// The child of an entry, where its key is this one.
fn kid_at<'h>(entry: &'h Entry, key: &[Cell]) -> Option<&'h Held>
    ensures { option_copied result ≡ (if is_eq (row_cmp entry.now.key (map value_of key.now)) then Some entry.now.kid else None) }
{
    if compare_with_cells(entry.key.as_slice(), key).is_eq() {
        Some(&entry.kid)
    } else {
        None
    }
}

/// The entries whose keys are within both limits. Compares with twice as many keys as the number of
/// entries can be halved.
pub fn entries_between<'h>(entries: &'h [Entry], from: &Limit, to: &Limit) -> &'h [Entry]
    requires rises { ascending entries.now ≡ true }
    requires single { single_keys entries.now ≡ true }
    ensures { result.now ≡ entries_within (above from.now) (below to.now) entries.now }
{
    let first = entries.partition_point(|entry| is_under(entry, from));
    let beyond = entries.partition_point(|entry| is_up_to(entry, to));
    between(entries, first, beyond)
}

// The entries from a first one to one beyond, none where the first is beyond.
fn between(entries: &[Entry], first: usize, beyond: usize) -> &[Entry]
    requires { beyond ≤ length entries.now }
    ensures { result.now ≡ drop first (take beyond entries.now) }
{
    &entries[first.min(beyond)..beyond]
}

// Whether the first value of a key is under a lower limit, and so not within it.
fn is_under(entry: &Entry, from: &Limit) -> bool
    ensures { result ≡ not (above from.now (column entry.now.key 0)) }
{
    !is_above(first_cell(entry), from)
}

// Whether the first value of a key is within an upper limit.
fn is_up_to(entry: &Entry, to: &Limit) -> bool
    ensures { result ≡ below to.now (column entry.now.key 0) }
{
    is_below(first_cell(entry), to)
}

// The first value of a key, and false where it has none.
fn first_cell(entry: &Entry) -> Cell<'_>
    ensures { value_of result ≡ column entry.now.key 0 }
{
    match entry.key.as_slice().first() {
        Some(value) => value.cell(),
        None => Cell::Bool(false),
    }
}
