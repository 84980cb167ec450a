//! The order of entries by their keys.

ghost use Rattle.std.specs.Prelude.{◌≡◌, OnOk};
ghost use Rattle.castor_alg.specs.Sorting.{sorted};
ghost use Rattle.castor_code.specs.Directories.{ascending, key_lt};
ghost use Rattle.castor_val.specs.Values.{row_cmp};

use castor_alg::Entry;
use castor_val::{Memory, compare_values};
use std::cmp::Ordering;

/// Sorts entries by their keys, stably. Of the order n log n in the entries.
pub fn sort_by_key(entries: &mut Vec<Entry>) -> Result<(), Memory>
    ensures { OnOk result (entries.new.items ≡ sorted key_lt entries.old.items) }
{
    entries.sort_by(|a, b| compare_keys(a, b))?;
    Ok(())
}

/// Whether each key is before all later ones.
pub fn is_ascending(entries: &[Entry]) -> bool
    ensures { result ≡ ascending entries.now }
{
    for at in 1..entries.len() {
        if !compare_keys(&entries[at - 1], &entries[at]).is_lt() {
            return false;
        }
    }
    true
}

fn compare_keys(a: &Entry, b: &Entry) -> Ordering
    ensures { result ≡ row_cmp a.now.key b.now.key }
{
    compare_values(a.key.as_slice(), b.key.as_slice())
}
