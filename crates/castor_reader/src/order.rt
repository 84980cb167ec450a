//! Rows sorted stably by keys.

ghost use Rattle.std.specs.Prelude.{◌≡◌, IfOk, OnOk, map};
ghost use Rattle.std.specs.Ordering.{is_lt};
ghost use Rattle.castor_val.specs.Values.{value_of};
ghost use Rattle.castor_alg.specs.Sorting.{by_key, by_keys, sorted, sorted_by};
ghost use Rattle.castor_reader.specs.Answers.{out_of, rows_in};

use crate::answer::Answer;
use crate::cells::cell_at;
use castor_alg::Key;
use castor_val::{Cell, Memory, compare};
use std::cmp::Ordering;

/// `orderby`: the rows sorted by the keys, where equal rows stay in their order. Of the order n log n in the rows, which
/// are moved.
pub fn order<'a>(keys: &[Key], from: Answer<'a>) -> Result<Answer<'a>, Memory>
    ensures { IfOk result (λ answer. out_of answer ≡ sorted_by keys.now (out_of from.entry)) }
{
    let Answer { mut rows, faults } = from;
    sort_rows(&mut rows, keys)?;
    Ok(Answer { rows, faults })
}

fn sort_rows(rows: &mut Vec<Vec<Cell>>, keys: &[Key]) -> Result<(), Memory>
    ensures { OnOk result (rows_in rows.new ≡ sorted (λ a b. is_lt (by_keys keys.now a b)) (rows_in rows.old)) }
{
    rows.sort_by(|a, b| compare_by_keys(keys, a.as_slice(), b.as_slice()))?;
    Ok(())
}

// How two rows are ordered by the keys, the first difference deciding.
fn compare_by_keys(keys: &[Key], a: &[Cell], b: &[Cell]) -> Ordering
    ensures { result ≡ by_keys keys.now (map value_of a.now) (map value_of b.now) }
{
    match keys {
        [] => Ordering::Equal,
        [key, rest @ ..] => match compare_by_key(*key, a, b) {
            Ordering::Less => Ordering::Less,
            Ordering::Equal => compare_by_keys(rest, a, b),
            Ordering::Greater => Ordering::Greater,
        },
    }
}

fn compare_by_key(key: Key, a: &[Cell], b: &[Cell]) -> Ordering
    ensures { result ≡ by_key key (map value_of a.now) (map value_of b.now) }
{
    if key.desc {
        compare(cell_at(b, key.col), cell_at(a, key.col))
    } else {
        compare(cell_at(a, key.col), cell_at(b, key.col))
    }
}
