//! Groups of rows by their values in key columns, by first appearance.

ghost use Rattle.std.specs.Prelude.{◌≡◌, ◌<◌, ◌+◌, ◌++◌, ◌∷◌, [], List, IfOk, OnOk, map, length, vec_len, slice_set, slice_index_or, if◌then◌else◌};
ghost use Rattle.castor_val.specs.declared.row.Row.{Row as Values};
ghost use Rattle.castor_val.specs.Values.{value_of};
ghost use Rattle.castor_alg.specs.Groups.{aggregates, behind_key, grouped, key_of};
ghost use Rattle.castor_eval.specs.Grouping.{IsGrouped, answers, gathered, opened};
ghost use Rattle.castor_reader.specs.Answers.{out_of, row_behind, row_of, values_in};
ghost use Rattle.castor_reader.specs.Grouping.{keys_in, members_in, rows_behind};

use crate::aggregate::aggregate;
use crate::answer::Answer;
use crate::cells::{cell_at, copy_cells};
use crate::project::{add_cell, add_row};
use castor_alg::Agg;
use castor_val::{Cell, Faults, Memory};
use indexmap::IndexSet;
use std::alloc::Global;

/// The keys of groups, and beside each key the rows that have it.
#[derive(Drop)]
pub struct Groups<'m, 'a> {
    pub keys: IndexSet<Vec<Cell<'a>>>,
    pub members: Vec<Vec<&'m [Cell<'a>]>>,
}

/// `groupby`: for each group its key and its aggregates, where none of them faults. Linear in the rows, on
/// average, and in the aggregates over each.
pub fn group<'a>(
    alloc: Global,
    ks: &[u32],
    aggs: &[Agg],
    from: Answer<'a>,
) -> Result<Answer<'a>, Memory>
    ensures { IfOk result (λ answer. out_of answer ≡ grouped ks.now aggs.now (out_of from.entry)) }
{
    let faults = from.faults;
    Ok(group_rows(alloc, ks, aggs, from.rows.as_slice(), faults)?)
}

fn group_rows<'a>(
    alloc: Global,
    ks: &[u32],
    aggs: &[Agg],
    rows: &[Vec<Cell<'a>>],
    faults: Faults,
) -> Result<Answer<'a>, Memory>
    ensures { IfOk result (λ answer. out_of answer ≡ grouped ks.now aggs.now (record { rows = map values_in rows.now; faults = faults })) }
{
    let groups = groups_of(alloc, ks, rows)?;
    let keys = groups.keys.as_slice();
    let members = groups.members.as_slice();
    Ok(aggregate_groups(alloc, aggs, keys, members, faults)?)
}

// For each group its key and its aggregates, where none of them faults.
fn aggregate_groups<'a>(
    alloc: Global,
    aggs: &[Agg],
    keys: &[Vec<Cell<'a>>],
    members: &[Vec<&[Cell<'a>]>],
    faults: Faults,
) -> Result<Answer<'a>, Memory>
    requires { length members.now ≡ length keys.now }
    ensures { IfOk result (λ answer. out_of answer ≡ gathered faults (answers aggs.now (map values_in keys.now) (map rows_behind members.now))) }
{
    let mut all = Answer {
        rows: Vec::new(alloc),
        faults,
    };
    for (at, key) in keys.iter().enumerate() {
        let row = group_row(alloc, aggs, key.as_slice(), members[at].as_slice())?;
        add_row(&mut all, row)?;
    }
    Ok(all)
}

// A key and the aggregates over the rows that have it, or the faults of all the aggregates.
fn group_row<'a>(
    alloc: Global,
    aggs: &[Agg],
    key: &[Cell<'a>],
    members: &[&[Cell<'a>]],
) -> Result<Result<Vec<Cell<'a>>, Faults>, Memory>
    ensures { IfOk result (λ a. row_of a ≡ behind_key (map value_of key.now) (aggregates aggs.now (map row_behind members.now))) }
{
    let mut answer = Ok(copy_cells(alloc, key)?);
    for agg in aggs {
        answer = add_cell(answer, aggregate(*agg, members))?;
    }
    Ok(answer)
}

// The groups of rows.
fn groups_of<'m, 'a>(
    alloc: Global,
    ks: &[u32],
    rows: &'m [Vec<Cell<'a>>],
) -> Result<Groups<'m, 'a>, Memory>
    ensures grouped { IfOk result (λ g. IsGrouped ks.now (keys_in g) (members_in g) (map values_in rows.now)) }
    ensures beside { IfOk result (λ g. vec_len g.members ≡ length g.keys.keys) }
{
    let none = Groups {
        keys: IndexSet::new(alloc),
        members: Vec::new(alloc),
    };
    let mut groups = of_no_rows(none, alloc, ks)?;
    for row in rows {
        add(&mut groups, alloc, ks, row.as_slice())?;
    }
    Ok(groups)
}

// The groups of no rows: none, and where nothing is grouped by, the one of no values.
fn of_no_rows<'m, 'a>(
    none: Groups<'m, 'a>,
    alloc: Global,
    ks: &[u32],
) -> Result<Groups<'m, 'a>, Memory>
    requires keys { none.keys.keys ≡ [] }
    requires members { none.members.items ≡ [] }
    ensures grouped { IfOk result (λ g. IsGrouped ks.now (keys_in g) (members_in g) []) }
    ensures beside { IfOk result (λ g. vec_len g.members ≡ length g.keys.keys) }
{
    let mut groups = none;
    if !ks.is_empty() {
        return Ok(groups);
    }
    let Ok(_) = groups.keys.insert(Vec::new(alloc)) else {
        return Err(Memory);
    };
    groups.members.push(Vec::new(alloc))?;
    Ok(groups)
}

// Puts a row into the group of its key.
fn add<'m, 'a>(
    groups: &mut Groups<'m, 'a>,
    alloc: Global,
    ks: &[u32],
    row: &'m [Cell<'a>],
) -> Result<(), Memory>
    requires { vec_len groups.old.members ≡ length groups.old.keys.keys }
    ensures grouped { OnOk result ((rows : List Values) → IsGrouped ks.now (keys_in groups.old) (members_in groups.old) rows → IsGrouped ks.now (keys_in groups.new) (members_in groups.new) (rows ++ map value_of row.now ∷ [])) }
    ensures beside { OnOk result (vec_len groups.new.members ≡ length groups.new.keys.keys) }
{
    let key = key_cells(alloc, ks, row)?;
    let Ok((at, is_new)) = groups.keys.insert_full(key) else {
        return Err(Memory);
    };
    open_group(&mut groups.members, alloc, is_new)?;
    push_at(&mut groups.members, at, row)?;
    Ok(())
}

// The cells of a row in the key columns.
fn key_cells<'a>(alloc: Global, ks: &[u32], row: &[Cell<'a>]) -> Result<Vec<Cell<'a>>, Memory>
    ensures { IfOk result (λ key. values_in key ≡ key_of ks.now (map value_of row.now)) }
{
    let mut key = Vec::new(alloc);
    for k in ks {
        key.push(cell_at(row, *k))?;
    }
    Ok(key)
}

// Opens an empty group for a new key.
fn open_group<'m, 'a>(
    members: &mut Vec<Vec<&'m [Cell<'a>]>>,
    alloc: Global,
    is_new: bool,
) -> Result<(), Memory>
    ensures rows { OnOk result (map rows_behind members.new.items ≡ opened (map rows_behind members.old.items) is_new) }
    ensures len { OnOk result (vec_len members.new ≡ vec_len members.old + (if is_new then 1 else 0)) }
{
    if is_new {
        members.push(Vec::new(alloc))?;
    }
    Ok(())
}

// Puts a row into the group at a place.
fn push_at<'m, 'a>(
    members: &mut Vec<Vec<&'m [Cell<'a>]>>,
    at: usize,
    row: &'m [Cell<'a>],
) -> Result<(), Memory>
    requires { at < vec_len members.old }
    ensures rows { OnOk result (map rows_behind members.new.items ≡ slice_set (map rows_behind members.old.items) at (slice_index_or (map rows_behind members.old.items) at [] ++ map value_of row.now ∷ [])) }
    ensures len { OnOk result (vec_len members.new ≡ vec_len members.old) }
{
    members[at].push(row)?;
    Ok(())
}
