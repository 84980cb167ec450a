//! Groups of rows by their values in key columns, by first appearance.

ghost use Rattle.std.specs.Prelude.{◌≡◌, ◌<◌, ◌+◌, ◌++◌, ◌∷◌, [], List, IfOk, OnOk, map, length, vec_len, slice_set, slice_index_or, if◌then◌else◌};
ghost use Rattle.castor_val.specs.declared.row.Row.{Row as Values};
ghost use Rattle.castor_val.specs.Values.{value_of};
ghost use Rattle.castor_alg.specs.Groups.{aggregates, behind_key, grouped, key_of};
ghost use Rattle.castor_eval.specs.Grouping.{IsGrouped, answers, gathered, keys_in, members_in, opened, rows_behind};
ghost use Rattle.castor_eval.specs.Keys.{key_values};
ghost use Rattle.castor_eval.specs.Parts.{out_of};

use crate::aggregate::aggregate;
use crate::order::cell_at;
use crate::part::Part;
use crate::project::{add_answer, add_value};
use castor_alg::{Agg, Out};
use castor_val::{Cell, Faults, Memory, Row, Table};
use indexmap::IndexSet;
use std::alloc::Global;

/// The keys of groups, and beside each key the rows that have it.
#[derive(Drop)]
pub struct Groups<'a> {
    pub keys: IndexSet<Vec<Cell<'a>>>,
    pub members: Vec<Vec<&'a Row>>,
}

/// `groupby`: for each group its key and its aggregates, where none of them faults. Linear in the rows, on
/// average, and in the aggregates over each.
pub fn group<'t>(alloc: Global, ks: &[u32], aggs: &[Agg], from: Part) -> Result<Part<'t>, Memory>
    ensures { IfOk result (λ part. out_of part ≡ grouped ks.now aggs.now (out_of from.entry)) }
{
    let faults = from.faults;
    let out = group_rows(alloc, ks, aggs, from.as_slice(), faults)?;
    Ok(Part::made(out))
}

fn group_rows(
    alloc: Global,
    ks: &[u32],
    aggs: &[Agg],
    rows: &[Row],
    faults: Faults,
) -> Result<Out, Memory>
    ensures { IfOk result (λ out. out ≡ grouped ks.now aggs.now (record { rows = rows.now; faults = faults })) }
{
    let groups = groups_of(alloc, ks, rows)?;
    let keys = groups.keys.as_slice();
    let members = groups.members.as_slice();
    Ok(aggregate_groups(alloc, aggs, keys, members, faults)?)
}

// For each group its key and its aggregates, where none of them faults.
fn aggregate_groups(
    alloc: Global,
    aggs: &[Agg],
    keys: &[Vec<Cell>],
    members: &[Vec<&Row>],
    faults: Faults,
) -> Result<Out, Memory>
    requires { length members.now ≡ length keys.now }
    ensures { IfOk result (λ out. out ≡ gathered faults (answers aggs.now (map key_values keys.now) (map rows_behind members.now))) }
{
    let mut out = Out {
        rows: Table::new(alloc),
        faults,
    };
    for (at, key) in keys.iter().enumerate() {
        let answer = group_row(alloc, aggs, key.as_slice(), members[at].as_slice())?;
        add_answer(&mut out, answer)?;
    }
    Ok(out)
}

// A key and the aggregates over the rows that have it, or the faults of all the aggregates.
fn group_row(
    alloc: Global,
    aggs: &[Agg],
    key: &[Cell],
    members: &[&Row],
) -> Result<Result<Row, Faults>, Memory>
    ensures { IfOk result (λ a. a ≡ behind_key (map value_of key.now) (aggregates aggs.now (map (λ row. row.now) members.now))) }
{
    let mut answer = Ok(Row::from_cells(alloc, key)?);
    for agg in aggs {
        answer = add_value(alloc, answer, aggregate(*agg, members))?;
    }
    Ok(answer)
}

// The groups of rows.
fn groups_of<'a>(alloc: Global, ks: &[u32], rows: &'a [Row]) -> Result<Groups<'a>, Memory>
    ensures grouped { IfOk result (λ g. IsGrouped ks.now (keys_in g) (members_in g) rows.now) }
    ensures beside { IfOk result (λ g. vec_len g.members ≡ length g.keys.keys) }
{
    let mut groups = no_rows(alloc, ks)?;
    for row in rows {
        add(&mut groups, alloc, ks, row)?;
    }
    Ok(groups)
}

// The groups of no rows: none, and where nothing is grouped by, the one of no values.
fn no_rows<'a>(alloc: Global, ks: &[u32]) -> Result<Groups<'a>, Memory>
    ensures grouped { IfOk result (λ g. IsGrouped ks.now (keys_in g) (members_in g) []) }
    ensures beside { IfOk result (λ g. vec_len g.members ≡ length g.keys.keys) }
{
    let mut groups = Groups {
        keys: IndexSet::new(alloc),
        members: Vec::new(alloc),
    };
    if !ks.is_empty() {
        return Ok(groups);
    }
    let Ok(_) = groups.keys.insert(Vec::new(alloc)) else {
        return Err(Memory);
    };
    groups.members.push(Vec::new(alloc))?;
    Ok(groups)
}

// Puts a row into the group of its key.
fn add<'a>(groups: &mut Groups<'a>, alloc: Global, ks: &[u32], row: &'a Row) -> Result<(), Memory>
    requires { vec_len groups.old.members ≡ length groups.old.keys.keys }
    ensures grouped { OnOk result ((rows : List Values) → IsGrouped ks.now (keys_in groups.old) (members_in groups.old) rows → IsGrouped ks.now (keys_in groups.new) (members_in groups.new) (rows ++ row.now ∷ [])) }
    ensures beside { OnOk result (vec_len groups.new.members ≡ length groups.new.keys.keys) }
{
    let key = key_cells(alloc, ks, row)?;
    let Ok((at, is_new)) = groups.keys.insert_full(key) else {
        return Err(Memory);
    };
    open_group(&mut groups.members, alloc, is_new)?;
    push_at(&mut groups.members, at, row)?;
    Ok(())
}

// The cells of a row in the key columns.
fn key_cells<'a>(alloc: Global, ks: &[u32], row: &'a Row) -> Result<Vec<Cell<'a>>, Memory>
    ensures { IfOk result (λ key. key_values key ≡ key_of ks.now row.now) }
{
    let mut key = Vec::new(alloc);
    for k in ks {
        key.push(cell_at(row, *k))?;
    }
    Ok(key)
}

// Opens an empty group for a new key.
fn open_group<'a>(
    members: &mut Vec<Vec<&'a Row>>,
    alloc: Global,
    is_new: bool,
) -> Result<(), Memory>
    ensures rows { OnOk result (map rows_behind members.new.items ≡ opened (map rows_behind members.old.items) is_new) }
    ensures len { OnOk result (vec_len members.new ≡ vec_len members.old + (if is_new then 1 else 0)) }
{
    if is_new {
        members.push(Vec::new(alloc))?;
    }
    Ok(())
}

// Puts a row into the group at a place.
fn push_at<'a>(members: &mut Vec<Vec<&'a Row>>, at: usize, row: &'a Row) -> Result<(), Memory>
    requires { at < vec_len members.old }
    ensures rows { OnOk result (map rows_behind members.new.items ≡ slice_set (map rows_behind members.old.items) at (slice_index_or (map rows_behind members.old.items) at [] ++ row.now ∷ [])) }
    ensures len { OnOk result (vec_len members.new ≡ vec_len members.old) }
{
    members[at].push(row)?;
    Ok(())
}
