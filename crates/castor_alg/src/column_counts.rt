//! How many columns relations have.

ghost use Rattle.std.specs.Prelude.{◌≡◌, [], length, map, min, slice_index_or, sum};
ghost use Rattle.castor_val.specs.Limits.{most_count};
ghost use Rattle.castor_alg.specs.ColumnCount.{column_count};

use crate::rel::Rel;
use castor_val::Ty;
use sqlite_items::Items;

/// The number of columns of a relation over tables of these column types, and 2^64 - 1 where there are
/// more. A table that isn't there has none. Linear in the tree, without its expressions.
#[cycle(column_count)]
pub fn column_count(query: &Rel, tables: &[Items<Ty>]) -> u64
    ensures { result ≡ min (column_count tables.now query.now) most_count }
{
    match query {
        Rel::Table(at) => table_columns(*at, tables),
        Rel::Scalar(_) => 1,
        Rel::Cross(rs) => columns_of_all(rs.as_slice(), tables),
        Rel::Concat(rs) => columns_of_first(rs.as_slice(), tables),
        Rel::Select(es, _) => es.len() as u64,
        Rel::Filter(_, r) => column_count(r.get(), tables),
        Rel::Join(_, r, s) => {
            column_count(r.get(), tables).saturating_add(column_count(s.get(), tables))
        }
        Rel::DepJoin(_, _, s) => column_count(s.get(), tables),
        Rel::Group(keys, aggs, _) => (keys.len() as u64).saturating_add(aggs.len() as u64),
        Rel::Order(_, r) => column_count(r.get(), tables),
        Rel::Dedup(r) => column_count(r.get(), tables),
        Rel::List(_, _, s) => column_count(s.get(), tables),
        Rel::Hash(_, _, s, _) => column_count(s.get(), tables),
        Rel::Ord(_, _, s, _, _) => column_count(s.get(), tables),
    }
}

fn table_columns(at: u32, tables: &[Items<Ty>]) -> u64
    ensures { result ≡ min (length (slice_index_or tables.now at [])) most_count }
{
    match tables.get(at as usize) {
        Some(types) => types.len() as u64,
        None => 0,
    }
}

#[cycle(column_count)]
fn columns_of_all(queries: &[Rel], tables: &[Items<Ty>]) -> u64
    ensures { result ≡ min (sum (map (column_count tables.now) queries.now)) most_count }
{
    let mut count: u64 = 0;
    for query in queries {
        count = count.saturating_add(column_count(query, tables));
    }
    count
}

#[cycle(column_count)]
fn columns_of_first(queries: &[Rel], tables: &[Items<Ty>]) -> u64
    ensures { result ≡ min (slice_index_or (map (column_count tables.now) queries.now) 0 0) most_count }
{
    match queries {
        [] => 0,
        [first, ..] => column_count(first, tables),
    }
}
