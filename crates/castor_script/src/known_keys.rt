//! The keys that the rows of a relation are known to be sorted by.

ghost use Rattle.std.specs.Prelude.{◌≡◌, ◌&&◌, IfOk, map, position};
ghost use Rattle.std.specs.List.{list_all};
ghost use Rattle.castor_alg.specs.declared.rel.Rel.{Rel};
ghost use Rattle.castor_script.specs.InOrder.{KnownKeysAreTrue};
ghost use Rattle.castor_script.specs.KnownKeys.{all_values, is_column, is_scope_column, is_value, is_value_of, known, known_keys, moved, moved_into};

use castor_alg::{Expr, Key, Rel};
use castor_val::Memory;
use sqlite_items::Items;
use std::alloc::Global;

/// The keys that the rows of a relation are known to be sorted by, whatever the tables, the
/// environment and the parameters are.
///
/// An `orderby` has its own keys; `filter` and `dedup` keep those of their operand; `select` keeps
/// them where its items are just columns, and `list` over a cross of scalars where these are just
/// columns of its scope, up to the first key whose column is left out. All others have none. Takes the
/// keys times the items of each `select` and `list` on the way.
pub fn orders(alloc: Global, q: &Rel) -> Result<Vec<Key>, Memory>
    ensures { IfOk result (λ keys. keys.items ≡ known_keys q.now) }
{
    match q {
        Rel::Select(es, r) => {
            let keys = orders(alloc, r.get())?;
            Ok(move_to_columns(alloc, &keys, es.as_slice())?)
        }
        Rel::Filter(_, r) => orders(alloc, r.get()),
        Rel::Order(keys, _) => Ok(Vec::from_slice(alloc, keys.as_slice())?),
        Rel::Dedup(r) => orders(alloc, r.get()),
        Rel::List(scope, r, s) => {
            let keys = orders(alloc, r.get())?;
            Ok(move_into_body(alloc, &keys, *scope, s.get())?)
        }
        _ => Ok(Vec::new(alloc)),
    }
}

/// The rows of every relation are sorted by its known keys, and by each front part of them. Rows that
/// agree on these keys have their places too: sorting stably by them changes nothing.
pub fn known_keys_are_true()
    ensures { (q : Rel) → KnownKeysAreTrue q }
{}

// A place among items as the number of a column. Where that has no number there is want of memory: so many items are
// in no well-typed relation.
fn column_at(place: Option<usize>) -> Result<Option<u32>, Memory>
    ensures { IfOk result (λ at. at ≡ place) }
{
    match place {
        Some(place) => match u32::try_from(place) {
            Ok(at) => Ok(Some(at)),
            Err(_) => Err(Memory),
        },
        None => Ok(None),
    }
}

// Whether an expression is just this column.
fn is_column(e: &Expr, column: u32) -> bool
    ensures { result ≡ is_column column e.now }
{
    match e {
        Expr::Col(at) => *at == column,
        _ => false,
    }
}

// Whether an expression is just this column of this scope.
fn is_scope_column(e: &Expr, scope: u32, column: u32) -> bool
    ensures { result ≡ is_scope_column scope column e.now }
{
    match e {
        Expr::Scope(of, at) => *of == scope && *at == column,
        _ => false,
    }
}

fn is_scalar(r: &Rel) -> bool
    ensures { result ≡ is_value (known r.now).value }
{
    matches!(r, Rel::Scalar(_))
}

// Whether a relation is a scalar of just this column of this scope.
fn is_scalar_of(r: &Rel, scope: u32, column: u32) -> bool
    ensures { result ≡ is_value_of scope column (known r.now).value }
{
    match r {
        Rel::Scalar(e) => is_scope_column(e, scope, column),
        _ => false,
    }
}

// A key for another column, in its direction.
fn for_column(key: Key, col: u32) -> Key
    ensures { result ≡ record { col = col; desc = key.desc } }
{
    Key {
        col,
        desc: key.desc,
    }
}

// The place of the first item that is just this column.
fn column_place(items: &[Expr], column: u32) -> Option<usize>
    ensures { result ≡ position (is_column column) items.now }
{
    items.iter().position(|e| is_column(e, column))
}

// The place of the first operand that is a scalar of just this column of this scope.
fn scalar_place(operands: &[Rel], scope: u32, column: u32) -> Option<usize>
    ensures { result ≡ position (λ r. is_value_of scope column (known r).value) operands.now }
{
    operands.iter().position(|r| is_scalar_of(r, scope, column))
}

// The keys of the operand of a projection, each moved to the first item that is just its column, up to the first
// key that has none.
fn move_to_columns(alloc: Global, keys: &[Key], items: &[Expr]) -> Result<Vec<Key>, Memory>
    ensures { IfOk result (λ kept. kept.items ≡ moved (λ c. position (is_column c) items.now) keys.now) }
{
    let mut kept = Vec::new(alloc);
    for key in keys {
        match column_at(column_place(items, key.col))? {
            Some(col) => kept.push(for_column(*key, col))?,
            None => return Ok(kept),
        }
    }
    Ok(kept)
}

// The keys of the source of a list, each moved to the first of the scalars that is just its column, up to the first
// key that has none.
fn move_to_scalars(
    alloc: Global,
    keys: &[Key],
    scope: u32,
    scalars: &[Rel],
) -> Result<Vec<Key>, Memory>
    ensures { IfOk result (λ kept. kept.items ≡ moved (λ c. position (λ r. is_value_of scope c (known r).value) scalars.now) keys.now) }
{
    let mut kept = Vec::new(alloc);
    for key in keys {
        match column_at(scalar_place(scalars, scope, key.col))? {
            Some(col) => kept.push(for_column(*key, col))?,
            None => return Ok(kept),
        }
    }
    Ok(kept)
}

fn are_scalars(operands: &[Rel]) -> bool
    ensures { result ≡ list_all (λ r. is_value (known r).value) operands.now }
{
    operands.iter().all(is_scalar)
}

// The keys of a list's source, moved to the operands of its body where these all are scalars.
fn move_to_operands(
    alloc: Global,
    keys: &[Key],
    scope: u32,
    operands: &[Rel],
) -> Result<Vec<Key>, Memory>
    ensures { IfOk result (λ kept. kept.items ≡ moved_into (all_values (map (λ r. (known r).value) operands.now)) scope keys.now) }
{
    if are_scalars(operands) {
        Ok(move_to_scalars(alloc, keys, scope, operands)?)
    } else {
        Ok(Vec::new(alloc))
    }
}

// The keys of a list's source, moved to its body where that is a cross of scalars.
fn move_into_body(alloc: Global, keys: &[Key], scope: u32, body: &Rel) -> Result<Vec<Key>, Memory>
    ensures { IfOk result (λ kept. kept.items ≡ moved_into (known body.now).values scope keys.now) }
{
    match body {
        Rel::Cross(operands) => Ok(move_to_operands(alloc, keys, scope, operands.as_slice())?),
        _ => Ok(Vec::new(alloc)),
    }
}
