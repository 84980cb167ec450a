//! The data that is held for a query.

ghost use Rattle.std.specs.Prelude.{◌≡◌, ◌∷◌, ◌++◌, [], IfOk, IsOkAnd, OnOk, map};
ghost use Rattle.castor_val.specs.Values.{value_of};
ghost use Rattle.castor_alg.specs.Expression.{expr_value};
ghost use Rattle.castor_alg.specs.Scopes.{bind, scopes_of, unbound};
ghost use Rattle.castor_alg.specs.HeldData.{held_data, held_under, keyed, leaf, listed, parted, tree_or_faults, within};
ghost use Rattle.castor_alg.specs.HeldKeys.{HasAscendingKeys};
ghost use Rattle.castor_stage.specs.Holds.{IsHold};

use crate::hold_error::HoldError;
use crate::keys::key_rows;
use crate::source::source_rows;
use castor_alg::{Entry, Env, Expr, Held, HeldOut, Out, Rel, both, boxed, value};
use castor_val::{Cell, Faults, Memory, Row, Table, Value};
use sqlite_items::Items;
use std::alloc::Global;

/// What is held for a query over tables: the tree of its values, or the faults of all sources and
/// scalars that are met, where there are any.
///
/// A `Scalar` holds its value; `Cross`, `Concat` and `DepJoin` one part for each operand; `Select`,
/// `Filter`, `Group`, `Order` and `Dedup` what their operand holds; a `List` what its body holds under
/// each row of its source; `Hash` and `Ord` the distinct rows of their source, ascending, each with what
/// the body holds under it. A row on which a source faults is dropped, and its fault counts. Where
/// `stage` accepts the query no table, parameter or scope is missed; the call answers for any other query
/// too, as if a table or a join in run position held nothing, and a scope that isn't known at build had
/// no columns.
///
/// A source is evaluated each time that it is met: once for each row of the sources around it. An index
/// costs besides that of the order n log n in its distinct rows. Each held text is copied once from what
/// the evaluator gives, and those of keys are moved.
pub fn hold(alloc: Global, q: &Rel, tables: &[Table]) -> Result<Held, HoldError>
    ensures data { IsHold (held_data q.now tables.now) result }

    // The keys of each index are distinct and ascend.
    ensures keys { IfOk result HasAscendingKeys }
{
    match hold_under(alloc, q, tables, &Env::Empty) {
        Ok(out) => tree_of(out),
        Err(Memory) => Err(HoldError::Memory),
    }
}

// The tree, or the faults where there are any.
fn tree_of(out: HeldOut) -> Result<Held, HoldError>
    ensures { IsHold (tree_or_faults out) result }
{
    let HeldOut { held, faults } = out;
    if faults.is_empty() {
        Ok(held)
    } else {
        Err(HoldError::Faults(faults))
    }
}

#[cycle(hold)]
fn hold_under<'e, 'a>(
    alloc: Global,
    q: &'a Rel,
    tables: &[Table],
    env: &Env<'e, 'a>,
) -> Result<HeldOut, Memory>
    ensures { IfOk result (λ out. out ≡ held_under q.now tables.now (scopes_of env.now) unbound []) }
{
    match q {
        Rel::Table(_) => Ok(nothing(alloc)),
        Rel::Scalar(e) => Ok(hold_scalar(alloc, e, env)?),
        Rel::Cross(rs) => Ok(hold_parts(alloc, rs.as_slice(), tables, env)?),
        Rel::Concat(rs) => Ok(hold_parts(alloc, rs.as_slice(), tables, env)?),
        Rel::Select(_, r) => Ok(hold_inner(alloc, r.get(), tables, env)?),
        Rel::Filter(_, r) => Ok(hold_inner(alloc, r.get(), tables, env)?),
        Rel::Join(_, _, _) => Ok(nothing(alloc)),
        Rel::DepJoin(k, r, s) => {
            let first = hold_under(alloc, r.get(), tables, env);
            let second = hold_unknown(alloc, *k, s.get(), tables, env);
            Ok(pair(alloc, first, second)?)
        }
        Rel::Group(_, _, r) => Ok(hold_inner(alloc, r.get(), tables, env)?),
        Rel::Order(_, r) => Ok(hold_inner(alloc, r.get(), tables, env)?),
        Rel::Dedup(r) => Ok(hold_inner(alloc, r.get(), tables, env)?),
        Rel::List(k, r, s) => {
            let source = source_rows(alloc, r.get(), tables, env)?;
            Ok(hold_rows(alloc, *k, &source, s.get(), tables, env)?)
        }
        Rel::Hash(k, r, s, _) => {
            let keys = key_rows(alloc, r.get(), tables, env)?;
            Ok(hold_keys(alloc, *k, keys, s.get(), tables, env)?)
        }
        Rel::Ord(k, r, s, _, _) => {
            let keys = key_rows(alloc, r.get(), tables, env)?;
            Ok(hold_keys(alloc, *k, keys, s.get(), tables, env)?)
        }
    }
}

fn nothing(alloc: Global) -> HeldOut
    ensures { result ≡ parted [] }
{
    HeldOut {
        held: Held::Parts(Items::new(alloc)),
        faults: Faults::NONE,
    }
}

// The value of a scalar.
fn hold_scalar<'e, 'a>(alloc: Global, e: &'a Expr, env: &Env<'e, 'a>) -> Result<HeldOut, Memory>
    ensures { IfOk result (λ out. out ≡ leaf (expr_value e.now [] (scopes_of env.now) [])) }
{
    match value(e, &[], env, &[]) {
        Ok(cell) => Ok(HeldOut {
            held: Held::Leaf(cell.to_value(alloc)?),
            faults: Faults::NONE,
        }),
        Err(faults) => Ok(HeldOut {
            held: Held::Leaf(Value::Bool(false)),
            faults,
        }),
    }
}

// What the one operand holds.
#[cycle(hold)]
fn hold_inner<'e, 'a>(
    alloc: Global,
    r: &'a Rel,
    tables: &[Table],
    env: &Env<'e, 'a>,
) -> Result<HeldOut, Memory>
    ensures { IfOk result (λ out. out ≡ within (held_under r.now tables.now (scopes_of env.now) unbound [])) }
{
    let HeldOut { held, faults } = hold_under(alloc, r, tables, env)?;
    Ok(HeldOut {
        held: Held::Inner(boxed(alloc, Ok(held))?),
        faults,
    })
}

// What each operand holds.
#[cycle(hold)]
fn hold_parts<'e, 'a>(
    alloc: Global,
    rs: &'a [Rel],
    tables: &[Table],
    env: &Env<'e, 'a>,
) -> Result<HeldOut, Memory>
    ensures { IfOk result (λ out. out ≡ parted (map (λ r. held_under r tables.now (scopes_of env.now) unbound []) rs.now)) }
{
    let mut faults = Faults::NONE;
    let mut parts = Items::new(alloc);
    for r in rs {
        let part = hold_under(alloc, r, tables, env)?;
        let more = add(&mut parts, part)?;
        faults = faults.union(more);
    }
    Ok(HeldOut {
        held: Held::Parts(parts),
        faults,
    })
}

// What the body of a dependent join holds. The row of its scope isn't known.
#[cycle(hold)]
fn hold_unknown<'e, 'a>(
    alloc: Global,
    k: u32,
    s: &'a Rel,
    tables: &[Table],
    env: &Env<'e, 'a>,
) -> Result<HeldOut, Memory>
    ensures { IfOk result (λ out. out ≡ held_under s.now tables.now (bind (scopes_of env.now) k []) unbound []) }
{
    Ok(hold_under_cells(alloc, k, &[], &*s, tables, &*env)?)
}

// What two operands hold, where there was memory for both.
fn pair(
    alloc: Global,
    first: Result<HeldOut, Memory>,
    second: Result<HeldOut, Memory>,
) -> Result<HeldOut, Memory>
    ensures { IfOk result (λ out. IsOkAnd first (λ x. IsOkAnd second (λ y. out ≡ parted (x ∷ y ∷ [])))) }
{
    let (first, second) = both(first, second)?;
    Ok(two_parts(alloc, first, second)?)
}

fn two_parts(alloc: Global, first: HeldOut, second: HeldOut) -> Result<HeldOut, Memory>
    ensures { IfOk result (λ out. out ≡ parted (first ∷ second ∷ [])) }
{
    let mut parts = Items::new(alloc);
    let faults = add(&mut parts, first)?;
    let more = add(&mut parts, second)?;
    Ok(HeldOut {
        held: Held::Parts(parts),
        faults: faults.union(more),
    })
}

// Puts what is held behind the others, and gives its faults.
fn add(kids: &mut Items<Held>, kid: HeldOut) -> Result<Faults, Memory>
    ensures kids { OnOk result (kids.new ≡ kids.old ++ kid.held ∷ []) }
    ensures faults { IfOk result (λ faults. faults ≡ kid.faults) }
{
    let HeldOut { held, faults } = kid;
    kids.push(held)?;
    Ok(faults)
}

// Puts a key and what is held under it behind the others, and gives its faults.
fn add_entry(entries: &mut Items<Entry>, key: Row, kid: HeldOut) -> Result<Faults, Memory>
    ensures entries { OnOk result (entries.new ≡ entries.old ++ record { key = key; kid = kid.held } ∷ []) }
    ensures faults { IfOk result (λ faults. faults ≡ kid.faults) }
{
    let HeldOut { held, faults } = kid;
    entries.push(Entry { key, kid: held })?;
    Ok(faults)
}

// What the body holds under each row of the source.
#[cycle(hold)]
fn hold_rows<'e, 'a>(
    alloc: Global,
    k: u32,
    source: &Out,
    s: &'a Rel,
    tables: &[Table],
    env: &Env<'e, 'a>,
) -> Result<HeldOut, Memory>
    ensures { IfOk result (λ out. out ≡ listed (λ row. held_under s.now tables.now (bind (scopes_of env.now) k row) unbound []) source.now) }
{
    let mut faults = source.faults;
    let mut kids = Items::new(alloc);
    for row in source.rows.as_slice() {
        let kid = hold_under_row(alloc, k, row, s, tables, env)?;
        let more = add(&mut kids, kid)?;
        faults = faults.union(more);
    }
    Ok(HeldOut {
        held: Held::Rows(kids),
        faults,
    })
}

// Each key, and what the body holds under it.
#[cycle(hold)]
fn hold_keys<'e, 'a>(
    alloc: Global,
    k: u32,
    keys: Out,
    s: &'a Rel,
    tables: &[Table],
    env: &Env<'e, 'a>,
) -> Result<HeldOut, Memory>
    ensures { IfOk result (λ out. out ≡ keyed (λ row. held_under s.now tables.now (bind (scopes_of env.now) k row) unbound []) keys) }
{
    let Out { rows, mut faults } = keys;
    let mut entries = Items::new(alloc);
    for key in rows.into_rows() {
        let kid = hold_under_row(alloc, k, &key, s, tables, env)?;
        let more = add_entry(&mut entries, key, kid)?;
        faults = faults.union(more);
    }
    Ok(HeldOut {
        held: Held::Keyed(entries),
        faults,
    })
}

// What the body holds under one row of the source.
#[cycle(hold)]
fn hold_under_row<'e, 'a>(
    alloc: Global,
    k: u32,
    row: &Row,
    s: &'a Rel,
    tables: &[Table],
    env: &Env<'e, 'a>,
) -> Result<HeldOut, Memory>
    ensures { IfOk result (λ out. out ≡ held_under s.now tables.now (bind (scopes_of env.now) k row.now) unbound []) }
{
    let cells = row.cells(alloc)?;
    Ok(hold_under_cells(alloc, k, cells.as_slice(), &*s, tables, &*env)?)
}

#[cycle(hold)]
fn hold_under_cells<'e, 'a>(
    alloc: Global,
    k: u32,
    row: &'e [Cell<'a>],
    s: &'a Rel,
    tables: &[Table],
    env: &'e Env<'e, 'a>,
) -> Result<HeldOut, Memory>
    ensures { IfOk result (λ out. out ≡ held_under s.now tables.now (bind (scopes_of env.now) k (map value_of row.now)) unbound []) }
{
    let inner = Env::Bind(k, row, env);
    Ok(hold_under(alloc, s, tables, &inner)?)
}
