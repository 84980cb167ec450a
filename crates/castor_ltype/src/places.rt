//! What stands at the places below a place.

ghost use Rattle.std.specs.Prelude.{◌≡◌, ◌++◌, IfOk, OnOk, map};
ghost use Rattle.std.specs.List.{flat_map};
ghost use Rattle.std.specs.Option.{option_map};
ghost use Rattle.castor_val.specs.Values.{value_of};
ghost use Rattle.castor_code.specs.Shapes.{leaf_of};
ghost use Rattle.castor_ltype.specs.Generation as generation;
ghost use Rattle.castor_ltype.specs.Places as place;

use castor_alg::{Entry, Held};
use castor_val::{Cell, Memory};
use std::alloc::Global;

/// The values of leaves.
pub fn leaves<'a>(alloc: Global, held: &[&'a Held]) -> Result<Vec<Option<Cell<'a>>>, Memory>
    ensures { IfOk result (λ leaves. map (option_map value_of) leaves.items ≡ map leaf_of (map (λ h. h.now) held.now)) }
{
    let mut leaves = Vec::new(alloc);
    for h in held {
        leaves.push(leaf(h))?;
    }
    Ok(leaves)
}

fn leaf(held: &Held) -> Option<Cell<'_>>
    ensures { option_map value_of result ≡ leaf_of held.now }
{
    match held {
        Held::Leaf(value) => Some(value.cell()),
        Held::Parts(_) => None,
        Held::Rows(_) => None,
        Held::Keyed(_) => None,
        Held::Inner(_) => None,
    }
}

/// The part of each with a number, from 0.
pub fn parts<'a>(
    alloc: Global,
    at: usize,
    held: &[&'a Held],
    nothing: &'a Held,
) -> Result<Vec<&'a Held>, Memory>
    requires { nothing.now ≡ place.nothing }
    ensures { IfOk result (λ parts. map (λ h. h.now) parts.items ≡ map (place.part at) (map (λ h. h.now) held.now)) }
{
    let mut parts = Vec::new(alloc);
    for h in held {
        parts.push(part(at, h, nothing))?;
    }
    Ok(parts)
}

fn part<'a>(at: usize, held: &'a Held, nothing: &'a Held) -> &'a Held
    requires { nothing.now ≡ place.nothing }
    ensures { result.now ≡ place.part at held.now }
{
    match held {
        Held::Leaf(_) => nothing,
        Held::Parts(parts) => match parts.get(at) {
            Some(part) => part,
            None => nothing,
        },
        Held::Rows(_) => nothing,
        Held::Keyed(_) => nothing,
        Held::Inner(_) => nothing,
    }
}

/// What the operand of each holds.
pub fn inners<'a>(
    alloc: Global,
    held: &[&'a Held],
    nothing: &'a Held,
) -> Result<Vec<&'a Held>, Memory>
    requires { nothing.now ≡ place.nothing }
    ensures { IfOk result (λ inners. map (λ h. h.now) inners.items ≡ map place.inner (map (λ h. h.now) held.now)) }
{
    let mut inners = Vec::new(alloc);
    for h in held {
        inners.push(inner(h, nothing))?;
    }
    Ok(inners)
}

fn inner<'a>(held: &'a Held, nothing: &'a Held) -> &'a Held
    requires { nothing.now ≡ place.nothing }
    ensures { result.now ≡ place.inner held.now }
{
    match held {
        Held::Leaf(_) => nothing,
        Held::Parts(_) => nothing,
        Held::Rows(_) => nothing,
        Held::Keyed(_) => nothing,
        Held::Inner(kid) => kid.get(),
    }
}

fn push_each<'a, T>(all: &mut Vec<&'a T>, more: &'a [T]) -> Result<(), Memory>
    ensures { OnOk result (map (λ thing. thing.now) all.new.items ≡ map (λ thing. thing.now) all.old.items ++ more.now) }
{
    for thing in more {
        all.push(thing)?;
    }
    Ok(())
}

/// All children of all lists.
pub fn children<'a>(alloc: Global, held: &[&'a Held]) -> Result<Vec<&'a Held>, Memory>
    ensures { IfOk result (λ children. map (λ h. h.now) children.items ≡ flat_map place.children (map (λ h. h.now) held.now)) }
{
    let mut children = Vec::new(alloc);
    for h in held {
        push_each(&mut children, children_of(h))?;
    }
    Ok(children)
}

/// The children of a list.
pub fn children_of(held: &Held) -> &[Held]
    ensures { result.now ≡ place.children held.now }
{
    match held {
        Held::Leaf(_) => &[],
        Held::Parts(_) => &[],
        Held::Rows(rows) => rows.as_slice(),
        Held::Keyed(_) => &[],
        Held::Inner(_) => &[],
    }
}

/// All entries of all indexes.
pub fn entries<'a>(alloc: Global, held: &[&'a Held]) -> Result<Vec<&'a Entry>, Memory>
    ensures { IfOk result (λ entries. map (λ e. e.now) entries.items ≡ flat_map place.entries (map (λ h. h.now) held.now)) }
{
    let mut entries = Vec::new(alloc);
    for h in held {
        push_each(&mut entries, entries_of(h))?;
    }
    Ok(entries)
}

/// The entries of an index.
pub fn entries_of(held: &Held) -> &[Entry]
    ensures { result.now ≡ place.entries held.now }
{
    match held {
        Held::Leaf(_) => &[],
        Held::Parts(_) => &[],
        Held::Rows(_) => &[],
        Held::Keyed(entries) => entries.as_slice(),
        Held::Inner(_) => &[],
    }
}

/// What stands under the keys.
pub fn kids<'a>(alloc: Global, entries: &[&'a Entry]) -> Result<Vec<&'a Held>, Memory>
    ensures { IfOk result (λ kids. map (λ h. h.now) kids.items ≡ generation.kids (map (λ e. e.now) entries.now)) }
{
    let mut kids = Vec::new(alloc);
    for entry in entries {
        kids.push(&entry.kid)?;
    }
    Ok(kids)
}

/// The values of the keys in a column, from 0.
pub fn key_values<'a>(
    alloc: Global,
    at: usize,
    entries: &[&'a Entry],
) -> Result<Vec<Option<Cell<'a>>>, Memory>
    ensures { IfOk result (λ values. map (option_map value_of) values.items ≡ map (place.key_value at) (map (λ e. e.now) entries.now)) }
{
    let mut values = Vec::new(alloc);
    for entry in entries {
        values.push(key_value(at, entry))?;
    }
    Ok(values)
}

fn key_value(at: usize, entry: &Entry) -> Option<Cell<'_>>
    ensures { option_map value_of result ≡ place.key_value at entry.now }
{
    match entry.key.as_slice().get(at) {
        Some(value) => Some(value.cell()),
        None => None,
    }
}
