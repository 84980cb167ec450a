//! What relations of names mean, and their columns.

ghost use Rattle.std.specs.Prelude.{◌≡◌, ◌+◌, ◌++◌, [], ◌∷◌, IfOk, map};
ghost use Rattle.castor_val.specs.Gives.{Gives};
ghost use Rattle.castor_operators.specs.Relations.{binding_of, bound_over, relation, scope_over, with_crossed, with_operand};
ghost use Rattle.castor_names.specs.Scopes.{scopes_of};
ghost use Rattle.castor_names.specs.Turns.{in_order};
ghost use Rattle.castor_names.specs.declared.error.SchemaError.TheVariants as error;

use castor_alg::{Rel, both};
use castor_names::{Declarations, SchemaError, Scope, Scopes};
use castor_operators::{
    Binding, Crossing, Found, Operands, beside, concatenated, deduped, depjoined, filtered,
    grouped, hashed_by, joined, limited, listed, order_by, ordered_by, scalar_found, selected,
    table_found,
};
use castor_tree::{PRel, Word};
use castor_val::{Memory, Text};
use sqlite_items::Items;
use std::alloc::Global;

/// A binder whose source is found: its scope, the source, and the number of the next binder.
#[derive(Drop)]
pub struct Opened {
    pub scope: Scope,
    pub source: Rel,
    pub next: u32,
}

/// What a relation means under declarations and the scopes in force, where its binders are numbered
/// from `next` on, or the first refusal. Linear in the tree times the number of columns and scopes.
#[cycle(relation)]
pub fn relation(
    alloc: Global,
    known: &Declarations,
    scopes: &Scopes<'_>,
    next: u32,
    query: &PRel,
) -> Result<Found, SchemaError>
    ensures { Gives (λ found. found) error.Memory (relation query.now known.now (scopes_of scopes.now) next) result }
{
    match query {
        PRel::Table(word) => table_found(alloc, known.tables.as_slice(), next, &word.text),
        PRel::Scalar(item) => scalar_found(alloc, known, scopes, next, item),
        PRel::Cross(rs) => {
            let all = crossed(alloc, known, scopes, next, rs.as_slice())?;
            limited(Rel::Cross(all.queries), all.columns, all.next)
        }
        PRel::Concat(rs) => {
            let all = operands_found(alloc, known, scopes, next, rs.as_slice())?;
            concatenated(alloc, all)
        }
        PRel::Select(items, r) => {
            let from = relation(alloc, known, scopes, next, r.get())?;
            selected(alloc, known, scopes, items.as_slice(), from)
        }
        PRel::Filter(e, r) => {
            let from = relation(alloc, known, scopes, next, r.get())?;
            filtered(alloc, known, scopes, e, from)
        }
        PRel::Join(e, r, s) => {
            let left = relation(alloc, known, scopes, next, r.get())?;
            let right = relation(alloc, known, scopes, left.next, s.get());
            let (left, right) = beside(left, right)?;
            joined(alloc, known, scopes, e, left, right)
        }
        PRel::DepJoin(word, r, s) => {
            let from = source_found(alloc, known, scopes, next, r.get())?;
            let binding = bound_over(alloc, known, scopes, next, word, s.get(), from)?;
            depjoined(alloc, binding)
        }
        PRel::List(word, r, s) => {
            let from = source_found(alloc, known, scopes, next, r.get())?;
            let binding = bound_over(alloc, known, scopes, next, word, s.get(), from)?;
            listed(alloc, binding)
        }
        PRel::Hash(word, r, s, es) => {
            let from = source_found(alloc, known, scopes, next, r.get())?;
            let binding = bound_over(alloc, known, scopes, next, word, s.get(), from)?;
            hashed_by(alloc, known, scopes, es.as_slice(), binding)
        }
        PRel::Ord(word, r, s, lo, hi) => {
            let from = source_found(alloc, known, scopes, next, r.get())?;
            let binding = bound_over(alloc, known, scopes, next, word, s.get(), from)?;
            ordered_by(alloc, known, scopes, lo, hi, binding)
        }
        PRel::Group(keys, aggs, r) => {
            let from = relation(alloc, known, scopes, next, r.get())?;
            grouped(alloc, keys.as_slice(), aggs.as_slice(), from)
        }
        PRel::Order(keys, r) => {
            let from = relation(alloc, known, scopes, next, r.get())?;
            order_by(alloc, keys.as_slice(), from)
        }
        PRel::Dedup(r) => {
            let from = relation(alloc, known, scopes, next, r.get())?;
            deduped(alloc, from)
        }
    }
}

fn open_scope(alloc: Global, number: u32, name: &Text, from: Found) -> Result<Opened, Memory>
    ensures { IfOk result (λ opened. opened ≡ record { scope = scope_over number name.now from; source = from.query; next = from.next }) }
{
    let Found {
        query: source,
        columns,
        next,
    } = from;
    let ((source, columns), name) = both(Ok((source, columns)), name.copy(alloc))?;
    let scope = Scope {
        number,
        name,
        columns,
    };
    Ok(Opened {
        scope,
        source,
        next,
    })
}

#[tactic(auto, unfolding(castor_operators::specs::Relations::binding_of))]
fn binding_of(opened: Opened, body: Found) -> Result<Binding, SchemaError>
    ensures { result ≡ binding_of opened.scope opened.source body }
{
    let Opened {
        scope,
        source,
        next: _,
    } = opened;
    let Scope {
        number,
        name: _,
        columns,
    } = scope;
    Ok(Binding {
        number,
        source,
        columns,
        body,
    })
}

/// A binder's source. A file with 2^32 binders is in no memory.
#[cycle(relation)]
fn source_found(
    alloc: Global,
    known: &Declarations,
    scopes: &Scopes<'_>,
    next: u32,
    source: &PRel,
) -> Result<Found, SchemaError>
    ensures { Gives (λ found. found) error.Memory (relation source.now known.now (scopes_of scopes.now) (next + 1)) result }
{
    match next.checked_add(1) {
        Some(after) => relation(alloc, known, scopes, after, source),
        None => Err(SchemaError::Memory),
    }
}

/// A binder over its source.
#[cycle(relation)]
#[tactic(auto, unfolding(castor_operators::specs::Relations::bound_over))]
fn bound_over(
    alloc: Global,
    known: &Declarations,
    scopes: &Scopes<'_>,
    next: u32,
    word: &Word,
    body: &PRel,
    from: Found,
) -> Result<Binding, SchemaError>
    ensures { Gives (λ binding. binding) error.Memory (bound_over (relation body.now) word.now.text known.now (scopes_of scopes.now) next from) result }
{
    let opened = open_scope(alloc, next, &word.text, from)?;
    let inside = body_found(alloc, known, body, opened.next, &opened.scope, &*scopes);
    let (opened, inside) = beside(opened, inside)?;
    binding_of(opened, inside)
}

/// A binder's body, with its scope in force.
#[cycle(relation)]
fn body_found<'s>(
    alloc: Global,
    known: &Declarations,
    body: &PRel,
    next: u32,
    scope: &'s Scope,
    outer: &'s Scopes<'s>,
) -> Result<Found, SchemaError>
    ensures { Gives (λ found. found) error.Memory (relation body.now known.now (scope.now ∷ scopes_of outer.now) next) result }
{
    relation(alloc, known, &Scopes::Inner(scope, outer), next, body)
}

fn more_crossed(mut found: Crossing, more: Found) -> Result<Crossing, Memory>
    ensures { IfOk result (λ all. all ≡ record { queries = found.queries ++ more.query ∷ []; columns = found.columns ++ more.columns; next = more.next }) }
{
    found.queries.push(more.query)?;
    found.columns.append(more.columns)?;
    found.next = more.next;
    Ok(found)
}

#[cycle(relation)]
#[tactic(auto, unfolding(castor_operators::specs::Relations::with_crossed))]
fn crossed(
    alloc: Global,
    known: &Declarations,
    scopes: &Scopes<'_>,
    next: u32,
    queries: &[PRel],
) -> Result<Crossing, SchemaError>
    ensures { Gives (λ all. all) error.Memory (in_order (with_crossed known.now (scopes_of scopes.now)) (record { queries = []; columns = []; next = next }) (map relation queries.now)) result }
{
    let mut found = Crossing {
        queries: Items::new(alloc),
        columns: Items::new(alloc),
        next,
    };
    for query in queries {
        let more = relation(alloc, known, scopes, found.next, query);
        let (before, more) = beside(found, more)?;
        found = more_crossed(before, more)?;
    }
    Ok(found)
}

fn more_operands(mut found: Operands, more: Found) -> Result<Operands, Memory>
    ensures { IfOk result (λ all. all ≡ record { queries = found.queries ++ more.query ∷ []; columns = found.columns ++ more.columns ∷ []; next = more.next }) }
{
    found.queries.push(more.query)?;
    found.columns.push(more.columns)?;
    found.next = more.next;
    Ok(found)
}

#[cycle(relation)]
#[tactic(auto, unfolding(castor_operators::specs::Relations::with_operand))]
fn operands_found(
    alloc: Global,
    known: &Declarations,
    scopes: &Scopes<'_>,
    next: u32,
    queries: &[PRel],
) -> Result<Operands, SchemaError>
    ensures { Gives (λ all. all) error.Memory (in_order (with_operand known.now (scopes_of scopes.now)) (record { queries = []; columns = []; next = next }) (map relation queries.now)) result }
{
    let mut found = Operands {
        queries: Items::new(alloc),
        columns: Items::new(alloc),
        next,
    };
    for query in queries {
        let more = relation(alloc, known, scopes, found.next, query);
        let (before, more) = beside(found, more)?;
        found = more_operands(before, more)?;
    }
    Ok(found)
}
