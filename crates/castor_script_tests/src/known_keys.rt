//! Which keys are known.

use crate::build::{
    MadeRel, col, columns, cross, dedup, dep_join, equal, falling, filter, list, order, param,
    rising, scalar, scalars, scope, select, table,
};
use castor_alg::{Key, Rel};
use castor_script::orders;
use castor_val::Memory;
use std::alloc::Global;
use std::process::Abort;

fn known(alloc: Global, query: Rel) -> Result<Vec<Key>, Memory> {
    orders(alloc, &query)
}

fn has_keys(rt: &impl Abort, alloc: Global, query: MadeRel, due: &[Key]) {
    match query {
        Ok(query) => match known(alloc, query) {
            Ok(keys) => assert_eq!(rt; keys.as_slice(), due),
            Err(why) => assert!(rt; false, "{why:?}"),
        },
        Err(why) => assert!(rt; false, "{why:?}"),
    }
}

// Rows by their last column, falling, and then by their first.
fn sorted(a: Global) -> MadeRel {
    order(a, &[falling(2), rising(0)], table(0))
}

#[test]
fn filters_and_distinct_rows_keep_keys(rt: HostRuntime) {
    let a = rt.alloc();
    let keys = [falling(2), rising(0)];
    has_keys(&rt, a, sorted(a), &keys);
    has_keys(
        &rt,
        a,
        filter(a, equal(a, col(1), param(0)), dedup(a, sorted(a))),
        &keys,
    );
    has_keys(&rt, a, table(0), &[]);
    has_keys(&rt, a, cross(a, sorted(a), table(1)), &[]);
    has_keys(&rt, a, dep_join(a, 0, sorted(a), sorted(a)), &[]);
}

#[test]
fn projections_move_keys_to_the_first_such_item(rt: HostRuntime) {
    let a = rt.alloc();
    has_keys(
        &rt,
        a,
        select(a, columns(a, &[0, 2, 0]), sorted(a)),
        &[falling(1), rising(0)],
    );
    has_keys(
        &rt,
        a,
        select(a, columns(a, &[1, 2, 2]), sorted(a)),
        &[falling(1)],
    );
    // The first key is left out, so that the second says nothing.
    has_keys(&rt, a, select(a, columns(a, &[0, 1, 0]), sorted(a)), &[]);
}

#[test]
fn lists_move_keys_into_a_cross_of_scalars(rt: HostRuntime) {
    let a = rt.alloc();
    let rows = list(a, 0, sorted(a), scalars(a, 0, &[0, 1, 2]));
    has_keys(
        &rt,
        a,
        filter(a, equal(a, col(1), param(0)), rows),
        &[falling(2), rising(0)],
    );
    has_keys(
        &rt,
        a,
        list(a, 7, sorted(a), scalars(a, 7, &[1, 2, 2])),
        &[falling(1)],
    );
    // The columns of another scope are the same for all rows.
    has_keys(
        &rt,
        a,
        list(a, 7, sorted(a), scalars(a, 6, &[0, 1, 2])),
        &[],
    );
    has_keys(
        &rt,
        a,
        list(a, 7, sorted(a), cross(a, scalar(scope(7, 2)), table(1))),
        &[],
    );
    has_keys(&rt, a, list(a, 7, sorted(a), scalar(scope(7, 2))), &[]);
}
