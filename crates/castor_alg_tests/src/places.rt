//! The relation at a path, and another one put there.

use crate::build::{
    MadeRel, concat, cross, dedup, dep_join, excl, filter, group, hash, join, list, one, ord,
    order, param, scalar, select, table, truth,
};
use castor_alg::{Agg, Bound, Key, Rel, ReplaceError, at, replace};
use std::alloc::Global;
use std::process::Abort;
use std::test::Fail;

// A relation of an operator with tables for its operands: 0, and 1 where there is a second one, as the
// first seven have.
fn below(alloc: Global, number: u32) -> MadeRel {
    let key = Key {
        col: 0,
        desc: false,
    };
    match number {
        0 => cross(alloc, table(0), table(1)),
        1 => concat(alloc, table(0), table(1)),
        2 => join(alloc, truth(true), table(0), table(1)),
        3 => dep_join(alloc, 5, table(0), table(1)),
        4 => list(alloc, 5, table(0), table(1)),
        5 => hash(alloc, 5, table(0), table(1), one(alloc, param(0))),
        6 => ord(alloc, 5, table(0), table(1), excl(param(0)), Ok(Bound::Any)),
        7 => select(alloc, one(alloc, param(0)), table(0)),
        8 => filter(alloc, truth(true), table(0)),
        9 => group(alloc, &[0], &[Agg::Count], table(0)),
        10 => order(alloc, &[key], table(0)),
        _ => dedup(alloc, table(0)),
    }
}

// The table at a path, if there is one.
fn table_at(query: &Rel, path: &[u32]) -> Option<u32> {
    match at(query, path) {
        Some(Rel::Table(number)) => Some(*number),
        _ => None,
    }
}

// The table at a path once table 9 is put at another.
fn table_after(alloc: Global, query: &Rel, put: &[u32], path: &[u32]) -> Option<u32> {
    match replace(alloc, query, put, &Rel::Table(9)) {
        Ok(made) => table_at(&made, path),
        Err(_) => None,
    }
}

fn is_nowhere(alloc: Global, query: &Rel, path: &[u32]) -> bool {
    match replace(alloc, query, path, &Rel::Table(9)) {
        Ok(_) => false,
        Err(why) => why == ReplaceError::NoSuchPlace && at(query, path).is_none(),
    }
}

fn has_its_places(rt: &impl Abort, alloc: Global, query: &Rel, has_second: bool) {
    assert_eq!(rt; table_at(query, &[0]), Some(0));
    assert_eq!(rt; table_after(alloc, query, &[0], &[0]), Some(9));
    assert_eq!(rt; table_after(alloc, query, &[], &[]), Some(9));
    if has_second {
        assert_eq!(rt; table_at(query, &[1]), Some(1));
        assert_eq!(rt; table_after(alloc, query, &[0], &[1]), Some(1));
        assert_eq!(rt; table_after(alloc, query, &[1], &[0]), Some(0));
        assert_eq!(rt; table_after(alloc, query, &[1], &[1]), Some(9));
    } else {
        assert!(rt; is_nowhere(alloc, query, &[1]));
    }
    assert!(rt; is_nowhere(alloc, query, &[2]));
    assert!(rt; is_nowhere(alloc, query, &[0, 0]));
}

fn operator_has_its_places(rt: &impl Abort, alloc: Global, number: u32) -> Result<(), Fail> {
    let query = below(alloc, number)?;
    has_its_places(rt, alloc, &query, number < 7);
    Ok(())
}

#[test]
fn each_operator_has_its_operands_at_paths(rt: HostRuntime) -> Result<(), Fail> {
    let alloc = rt.alloc();
    for number in 0..12 {
        operator_has_its_places(&rt, alloc, number)?;
    }
    Ok(())
}

#[test]
fn a_scalar_has_no_operands_at_paths(rt: HostRuntime) -> Result<(), Fail> {
    let alloc = rt.alloc();
    let query = scalar(truth(true))?;
    assert!(rt; is_nowhere(alloc, &query, &[0]));
    Ok(())
}

// list(t2 as k5, dedup(cross(t0, filter(true, t1))))
fn deep(alloc: Global) -> MadeRel {
    let filtered = filter(alloc, truth(true), table(1));
    list(
        alloc,
        5,
        table(2),
        dedup(alloc, cross(alloc, table(0), filtered)),
    )
}

#[test]
fn a_place_far_below_is_found_and_replaced(rt: HostRuntime) -> Result<(), Fail> {
    let alloc = rt.alloc();
    let query = deep(alloc)?;
    assert_eq!(rt; table_at(&query, &[1, 0, 1, 0]), Some(1));
    assert_eq!(rt; table_after(alloc, &query, &[1, 0, 1], &[1, 0, 1]), Some(9));
    assert_eq!(rt; table_after(alloc, &query, &[1, 0, 1], &[1, 0, 0]), Some(0));
    assert!(rt; is_nowhere(alloc, &query, &[1, 0, 1, 0, 0]));
    Ok(())
}
