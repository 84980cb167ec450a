//! Sizes, free scopes, totality and fresh scopes of small relations.

use crate::build::{
    MadeRel, bin, cross, dep_join, excl, filter, group, hash, incl, int, list, not, one, ord,
    param, scalar, scope, table, truth,
};
use castor_alg::{Agg, Bound, Op, Rel, copy, depth, fresh, is_free, is_total, nodes};
use std::alloc::Global;
use std::process::Abort;

// depjoin(t0 as k1, filter(k1.0 = k2.0, t1))
fn nested(alloc: Global) -> MadeRel {
    let same = bin(alloc, scope(1, 0), Op::Eq, scope(2, 0));
    dep_join(alloc, 1, table(0), filter(alloc, same, table(1)))
}

// list(filter(k1.0 = $0, t0) as k1, scalar(not true))
fn read_outside(alloc: Global) -> MadeRel {
    let same = bin(alloc, scope(1, 0), Op::Eq, param(0));
    let body = scalar(not(alloc, truth(true)));
    list(alloc, 1, filter(alloc, same, table(0)), body)
}

// ordered(hash(t0 as k1, t1, [k3.0]) as k4, cross(t0, t1), >= k2.0, any)
fn indexed(alloc: Global) -> MadeRel {
    let source = hash(alloc, 1, table(0), table(1), one(alloc, scope(3, 0)));
    let body = cross(alloc, table(0), table(1));
    ord(alloc, 4, source, body, incl(scope(2, 0)), Ok(Bound::Any))
}

fn measures(rt: &impl Abort, query: &Rel, all: u64, deep: u64) {
    assert_eq!(rt; nodes(query), all);
    assert_eq!(rt; depth(query), deep);
}

fn copy_measures(rt: &impl Abort, alloc: Global, query: &Rel, all: u64, deep: u64) {
    match copy(alloc, query) {
        Ok(copied) => measures(rt, &copied, all, deep),
        Err(_) => assert!(rt; false, "no memory"),
    }
}

// A relation and its copy have so many nodes, and are so deep.
fn both_measure(rt: &impl Abort, alloc: Global, query: MadeRel, all: u64, deep: u64) {
    match query {
        Ok(query) => {
            measures(rt, &query, all, deep);
            copy_measures(rt, alloc, &query, all, deep);
        }
        Err(_) => assert!(rt; false, "no memory"),
    }
}

#[test]
fn measures_trees_and_their_copies(rt: HostRuntime) {
    let a = rt.alloc();
    both_measure(&rt, a, nested(a), 7, 4);
    both_measure(&rt, a, read_outside(a), 9, 4);
    both_measure(&rt, a, indexed(a), 9, 3);
}

// Which scopes are free, which aren't, and the fresh one.
fn has_scopes(rt: &impl Abort, query: MadeRel, free: &[u32], bound: &[u32], due: u32) {
    match query {
        Ok(query) => {
            assert!(rt; free.iter().all(|k| is_free(&query, *k)));
            assert!(rt; bound.iter().all(|k| !is_free(&query, *k)));
            assert_eq!(rt; fresh(&query), Some(due));
        }
        Err(_) => assert!(rt; false, "no memory"),
    }
}

#[test]
fn finds_free_and_fresh_scopes(rt: HostRuntime) {
    let a = rt.alloc();
    has_scopes(&rt, nested(a), &[2], &[1], 3);
    has_scopes(&rt, read_outside(a), &[1], &[], 2);
    has_scopes(&rt, indexed(a), &[2, 3], &[1, 4], 5);
}

fn is_fresh(rt: &impl Abort, query: MadeRel, due: Option<u32>) {
    match query {
        Ok(query) => assert_eq!(rt; fresh(&query), due),
        Err(_) => assert!(rt; false, "no memory"),
    }
}

#[test]
fn has_no_fresh_scope_above_the_greatest(rt: HostRuntime) {
    is_fresh(&rt, table(7), Some(0));
    is_fresh(&rt, scalar(scope(u32::MAX - 1, 0)), Some(u32::MAX));
    is_fresh(&rt, scalar(scope(u32::MAX, 0)), None);
    is_fresh(
        &rt,
        dep_join(rt.alloc(), u32::MAX, table(0), table(0)),
        None,
    );
}

fn is_called_total(rt: &impl Abort, query: MadeRel, due: bool) {
    match query {
        Ok(query) => assert_eq!(rt; is_total(&query), due),
        Err(_) => assert!(rt; false, "no memory"),
    }
}

#[test]
fn knows_what_cannot_fault(rt: HostRuntime) {
    let a = rt.alloc();
    is_called_total(&rt, nested(a), true);
    is_called_total(&rt, indexed(a), true);
    is_called_total(&rt, scalar(bin(a, int(1), Op::Add, int(1))), false);
    let bound = excl(bin(a, int(1), Op::Add, int(1)));
    is_called_total(
        &rt,
        ord(a, 1, table(0), table(0), Ok(Bound::Any), bound),
        false,
    );
    is_called_total(&rt, group(a, &[], &[Agg::Count], table(0)), true);
    is_called_total(
        &rt,
        group(a, &[], &[Agg::Count, Agg::Min(0)], table(0)),
        false,
    );
    is_called_total(
        &rt,
        group(a, &[0], &[Agg::Min(0), Agg::Max(0)], table(0)),
        true,
    );
    is_called_total(&rt, group(a, &[0], &[Agg::Sum(0)], table(0)), false);
}
