//! Columns and scopes replaced by expressions.

use crate::build::{
    MadeExpr, MadeRel, bin, choice, col, dep_join, filter, int, one, scope, table, truth, two,
};
use castor_alg::{
    Env, Expr, Op, Rel, SubstError, both, cols_to_scope, is_free, is_read, subst_cols, subst_scope,
    value,
};
use castor_val::{Cell, Faults, Memory};
use sqlite_items::Items;
use std::alloc::Global;

// The value over the row `7, true`, under scope 1 with the row `5, false`.
fn answer(e: &Expr) -> Result<i64, Faults> {
    let bound = [Cell::Int(5), Cell::Bool(false)];
    let row = [Cell::Int(7), Cell::Bool(true)];
    match value(e, &row, &Env::Bind(1, &bound, &Env::Empty), &[])? {
        Cell::Int(number) => Ok(number),
        _ => Ok(0),
    }
}

// if(#1, if(#1, #0, 1), 2)
fn nested_choice(alloc: Global) -> MadeExpr {
    choice(alloc, col(1), choice(alloc, col(1), col(0), int(1)), int(2))
}

// 30 + #0 and k1.1, for the columns 0 and 1
fn replacements(alloc: Global) -> Result<Items<Expr>, Memory> {
    two(alloc, bin(alloc, int(30), Op::Add, col(0)), scope(1, 1))
}

fn answer_of(made: MadeExpr) -> Option<i64> {
    match answer(&made.ok()?) {
        Ok(number) => Some(number),
        Err(_) => None,
    }
}

// The answer of the nested choice once its columns are replaced.
fn answer_with(alloc: Global, by: Result<Items<Expr>, Memory>) -> Option<i64> {
    match both(nested_choice(alloc), by) {
        Ok((e, by)) => answer_of(subst_cols(alloc, &e, by.as_slice())),
        Err(_) => None,
    }
}

#[test]
fn columns_of_a_nested_if_are_replaced(rt: HostRuntime) {
    let alloc = rt.alloc();
    assert_eq!(rt; answer_of(nested_choice(alloc)), Some(7));
    let by = two(alloc, bin(alloc, int(30), Op::Add, col(0)), truth(true));
    assert_eq!(rt; answer_with(alloc, by), Some(37));
    assert_eq!(rt; answer_with(alloc, replacements(alloc)), Some(2));
}

#[test]
fn a_missing_column_is_replaced_by_false(rt: HostRuntime) {
    let alloc = rt.alloc();
    assert_eq!(rt; answer_with(alloc, one(alloc, int(3))), Some(2));
}

// The expression with its columns taken from scope 1.
fn from_scope(alloc: Global, e: MadeExpr) -> MadeExpr {
    match e {
        Ok(e) => cols_to_scope(alloc, &e, 1),
        Err(why) => Err(why),
    }
}

fn reads_scope(e: MadeExpr) -> bool {
    match e {
        Ok(e) => is_read(&e, 1),
        Err(_) => false,
    }
}

#[test]
fn columns_become_those_of_a_scope(rt: HostRuntime) {
    let alloc = rt.alloc();
    assert_eq!(rt; answer_of(from_scope(alloc, nested_choice(alloc))), Some(2));
    assert!(rt; reads_scope(from_scope(alloc, nested_choice(alloc))));
    assert_eq!(rt; answer_of(from_scope(alloc, col(0))), Some(5));
}

// depjoin(t0 as k, filter(k2.0 = k.0, t1))
fn under(alloc: Global, k: u32) -> MadeRel {
    let same = bin(alloc, scope(2, 0), Op::Eq, scope(k, 0));
    dep_join(alloc, k, table(0), filter(alloc, same, table(1)))
}

// What comes of replacing scope 2 by a column of scope 4.
fn replaced(alloc: Global, query: MadeRel) -> Result<Rel, SubstError> {
    match both(query, one(alloc, scope(4, 0))) {
        Ok((query, by)) => subst_scope(alloc, &query, 2, by.as_slice()),
        Err(_) => Err(SubstError::Memory),
    }
}

fn is_replaced(alloc: Global, query: MadeRel) -> bool {
    match replaced(alloc, query) {
        Ok(made) => !is_free(&made, 2) && !is_free(&made, 3) && is_free(&made, 4),
        Err(_) => false,
    }
}

fn is_captured(alloc: Global, query: MadeRel) -> bool {
    match replaced(alloc, query) {
        Ok(_) => false,
        Err(why) => why == SubstError::Captured,
    }
}

#[test]
fn a_scope_is_replaced_where_no_binder_captures(rt: HostRuntime) {
    let alloc = rt.alloc();
    assert!(rt; is_replaced(alloc, under(alloc, 3)));
    assert!(rt; is_replaced(alloc, dep_join(alloc, 1, table(0), under(alloc, 3))));
}

#[test]
fn a_binder_of_either_number_captures(rt: HostRuntime) {
    let alloc = rt.alloc();
    assert!(rt; is_captured(alloc, under(alloc, 2)));
    assert!(rt; is_captured(alloc, under(alloc, 4)));
    assert!(rt; is_captured(alloc, dep_join(alloc, 1, under(alloc, 4), table(0))));
    assert!(rt; is_captured(alloc, dep_join(alloc, 1, table(0), under(alloc, 2))));
}
