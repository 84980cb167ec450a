//! Columns counted, and relations stored.

use crate::build::{
    MadeRel, columns, concat, cross, dep_join, group, hash, join, one, param, scope, select, table,
    truth,
};
use crate::shown::shown;
use crate::types::{context, tables};
use castor_alg::{Agg, Arg, Context, Expr, NestRule, Rel, column_count, type_of};
use castor_nest::{RuleError, apply, store_rows};
use castor_val::{Memory, Ty};
use sqlite_items::Items;
use std::alloc::Global;
use std::process::Abort;
use std::test::Fail;

fn count(query: Rel, tables: &[Items<Ty>]) -> u64 {
    column_count(&query, tables)
}

fn has_columns(rt: &impl Abort, tables: &[Items<Ty>], query: MadeRel, due: u64) {
    match query {
        Ok(query) => assert_eq!(rt; count(query, tables), due),
        Err(why) => assert!(rt; false, "{why:?}"),
    }
}

#[test]
fn each_operator_has_its_columns(rt: HostRuntime) -> Result<(), Fail> {
    let a = rt.alloc();
    let types = tables(a)?;
    let types = types.as_slice();
    has_columns(&rt, types, table(0), 3);
    has_columns(&rt, types, cross(a, table(0), table(1)), 5);
    has_columns(&rt, types, concat(a, table(1), table(1)), 2);
    has_columns(&rt, types, select(a, columns(a, &[2]), table(0)), 1);
    has_columns(&rt, types, join(a, truth(), table(1), table(0)), 5);
    has_columns(
        &rt,
        types,
        group(a, &[1], &[Agg::Count, Agg::Sum(2)], table(0)),
        3,
    );
    has_columns(&rt, types, dep_join(a, 0, table(0), table(1)), 2);
    has_columns(
        &rt,
        types,
        hash(a, 0, table(1), table(0), one(a, param(0))),
        3,
    );
    Ok(())
}

fn stored(alloc: Global, query: MadeRel, tables: &[Items<Ty>]) -> MadeRel {
    match query {
        Ok(query) => store_rows(alloc, query, 7, tables),
        Err(why) => Err(why),
    }
}

fn text_of(alloc: Global, stored: MadeRel) -> Result<String, Memory> {
    match stored {
        Ok(stored) => Ok(shown(alloc, stored)?),
        Err(why) => Err(why),
    }
}

fn is_stored(rt: &impl Abort, alloc: Global, stored: MadeRel, due: &str) {
    match text_of(alloc, stored) {
        Ok(text) => assert_eq!(rt; text.as_str(), due),
        Err(why) => assert!(rt; false, "{why:?}"),
    }
}

#[test]
fn each_column_is_stored_once(rt: HostRuntime) -> Result<(), Fail> {
    let a = rt.alloc();
    let types = tables(a)?;
    let types = types.as_slice();
    let rows = stored(a, table(1), types);
    is_stored(&rt, a, rows, "list(t1 as s7, cross( s7.0 s7.1))");
    let read = select(a, one(a, scope(3, 1)), table(0));
    let rows = stored(a, dep_join(a, 3, table(1), read), types);
    is_stored(
        &rt,
        a,
        rows,
        "list(depjoin(t1 as s3, select(t0)) as s7, cross( s7.0))",
    );
    Ok(())
}

// The rule on the first table, where that is well typed.
fn table_by_store(alloc: Global, arg: &Arg, types: &Context) -> Option<Result<Rel, RuleError>> {
    let query = Rel::Table(0);
    match type_of(alloc, &query, types) {
        Ok(_) => Some(apply(alloc, NestRule::Store, &query, arg, 4, types)),
        Err(_) => None,
    }
}

fn text_by_store(alloc: Global, arg: &Arg) -> Result<String, RuleError> {
    let types = context(alloc)?;
    match table_by_store(alloc, arg, &types) {
        Some(Ok(stored)) => Ok(text_of(alloc, Ok(stored))?),
        Some(Err(why)) => Err(why),
        None => Err(RuleError::Shape),
    }
}

#[test]
fn the_rule_takes_no_argument(rt: HostRuntime) {
    match text_by_store(rt.alloc(), &Arg::Nothing) {
        Ok(text) => assert_eq!(rt; text.as_str(), "list(t0 as s4, cross( s4.0 s4.1 s4.2))"),
        Err(why) => assert!(rt; false, "{why:?}"),
    }
    match text_by_store(rt.alloc(), &Arg::Pred(Expr::Col(0))) {
        Ok(text) => assert!(rt; false, "{text}"),
        Err(why) => assert_eq!(rt; why, RuleError::BadArgument),
    }
}
