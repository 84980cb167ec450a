//! Small queries, finished.

use crate::build::{
    MadeRel, col, columns, concat, cross, dedup, dep_join, equal, falling, filter, group, hash,
    int, join, list, one, order, ordered_from, param, scalar, scope, select, table, truth, values,
};
use crate::shown::shown;
use crate::types::context;
use castor_alg::{Agg, Context, Rel, type_of};
use castor_script::{StepError, finish};
use std::alloc::Global;
use std::process::Abort;
use std::test::Fail;

fn finish_typed(alloc: Global, query: Rel, types: &Context) -> Option<Result<Rel, StepError>> {
    match type_of(alloc, &query, types) {
        Ok(_) => Some(finish(alloc, query, types)),
        Err(_) => None,
    }
}

fn text_of(alloc: Global, finished: Rel) -> Result<String, StepError> {
    Ok(shown(alloc, finished)?)
}

// The shape of the finished query, where the query is well typed.
fn finished_text(alloc: Global, query: Rel, types: &Context) -> Option<Result<String, StepError>> {
    match finish_typed(alloc, query, types) {
        Some(Ok(finished)) => Some(text_of(alloc, finished)),
        Some(Err(why)) => Some(Err(why)),
        None => None,
    }
}

// The same of a query that was made.
fn made_text(alloc: Global, query: MadeRel, types: &Context) -> Option<Result<String, StepError>> {
    match query {
        Ok(query) => finished_text(alloc, query, types),
        Err(_) => Some(Err(StepError::Memory)),
    }
}

fn is_finished(rt: &impl Abort, alloc: Global, types: &Context, query: MadeRel, due: &str) {
    match made_text(alloc, query, types) {
        Some(Ok(text)) => assert_eq!(rt; text.as_str(), due),
        Some(Err(why)) => assert!(rt; false, "{why:?}"),
        None => assert!(rt; false, "ill typed"),
    }
}

fn is_too_large(rt: &impl Abort, alloc: Global, types: &Context, query: MadeRel, due: bool) {
    match made_text(alloc, query, types) {
        Some(Ok(text)) => assert!(rt; !due, "{text}"),
        Some(Err(why)) => assert!(rt; due && why == StepError::TooLarge, "{why:?}"),
        None => assert!(rt; false, "ill typed"),
    }
}

// The first table's rows of the customer that is asked for.
fn asked(a: Global) -> MadeRel {
    filter(a, equal(a, col(1), param(0)), table(0))
}

// The second table's rows whose name is a column of a scope.
fn named(a: Global, k: u32, at: u32) -> MadeRel {
    filter(a, equal(a, col(0), scope(k, at)), table(1))
}

#[test]
fn what_waits_for_no_question_is_stored(rt: HostRuntime) -> Result<(), Fail> {
    let a = rt.alloc();
    let types = context(a)?;
    is_finished(
        &rt,
        a,
        &types,
        table(0),
        "list(t0 as s0, cross( s0.0 s0.1 s0.2))",
    );
    is_finished(
        &rt,
        a,
        &types,
        filter(a, truth(), join(a, truth(), table(1), table(1))),
        "list(filter(join(t1, t1)) as s0, cross( s0.0 s0.1 s0.2 s0.3))",
    );
    // The scope of a dependent join isn't free in it.
    is_finished(
        &rt,
        a,
        &types,
        dep_join(a, 0, table(0), named(a, 0, 1)),
        "list(depjoin(t0 as s0, filter(t1)) as s1, cross( s1.0 s1.1))",
    );
    Ok(())
}

#[test]
fn what_waits_stays_over_what_is_stored(rt: HostRuntime) -> Result<(), Fail> {
    let a = rt.alloc();
    let types = context(a)?;
    is_finished(
        &rt,
        a,
        &types,
        asked(a),
        "filter(list(t0 as s0, cross( s0.0 s0.1 s0.2)))",
    );
    is_finished(
        &rt,
        a,
        &types,
        order(
            a,
            &[falling(0)],
            dedup(a, group(a, &[], &[Agg::Min(2)], asked(a))),
        ),
        "orderby(dedup(groupby(filter(list(t0 as s0, cross( s0.0 s0.1 s0.2))))))",
    );
    is_finished(
        &rt,
        a,
        &types,
        select(a, one(a, param(1)), table(1)),
        "select(list(t1 as s0, cross( s0.0 s0.1)))",
    );
    is_finished(
        &rt,
        a,
        &types,
        join(a, equal(a, col(0), param(0)), table(1), table(1)),
        "join(list(t1 as s0, cross( s0.0 s0.1)), list(t1 as s1, cross( s1.0 s1.1)))",
    );
    // A row of a run scope comes with the question.
    is_finished(
        &rt,
        a,
        &types,
        dep_join(a, 0, asked(a), named(a, 0, 1)),
        "depjoin(filter(list(t0 as s1, cross( s1.0 s1.1 s1.2))) as s0, filter(list(t1 as s2, cross( s2.0 s2.1))))",
    );
    Ok(())
}

#[test]
fn layouts_stay_and_their_sources_are_not_stored(rt: HostRuntime) -> Result<(), Fail> {
    let a = rt.alloc();
    let types = context(a)?;
    is_finished(
        &rt,
        a,
        &types,
        list(a, 0, table(0), scalar(scope(0, 2))),
        "list(t0 as s0, s0.2)",
    );
    is_finished(
        &rt,
        a,
        &types,
        cross(a, table(1), concat(a, scalar(int(1)), scalar(int(2)))),
        "cross( list(t1 as s0, cross( s0.0 s0.1)) concat( value value))",
    );
    is_finished(
        &rt,
        a,
        &types,
        hash(
            a,
            0,
            select(a, columns(a, &[1]), table(0)),
            named(a, 0, 0),
            one(a, param(0)),
        ),
        "hash(select(t0) as s0, list(filter(t1) as s1, cross( s1.0 s1.1)))",
    );
    is_finished(
        &rt,
        a,
        &types,
        ordered_from(
            a,
            0,
            select(a, columns(a, &[2]), table(0)),
            asked(a),
            param(1),
        ),
        "ordered(select(t0) as s0, filter(list(t0 as s1, cross( s1.0 s1.1 s1.2))))",
    );
    // The scope of a layout is known before the question, also where its number is that of a run scope.
    is_finished(
        &rt,
        a,
        &types,
        dep_join(a, 0, asked(a), list(a, 0, table(1), named(a, 0, 0))),
        "depjoin(filter(list(t0 as s1, cross( s1.0 s1.1 s1.2))) as s0, list(t1 as s0, list(filter(t1) as s2, cross( s2.0 s2.1))))",
    );
    is_finished(
        &rt,
        a,
        &types,
        dep_join(a, 0, asked(a), list(a, 1, table(1), named(a, 0, 1))),
        "depjoin(filter(list(t0 as s2, cross( s2.0 s2.1 s2.2))) as s0, list(t1 as s1, filter(list(t1 as s3, cross( s3.0 s3.1)))))",
    );
    Ok(())
}

// What stores two tables besides a scope with this number.
fn numbered(a: Global, k: u32) -> MadeRel {
    dep_join(
        a,
        k,
        table(1),
        filter(a, equal(a, col(0), param(0)), table(1)),
    )
}

#[test]
fn new_scopes_have_numbers_of_32_bits(rt: HostRuntime) -> Result<(), Fail> {
    let a = rt.alloc();
    let types = context(a)?;
    is_finished(
        &rt,
        a,
        &types,
        numbered(a, 4_294_967_293),
        "depjoin(list(t1 as s4294967294, cross( s4294967294.0 s4294967294.1)) as s4294967293, filter(list(t1 as s4294967295, cross( s4294967295.0 s4294967295.1))))",
    );
    is_too_large(&rt, a, &types, numbered(a, 4_294_967_294), true);
    is_too_large(&rt, a, &types, numbered(a, 4_294_967_295), true);
    // Also where no new scope is needed.
    is_too_large(
        &rt,
        a,
        &types,
        list(a, 4_294_967_295, table(1), scalar(int(1))),
        true,
    );
    Ok(())
}

// So many filters over a table.
fn filters(a: Global, count: u32) -> MadeRel {
    let mut query = table(1);
    for _ in 0..count {
        query = filter(a, truth(), query);
    }
    query
}

#[test]
fn a_finished_query_has_4096_nodes_and_a_depth_of_64(rt: HostRuntime) -> Result<(), Fail> {
    let a = rt.alloc();
    let types = context(a)?;
    // Two nodes for each value, and six more: the list, the `dedup`, the `concat`, and the body.
    is_too_large(&rt, a, &types, dedup(a, values(a, 2_045)), false);
    is_too_large(&rt, a, &types, dedup(a, values(a, 2_046)), true);
    is_too_large(&rt, a, &types, filters(a, 62), false);
    is_too_large(&rt, a, &types, filters(a, 63), true);
    Ok(())
}
