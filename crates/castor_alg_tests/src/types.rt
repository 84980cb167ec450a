//! Well typed and ill typed relations.

use crate::build::{
    MadeExpr, MadeRel, bin, choice, col, concat, cross, dedup, dep_join, excl, filter, group, hash,
    incl, int, join, list, not, one, ord, order, param, scalar, scope, select, table, text, truth,
    two,
};
use castor_alg::{Agg, Bound, Context, Expr, Key, Op, Rel, TypeError, copy, expr_type, type_of};
use castor_val::{Memory, Text, Ty, Value};
use sqlite_items::Items;
use std::alloc::Global;
use std::process::Abort;
use std::test::Fail;

// Tables of an int and a text, of a text, and of 33 bools; scope 1 of an int within one of a text; and
// the parameters of an int and a text.
fn context(alloc: Global) -> Result<Context, Memory> {
    let mut tables = Items::new(alloc);
    tables.push(Items::from_slice(alloc, &[Ty::Int, Ty::Text])?)?;
    tables.push(Items::from_slice(alloc, &[Ty::Text])?)?;
    tables.push(Items::from_slice(alloc, &[Ty::Bool; 33])?)?;
    let mut scopes = Items::new(alloc);
    scopes.push((1, Items::from_slice(alloc, &[Ty::Text])?))?;
    scopes.push((1, Items::from_slice(alloc, &[Ty::Int])?))?;
    let params = Items::from_slice(alloc, &[Ty::Int, Ty::Text])?;
    Ok(Context {
        tables,
        scopes,
        params,
    })
}

fn is_typed(rt: &impl Abort, alloc: Global, query: MadeRel, due: &[Ty]) {
    match types(alloc, query) {
        Ok(types) => assert_eq!(rt; types.as_slice(), due),
        Err(why) => assert!(rt; false, "{why:?}"),
    }
}

fn is_ill(rt: &impl Abort, alloc: Global, query: MadeRel) {
    match types(alloc, query) {
        Ok(types) => assert!(rt; false, "{types:?}"),
        Err(why) => assert_eq!(rt; why, TypeError::Ill),
    }
}

// The types of a copy, so that copies are compared too.
fn types(alloc: Global, query: MadeRel) -> Result<Vec<Ty>, TypeError> {
    let query = query?;
    let again = copy(alloc, &query)?;
    let context = context(alloc)?;
    type_of(alloc, &again, &context)
}

fn is_typed_scalar(rt: &impl Abort, alloc: Global, e: MadeExpr, due: Ty) {
    is_typed(rt, alloc, scalar(e), &[due]);
}

fn is_ill_scalar(rt: &impl Abort, alloc: Global, e: MadeExpr) {
    is_ill(rt, alloc, scalar(e));
}

#[test]
fn types_expressions(rt: HostRuntime) {
    let a = rt.alloc();
    is_typed_scalar(&rt, a, bin(a, int(1), Op::Add, scope(1, 0)), Ty::Int);
    is_typed_scalar(&rt, a, bin(a, text(a, "a"), Op::Lt, param(1)), Ty::Bool);
    is_typed_scalar(
        &rt,
        a,
        bin(a, truth(true), Op::And, not(a, truth(true))),
        Ty::Bool,
    );
    is_typed_scalar(&rt, a, choice(a, truth(true), int(1), param(0)), Ty::Int);
    is_ill_scalar(&rt, a, bin(a, int(1), Op::Add, param(1)));
    is_ill_scalar(&rt, a, bin(a, int(1), Op::Lt, param(1)));
    is_ill_scalar(&rt, a, bin(a, truth(true), Op::Or, int(1)));
    is_ill_scalar(&rt, a, not(a, int(1)));
    is_ill_scalar(&rt, a, choice(a, truth(true), int(1), param(1)));
    is_ill_scalar(&rt, a, choice(a, int(1), int(1), int(1)));
    is_ill_scalar(&rt, a, col(0));
    is_ill_scalar(&rt, a, scope(1, 1));
    is_ill_scalar(&rt, a, scope(2, 0));
    is_ill_scalar(&rt, a, param(2));
}

#[test]
fn types_tables_products_and_unions(rt: HostRuntime) {
    let a = rt.alloc();
    let same = bin(a, col(1), Op::Eq, col(2));
    is_typed(&rt, a, table(0), &[Ty::Int, Ty::Text]);
    is_typed(
        &rt,
        a,
        cross(a, table(1), table(0)),
        &[Ty::Text, Ty::Int, Ty::Text],
    );
    is_typed(
        &rt,
        a,
        join(a, same, table(0), table(1)),
        &[Ty::Int, Ty::Text, Ty::Text],
    );
    let texts = select(a, one(a, col(1)), table(0));
    is_typed(&rt, a, concat(a, table(1), texts), &[Ty::Text]);
    is_ill(&rt, a, table(3));
    is_ill(&rt, a, Ok(Rel::Cross(Items::new(a))));
    is_ill(&rt, a, cross(a, table(2), table(2)));
    is_ill(&rt, a, join(a, truth(true), table(2), table(2)));
    is_ill(&rt, a, join(a, col(0), table(0), table(1)));
    is_ill(&rt, a, concat(a, table(1), table(0)));
    is_ill(&rt, a, Ok(Rel::Concat(Items::new(a))));
}

#[test]
fn types_projections_and_groups(rt: HostRuntime) {
    let a = rt.alloc();
    let both = two(a, col(1), int(7));
    is_typed(&rt, a, select(a, both, table(0)), &[Ty::Text, Ty::Int]);
    is_typed(&rt, a, filter(a, truth(true), table(1)), &[Ty::Text]);
    let aggs = [Agg::Count, Agg::Max(1)];
    is_typed(
        &rt,
        a,
        group(a, &[1], &aggs, table(0)),
        &[Ty::Text, Ty::Int, Ty::Text],
    );
    is_typed(&rt, a, group(a, &[], &[Agg::Sum(0)], table(0)), &[Ty::Int]);
    is_typed(&rt, a, dedup(a, table(1)), &[Ty::Text]);
    is_ill(&rt, a, select(a, Ok(Items::new(a)), table(0)));
    is_ill(&rt, a, filter(a, col(0), table(0)));
    is_ill(&rt, a, group(a, &[], &[Agg::Sum(1)], table(0)));
    is_ill(&rt, a, group(a, &[2], &[], table(0)));
    is_ill(&rt, a, group(a, &[], &[], table(0)));
}

#[test]
fn types_sortings(rt: HostRuntime) {
    let a = rt.alloc();
    let key = Key { col: 1, desc: true };
    let missing = Key {
        col: 2,
        desc: false,
    };
    is_typed(&rt, a, order(a, &[key], table(0)), &[Ty::Int, Ty::Text]);
    is_ill(&rt, a, order(a, &[key, missing], table(0)));
    is_ill(&rt, a, order(a, &[], table(0)));
}

#[test]
fn types_binders(rt: HostRuntime) {
    let a = rt.alloc();
    is_typed(
        &rt,
        a,
        dep_join(a, 1, table(1), scalar(scope(1, 0))),
        &[Ty::Text],
    );
    is_typed(
        &rt,
        a,
        list(a, 2, table(1), scalar(scope(2, 0))),
        &[Ty::Text],
    );
    is_ill(&rt, a, list(a, 3, table(1), scalar(scope(2, 0))));
    is_ill(&rt, a, dep_join(a, 2, scalar(scope(2, 0)), table(1)));
    let keys = two(a, int(1), param(1));
    is_typed(
        &rt,
        a,
        hash(a, 2, table(0), scalar(scope(2, 1)), keys),
        &[Ty::Text],
    );
    is_ill(
        &rt,
        a,
        hash(a, 2, table(0), table(0), two(a, int(1), int(1))),
    );
    is_ill(&rt, a, hash(a, 2, table(0), table(0), one(a, int(1))));
    is_ill(&rt, a, hash(a, 2, table(1), table(0), one(a, scope(2, 0))));
    let body = scalar(scope(2, 0));
    is_typed(
        &rt,
        a,
        ord(a, 2, table(1), body, incl(param(1)), Ok(Bound::Any)),
        &[Ty::Text],
    );
    is_ill(
        &rt,
        a,
        ord(a, 2, table(1), table(1), Ok(Bound::Any), excl(int(1))),
    );
    is_ill(
        &rt,
        a,
        ord(a, 2, table(0), table(1), Ok(Bound::Any), Ok(Bound::Any)),
    );
}

#[test]
fn refuses_long_texts_and_contexts_beyond_limits(rt: HostRuntime) -> Result<(), Fail> {
    let mut long = String::new(rt.alloc());
    for _ in 0..65_535 {
        long.push('a')?;
    }
    let mut context = context(rt.alloc())?;
    let fits = Expr::Lit(Value::Text(Text::from_str(rt.alloc(), &long)?));
    assert_eq!(rt; expr_type(&fits, &[], &context), Some(Ty::Text));
    long.push('a')?;
    let too_long = Expr::Lit(Value::Text(Text::from_str(rt.alloc(), &long)?));
    assert_eq!(rt; expr_type(&too_long, &[], &context), None);
    context.tables.push(Items::new(rt.alloc()))?;
    assert_eq!(rt; expr_type(&fits, &[], &context), None);
    Ok(())
}
