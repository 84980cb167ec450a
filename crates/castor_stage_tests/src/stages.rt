//! What is computed too early or too late: each cause from each kind of place.

use crate::asked::Asked;
use crate::queries::{are_all_so, are_so};
use castor_stage::StageError;
use std::test::Fail;

fn first(why: StageError) -> Asked {
    Asked::Staged(Err(why))
}

#[test]
fn what_stands_in_its_phase(rt: HostRuntime) -> Result<(), Fail> {
    let queries = [
        "list(numbers as k, scalar(k.0))",
        "depjoin(scalar(1) as j, filter(j.0 = $p, list(numbers as k, scalar(k.0))))",
        "list(join(true, numbers, depjoin(shares as j, scalar(j.0))) as k, scalar(k.0))",
        "hash(numbers as k, ordered(filter(n = k.0, shares) as j, scalar(j.0), any, <= $p), [$p])",
        "depjoin(scalar(1) as k, hash(numbers as j, scalar(j.0), [k.0]))",
    ];
    are_all_so(&rt, rt.alloc(), queries.as_slice(), Asked::Staged(Ok(())))
}

#[test]
fn tables_at_run(rt: HostRuntime) -> Result<(), Fail> {
    let queries = [
        "numbers",
        "cross(scalar(1), numbers)",
        "concat(scalar(1), numbers)",
        "select([1], numbers)",
        "filter(true, numbers)",
        "groupby([], [count()], orderby([n], dedup(numbers)))",
        "depjoin(scalar(1) as k, numbers)",
        "depjoin(numbers as k, scalar(1))",
        "list(numbers as k, numbers)",
        "hash(numbers as k, numbers, [1])",
        "ordered(numbers as k, numbers, any, <= 1)",
    ];
    are_all_so(
        &rt,
        rt.alloc(),
        queries.as_slice(),
        first(StageError::TableAtRun),
    )
}

#[test]
fn joins_at_run(rt: HostRuntime) -> Result<(), Fail> {
    let queries = [
        "join($p = 1, numbers, shares)",
        "cross(scalar(1), join(true, numbers, shares))",
        "concat(join(true, scalar(1), scalar(2)), pairs)",
        "select([1], join(true, scalar(1), scalar(2)))",
        "filter(true, join(true, scalar(1), scalar(2)))",
        "groupby([], [count()], orderby([#0], dedup(join(true, scalar(1), scalar(2)))))",
        "depjoin(join(true, scalar(1), scalar(2)) as k, scalar(1))",
        "depjoin(scalar(1) as k, join(true, scalar(1), scalar(2)))",
        "list(numbers as k, join(true, scalar(1), scalar(2)))",
        "hash(numbers as k, join(true, scalar(1), scalar(2)), [1])",
        "ordered(numbers as k, join(true, scalar(1), scalar(2)), any, <= 1)",
    ];
    are_all_so(
        &rt,
        rt.alloc(),
        queries.as_slice(),
        first(StageError::JoinAtRun),
    )
}

#[test]
fn parameters_at_build(rt: HostRuntime) -> Result<(), Fail> {
    let queries = [
        "scalar($p)",
        "scalar(1 + $p)",
        "scalar(not ($p = 1))",
        "scalar(if($p = 1, 1, 2))",
        "scalar(if(true, 1, $p))",
        "list(numbers as k, scalar(k.0 - $p))",
        "list(depjoin(numbers as j, scalar($p)) as k, scalar(1))",
        "list(filter($p = 1, numbers) as k, scalar(1))",
        "hash(select([$p], numbers) as k, scalar(1), [1])",
        "ordered(select([n], join($p = 1, numbers, pairs)) as k, scalar(1), any, <= 1)",
        "list(hash(numbers as j, scalar(1), [$p]) as k, scalar(1))",
        "list(ordered(numbers as j, scalar(1), >= $p, any) as k, scalar(1))",
        "list(ordered(numbers as j, scalar(1), any, < $p) as k, scalar(1))",
    ];
    are_all_so(
        &rt,
        rt.alloc(),
        queries.as_slice(),
        first(StageError::ParamAtBuild),
    )
}

#[test]
fn scopes_of_run_at_build(rt: HostRuntime) -> Result<(), Fail> {
    let queries = [
        "depjoin(scalar(1) as k, scalar(k.0))",
        "depjoin(scalar(1) as k, list(numbers as j, scalar(j.0 + k.0)))",
        "depjoin(scalar(1) as k, list(filter(n = k.0, numbers) as j, scalar(1)))",
        "depjoin(scalar(1) as k, hash(select([k.0], numbers) as j, scalar(1), [1]))",
        "depjoin(scalar(1) as k, ordered(select([n], join(n = k.0, numbers, pairs)) as j, scalar(1), any, any))",
        "depjoin(scalar(1) as k, list(hash(numbers as j, scalar(1), [k.0]) as i, scalar(1)))",
        "depjoin(scalar(1) as k, list(ordered(numbers as j, scalar(1), >= k.0, any) as i, scalar(1)))",
        "depjoin(scalar(1) as k, list(ordered(numbers as j, scalar(1), any, < k.0) as i, scalar(1)))",
    ];
    are_all_so(
        &rt,
        rt.alloc(),
        queries.as_slice(),
        first(StageError::RunScopeAtBuild),
    )
}

#[test]
fn scopes_of_build_at_run(rt: HostRuntime) -> Result<(), Fail> {
    let queries = [
        "list(numbers as k, filter(k.0 = 1, scalar(1)))",
        "list(numbers as k, select([k.0], scalar(1)))",
        "list(numbers as k, depjoin(scalar(1) as j, filter(j.0 = k.0, scalar(1))))",
        "hash(numbers as k, filter(k.0 = 1, scalar(1)), [1])",
        "ordered(numbers as k, filter(k.0 = 1, scalar(1)), any, any)",
        "list(numbers as k, hash(numbers as j, scalar(1), [k.0]))",
        "list(numbers as k, ordered(numbers as j, scalar(1), >= k.0, any))",
        "list(numbers as k, ordered(numbers as j, scalar(1), any, < k.0))",
    ];
    are_all_so(
        &rt,
        rt.alloc(),
        queries.as_slice(),
        first(StageError::BuildScopeAtRun),
    )
}

#[test]
fn the_first_of_two_causes(rt: HostRuntime) -> Result<(), Fail> {
    let cases = [
        // Operands and sides from the left.
        (
            "cross(scalar($p), numbers)",
            first(StageError::ParamAtBuild),
        ),
        ("cross(numbers, scalar($p))", first(StageError::TableAtRun)),
        (
            "depjoin(scalar(1) as k, scalar(k.0 + $p))",
            first(StageError::RunScopeAtBuild),
        ),
        (
            "depjoin(scalar(1) as k, scalar($p + k.0))",
            first(StageError::ParamAtBuild),
        ),
        // A relation before its expressions, and these before its operands.
        (
            "list(numbers as k, join(k.0 = 1, numbers, shares))",
            first(StageError::JoinAtRun),
        ),
        (
            "list(numbers as k, filter(k.0 = 1, numbers))",
            first(StageError::BuildScopeAtRun),
        ),
        (
            "list(numbers as k, select([$p, k.0], numbers))",
            first(StageError::BuildScopeAtRun),
        ),
        (
            "list(numbers as k, hash(filter($p = 1, numbers) as j, numbers, [k.0]))",
            first(StageError::BuildScopeAtRun),
        ),
        (
            "list(numbers as k, ordered(filter($p = 1, numbers) as j, numbers, any, < k.0))",
            first(StageError::BuildScopeAtRun),
        ),
        // A source before a body.
        (
            "list(filter($p = 1, numbers) as k, numbers)",
            first(StageError::ParamAtBuild),
        ),
        (
            "hash(filter($p = 1, numbers) as k, numbers, [1])",
            first(StageError::ParamAtBuild),
        ),
    ];
    are_so(&rt, rt.alloc(), cases.as_slice())
}
