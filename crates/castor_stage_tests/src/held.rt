//! What is held: each operator over small tables, and faults.

use crate::asked::Asked;
use crate::queries::are_so;
use castor_val::Faults;
use std::test::Fail;

#[test]
fn each_operator_holds_its_shape(rt: HostRuntime) -> Result<(), Fail> {
    let cases = [
        ("scalar(7)", Asked::Holds("7")),
        ("cross(scalar(1), scalar(2))", Asked::Holds("( 1 2)")),
        ("concat(scalar(1), scalar(2))", Asked::Holds("( 1 2)")),
        (
            "depjoin(scalar(1) as k, filter(k.0 = 1, scalar(2)))",
            Asked::Holds("( 1 <2>)"),
        ),
        (
            "select([$p], filter($p = 1, scalar(1)))",
            Asked::Holds("<<1>>"),
        ),
        (
            "groupby([], [count()], orderby([c0], dedup(scalar(1))))",
            Asked::Holds("<<<1>>>"),
        ),
        ("list(numbers as k, scalar(k.0))", Asked::Holds("[ 3 1 3]")),
        ("list(none as k, scalar(k.0))", Asked::Holds("[]")),
        (
            "concat(list(numbers as k, scalar(k.0)), scalar(9))",
            Asked::Holds("( [ 3 1 3] 9)"),
        ),
        // A table and a join at run.
        ("numbers", Asked::Holds("()")),
        ("join(true, numbers, shares)", Asked::Holds("()")),
    ];
    are_so(&rt, rt.alloc(), cases.as_slice())
}

#[test]
fn an_index_holds_each_key_once_and_ascending(rt: HostRuntime) -> Result<(), Fail> {
    let cases = [
        (
            "hash(pairs as k, scalar(k.0), [$p, 1])",
            Asked::Holds("{ 1,1:1 1,2:1 3,1:3}"),
        ),
        (
            "ordered(select([a], pairs) as k, scalar(k.0), any, <= $p)",
            Asked::Holds("{ 1:1 3:3}"),
        ),
        (
            "hash(names as k, scalar(k.0), ['x'])",
            Asked::Holds("{ ann:ann bob:bob}"),
        ),
        ("hash(none as k, scalar(k.0), [1])", Asked::Holds("{}")),
        // In one another.
        (
            "hash(select([a], steps) as k, ordered(select([b], filter(a = k.0, steps)) as j, scalar(j.0), any, any), [$p])",
            Asked::Holds("{ 1:{ 7:7} 2:{ 4:4 5:5}}"),
        ),
        (
            "list(steps as k, list(select([b], filter(a = k.0, steps)) as j, scalar(j.0)))",
            Asked::Holds("[ [ 5 4] [ 7] [ 5 4]]"),
        ),
    ];
    are_so(&rt, rt.alloc(), cases.as_slice())
}

#[test]
fn what_is_not_met_does_not_fault(rt: HostRuntime) -> Result<(), Fail> {
    let cases = [
        (
            "list(filter(n > 0, shares) as k, scalar(6 / k.0))",
            Asked::Holds("[ 3]"),
        ),
        ("list(none as k, scalar(1 / 0))", Asked::Holds("[]")),
        // What is computed at run.
        ("filter(1 / 0 = 1, scalar(1))", Asked::Holds("<1>")),
    ];
    are_so(&rt, rt.alloc(), cases.as_slice())
}

#[test]
fn the_faults_of_all_sources_and_scalars_are_joined(rt: HostRuntime) -> Result<(), Fail> {
    let overflow = Asked::Faults(Faults::OVERFLOW);
    let division = Asked::Faults(Faults::DIVISION);
    let both = Asked::Faults(Faults::OVERFLOW.union(Faults::DIVISION));
    let cases = [
        // The row that faults is dropped, and its fault counts: the one row that is left is 3.
        (
            "list(select([6 / n], shares) as k, scalar(if(k.0 = 3, 1, 9223372036854775807 + 1)))",
            division,
        ),
        (
            "hash(select([6 / n], shares) as k, scalar(k.0), [1])",
            division,
        ),
        ("scalar(9223372036854775807 + 1)", overflow),
        ("list(shares as k, scalar(6 / k.0))", division),
        ("ordered(shares as k, scalar(6 / k.0), any, any)", division),
        // A scalar beside a source.
        (
            "cross(scalar(9223372036854775807 + 1), hash(select([6 / n], shares) as k, scalar(k.0), [1]))",
            both,
        ),
        (
            "cross(list(select([9223372036854775807 + n], shares) as k, scalar(k.0)), scalar(1 / 0))",
            both,
        ),
    ];
    are_so(&rt, rt.alloc(), cases.as_slice())
}
