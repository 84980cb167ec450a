//! The codes of queries: their ranges, and the shape of the data that is held.

ghost use Rattle.castor_tree.specs.Formed.{IsFormed};

use crate::printed::printed;
use crate::queries::known_file;
use crate::tables::{context, tables};
use castor_alg::{Held, Rel};
use castor_code::Code;
use castor_ltype::generate;
use castor_parse::File;
use castor_schema::{SchemaError, check};
use castor_stage::{HoldError, hold};
use castor_val::Memory;
use std::alloc::Global;
use std::process::Abort;
use std::test::Fail;

// What is held for a query over the known tables.
fn held(alloc: Global, query: &Rel) -> Result<Held, HoldError> {
    match tables(alloc) {
        Ok(tables) => hold(alloc, query, tables.as_slice()),
        Err(Memory) => Err(HoldError::Memory),
    }
}

fn code(alloc: Global, query: &Rel, held: Result<Held, HoldError>) -> Result<Code, Memory> {
    match held {
        Ok(held) => generate(alloc, query, &held, &context(alloc)?),
        Err(_) => Err(Memory),
    }
}

fn text_of(alloc: Global, code: Result<Code, Memory>) -> Result<String, Memory> {
    match code {
        Ok(code) => Ok(printed(alloc, code)?),
        Err(Memory) => Err(Memory),
    }
}

fn is_text(text: Result<String, Memory>, due: &str) -> bool {
    match text {
        Ok(text) => text.as_str() == due,
        Err(Memory) => false,
    }
}

fn code_text(alloc: Global, query: &Rel) -> Result<String, Memory> {
    text_of(alloc, code(alloc, query, held(alloc, query)))
}

fn checked_text(alloc: Global, file: File) -> Result<Result<String, Memory>, SchemaError>
    requires formed { IsFormed file }
{
    match check(alloc, &file) {
        Ok(found) => Ok(code_text(alloc, &found.query)),
        Err(why) => Err(why),
    }
}

// Whether this is the code of a query over the known tables and the parameters.
fn has_code(alloc: Global, query: &str, due: &str) -> Result<bool, Fail> {
    let file = known_file(alloc, query)?;
    Ok(is_text(checked_text(alloc, file)?, due))
}

#[test]
fn a_list_has_the_ranges_of_its_rows(rt: HostRuntime) -> Result<(), Fail> {
    let cases = [
        (
            "filter(cust = $c, list(orders as k, cross(scalar(k.0), scalar(k.1), scalar(k.2))))",
            "filter\n  list count 3..3 body 15..15\n    cross\n      int 1..3\n      text 3..3\n      int 5..30\n",
        ),
        // No row.
        (
            "filter(cust = $c, list(nothing as k, cross(scalar(k.0), scalar(k.1), scalar(k.2))))",
            "filter\n  list count 0..0 body 0..0\n    cross\n      int 0..0\n      text 0..0\n      int 0..0\n",
        ),
        (
            "list(small as k, cross(scalar(k.0)))",
            "list count 2..2 body 2..2\n  cross\n    int 7..9\n",
        ),
        // Both ends of the ints: fields of 8 bytes.
        (
            "list(ends as k, cross(scalar(k.0)))",
            "list count 2..2 body 16..16\n  cross\n    int -9223372036854775808..9223372036854775807\n",
        ),
        // The lengths of texts are those in bytes: `ø` has two. A field of 1 byte for each length.
        (
            "list(towns as k, cross(scalar(k.0), scalar(k.1)))",
            "list count 3..3 body 18..18\n  cross\n    text 3..5\n    bool\n",
        ),
    ];
    for case in cases.as_slice() {
        let is_so = has_code(rt.alloc(), case.0, case.1)?;
        assert!(rt; is_so, "{}", case.0);
    }
    Ok(())
}

#[test]
fn a_range_is_taken_over_all_that_stands_at_a_place(rt: HostRuntime) -> Result<(), Fail> {
    let cases = [
        // Lists of 2, 1 and 2 ints of one byte each.
        (
            "list(steps as k, list(select([b], filter(a = k.0, steps)) as j, scalar(j.0)))",
            "list count 3..3 body 11..11\n  list count 1..2 body 1..2\n    int 4..7\n",
        ),
        (
            "hash(select([cust], orders) as k, list(filter(cust = k.0, orders) as j, cross(scalar(j.0), scalar(j.1), scalar(j.2))), [$c])",
            "hash count 2..2 body 25..25\n  text 3..3\n  list count 1..2 body 5..10\n    cross\n      int 1..3\n      text 3..3\n      int 5..30\n",
        ),
        // An ordered index in a list in a hash index.
        (
            "hash(select([a], steps) as k, list(filter(a = k.0, steps) as j, ordered(select([b], filter(b = j.1, steps)) as i, scalar(i.0), any, any)), [$p])",
            "hash count 2..2 body 15..15\n  int 1..2\n  list count 1..2 body 3..6\n    ordered count 1..1 body 2..2\n      int 4..7\n      int 4..7\n",
        ),
        // The range of a key is that of the keys, whatever stands under them.
        (
            "ordered(select([b], steps) as k, scalar(k.0 * 1000), any, any)",
            "ordered count 3..3 body 9..9\n  int 4..7\n  int 4000..7000\n",
        ),
        // Nothing stands at one place, and much at the other.
        (
            "concat(list(select([id], nothing) as k, scalar(k.0)), list(small as k, scalar(k.0)))",
            "concat\n  list count 0..0 body 0..0\n    int 0..0\n  list count 2..2 body 2..2\n    int 7..9\n",
        ),
        (
            "hash(nothing as k, scalar(k.1), [1, 'x', 2])",
            "hash count 0..0 body 0..0\n  int 0..0\n  text 0..0\n  int 0..0\n  text 0..0\n",
        ),
    ];
    for case in cases.as_slice() {
        let is_so = has_code(rt.alloc(), case.0, case.1)?;
        assert!(rt; is_so, "{}", case.0);
    }
    Ok(())
}

#[test]
fn what_is_evaluated_for_a_question_stands_over_its_operands(rt: HostRuntime) -> Result<(), Fail> {
    let cases = [
        (
            "depjoin(list(small as k, scalar(k.0)) as d, filter(#0 < d.0, list(ends as j, scalar(j.0))))",
            "depjoin\n  list count 2..2 body 2..2\n    int 7..9\n  filter\n    list count 2..2 body 16..16\n      int -9223372036854775808..9223372036854775807\n",
        ),
        (
            "select([#0], groupby([#0], [count()], orderby([#0], dedup(list(small as k, scalar(k.0))))))",
            "select\n  groupby\n    orderby\n      dedup\n        list count 2..2 body 2..2\n          int 7..9\n",
        ),
    ];
    for case in cases.as_slice() {
        let is_so = has_code(rt.alloc(), case.0, case.1)?;
        assert!(rt; is_so, "{}", case.0);
    }
    Ok(())
}
