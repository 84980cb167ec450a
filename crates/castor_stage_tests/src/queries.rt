//! The queries of the tests.

ghost use Rattle.std.specs.Prelude.{IfOk};
ghost use Rattle.castor_tree.specs.Formed.{IsFormed};

use crate::asked::Asked;
use castor_parse::{File, parse};
use castor_schema::{SchemaError, check};
use std::alloc::{AllocError, Global};
use std::process::Abort;
use std::test::Fail;

/// The declarations of the tables, and a parameter.
const KNOWN: &str =
    "table numbers (n int); table none (n int); table shares (n int); table pairs (a int, b int); table steps (a int, b int); table names (name text); param p int; query ";

/// A query over the known tables and the parameter.
fn over_known(alloc: Global, query: &str) -> Result<String, AllocError> {
    let mut text = String::from_str(alloc, KNOWN)?;
    text.push_str(query)?;
    Ok(text)
}

/// The file of a query over the known tables and the parameter.
fn known_file(alloc: Global, query: &str) -> Result<File, Fail>
    ensures formed { IfOk result IsFormed }
{
    let text = over_known(alloc, query)?;
    Ok(parse(alloc, text.as_bytes())?)
}

fn is_checked(alloc: Global, file: File, asked: Asked) -> Result<bool, SchemaError>
    requires formed { IsFormed file }
{
    match check(alloc, &file) {
        Ok(found) => Ok(asked.is_so(alloc, &found.query)),
        Err(why) => Err(why),
    }
}

fn is_so(alloc: Global, query: &str, asked: Asked) -> Result<bool, Fail> {
    let file = known_file(alloc, query)?;
    Ok(is_checked(alloc, file, asked)?)
}

/// Whether queries over the known tables and the parameter are what is asked of each.
pub fn are_so(rt: &impl Abort, alloc: Global, cases: &[(&str, Asked)]) -> Result<(), Fail> {
    for case in cases {
        let is_so = is_so(alloc, case.0, case.1)?;
        assert!(rt; is_so, "{}", case.0);
    }
    Ok(())
}

/// Whether queries over the known tables and the parameter all are what is asked.
pub fn are_all_so(
    rt: &impl Abort,
    alloc: Global,
    queries: &[&str],
    asked: Asked,
) -> Result<(), Fail> {
    for query in queries {
        let is_so = is_so(alloc, *query, asked)?;
        assert!(rt; is_so, "{query}");
    }
    Ok(())
}
