//! The queries of the tests.

ghost use Rattle.std.specs.Prelude.{IfOk};
ghost use Rattle.castor_tree.specs.Formed.{IsFormed};

use castor_parse::{File, parse};
use std::alloc::{AllocError, Global};
use std::test::Fail;

/// The declarations of the tables, and a parameter of each type.
const KNOWN: &str =
    "table orders (id int, cust text, total int); table nothing (id int, cust text, total int); table ends (x int); table small (x int); table steps (a int, b int); table towns (name text, big bool); param c text; param p int; query ";

fn over_known(alloc: Global, query: &str) -> Result<String, AllocError> {
    let mut text = String::from_str(alloc, KNOWN)?;
    text.push_str(query)?;
    Ok(text)
}

/// The file of a query over the known tables and the parameters.
pub fn known_file(alloc: Global, query: &str) -> Result<File, Fail>
    ensures formed { IfOk result IsFormed }
{
    let text = over_known(alloc, query)?;
    Ok(parse(alloc, text.as_bytes())?)
}
