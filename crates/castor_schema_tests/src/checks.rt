//! What is checked in the tests.

ghost use Rattle.castor_tree.specs.Formed.{IsFormed};

use castor_parse::{File, ParseError, parse};
use castor_schema::{SchemaError, check};
use std::alloc::{AllocError, Global};
use std::test::Fail;

/// Two tables that share the name of a column, and two parameters.
pub const KNOWN: &str =
    "table orders (id int, cust text, total int); table pairs (id int, name text); param c text; param n int; ";

/// A query over the known tables and parameters.
pub fn over_known(alloc: Global, query: &str) -> Result<String, AllocError> {
    let mut text = String::from_str(alloc, KNOWN)?;
    text.push_str("query ")?;
    text.push_str(query)?;
    Ok(text)
}

/// Why a file is refused, and None where it isn't.
pub fn refusal_of(alloc: Global, file: File) -> Option<SchemaError>
    requires formed { IsFormed file }
{
    match check(alloc, &file) {
        Ok(_) => None,
        Err(why) => Some(why),
    }
}

/// Why a text is refused, and None where it isn't.
pub fn refusal(alloc: Global, text: &str) -> Result<Option<SchemaError>, ParseError> {
    match parse(alloc, text.as_bytes()) {
        Ok(file) => Ok(refusal_of(alloc, file)),
        Err(why) => Err(why),
    }
}

/// Why a query over the known tables and parameters is refused, and None where it isn't.
pub fn known_refusal(alloc: Global, query: &str) -> Result<Option<SchemaError>, Fail> {
    let text = over_known(alloc, query)?;
    Ok(refusal(alloc, text.as_str())?)
}
