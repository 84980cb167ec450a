//! The query that a command is about.

ghost use Rattle.std.specs.Prelude.{◌≡◌, IfErr, IfOk};
ghost use Rattle.castor_cli.specs.Sound.{IsSound};
ghost use Rattle.castor_cli.specs.Query.{ReadsText, ReadsTree, Unparsed, is_unchecked, is_unparsed};
ghost use Rattle.castor_tree.specs.Formed.{IsFormed};
ghost use Rattle.castor_parse.specs.Parsed.{IsParsed};

use crate::status::{QueryFault, Status};
use castor_parse::{File, ParseError, parse};
use castor_schema::{Checked, SchemaError, check};
use std::alloc::Global;

// The status of a text that isn't parsed.
fn unparsed(why: ParseError) -> Status
    ensures { result ≡ is_unparsed why }
{
    match why {
        ParseError::Memory => Status::Memory,
        _ => Status::Query(QueryFault::Parse(why)),
    }
}

// The status of a file that is refused by its names, numbers or types.
fn unchecked(why: SchemaError) -> Status
    ensures { result ≡ is_unchecked why }
{
    match why {
        SchemaError::Memory => Status::Memory,
        _ => Status::Query(QueryFault::Schema(why)),
    }
}

// The tree of a text.
fn read_tree(alloc: Global, text: &[u8]) -> Result<File, Status>
    ensures ok { IfOk result (IsParsed text.now) }
    ensures formed { IfOk result IsFormed }
    ensures err { IfErr result (Unparsed text.now) }
{
    match parse(alloc, text) {
        Ok(file) => Ok(file),
        Err(why) => Err(unparsed(why)),
    }
}

// A tree is let go here, since it is slow to prove where it is let go beside another one.
fn let_go(_: File) {}

// What a tree says.
fn check_tree(alloc: Global, file: &File) -> Result<Checked, Status>
    requires { IsFormed file.now }
    ensures reads { ReadsTree file.now result }
    ensures sound { IfOk result IsSound }
{
    match check(alloc, file) {
        Ok(checked) => Ok(checked),
        Err(why) => Err(unchecked(why)),
    }
}

/// The checked query of a text, or the status of the first refusal: that it isn't parsed, or that
/// its names, numbers or types don't fit. Costs what parsing and checking do.
pub fn read_query(alloc: Global, text: &[u8]) -> Result<Checked, Status>
    ensures reads { ReadsText text.now result }
    ensures sound { IfOk result IsSound }
{
    match read_tree(alloc, text) {
        Ok(file) => {
            let checked = check_tree(alloc, &file);
            let_go(file);
            checked
        }
        Err(status) => Err(status),
    }
}
