//! The line on the error output that tells why a query is refused.

ghost use Rattle.std.specs.Prelude.{◌≡◌};
ghost use Rattle.castor_base.specs.Causes.{Rose};
ghost use Rattle.castor_cli.specs.Puts.{Puts};
ghost use Rattle.castor_cli.specs.Status.{parse_line, query_line, schema_line};

use crate::status::QueryFault;
use crate::telling::{put_line, put_three};
use castor_base::{Failed, Sink};
use castor_parse::ParseError;
use castor_schema::SchemaError;
use itoa::Buffer;

// The line for names, numbers and types that don't fit.
fn schema_line(why: SchemaError) -> &'static [u8]
    ensures { result.now ≡ schema_line why }
{
    match why {
        SchemaError::UnknownTable => b"castor: query: unknown table\n",
        SchemaError::UnknownColumn => b"castor: query: unknown column\n",
        SchemaError::UnknownScope => b"castor: query: unknown scope\n",
        SchemaError::UnknownParam => b"castor: query: unknown parameter\n",
        SchemaError::Ambiguous => b"castor: query: ambiguous\n",
        SchemaError::DuplicateName => b"castor: query: duplicate name\n",
        SchemaError::TypeMismatch => b"castor: query: type mismatch\n",
        SchemaError::WrongCount => b"castor: query: wrong count\n",
        SchemaError::TooLarge => b"castor: query: too large\n",
        SchemaError::Memory => b"castor: memory\n",
    }
}

// Puts the line for a text that isn't parsed.
fn put_parse_line<E: Sink>(err: &mut E, why: ParseError) -> Result<(), Failed>
    ensures { Puts (E.given err.old) (E.given err.new) (Rose (E.faults err.old) (E.faults err.new)) (parse_line why) result }
{
    match why {
        ParseError::NotUtf8 => put_line(err, b"castor: query: not utf-8\n"),
        ParseError::Syntax { at } => {
            let mut number = Buffer::new();
            put_three(
                err,
                b"castor: query: syntax at ",
                number.format(at).as_bytes(),
                b"\n",
            )
        }
        ParseError::TooLarge => put_line(err, b"castor: query: too large\n"),
        ParseError::Memory => put_line(err, b"castor: memory\n"),
    }
}

/// Puts the line for a query that is refused, in pieces. Takes no memory.
pub fn put_query_line<E: Sink>(err: &mut E, why: QueryFault) -> Result<(), Failed>
    ensures { Puts (E.given err.old) (E.given err.new) (Rose (E.faults err.old) (E.faults err.new)) (query_line why) result }
{
    match why {
        QueryFault::Parse(why) => put_parse_line(err, why),
        QueryFault::Schema(why) => put_line(err, schema_line(why)),
    }
}
