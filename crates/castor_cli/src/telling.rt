//! The line on the error output that tells of a status.

ghost use Rattle.std.specs.Prelude.{◌≡◌, ◌++◌, ◌<◌, [], ◌∷◌, map, string_bytes};
ghost use Rattle.std.specs.Io.KnownBytes.{Appends};
ghost use Rattle.castor_base.specs.Causes.{Rose};
ghost use Rattle.castor_base.specs.Moves.{AppendsPrefix};
ghost use Rattle.castor_val.specs.Limits.{most_count};
ghost use Rattle.castor_cli.specs.Commands.{command_of, image_name, word};
ghost use Rattle.castor_cli.specs.Puts.{Puts};
ghost use Rattle.castor_cli.specs.Status.{error_text, fault_end, in_a_row, place_name, table_line};

use crate::build_line::{put_build_line, put_script_line};
use crate::command::{Command, command_in};
use crate::query_line::put_query_line;
use crate::status::{Place, ReadFault, Status};
use castor_base::{Failed, Sink, put_all, put_pieces};
use castor_load::LoadError;
use itoa::Buffer;

const USAGE: &str =
    "castor: usage: answer QUERY SCRIPT, build QUERY SCRIPT IMAGE, ask IMAGE, show QUERY SCRIPT, code IMAGE, sample N\n";

// A word, and no bytes where there are fewer.
fn word(words: &[String], at: usize) -> &[u8]
    ensures { result.now ≡ word (map string_bytes words.now) at }
{
    match words.get(at) {
        Some(word) => word.as_bytes(),
        None => b"",
    }
}

// The name of the image among the words of a command.
fn image_word(words: &[String]) -> &[u8]
    ensures { result.now ≡ image_name (command_of (map string_bytes words.now)) (map string_bytes words.now) }
{
    match command_in(words) {
        Some(Command::Ask) => word(words, 1),
        _ => word(words, 3),
    }
}

// What a place is called: a name, and what stands behind it.
#[derive(Clone, Copy)]
struct PlaceName<'a> {
    name: &'a [u8],
    ending: &'a [u8],
}

fn place_name<'a>(words: &'a [String], table: &'a str, place: Place) -> PlaceName<'a>
    ensures { result.name.now ++ result.ending.now ≡ place_name (map string_bytes words.now) table.now place }
{
    let (name, ending): (&'a [u8], &'a [u8]) = match place {
        Place::Query => (word(words, 1), b""),
        Place::Script => (word(words, 2), b""),
        Place::Table(_) => (table.as_bytes(), b".csv"),
        Place::Image => (image_word(words), b""),
        Place::Input => (b"input", b""),
        Place::Output => (b"output", b""),
    };
    PlaceName { name, ending }
}

fn fault_end(fault: ReadFault) -> &'static [u8]
    ensures { result.now ≡ fault_end fault }
{
    match fault {
        ReadFault::Absent => b": absent\n",
        ReadFault::TooLong => b": too long\n",
        ReadFault::Failed => b": failed\n",
    }
}

/// Puts a line in one piece.
pub fn put_line<E: Sink>(err: &mut E, line: &[u8]) -> Result<(), Failed>
    ensures { Puts (E.given err.old) (E.given err.new) (Rose (E.faults err.old) (E.faults err.new)) line.now result }
{
    put_all(err, line)?;
    Ok(())
}

// Puts a line that names a place.
fn put_named<'a, E: Sink>(
    err: &mut E,
    start: &'a [u8],
    place: PlaceName<'a>,
    end: &'a [u8],
) -> Result<(), Failed>
    ensures { Puts (E.given err.old) (E.given err.new) (Rose (E.faults err.old) (E.faults err.new))
        (start.now ++ (place.entry.name.now ++ place.entry.ending.now) ++ end.now) result }
{
    put_pieces(err, &[start, place.name, place.ending, end])
}

/// Puts a line in three pieces.
pub fn put_three<'a, E: Sink>(
    err: &mut E,
    a: &'a [u8],
    b: &'a [u8],
    c: &'a [u8],
) -> Result<(), Failed>
    ensures { Puts (E.given err.old) (E.given err.new) (Rose (E.faults err.old) (E.faults err.new))
        (in_a_row (a.now ∷ b.now ∷ c.now ∷ [])) result }
{
    put_pieces(err, &[a, b, c])
}

// Puts a line that tells of a record of a table's file, and maybe of a field of it.
fn put_record<'a, E: Sink>(
    err: &mut E,
    start: &'a [u8],
    table: &'a [u8],
    middle: &'a [u8],
    number: &'a [u8],
    end: &'a [u8],
) -> Result<(), Failed>
    ensures { Puts (E.given err.old) (E.given err.new) (Rose (E.faults err.old) (E.faults err.new))
        (in_a_row (start.now ∷ table.now ∷ middle.now ∷ number.now ∷ end.now ∷ [])) result }
{
    put_pieces(err, &[start, table, middle, number, end])
}

// Puts a line that tells of a field of a record of a table's file.
fn put_field<'a, E: Sink>(
    err: &mut E,
    start: &'a [u8],
    table: &'a [u8],
    before_number: &'a [u8],
    number: &'a [u8],
    before_field: &'a [u8],
    field: &'a [u8],
    end: &'a [u8],
) -> Result<(), Failed>
    ensures { Puts (E.given err.old) (E.given err.new) (Rose (E.faults err.old) (E.faults err.new))
        (in_a_row (start.now ∷ table.now ∷ before_number.now ∷ number.now ∷ before_field.now ∷ field.now ∷ end.now ∷ [])) result }
{
    put_pieces(
        err,
        &[
            start,
            table,
            before_number,
            number,
            before_field,
            field,
            end,
        ],
    )
}

fn tell_table<E: Sink>(err: &mut E, table: &str, why: LoadError) -> Result<(), Failed>
    ensures { Puts (E.given err.old) (E.given err.new) (Rose (E.faults err.old) (E.faults err.new)) (table_line table.now why) result }
{
    let start = b"castor: table ";
    let table = table.as_bytes();
    match why {
        LoadError::BadHeader => put_three(err, start, table, b": header\n"),
        LoadError::BadRecord { number } => {
            let mut record = Buffer::new();
            put_record(
                err,
                start,
                table,
                b": record ",
                record.format(number).as_bytes(),
                b"\n",
            )
        }
        LoadError::BadField { number, column } => {
            let mut record = Buffer::new();
            let mut field = Buffer::new();
            put_field(
                err,
                start,
                table,
                b": record ",
                record.format(number).as_bytes(),
                b" field ",
                field.format(column).as_bytes(),
                b"\n",
            )
        }
        LoadError::Memory => put_line(err, b"castor: memory\n"),
    }
}

// Puts the line that tells of a status, if there is one.
fn put_status<'a, E: Sink>(
    err: &mut E,
    words: &'a [String],
    table: &'a str,
    status: Status,
) -> Result<(), Failed>
    ensures { Puts (E.given err.old) (E.given err.new) (Rose (E.faults err.old) (E.faults err.new))
        (error_text (map string_bytes words.now) table.now status) result }
{
    match status {
        Status::Ok => put_line(err, b""),
        Status::Usage => put_line(err, USAGE.as_bytes()),
        Status::Read(place, fault) => {
            let place = place_name(words, table, place);
            put_named(err, b"castor: read ", place, fault_end(fault))
        }
        Status::Write(place) => {
            let place = place_name(words, table, place);
            put_named(err, b"castor: write ", place, b": failed\n")
        }
        Status::Query(why) => put_query_line(err, why),
        Status::Script(why) => put_script_line(err, why),
        Status::Table(_, why) => tell_table(err, table, why),
        Status::Image => put_line(err, b"castor: image: not an image\n"),
        Status::Build(why) => put_build_line(err, why),
        Status::TooLong => put_line(err, b"castor: input: too long\n"),
        Status::Memory => put_line(err, b"castor: memory\n"),
        Status::NotYet => put_line(err, b"castor: not yet\n"),
    }
}

/// Tells of a status by one line in pieces, and by none for `Ok`. The table is the one that the
/// status may speak of. After a piece that fails nothing more is written. Takes no memory.
pub fn tell<'a, E: Sink>(err: &mut E, words: &'a [String], table: &'a str, status: Status)
    ensures prefix { AppendsPrefix (E.given err.old) (E.given err.new) (error_text (map string_bytes words.now) table.now status) }
    ensures whole { (E.faults err.new ≡ E.faults err.old) → E.faults err.old < most_count
        → Appends (E.given err.old) (E.given err.new) (error_text (map string_bytes words.now) table.now status) }
{
    let _ = put_status(err, words, table, status);
}
