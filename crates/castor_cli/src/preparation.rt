//! The image of a query, a script and tables, each read and checked in its order.

ghost use Rattle.std.specs.Prelude.{◌≡◌, ◌≤◌, ◌+◌, List, ℕ, [], IfOk, OnOk, length, string_bytes, true};
ghost use Rattle.castor_base.specs.Causes.{Rose};
ghost use Rattle.castor_base.specs.Files.{SameFiles};
ghost use Rattle.castor_load.specs.Rows.{table_of};
ghost use Rattle.castor_val.specs.Limits.{most_columns, most_tables};
ghost use Rattle.castor_val.specs.Values.{table_fits};
ghost use Rattle.castor_val.specs.Columns.{types_of};
ghost use Rattle.castor_cli.specs.Causes.{FitBehind, LoadsAll, LoadsOne, NamesTable, Prepares, PreparesRest, PreparesTables, ReadsFile, ReadsQuery, ReadsScript, items_of, nth_name, read_status};
ghost use Rattle.castor_cli.specs.Sound.{AreNarrow, IsSmall, IsSound, TablesFit};
ghost use Rattle.castor_cli.specs.Gives.{GivesStatus};
ghost use Rattle.castor_cli.specs.Preparation.{if_loaded};
ghost use Rattle.castor_cli.specs.Status.{table_file};

use crate::building::build;
use crate::query::read_query;
use crate::script::is_finish_script;
use crate::status::{Place, ReadFault, Status};
use castor_base::{Shelf, ShelfError};
use castor_load::{LoadError, load};
use castor_schema::{Checked, Declared};
use castor_val::{MAX_FILE_BYTES, MAX_SOURCE_BYTES, Memory, Table, Text};
use sqlite_items::Items;
use std::alloc::Global;

/// Why a command ended, and the name of the table that the status speaks of, if it is one's.
#[derive(Drop)]
pub struct Stop {
    pub status: Status,
    pub table: Text,
}

impl Stop {
    /// A stop that speaks of no table. Takes no memory.
    pub fn new(alloc: Global, status: Status) -> Stop
        ensures status { result.status ≡ status }
        ensures table { result.table ≡ [] }
    {
        Stop {
            status,
            table: Text::new(String::new(alloc)),
        }
    }

    /// A stop with the name of the table that its status speaks of, if it does. Takes no memory.
    pub fn about(alloc: Global, tables: Items<Declared>, status: Status) -> Stop
        ensures status { result.status ≡ status }
        ensures table { NamesTable 0 tables status result.table }
    {
        match status {
            Status::Read(Place::Table(number), _) => Stop {
                status,
                table: take_name(alloc, tables, number),
            },
            Status::Table(number, _) => Stop {
                status,
                table: take_name(alloc, tables, number),
            },
            _ => Stop::new(alloc, status),
        }
    }
}

// The name of a table of this number, and an empty one where there is none.
fn take_name(alloc: Global, mut tables: Items<Declared>, number: u32) -> Text
    ensures { result ≡ nth_name tables number }
{
    let at = number as usize;
    if at >= tables.len() {
        return Text::new(String::new(alloc));
    }
    let Declared { name, columns: _ } = tables.remove(at);
    name
}

// The status of a file that can't be read.
fn read_status(place: Place, error: ShelfError) -> Status
    ensures { result ≡ read_status place error }
{
    match error {
        ShelfError::Absent => Status::Read(place, ReadFault::Absent),
        ShelfError::TooLong => Status::Read(place, ReadFault::TooLong),
        ShelfError::Failed => Status::Read(place, ReadFault::Failed),
        ShelfError::Memory => Status::Memory,
    }
}

/// Reads a file of at most so many bytes, or says by a status why it can't be read. No file changes.
pub fn read_file<S: Shelf>(
    alloc: Global,
    shelf: &mut S,
    place: Place,
    name: &str,
    limit: u64,
) -> Result<Vec<u8>, Status>
    ensures same { SameFiles (S.files shelf.old) (S.files shelf.new) }
    ensures reads { (n : List ℕ) → S.read_faults shelf.old n ≤ S.read_faults shelf.new n }
    ensures writes { (n : List ℕ) → S.write_faults shelf.old n ≤ S.write_faults shelf.new n }
    ensures reading { ReadsFile (S.files shelf.old) (S.files shelf.new) (Rose (S.read_faults shelf.old name.now) (S.read_faults shelf.new name.now))
        place limit name.now (items_of result) }
{
    match shelf.read(alloc, name, limit) {
        Ok(bytes) => Ok(bytes),
        Err(error) => Err(read_status(place, error)),
    }
}

// The name of a table's file.
fn table_file(alloc: Global, table: &str) -> Result<String, Memory>
    ensures { IfOk result (λ name. string_bytes name ≡ table_file table.now) }
{
    let name = format!(in alloc; "{table}.csv")?;
    Ok(name)
}

// The rows of a table's file.
fn load_rows(alloc: Global, number: u32, declared: &Declared, bytes: &[u8]) -> Result<Table, Status>
    requires { length declared.now.columns ≤ most_columns }
    ensures exact { GivesStatus (λ t. t) (if_loaded number (table_of declared.now.columns bytes.now)) result }
    ensures fits { IfOk result (λ t. table_fits t (types_of declared.now.columns) ≡ true) }
{
    match load(alloc, declared.columns.as_slice(), bytes) {
        Ok(rows) => Ok(rows),
        Err(LoadError::Memory) => Err(Status::Memory),
        Err(why) => Err(Status::Table(number, why)),
    }
}

// Reads and loads the table of a declaration.
fn load_table<S: Shelf>(
    alloc: Global,
    shelf: &mut S,
    number: u32,
    declared: &Declared,
) -> Result<Table, Status>
    requires { length declared.now.columns ≤ most_columns }
    ensures same { SameFiles (S.files shelf.old) (S.files shelf.new) }
    ensures reads { (n : List ℕ) → S.read_faults shelf.old n ≤ S.read_faults shelf.new n }
    ensures writes { (n : List ℕ) → S.write_faults shelf.old n ≤ S.write_faults shelf.new n }
    ensures loads { LoadsOne (S.files shelf.old) (S.files shelf.new)
        (Rose (S.read_faults shelf.old (table_file declared.now.name)) (S.read_faults shelf.new (table_file declared.now.name)))
        number declared.now result }
    ensures fits { IfOk result (λ t. table_fits t (types_of declared.now.columns) ≡ true) }
{
    let Ok(file) = table_file(alloc, declared.name.as_str()) else {
        return Err(Status::Memory);
    };
    match read_file(
        alloc,
        shelf,
        Place::Table(number),
        file.as_str(),
        MAX_FILE_BYTES,
    ) {
        Ok(bytes) => load_rows(alloc, number, declared, &bytes),
        Err(status) => Err(status),
    }
}

// Reads and loads the tables of declarations, the first of which has this number, behind others.
fn load_tables<S: Shelf>(
    alloc: Global,
    shelf: &mut S,
    number: u32,
    declared: &[Declared],
    tables: &mut Items<Table>,
) -> Result<(), Status>
    requires room { number + length declared.now ≤ most_tables }
    requires narrow { AreNarrow declared.now }
    ensures same { SameFiles (S.files shelf.old) (S.files shelf.new) }
    ensures reads { (n : List ℕ) → S.read_faults shelf.old n ≤ S.read_faults shelf.new n }
    ensures writes { (n : List ℕ) → S.write_faults shelf.old n ≤ S.write_faults shelf.new n }
    ensures loads { LoadsAll (S.files shelf.old) (S.files shelf.new) (λ name. Rose (S.read_faults shelf.old name) (S.read_faults shelf.new name))
        number declared.now tables.old tables.new result }
    ensures fits { OnOk result (FitBehind declared.now tables.old tables.new) }
{
    match declared {
        [] => Ok(()),
        [first, rest @ ..] => match load_table(alloc, shelf, number, first) {
            Ok(table) => match tables.push(table) {
                Ok(()) => load_tables(alloc, shelf, number + 1, rest, tables),
                Err(_) => Err(Status::Memory),
            },
            Err(status) => Err(status),
        },
    }
}

// Reads the script and checks it.
fn read_steps<S: Shelf>(alloc: Global, shelf: &mut S, script: &str) -> Result<(), Status>
    ensures same { SameFiles (S.files shelf.old) (S.files shelf.new) }
    ensures reads { (n : List ℕ) → S.read_faults shelf.old n ≤ S.read_faults shelf.new n }
    ensures writes { (n : List ℕ) → S.write_faults shelf.old n ≤ S.write_faults shelf.new n }
    ensures reading { ReadsScript (S.files shelf.old) (S.files shelf.new)
        (Rose (S.read_faults shelf.old script.now) (S.read_faults shelf.new script.now)) script.now result }
{
    match read_file(alloc, shelf, Place::Script, script, MAX_SOURCE_BYTES) {
        Ok(text) => match is_finish_script(alloc, &text) {
            Ok(true) => Ok(()),
            Ok(false) => Err(Status::NotYet),
            Err(Memory) => Err(Status::Memory),
        },
        Err(status) => Err(status),
    }
}

// Reads the query and checks it.
fn read_checked<S: Shelf>(alloc: Global, shelf: &mut S, query: &str) -> Result<Checked, Status>
    ensures same { SameFiles (S.files shelf.old) (S.files shelf.new) }
    ensures reads { (n : List ℕ) → S.read_faults shelf.old n ≤ S.read_faults shelf.new n }
    ensures writes { (n : List ℕ) → S.write_faults shelf.old n ≤ S.write_faults shelf.new n }
    ensures reading { ReadsQuery (S.files shelf.old) (S.files shelf.new)
        (Rose (S.read_faults shelf.old query.now) (S.read_faults shelf.new query.now)) query.now result }
    ensures sound { IfOk result IsSound }
{
    match read_file(alloc, shelf, Place::Query, query, MAX_SOURCE_BYTES) {
        Ok(text) => read_query(alloc, &text),
        Err(status) => Err(status),
    }
}

// Reads the script and then the tables of a checked query.
fn prepare_tables<S: Shelf>(
    alloc: Global,
    shelf: &mut S,
    query: &str,
    script: &str,
    checked: &Checked,
) -> Result<Items<Table>, Status>
    requires { IsSmall checked.now }
    ensures same { SameFiles (S.files shelf.old) (S.files shelf.new) }
    ensures reads { (n : List ℕ) → S.read_faults shelf.old n ≤ S.read_faults shelf.new n }
    ensures writes { (n : List ℕ) → S.write_faults shelf.old n ≤ S.write_faults shelf.new n }
    ensures tables { PreparesTables (S.files shelf.old) (S.files shelf.new) (λ name. Rose (S.read_faults shelf.old name) (S.read_faults shelf.new name))
        query.now script.now checked.now result }
    ensures fit { IfOk result (TablesFit checked.now) }
{
    match read_steps(alloc, shelf, script) {
        Ok(()) => {
            let mut tables = Items::new(alloc);
            match load_tables(alloc, shelf, 0, checked.tables.as_slice(), &mut tables) {
                Ok(()) => Ok(tables),
                Err(status) => Err(status),
            }
        }
        Err(status) => Err(status),
    }
}

// Reads the script and then the tables of a checked query, and builds its image.
fn prepare_rest<S: Shelf>(
    alloc: Global,
    shelf: &mut S,
    query: &str,
    script: &str,
    checked: &Checked,
) -> Result<Vec<u8>, Status>
    requires { IsSound checked.now }
    ensures same { SameFiles (S.files shelf.old) (S.files shelf.new) }
    ensures reads { (n : List ℕ) → S.read_faults shelf.old n ≤ S.read_faults shelf.new n }
    ensures writes { (n : List ℕ) → S.write_faults shelf.old n ≤ S.write_faults shelf.new n }
    ensures rest { PreparesRest (S.files shelf.old) (S.files shelf.new) (λ name. Rose (S.read_faults shelf.old name) (S.read_faults shelf.new name))
        query.now script.now checked.now (items_of result) }
{
    match prepare_tables(alloc, shelf, query, script, checked) {
        Ok(tables) => build(alloc, checked, tables.as_slice()),
        Err(status) => Err(status),
    }
}

// The declared tables alone.
fn into_tables(checked: Checked) -> Items<Declared>
    ensures { result ≡ checked.tables }
{
    let Checked {
        tables,
        params,
        columns,
        query,
    } = checked;
    drop(params);
    drop(columns);
    drop(query);
    tables
}

/// Reads and checks the query, then the script, then reads and loads the tables, and then builds the image,
/// in this order.
///
/// The stop has the first refusal in that order, or `Memory`. No file changes. Linear in the bytes
/// that are read, and what building the image costs.
pub fn prepare<S: Shelf>(
    alloc: Global,
    shelf: &mut S,
    query: &str,
    script: &str,
) -> Result<Vec<u8>, Stop>
    ensures same { SameFiles (S.files shelf.old) (S.files shelf.new) }
    ensures reads { (n : List ℕ) → S.read_faults shelf.old n ≤ S.read_faults shelf.new n }
    ensures writes { (n : List ℕ) → S.write_faults shelf.old n ≤ S.write_faults shelf.new n }
    ensures prepares { Prepares (S.files shelf.old) (S.files shelf.new) (λ name. Rose (S.read_faults shelf.old name) (S.read_faults shelf.new name))
        query.now script.now result }
{
    match read_checked(alloc, shelf, query) {
        Ok(checked) => match prepare_rest(alloc, shelf, query, script, &checked) {
            Ok(image) => Ok(image),
            Err(status) => Err(Stop::about(alloc, into_tables(checked), status)),
        },
        Err(status) => Err(Stop::new(alloc, status)),
    }
}
