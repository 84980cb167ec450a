//! `answer` and `ask` against a plain evaluator of the query and a plain reader of its image, over generated queries.

ghost use Rattle.castor_tree.specs.Formed.{IsFormed};

use crate::plain_replies::{push_record, push_reply};
use crate::queries::{OPERATORS, Operator, query};
use crate::world::{ANSWER, ASK, BUILD, World, run_over};
use castor_base::MemoryShelf;
use castor_cli::Status;
use castor_image::{Image, open_image};
use castor_parse::{File, parse};
use castor_plain::{Given, Random, plain, plain_layout};
use castor_schema::{Checked, check};
use castor_val::{Cell, Memory, Row, Table};
use std::alloc::{AllocError, Global};
use std::test::Fail;

// The two lines of each run, and their values.
const INPUT: &str = "0,1\n2,-1\n";

const LINES: [[i64; 2]; 2] = [[0, 1], [2, -1]];

fn table_text(alloc: Global, rows: &[[i64; 2]]) -> Result<String, AllocError> {
    let mut text = String::from_str(alloc, "id,n\n")?;
    for [a, b] in rows {
        push_record(alloc, &mut text, *a, *b)?;
    }
    Ok(text)
}

fn row(alloc: Global, values: [i64; 2]) -> Result<Row, Memory> {
    let [a, b] = values;
    let mut row = Row::new(alloc);
    row.push(Cell::Int(a).to_value(alloc)?)?;
    row.push(Cell::Int(b).to_value(alloc)?)?;
    Ok(row)
}

fn tables(alloc: Global, rows: &[[i64; 2]]) -> Result<Vec<Table>, Memory> {
    let mut table = Table::new(alloc);
    for values in rows {
        table.push(row(alloc, *values)?)?;
    }
    let mut tables = Vec::new(alloc);
    tables.push(table)?;
    Ok(tables)
}

fn value(random: &mut Random) -> i64 {
    match random.below(9) {
        0 => i64::MAX,
        1 => -1,
        2 | 3 => 0,
        4 | 5 => 2,
        _ => 1,
    }
}

// At most four rows, of values that often repeat.
fn rows(alloc: Global, random: &mut Random) -> Result<Vec<[i64; 2]>, AllocError> {
    let mut rows = Vec::new(alloc);
    for _ in 0..random.below(5) {
        let a = value(random);
        let b = value(random);
        rows.push([a, b])?;
    }
    Ok(rows)
}

// The reply that is due to a line.
fn push_due(
    alloc: Global,
    text: &mut String,
    checked: &Checked,
    tables: &[Table],
    line: [i64; 2],
) -> Result<(), Memory> {
    let [a, b] = line;
    let params = [Cell::Int(a), Cell::Int(b)];
    let given = Given {
        alloc,
        tables,
        scopes: &[],
        params: &params,
    };
    let plain = plain(&checked.query, given)?;
    push_reply(alloc, text, checked.columns.as_slice(), &plain)?;
    Ok(())
}

fn due_of_checked(alloc: Global, checked: &Checked, tables: &[Table]) -> Result<String, Memory> {
    let mut text = String::new(alloc);
    for line in LINES {
        push_due(alloc, &mut text, checked, tables, line)?;
    }
    Ok(text)
}

// The replies that are due for a file, and None where it isn't accepted or there is no memory.
fn due_of_file(alloc: Global, file: File, tables: &[Table]) -> Option<String>
    requires formed { IsFormed file }
{
    match check(alloc, &file) {
        Ok(checked) => due_of_checked(alloc, &checked, tables).ok(),
        Err(_) => None,
    }
}

fn due(alloc: Global, query: &str, tables: &[Table]) -> Option<String> {
    match parse(alloc, query.as_bytes()) {
        Ok(file) => due_of_file(alloc, file, tables),
        Err(_) => None,
    }
}

/// What a generated query came to.
#[derive(Clone, Copy, PartialEq, Eq)]
enum Outcome {
    Agrees,
    Differs,
    /// Its final query was refused.
    Refused,
}

fn is_due(output: &[u8], due: Option<String>) -> Outcome {
    match due {
        Some(text) if text.as_bytes() == output => Outcome::Agrees,
        _ => Outcome::Differs,
    }
}

// Adds what the plain reader finds in an image for a line.
fn push_read(
    alloc: Global,
    text: &mut String,
    image: &Image<'_>,
    line: [i64; 2],
) -> Result<(), Memory> {
    let [a, b] = line;
    let params = [Cell::Int(a), Cell::Int(b)];
    let given = Given {
        alloc,
        tables: &[],
        scopes: &[],
        params: &params,
    };
    let plain = plain_layout(image.code(), image.decoded(), given)?;
    push_reply(alloc, text, image.head().columns.as_slice(), &plain)?;
    Ok(())
}

fn read_of_image(alloc: Global, image: &Image<'_>) -> Result<String, Memory> {
    let mut text = String::new(alloc);
    for line in LINES {
        push_read(alloc, &mut text, image, line)?;
    }
    Ok(text)
}

// What the plain reader finds in an image, and None where it is none or there is no memory.
fn read(alloc: Global, bytes: &[u8]) -> Option<String> {
    match open_image(alloc, bytes) {
        Ok(image) => read_of_image(alloc, &image).ok(),
        Err(_) => None,
    }
}

// Whether `ask` prints what `answer` did, and the plain reader finds it too.
fn compared_images(
    alloc: Global,
    shelf: &mut MemoryShelf,
    world: &World<'_>,
    answered: &[u8],
) -> Result<Outcome, Fail> {
    run_over(alloc, &BUILD, shelf, world)?;
    let asked = run_over(alloc, &ASK, shelf, world)?;
    if asked.output.as_slice() != answered {
        return Ok(Outcome::Differs);
    }
    match shelf.file("q1.image") {
        Some(bytes) => Ok(is_due(answered, read(alloc, bytes))),
        None => Ok(Outcome::Differs),
    }
}

fn compared(alloc: Global, query: &str, rows: &[[i64; 2]]) -> Result<Outcome, Fail> {
    let table = table_text(alloc, rows)?;
    let world = World::of(query, table.as_str(), INPUT);
    let mut shelf = world.shelf(alloc)?;
    let ran = run_over(alloc, &ANSWER, &mut shelf, &world)?;
    match ran.status {
        Status::Ok => {
            let tables = tables(alloc, rows)?;
            match is_due(ran.output.as_slice(), due(alloc, query, tables.as_slice())) {
                Outcome::Agrees => compared_images(alloc, &mut shelf, &world, &ran.output),
                other => Ok(other),
            }
        }
        Status::Build(_) => Ok(Outcome::Refused),
        _ => Ok(Outcome::Differs),
    }
}

fn generated(alloc: Global, random: &mut Random, last: Operator) -> Result<Outcome, Fail> {
    let rows = rows(alloc, random)?;
    let query = query(alloc, random, last)?;
    compared(alloc, query.as_str(), rows.as_slice())
}

#[test]
fn answers_what_nested_loops_give(rt: HostRuntime) -> Result<(), Fail> {
    let mut random = Random::new(0x00C0_FFEE_0DDB_A115);
    for last in OPERATORS {
        let mut agreed = 0u32;
        for case in 0..30u32 {
            let outcome = generated(rt.alloc(), &mut random, last)?;
            assert!(rt; outcome != Outcome::Differs, "case {case}");
            if outcome == Outcome::Agrees {
                agreed = agreed.wrapping_add(1);
            }
        }
        // Each operator tells something: half of its queries and more are built.
        assert!(rt; agreed >= 15, "{agreed} answered");
    }
    Ok(())
}
