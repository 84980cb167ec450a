//! A run of a command over objects in memory.

use castor_base::{MemoryShelf, MemorySink, MemorySource};
use castor_cli::{Status, castor_uncounted};
use std::alloc::Global;
use std::collections::BTreeMap;
use std::marker::Brand;
use std::process::Abort;
use std::sync::ledger::Blank;
use std::test::Fail;

pub const ORDERS: &str = "id,cust,total\n1,ann,30\n2,bob,20\n3,ann,5\n";

pub const BY_CUSTOMER: &str =
    "table orders (id int, cust text, total int);\nparam c text;\nquery filter(cust = $c, orders)\n";

pub const ANSWER: [&str; 3] = ["answer", "q1.query", "q1.script"];

pub const BUILD: [&str; 4] = ["build", "q1.query", "q1.script", "q1.image"];

pub const ASK: [&str; 2] = ["ask", "q1.image"];

/// The files and the input of a run, and the numbers of the calls that are to fail.
#[derive(Clone, Copy)]
pub struct World<'a> {
    pub query: &'a str,
    pub script: &'a str,
    pub table: &'a str,
    pub input: &'a str,
    pub shelf_fails: &'a [u64],
    pub input_fails: &'a [u64],
    pub output_fails: &'a [u64],
    pub error_fails: &'a [u64],
}

impl<'a> World<'a> {
    /// A query over a table, the script `finish;` and an input, where no call fails.
    pub fn of(query: &'a str, table: &'a str, input: &'a str) -> World<'a> {
        World {
            query,
            script: "finish;",
            table,
            input,
            shelf_fails: &[],
            input_fails: &[],
            output_fails: &[],
            error_fails: &[],
        }
    }

    /// The files q1.query, q1.script and orders.csv, of which an empty one is missing.
    pub fn shelf(&self, alloc: Global) -> Result<MemoryShelf, Fail> {
        let mut files = BTreeMap::new(alloc);
        file(alloc, &mut files, "q1.query", self.query)?;
        file(alloc, &mut files, "q1.script", self.script)?;
        file(alloc, &mut files, "orders.csv", self.table)?;
        Ok(MemoryShelf::new(alloc, files, Vec::from_slice(alloc, self.shelf_fails)?))
    }
}

/// What a run left.
#[derive(Drop)]
pub struct Ran {
    pub status: Status,
    pub output: Vec<u8>,
    pub errors: Vec<u8>,
    pub input_left: usize,
}

fn file(
    alloc: Global,
    files: &mut BTreeMap<String, Vec<u8>>,
    name: &str,
    text: &str,
) -> Result<(), Fail> {
    if !text.is_empty() {
        files.insert(
            String::from_str(alloc, name)?,
            Vec::from_slice(alloc, text.as_bytes())?,
        )?;
    }
    Ok(())
}

/// Words that own their text.
pub fn owned(alloc: Global, words: &[&str]) -> Result<Vec<String>, Fail> {
    let mut owned = Vec::new(alloc);
    for word in words {
        owned.push(String::from_str(alloc, word)?)?;
    }
    Ok(owned)
}

/// Runs the words over a shelf, and the input and the other devices of a world.
pub fn run_over(
    alloc: Global,
    words: &[&str],
    shelf: &mut MemoryShelf,
    world: &World<'_>,
) -> Result<Ran, Fail> {
    let mut input = MemorySource::new(
        Vec::from_slice(alloc, world.input.as_bytes())?,
        Vec::from_slice(alloc, world.input_fails)?,
    );
    let mut out = MemorySink::new(Vec::new(alloc), Vec::from_slice(alloc, world.output_fails)?);
    let mut err = MemorySink::new(Vec::new(alloc), Vec::from_slice(alloc, world.error_fails)?);
    let words = owned(alloc, words)?;
    let status = castor_uncounted::<_, _, _, _, Brand>(
        alloc,
        words.as_slice(),
        shelf,
        &mut input,
        &mut out,
        &mut err,
        Blank::new(1),
    );
    Ok(Ran {
        status,
        output: Vec::from_slice(alloc, out.given())?,
        errors: Vec::from_slice(alloc, err.given())?,
        input_left: input.left().len(),
    })
}

/// Runs the words over the shelf of a world.
pub fn run(alloc: Global, words: &[&str], world: &World<'_>) -> Result<Ran, Fail> {
    let mut shelf = world.shelf(alloc)?;
    run_over(alloc, words, &mut shelf, world)
}

/// That a run ended with Ok and printed this of all its input.
pub fn printed(rt: &impl Abort, ran: &Ran, due: &str) {
    assert_eq!(rt; ran.errors.as_slice(), b"".as_slice());
    assert_eq!(rt; ran.status, Status::Ok);
    assert_eq!(rt; ran.output.as_slice(), due.as_bytes());
    assert_eq!(rt; ran.input_left, 0);
}

/// That a run ended with a status and its line, printed nothing and took nothing of its input.
pub fn ended(rt: &impl Abort, ran: &Ran, world: &World<'_>, code: u8, line: &str) {
    assert_eq!(rt; ran.errors.as_slice(), line.as_bytes());
    assert_eq!(rt; ran.status.code(), code);
    assert_eq!(rt; ran.output.len(), 0);
    assert_eq!(rt; ran.input_left, world.input.len());
}

/// That a file of a shelf is just this text.
pub fn holds(rt: &impl Abort, shelf: &MemoryShelf, name: &str, text: &str) {
    assert!(rt;
        shelf
            .file(name)
            .is_some_and(|bytes| bytes.as_slice() == text.as_bytes()),
        "{name}"
    );
}

/// That the files of a world are on its shelf as they were, and no image is.
pub fn is_unchanged(rt: &impl Abort, shelf: &MemoryShelf, world: &World<'_>) {
    holds(rt, shelf, "q1.query", world.query);
    holds(rt, shelf, "q1.script", world.script);
    holds(rt, shelf, "orders.csv", world.table);
    assert!(rt; shelf.file("q1.image").is_none());
}

/// Builds the image of a world under its name.
pub fn build(rt: &impl Abort, alloc: Global, world: &World<'_>) -> Result<MemoryShelf, Fail> {
    let mut shelf = world.shelf(alloc)?;
    let built = run_over(alloc, &BUILD, &mut shelf, world)?;
    ended(rt, &built, world, 0, "");
    Ok(shelf)
}

/// That `answer` prints this for the input of a world, and `ask` does so of the image that `build` writes.
pub fn replies(rt: &impl Abort, alloc: Global, world: &World<'_>, due: &str) -> Result<(), Fail> {
    printed(rt, &run(alloc, &ANSWER, world)?, due);
    let mut shelf = build(rt, alloc, world)?;
    printed(rt, &run_over(alloc, &ASK, &mut shelf, world)?, due);
    Ok(())
}

/// That `answer` and `build` end with a status and its line, and nothing is written.
pub fn refused(
    rt: &impl Abort,
    alloc: Global,
    world: &World<'_>,
    code: u8,
    line: &str,
) -> Result<(), Fail> {
    ended(rt, &run(alloc, &ANSWER, world)?, world, code, line);
    let mut shelf = world.shelf(alloc)?;
    ended(
        rt,
        &run_over(alloc, &BUILD, &mut shelf, world)?,
        world,
        code,
        line,
    );
    assert!(rt; shelf.file("q1.image").is_none());
    Ok(())
}
