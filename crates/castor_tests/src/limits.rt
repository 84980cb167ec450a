//! The limits on the input and on an image.

use crate::world::{ANSWER, ASK, BUILD, BY_CUSTOMER, ORDERS, World, build, ended, owned, run_over};
use castor_base::{CountSink, MemoryShelf, MemorySink, RepeatSource};
use castor_cli::{Status, castor_uncounted};
use std::alloc::Global;
use std::marker::Brand;
use std::process::Abort;
use std::sync::ledger::Blank;
use std::test::Fail;

// What became of an input of so many letters: the status, and how many bytes went out.
#[derive(Clone, Copy)]
struct Outcome {
    status: Status,
    printed: u64,
}

fn with_letters(
    alloc: Global,
    words: &[&str],
    shelf: &mut MemoryShelf,
    count: u64,
) -> Result<Outcome, Fail> {
    let mut input = RepeatSource::new(b'a', count);
    let mut out = CountSink::new();
    let mut err = MemorySink::new(Vec::new(alloc), Vec::new(alloc));
    let words = owned(alloc, words)?;
    let status = castor_uncounted::<_, _, _, _, Brand>(
        alloc,
        words.as_slice(),
        shelf,
        &mut input,
        &mut out,
        &mut err,
        Blank::new(1),
    );
    Ok(Outcome {
        status,
        printed: out.count(),
    })
}

// That the input of a command over the orders may have 64 MiB, and no byte more.
fn input_is_limited(rt: &impl Abort, alloc: Global, words: &[&str]) -> Result<(), Fail> {
    let mut shelf = build(rt, alloc, &World::of(BY_CUSTOMER, ORDERS, ""))?;
    let within = with_letters(alloc, words, &mut shelf, 67_108_864)?;
    assert_eq!(rt; within.status, Status::Ok);
    assert_eq!(rt; within.printed, 15);
    let beyond = with_letters(alloc, words, &mut shelf, 67_108_865)?;
    assert_eq!(rt; beyond.status, Status::TooLong);
    assert_eq!(rt; beyond.printed, 0);
    Ok(())
}

#[test]
fn the_input_of_answer_has_a_limit(rt: HostRuntime) -> Result<(), Fail> {
    input_is_limited(&rt, rt.alloc(), &ANSWER)
}

#[test]
fn the_input_of_ask_has_a_limit(rt: HostRuntime) -> Result<(), Fail> {
    input_is_limited(&rt, rt.alloc(), &ASK)
}

// A table of so many records of one text of so many letters.
fn long_texts(alloc: Global, records: u32, letters: u32) -> Result<String, Fail> {
    let mut record = String::new(alloc);
    for _ in 0..letters {
        record.push('a')?;
    }
    record.push('\n')?;
    let mut table = String::from_str(alloc, "x\n")?;
    for _ in 0..records {
        table.push_str(record.as_str())?;
    }
    Ok(table)
}

#[test]
fn an_image_has_a_limit(rt: HostRuntime) -> Result<(), Fail> {
    let table = long_texts(rt.alloc(), 70, 30_000)?;
    let query = "table orders (x text); query select([#0, #1], cross(orders, orders))";
    let world = World::of(query, table.as_str(), "\n");
    let mut shelf = world.shelf(rt.alloc())?;
    let built = run_over(rt.alloc(), &BUILD, &mut shelf, &world)?;
    ended(&rt, &built, &world, 9, "castor: build: image too large\n");
    assert!(rt; shelf.file("q1.image").is_none());
    Ok(())
}
