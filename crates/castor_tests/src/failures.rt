//! Devices that fail at a call, and what stands afterwards.

use crate::world::{
    ANSWER, ASK, BUILD, BY_CUSTOMER, ORDERS, Ran, World, build, ended, holds, is_unchanged,
    run_over,
};
use castor_cli::{Place, Status};
use std::alloc::Global;
use std::process::Abort;
use std::test::Fail;

const INPUT: &str = "ann\nbob\n";

const FIRST_REPLY: &str = "rows 2\nid,cust,total\n1,ann,30\n3,ann,5\n";

fn orders<'a>() -> World<'a> {
    World::of(BY_CUSTOMER, ORDERS, INPUT)
}

// The reads of `answer` and `build`, by the numbers of their calls.
const READS: [&str; 3] = [
    "castor: read q1.query: failed\n",
    "castor: read q1.script: failed\n",
    "castor: read orders.csv: failed\n",
];

// That a command ends with a line where a call of the shelf fails, and leaves the files as they were.
fn shelf_fails(
    rt: &impl Abort,
    alloc: Global,
    words: &[&str],
    call: u64,
    code: u8,
    line: &str,
) -> Result<(), Fail> {
    let calls = [call];
    let mut world = orders();
    world.shelf_fails = &calls;
    let mut shelf = world.shelf(alloc)?;
    ended(
        rt,
        &run_over(alloc, words, &mut shelf, &world)?,
        &world,
        code,
        line,
    );
    is_unchanged(rt, &shelf, &world);
    Ok(())
}

#[test]
fn each_call_of_the_shelf_may_fail(rt: HostRuntime) -> Result<(), Fail> {
    for (call, line) in READS.iter().enumerate() {
        shelf_fails(&rt, rt.alloc(), &ANSWER, call as u64, 3, line)?;
        shelf_fails(&rt, rt.alloc(), &BUILD, call as u64, 3, line)?;
    }
    let line = "castor: write q1.image: failed\n";
    shelf_fails(&rt, rt.alloc(), &BUILD, 3, 4, line)?;
    let line = "castor: read orders.csv: failed\n";
    shelf_fails(&rt, rt.alloc(), &["ask", "orders.csv"], 0, 3, line)
}

// What `answer` and `ask` leave in a world, over an image that was built where no call failed. The files stay.
fn both(rt: &impl Abort, alloc: Global, world: &World<'_>) -> Result<[Ran; 2], Fail> {
    let mut shelf = build(rt, alloc, &orders())?;
    let asked = run_over(alloc, &ASK, &mut shelf, world)?;
    let answered = run_over(alloc, &ANSWER, &mut shelf, world)?;
    holds(rt, &shelf, "q1.query", world.query);
    holds(rt, &shelf, "q1.script", world.script);
    holds(rt, &shelf, "orders.csv", world.table);
    Ok([asked, answered])
}

#[test]
fn each_take_of_the_input_may_fail(rt: HostRuntime) -> Result<(), Fail> {
    for call in [0u64, 1] {
        let calls = [call];
        let mut world = orders();
        world.input_fails = &calls;
        for ran in &both(&rt, rt.alloc(), &world)? {
            assert_eq!(rt; ran.status.code(), 3);
            assert_eq!(rt;
                ran.errors.as_slice(),
                b"castor: read input: failed\n".as_slice()
            );
            assert_eq!(rt; ran.output.len(), 0);
        }
    }
    Ok(())
}

#[test]
fn replies_before_a_failed_one_went_out(rt: HostRuntime) -> Result<(), Fail> {
    for (call, due) in [(0u64, ""), (1, FIRST_REPLY)] {
        let calls = [call];
        let mut world = orders();
        world.output_fails = &calls;
        for ran in &both(&rt, rt.alloc(), &world)? {
            assert_eq!(rt; ran.status, Status::Write(Place::Output));
            assert_eq!(rt;
                ran.errors.as_slice(),
                b"castor: write output: failed\n".as_slice()
            );
            assert_eq!(rt; ran.output.as_slice(), due.as_bytes());
        }
    }
    Ok(())
}

#[test]
fn a_failing_error_output_changes_nothing(rt: HostRuntime) -> Result<(), Fail> {
    let begun = ["", "castor: read ", "castor: read q1.image"];
    for (call, due) in begun.iter().enumerate() {
        let calls = [call as u64];
        let mut world = orders();
        world.error_fails = &calls;
        let mut shelf = world.shelf(rt.alloc())?;
        let asked = run_over(rt.alloc(), &ASK, &mut shelf, &world)?;
        ended(&rt, &asked, &world, 3, due);
        is_unchanged(&rt, &shelf, &world);
    }
    Ok(())
}
