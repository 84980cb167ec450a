//! The bytes of images that are built, and what else may stand under an image's name.

use crate::world::{ASK, BUILD, BY_CUSTOMER, ORDERS, World, build, ended, replies, run_over};
use castor_base::Shelf;
use castor_cli::Status;
use std::alloc::Global;
use std::process::Abort;
use std::test::Fail;

const BY_NUMBER: &str = "table orders (x int); query orders";

// The customers' orders by an index, which is 28 bytes of data: an offset of each bucket and its end, and
// the entries of ann and bob.
const INDEXED: &str = "table orders (id int, cust text, total int); param c text; \
                       query hash(select([cust], orders) as k, filter(cust = k.cust, orders), [$c])";

const INDEX: [u8; 28] = *b"\x00\x00\x19ann\x01\x05\x00ann\x19\x02ann\x00bob\x00\x00\x01bob\x0f";

// The same with the entries in the first bucket, where neither key belongs.
const OTHER_OFFSETS: [u8; 28] =
    *b"\x00\x19\x00ann\x01\x05\x00ann\x19\x02ann\x00bob\x00\x00\x01bob\x0f";

// The rows 7 and 9 of one int column: the mark, the head, the lengths 53 and 2, the code and the data.
pub const SEVEN_AND_NINE: [u8; 84] = [
    0x43, 0x41, 0x53, 0x54, 0x49, 0x4d, 0x47, 0x31, 0x00, 0x01, 0x00, 0x01, 0x78, 53, 0, 0, 0, 0,
    0, 0, 0, 2, 0, 0, 0, 0, 0, 0, 0, 0x06, 2, 0, 0, 0, 0, 0, 0, 0, 2, 0, 0, 0, 0, 0, 0, 0, 2, 0, 0,
    0, 0, 0, 0, 0, 2, 0, 0, 0, 0, 0, 0, 0, 0x04, 1, 0, 0x01, 7, 0, 0, 0, 0, 0, 0, 0, 9, 0, 0, 0, 0,
    0, 0, 0, 0x00, 0x02,
];

fn image(rt: &impl Abort, alloc: Global, world: &World<'_>) -> Result<Vec<u8>, Fail> {
    let shelf = build(rt, alloc, world)?;
    match shelf.file("q1.image") {
        Some(bytes) => Ok(bytes.to_vec(alloc)?),
        None => Ok(Vec::new(alloc)),
    }
}

#[test]
fn a_small_table_has_these_bytes(rt: HostRuntime) -> Result<(), Fail> {
    let world = World::of(BY_NUMBER, "x\n7\n9\n", "\n");
    let bytes = image(&rt, rt.alloc(), &world)?;
    assert_eq!(rt; bytes.as_slice(), SEVEN_AND_NINE.as_slice());
    Ok(())
}

// That the image of a query over a table has so many bytes, and that its data, which comes last, is this.
fn has_data(
    rt: &impl Abort,
    alloc: Global,
    query: &str,
    table: &str,
    len: usize,
    data: &[u8],
) -> Result<(), Fail> {
    let bytes = image(rt, alloc, &World::of(query, table, ""))?;
    assert_eq!(rt; bytes.len(), len);
    assert!(rt; bytes.ends_with(data));
    Ok(())
}

#[test]
fn the_data_has_the_least_widths(rt: HostRuntime) -> Result<(), Fail> {
    let extremes = "x\n-9223372036854775808\n9223372036854775807\n";
    let wide = [
        0, 0, 0, 0, 0, 0, 0, 0, 255, 255, 255, 255, 255, 255, 255, 255,
    ];
    has_data(&rt, rt.alloc(), BY_NUMBER, extremes, 98, &wide)?;
    // Behind the mark, the head of 22 bytes, two lengths and the code of 88 bytes.
    has_data(&rt, rt.alloc(), BY_CUSTOMER, "id,cust,total\n", 134, b"")?;
    let rows = b"\x00ann\x19\x01bob\x0f\x02ann\x00";
    has_data(&rt, rt.alloc(), BY_CUSTOMER, ORDERS, 149, rows)?;
    has_data(&rt, rt.alloc(), INDEXED, ORDERS, 193, &INDEX)
}

// That these bytes under an image's name are refused.
fn no_image(rt: &impl Abort, alloc: Global, bytes: &[u8]) -> Result<(), Fail> {
    let world = World::of(INDEXED, ORDERS, "ann\n");
    let mut shelf = world.shelf(alloc)?;
    assert!(rt; shelf.write("q1.image", bytes).is_ok());
    let asked = run_over(alloc, &ASK, &mut shelf, &world)?;
    ended(rt, &asked, &world, 8, "castor: image: not an image\n");
    assert!(rt;
        shelf
            .file("q1.image")
            .is_some_and(|kept| kept.as_slice() == bytes)
    );
    Ok(())
}

#[test]
fn bytes_that_are_no_image_are_refused(rt: HostRuntime) -> Result<(), Fail> {
    let mut bytes = image(&rt, rt.alloc(), &World::of(INDEXED, ORDERS, "ann\n"))?;
    bytes.push(0)?;
    no_image(&rt, rt.alloc(), bytes.as_slice())?;
    bytes.truncate(192);
    no_image(&rt, rt.alloc(), bytes.as_slice())?;
    bytes.truncate(165);
    bytes.extend_from_slice(&OTHER_OFFSETS)?;
    no_image(&rt, rt.alloc(), bytes.as_slice())?;
    no_image(&rt, rt.alloc(), ORDERS.as_bytes())?;
    no_image(&rt, rt.alloc(), b"")
}

#[test]
fn keys_of_one_bucket_are_told_apart(rt: HostRuntime) -> Result<(), Fail> {
    let world = World::of(INDEXED, ORDERS, "ann\nbob\nzed\n");
    replies(
        &rt,
        rt.alloc(),
        &world,
        "rows 2\nid,cust,total\n1,ann,30\n3,ann,5\nrows 1\nid,cust,total\n2,bob,20\nrows 0\nid,cust,total\n",
    )
}

#[test]
fn a_missing_image_is_absent(rt: HostRuntime) -> Result<(), Fail> {
    let world = World::of(BY_CUSTOMER, ORDERS, "ann\n");
    let mut shelf = world.shelf(rt.alloc())?;
    let asked = run_over(rt.alloc(), &ASK, &mut shelf, &world)?;
    ended(&rt, &asked, &world, 3, "castor: read q1.image: absent\n");
    Ok(())
}

#[test]
fn an_image_is_written_over_an_older_one(rt: HostRuntime) -> Result<(), Fail> {
    let world = World::of(BY_NUMBER, "x\n7\n9\n", "\n");
    let mut shelf = world.shelf(rt.alloc())?;
    assert!(rt; shelf.write("q1.image", b"CAST").is_ok());
    let built = run_over(rt.alloc(), &BUILD, &mut shelf, &world)?;
    assert_eq!(rt; built.status, Status::Ok);
    assert!(rt;
        shelf
            .file("q1.image")
            .is_some_and(|bytes| bytes.as_slice() == SEVEN_AND_NINE.as_slice())
    );
    Ok(())
}
