//! Replies to lines of parameters, of `answer` and of `ask`.

use crate::world::{BY_CUSTOMER, ORDERS, World, replies};
use std::test::Fail;

#[test]
fn the_rows_of_a_filter_are_printed(rt: HostRuntime) -> Result<(), Fail> {
    let world = World::of(BY_CUSTOMER, ORDERS, "ann\n");
    replies(
        &rt,
        rt.alloc(),
        &world,
        "rows 2\nid,cust,total\n1,ann,30\n3,ann,5\n",
    )
}

#[test]
fn a_table_of_a_header_has_no_rows(rt: HostRuntime) -> Result<(), Fail> {
    let world = World::of(BY_CUSTOMER, "id,cust,total\n", "ann\n");
    replies(&rt, rt.alloc(), &world, "rows 0\nid,cust,total\n")
}

#[test]
fn each_line_is_a_record_of_parameters(rt: HostRuntime) -> Result<(), Fail> {
    let query =
        "table orders (id int, cust text, total int); param n int; query filter(id = $n, orders)";
    let world = World::of(query, ORDERS, "x\n1,2\n+003\n\"x\n");
    replies(
        &rt,
        rt.alloc(),
        &world,
        "bad parameters\nbad parameters\nrows 1\nid,cust,total\n3,ann,5\nbad parameters\n",
    )
}

#[test]
fn an_empty_input_has_no_replies(rt: HostRuntime) -> Result<(), Fail> {
    let world = World::of(BY_CUSTOMER, ORDERS, "");
    replies(&rt, rt.alloc(), &world, "")
}

#[test]
fn a_last_line_may_lack_its_end(rt: HostRuntime) -> Result<(), Fail> {
    let world = World::of(BY_CUSTOMER, ORDERS, "zed\nbob");
    replies(
        &rt,
        rt.alloc(),
        &world,
        "rows 0\nid,cust,total\nrows 1\nid,cust,total\n2,bob,20\n",
    )
}

#[test]
fn the_first_of_equal_rows_is_kept(rt: HostRuntime) -> Result<(), Fail> {
    let query = "table orders (id int, cust text, total int); param n int; \
                 query dedup(select([cust], filter(id <= $n, orders)))";
    let world = World::of(query, ORDERS, "3\n0\n");
    replies(
        &rt,
        rt.alloc(),
        &world,
        "rows 2\ncust\nann\nbob\nrows 0\ncust\n",
    )
}

#[test]
fn groups_are_answered_in_an_order(rt: HostRuntime) -> Result<(), Fail> {
    let query = "table orders (id int, cust text, total int); param n int; \
                 query orderby([cust desc], groupby([cust], [count() as n, max(total) as most], \
                 filter(total >= $n, orders)))";
    let world = World::of(query, ORDERS, "5\n25\n");
    replies(
        &rt,
        rt.alloc(),
        &world,
        "rows 2\ncust,n,most\nbob,1,20\nann,2,30\nrows 1\ncust,n,most\nann,1,30\n",
    )
}

#[test]
fn a_table_may_begin_with_a_byte_order_mark(rt: HostRuntime) -> Result<(), Fail> {
    let table = "\u{feff}id,cust,total\r\n1,\"Café, 7\",30\r\n2,Café,+003\r\n";
    let world = World::of(BY_CUSTOMER, table, "\"Café, 7\"\nCafé\n");
    replies(
        &rt,
        rt.alloc(),
        &world,
        "rows 1\nid,cust,total\n1,\"Café, 7\",30\nrows 1\nid,cust,total\n2,Café,3\n",
    )
}

#[test]
fn a_script_may_have_comments(rt: HostRuntime) -> Result<(), Fail> {
    let mut world = World::of(BY_CUSTOMER, ORDERS, "bob\n");
    world.script = " finish -- now\n;";
    replies(&rt, rt.alloc(), &world, "rows 1\nid,cust,total\n2,bob,20\n")
}
