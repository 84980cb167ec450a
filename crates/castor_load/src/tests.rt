//! Worked files, question lines and answers.

use crate::error::LoadError;
use crate::question::read_line;
use crate::records::Records;
use crate::table::load;
use crate::writer::RecordWriter;
use castor_val::{Cell, Column, MAX_COLUMNS, Memory, Row, Text, Ty, Value};
use csv::ByteRecord;
use std::alloc::Global;
use std::test::Fail;

fn columns_of(alloc: Global, named: &[(&str, Ty)]) -> Result<Vec<Column>, Memory> {
    let mut columns = Vec::new(alloc);
    for (name, ty) in named {
        let name = Text::from_str(alloc, name)?;
        columns.push(Column { name, ty: *ty })?;
    }
    Ok(columns)
}

fn is_row(row: &Row, due: &[Cell<'_>]) -> bool {
    if row.len() != due.len() {
        return false;
    }
    for (value, cell) in row.as_slice().iter().zip(due) {
        if value.cell() != *cell {
            return false;
        }
    }
    true
}

// Files of the columns n, an int, t, a text, and b, a bool, with their only row, if any.
fn accepted_files() -> [(&'static [u8], Option<(i64, &'static str, bool)>); 10] {
    [
        (b"n,t,b", None),
        (b"n,t,b\n-0,,false", Some((0, "", false))),
        (
            b"\xEF\xBB\xBFn,t,b\r\n+003,\"Caf\xC3\xA9, 7\",true\r\n",
            Some((3, "Café, 7", true)),
        ),
        (b"\n\nn,t,b\n\n\r\n1,a,true\n\n", Some((1, "a", true))),
        (b"n,t,b\r-1, a ,true\r", Some((-1, " a ", true))),
        (b"\"n\",t,\"b\"\n\"1\",a,\"true\"", Some((1, "a", true))),
        (b"n,t,b\n1,\"\"\"a\"\"\",true", Some((1, "\"a\"", true))),
        (b"n,t,b\n1,a\"b\"c,true", Some((1, "a\"b\"c", true))),
        (b"n,t,b\n1,\"a\r\nb\",true", Some((1, "a\r\nb", true))),
        (b"n,t,b\n1,a,\"true", Some((1, "a", true))),
    ]
}

fn bad_field(number: u64, column: u32) -> LoadError {
    LoadError::BadField { number, column }
}

// Files that are no tables of the same columns.
fn refused_files() -> [(&'static [u8], LoadError); 19] {
    let first = LoadError::BadRecord { number: 1 };
    [
        (b"", LoadError::BadHeader),
        (b"\n\r\n", LoadError::BadHeader),
        (b"1,a,true\n", LoadError::BadHeader),
        (b"t,n,b\n", LoadError::BadHeader),
        (b"n,t\n", LoadError::BadHeader),
        (b"n,t,b,\n", LoadError::BadHeader),
        (b"n, t,b\n", LoadError::BadHeader),
        (b"\xEF\xBB\xBF\xEF\xBB\xBFn,t,b\n", LoadError::BadHeader),
        (b"n,t,b\n1,a\n", first),
        (b"n,t,b\n1,a,true,\n", first),
        (b"n,t,b\n1,\"a,true\n2,b,true\n", first),
        (b"n,t,b\nx,a\n", first),
        (
            b"n,t,b\n1,a,true\n2,b\n3,c,no\n",
            LoadError::BadRecord { number: 2 },
        ),
        (b"n,t,b\n 3,a,true\n", bad_field(1, 0)),
        (b"n,t,b\n,\xFF,no\n", bad_field(1, 0)),
        (b"n,t,b\n\xFF,a,true\n", bad_field(1, 0)),
        (b"n,t,b\n1,\xFF,no\n", bad_field(1, 1)),
        (b"n,t,b\n1,a,\n", bad_field(1, 2)),
        (b"n,t,b\n1,a,true\n\n2,b,TRUE\n3\n", bad_field(2, 2)),
    ]
}

#[test]
fn loads_the_records_after_the_header(rt: HostRuntime) -> Result<(), Fail> {
    let columns = columns_of(
        rt.alloc(),
        &[("n", Ty::Int), ("t", Ty::Text), ("b", Ty::Bool)],
    )?;
    assert!(rt; columns.len() <= MAX_COLUMNS);
    for (bytes, due) in accepted_files() {
        let table = load(rt.alloc(), &columns, bytes)?;
        match (table.as_slice(), due) {
            ([], None) => {}
            ([row], Some((n, t, b))) => {
                assert!(rt;
                    is_row(row, &[Cell::Int(n), Cell::Text(t), Cell::Bool(b)]),
                    "{row:?}"
                );
            }
            _ => assert!(rt; false, "{table:?} of {bytes:?}"),
        }
    }
    Ok(())
}

#[test]
fn refuses_the_first_record_that_does_not_fit(rt: HostRuntime) -> Result<(), Fail> {
    let columns = columns_of(
        rt.alloc(),
        &[("n", Ty::Int), ("t", Ty::Text), ("b", Ty::Bool)],
    )?;
    assert!(rt; columns.len() <= MAX_COLUMNS);
    for (bytes, due) in refused_files() {
        match load(rt.alloc(), &columns, bytes) {
            Ok(table) => assert!(rt; false, "{table:?} of {bytes:?}"),
            Err(why) => assert_eq!(rt; why, due, "{bytes:?}"),
        }
    }
    Ok(())
}

#[test]
fn loads_a_thousand_orders(rt: HostRuntime) -> Result<(), Fail> {
    let columns = columns_of(
        rt.alloc(),
        &[("id", Ty::Int), ("cust", Ty::Text), ("total", Ty::Int)],
    )?;
    assert!(rt; columns.len() <= MAX_COLUMNS);
    let mut file = String::from_str(rt.alloc(), "\u{feff}id,cust,total\r\n")?;
    for i in 1..=1000u32 {
        let digit = i % 10;
        let total = 37 * i % 1000;
        let record = format!(in rt.alloc(); "{i},\"Café, {digit}\",{total}\r\n")?;
        file.push_str(&record)?;
    }
    let table = load(rt.alloc(), &columns, file.as_bytes())?;
    assert_eq!(rt; table.len(), 1000);
    for (at, due) in [
        (0, [Cell::Int(1), Cell::Text("Café, 1"), Cell::Int(37)]),
        (996, [Cell::Int(997), Cell::Text("Café, 7"), Cell::Int(889)]),
    ] {
        match table.as_slice().get(at) {
            Some(row) => assert!(rt; is_row(row, &due), "{row:?}"),
            None => assert!(rt; false, "{at}"),
        }
    }
    Ok(())
}

#[test]
fn loads_texts_of_at_most_65_535_bytes(rt: HostRuntime) -> Result<(), Fail> {
    let columns = columns_of(rt.alloc(), &[("t", Ty::Text)])?;
    assert!(rt; columns.len() <= MAX_COLUMNS);
    let mut text = String::new(rt.alloc());
    for _ in 0..65_535 {
        text.push('a')?;
    }
    let mut file = format!(in rt.alloc(); "t\n{text}")?;
    let table = load(rt.alloc(), &columns, file.as_bytes())?;
    match table.as_slice() {
        [row] => assert!(rt; is_row(row, &[Cell::Text(&text)])),
        _ => assert!(rt; false, "one row"),
    }
    file.push('a')?;
    match load(rt.alloc(), &columns, file.as_bytes()) {
        Ok(_) => assert!(rt; false, "65,536 bytes"),
        Err(why) => assert_eq!(rt; why, bad_field(1, 0)),
    }
    Ok(())
}

#[test]
fn a_row_takes_24_bytes_and_each_value_32(rt: HostRuntime) {
    assert_eq!(rt; size_of::<Row>(), 24);
    assert_eq!(rt; size_of::<Value>(), 32);
}

#[test]
fn tells_why_in_words(rt: HostRuntime) -> Result<(), Fail> {
    for (why, words) in [
        (
            LoadError::BadHeader,
            "the header is not the names of the columns",
        ),
        (
            LoadError::BadRecord { number: 2 },
            "record 2 has another number of fields than the header",
        ),
        (
            bad_field(7, 0),
            "field 0 of record 7 is not of the type of its column",
        ),
        (LoadError::Memory, "out of memory"),
    ] {
        let told = format!(in rt.alloc(); "{why}")?;
        assert_eq!(rt; told.as_str(), words);
    }
    Ok(())
}

// Lines of one parameter, with its value where the line is accepted.
fn lines() -> [(Ty, &'static [u8], Option<Cell<'static>>); 19] {
    let no_text = Some(Cell::Text(""));
    [
        (Ty::Int, b"+003", Some(Cell::Int(3))),
        (Ty::Int, b"5\r", Some(Cell::Int(5))),
        (Ty::Int, b"\"5", Some(Cell::Int(5))),
        (Ty::Int, b"\xEF\xBB\xBF5", Some(Cell::Int(5))),
        (Ty::Int, b"x", None),
        (Ty::Int, b"1,2", None),
        (Ty::Int, b"\"x", None),
        (Ty::Int, b"", None),
        (Ty::Int, b"\r", None),
        (Ty::Bool, b"true", Some(Cell::Bool(true))),
        (Ty::Bool, b"true ", None),
        (Ty::Text, b"ann\r", Some(Cell::Text("ann"))),
        (Ty::Text, b"\"Caf\xC3\xA9, 7\"", Some(Cell::Text("Café, 7"))),
        (Ty::Text, b"\"\"", no_text),
        (Ty::Text, b"\"", no_text),
        (Ty::Text, b"", None),
        (Ty::Text, b"\xFF", None),
        (Ty::Text, b"a\rb", None),
        (Ty::Text, b"a,", None),
    ]
}

#[test]
fn reads_lines_of_one_parameter(rt: HostRuntime) -> Result<(), Fail> {
    for (ty, line, due) in lines() {
        let params = columns_of(rt.alloc(), &[("p", ty)])?;
        assert!(rt; params.len() <= MAX_COLUMNS);
        match (read_line(rt.alloc(), &params, line)?, due) {
            (Some(row), Some(cell)) => assert!(rt; is_row(&row, &[cell]), "{row:?}"),
            (None, None) => {}
            _ => assert!(rt; false, "{line:?}"),
        }
    }
    Ok(())
}

#[test]
fn reads_lines_of_no_parameter_and_of_two(rt: HostRuntime) -> Result<(), Fail> {
    for (line, accepted) in [(b"".as_slice(), true), (b"\r", true), (b"\"\"", false)] {
        let row = read_line(rt.alloc(), &[], line)?;
        assert_eq!(rt; row.is_some(), accepted, "{line:?}");
    }
    let params = columns_of(rt.alloc(), &[("a", Ty::Int), ("b", Ty::Text)])?;
    assert!(rt; params.len() <= MAX_COLUMNS);
    match read_line(rt.alloc(), &params, b"30,\"5")? {
        Some(row) => assert!(rt; is_row(&row, &[Cell::Int(30), Cell::Text("5")])),
        None => assert!(rt; false, "two values"),
    }
    assert!(rt; read_line(rt.alloc(), &params, b"30")?.is_none());
    Ok(())
}

#[test]
fn writes_records_after_what_was_written(rt: HostRuntime) -> Result<(), Fail> {
    let columns = columns_of(rt.alloc(), &[("id", Ty::Int), ("sum", Ty::Int)])?;
    let head = Vec::from_slice(rt.alloc(), b"rows 2\n")?;
    let mut writer = RecordWriter::new(head);
    writer.write_names(&columns)?;
    writer.write_cells(&[Cell::Int(-3), Cell::Text("a \"b\"")])?;
    writer.write_cells(&[Cell::Bool(true), Cell::Text("é,"), Cell::Text("")])?;
    writer.write_cells(&[Cell::Text("")])?;
    writer.write_cells(&[Cell::Text("a\nb"), Cell::Text("c\rd"), Cell::Text(" e ")])?;
    let text = writer.finish()?;
    let due = "rows 2\nid,sum\n-3,\"a \"\"b\"\"\"\ntrue,\"é,\",\n\"\"\n\"a\nb\",\"c\rd\", e \n";
    assert_eq!(rt; text.as_slice(), due.as_bytes());
    Ok(())
}

#[test]
fn reads_records_one_at_a_time(rt: HostRuntime) -> Result<(), Fail> {
    let mut records = Records::new(rt.alloc(), b"a,b\n\nc");
    let mut record = ByteRecord::new(rt.alloc());
    assert!(rt; records.next(&mut record)?);
    assert_eq!(rt; record.len(), 2);
    assert!(rt; records.next(&mut record)?);
    assert_eq!(rt; record.get(0), Some(b"c".as_slice()));
    assert!(rt; !records.next(&mut record)?);
    Ok(())
}
