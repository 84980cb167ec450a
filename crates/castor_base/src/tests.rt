// What no clause says: that calls succeed, and what the real adapters do.
ghost use Rattle.std.specs.Prelude.{◌≡◌, ◌+◌, ◌<◌};

use super::*;
use std::alloc::{AllocError, Global};
use std::collections::BTreeMap;
use std::io::{self, ErrorKind};
use std::marker::Brand;
use std::sync::ledger::{Blank, Ledger};
use std::test::Fail;
use std::{env, fs};

const TEN: &[u8] = b"0123456789";

fn source(alloc: Global, bytes: &[u8], failing: &[u64]) -> Result<MemorySource, AllocError> {
    let bytes = bytes.to_vec(alloc)?;
    Ok(MemorySource::new(bytes, failing.to_vec(alloc)?))
}

// A new folder for a test's files, where the system keeps what is temporary.
fn scratch(rt: &HostRuntime, alloc: Global) -> io::Result<String> {
    let place = env::temp_dir(rt)?;
    for number in 0..1000u64 {
        let folder = format!(in alloc; "{}/castor_base_{number}", place.display())?;
        match fs::create_dir(rt, folder.as_str()) {
            Ok(()) => return Ok(folder),
            Err(e) if e.kind() == ErrorKind::AlreadyExists => {}
            Err(e) => return Err(e),
        }
    }
    Err(io::Error::from(ErrorKind::AlreadyExists))
}

#[test]
fn reads_up_to_the_limit(rt: HostRuntime) -> Result<(), Fail> {
    let alloc = rt.alloc();
    for (limit, taken) in [(4, 5), (9, 10)] {
        let mut sure = SureSource::new(TEN.to_vec(alloc)?);
        let read = read_all(alloc, &mut sure, limit);
        assert_eq!(rt; read.err(), Some(TakeError::TooLong), "at {limit}");
        assert_eq!(rt; sure.left().len() + taken, 10, "at {limit}");
    }
    let mut sure = SureSource::new(TEN.to_vec(alloc)?);
    let all = read_all(alloc, &mut sure, 10).expect(&rt, "ten bytes are within ten");
    assert_eq!(rt; all.as_slice(), TEN);
    Ok(())
}

#[test]
fn reads_in_several_pieces(rt: HostRuntime) -> Result<(), Fail> {
    let alloc = rt.alloc();
    let mut long = RepeatSource::new(b'x', 200_000);
    let all = read_all(alloc, &mut long, u64::MAX).expect(&rt, "any length is within the limit");
    assert_eq!(rt; all.len(), 200_000);
    assert!(rt; all.iter().all(|byte| *byte == b'x'));
    let mut long = RepeatSource::new(b'x', 200_000);
    let read = read_all(alloc, &mut long, 199_999);
    assert_eq!(rt; read.err(), Some(TakeError::TooLong));
    Ok(())
}

#[test]
fn a_source_that_fails_keeps_the_rest(rt: HostRuntime) -> Result<(), Fail> {
    let alloc = rt.alloc();
    let mut whole = source(alloc, TEN, &[])?;
    let all = read_all(alloc, &mut whole, 100).expect(&rt, "no call is to fail");
    assert_eq!(rt; all.as_slice(), TEN);
    assert_eq!(rt; (whole.calls(), whole.faults()), (2, 0));

    let mut cut = source(alloc, TEN, &[5, 1])?;
    let mut room = [0u8; 4];
    assert_eq!(rt; cut.take(&mut room), Ok(4));
    assert_eq!(rt;
        read_all(alloc, &mut cut, 100).err(),
        Some(TakeError::Failed)
    );
    assert_eq!(rt; cut.left(), b"456789".as_slice());
    assert_eq!(rt; (cut.calls(), cut.faults()), (2, 1));
    Ok(())
}

#[test]
fn a_sink_that_fails_keeps_what_it_was_given(rt: HostRuntime) -> Result<(), Fail> {
    let alloc = rt.alloc();
    let mut out = MemorySink::new(Vec::new(alloc), [2].to_vec(alloc)?);
    let pieces: &[&[u8]] = &[b"ab", b"cd", b"ef"];
    assert_eq!(rt; put_all(&mut out, TEN), Ok(()));
    assert_eq!(rt; put_pieces(&mut out, pieces), Err(Failed));
    assert_eq!(rt; out.given(), b"0123456789ab".as_slice());
    assert_eq!(rt; (out.calls(), out.faults()), (3, 1));

    let mut count = CountSink::new();
    assert_eq!(rt; put_pieces(&mut count, pieces), Ok(()));
    assert_eq!(rt; count.count(), 6);
    Ok(())
}

#[test]
fn a_shelf_in_memory_reads_what_was_written(rt: HostRuntime) -> Result<(), Fail> {
    let alloc = rt.alloc();
    let mut shelf = MemoryShelf::new(alloc, BTreeMap::new(alloc), [2, 4].to_vec(alloc)?);
    assert_eq!(rt; shelf.read(alloc, "a", 10).err(), Some(ShelfError::Absent));
    assert_eq!(rt; shelf.write("a", TEN), Ok(()));
    assert_eq!(rt; shelf.write("a", b"new"), Err(Failed));
    let bytes = shelf
        .read(alloc, "a", 10)
        .expect(&rt, "ten bytes are within ten");
    assert_eq!(rt; bytes.as_slice(), TEN);
    assert_eq!(rt; shelf.read(alloc, "a", 10).err(), Some(ShelfError::Failed));
    assert_eq!(rt; shelf.read(alloc, "a", 9).err(), Some(ShelfError::TooLong));
    assert!(rt; shelf.file("b").is_none());
    assert_eq!(rt; (shelf.calls(), shelf.faults()), (6, 2));
    Ok(())
}

#[test]
fn a_shelf_over_paths_replaces_a_file_whole(rt: HostRuntime) -> Result<(), Fail> {
    let alloc = rt.alloc();
    let folder = scratch(&rt, alloc)?;
    let image = format!(in alloc; "{folder}/image")?;
    let taken = format!(in alloc; "{folder}/.castor-0.new")?;
    let under = format!(in alloc; "{image}/under")?;
    fs::write(&rt, taken.as_str(), "a user's own")?;
    let mut shelf = PathShelf::new(&rt);
    let name = image.as_str();
    assert_eq!(rt; shelf.read(alloc, name, 10).err(), Some(ShelfError::Absent));
    assert_eq!(rt; shelf.write(name, b"old"), Ok(()));
    assert_eq!(rt; shelf.write(name, TEN), Ok(()));
    let bytes = shelf
        .read(alloc, name, 10)
        .expect(&rt, "ten bytes are within ten");
    assert_eq!(rt; bytes.as_slice(), TEN);
    assert_eq!(rt; shelf.read(alloc, name, 9).err(), Some(ShelfError::TooLong));
    for bad in [folder.as_str(), under.as_str(), "nul\0"] {
        assert_eq!(rt;
            shelf.read(alloc, bad, 10).err(),
            Some(ShelfError::Failed),
            "at {bad}"
        );
        assert_eq!(rt; shelf.write(bad, TEN), Err(Failed), "at {bad}");
    }
    assert_eq!(rt; shelf.faults(), 8);
    let own = fs::read_to_string(&rt, taken.as_str())?;
    assert_eq!(rt; own.as_str(), "a user's own");
    fs::remove_file(&rt, taken.as_str())?;
    fs::remove_file(&rt, name)?;

    // A folder that holds any other file isn't removed.
    fs::remove_dir(&rt, folder.as_str())?;
    Ok(())
}

#[test]
fn streams_move_the_bytes_of_a_file(rt: HostRuntime) -> Result<(), Fail> {
    let alloc = rt.alloc();
    let folder = scratch(&rt, alloc)?;
    let file = format!(in alloc; "{folder}/stream")?;
    let mut out = WriterSink::new(fs::create(&rt, file.as_str())?);
    assert_eq!(rt; put_all(&mut out, TEN), Ok(()));
    let mut input = ReaderSource::new(fs::open(&rt, file.as_str())?);
    let all = read_all(alloc, &mut input, 10).expect(&rt, "ten bytes are within ten");
    assert_eq!(rt; all.as_slice(), TEN);

    // A file that was opened to be read can't be written, and a folder can't be read.
    let mut out = WriterSink::new(fs::open(&rt, file.as_str())?);
    assert_eq!(rt; put_all(&mut out, TEN), Err(Failed));
    let mut input = ReaderSource::new(fs::open(&rt, folder.as_str())?);
    assert_eq!(rt;
        read_all(alloc, &mut input, 10).err(),
        Some(TakeError::Failed)
    );
    assert_eq!(rt; (input.faults(), out.faults()), (1, 1));
    fs::remove_dir_all(&rt, folder.as_str())?;
    Ok(())
}

fn tick_twice<L: Ledger>(steps: &mut Steps<L>)
    ensures { steps.new ≡ steps.old + 2 }
{
    steps.tick();
    steps.tick();
}

fn count_two<L: Ledger>(blank: Blank)
    requires name { blank.name ≡ L.name }
    requires parts { blank.parts ≡ L.parts }
    requires some { 0 < blank.parts }
{
    let mut steps: Steps<L> = Steps::new(blank);
    tick_twice(&mut steps);
}

#[test]
fn a_counter_is_made_of_a_blank() {
    count_two::<Brand>(Blank::new(1));
}
