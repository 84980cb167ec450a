//! The program `castor`: its words, its files, its input and its outputs, handed to the top call.
#![tactic(auto)]

use castor_base::{PathShelf, ReaderSource, WriterSink};
use castor_cli::castor_uncounted;
use std::env;
use std::env::Env;
use std::marker::Brand;
use std::process::ExitCode;
use std::sync::ledger::Blank;

// The words after the program's name, or none where they can't be had.
fn words<R: Env + AllocGlobal>(rt: &R) -> Vec<String> {
    let mut words = Vec::new(rt.alloc());
    if let Ok(args) = env::args(rt) {
        for word in args.skip(1) {
            if words.push(word).is_err() {
                return Vec::new(rt.alloc());
            }
        }
    }
    words
}

fn main(rt: HostRuntime) -> ExitCode {
    let words = words(&rt);
    let alloc = rt.alloc();
    let mut input = ReaderSource::new(rt.stdin());
    let mut out = WriterSink::new(rt.stdout());
    let mut err = WriterSink::new(rt.stderr());
    let mut shelf = PathShelf::new(rt);
    let status = castor_uncounted::<_, _, _, _, Brand>(
        alloc,
        words.as_slice(),
        &mut shelf,
        &mut input,
        &mut out,
        &mut err,
        Blank::new(1),
    );
    ExitCode::from(status.code())
}
