//! The top call: a command over a shelf of files, an input and two outputs.

ghost use Rattle.std.specs.Prelude.{◌≡◌, ◌<◌, ◌↔◌, None, Some, Ok, List, ℕ, map, string_bytes};
ghost use Rattle.castor_base.specs.Causes.{Rose};
ghost use Rattle.castor_cli.specs.Commands.{command_of, names_in, word};
ghost use Rattle.castor_cli.specs.Complete.{Completes};
ghost use Rattle.castor_cli.specs.Headline.{ImagesMeanTheirQueries};
ghost use Rattle.castor_cli.specs.Outcome.{Ended, Filed, IsStarted, Printed, Taken, devices, used_by};
ghost use Rattle.castor_cli.specs.Telling.{Tells};
ghost use Rattle.castor_cli.specs.declared.status.Status.TheVariants as ended;

use crate::asking::{answer, ask_file};
use crate::command::{Command, command_in};
use crate::preparation::Stop;
use crate::status::Status;
use crate::storing::build_file;
use crate::telling::tell;
use castor_base::{Shelf, Sink, Source, Steps};
use std::alloc::Global;
use std::sync::ledger::{Blank, Ledger};

// A word, and an empty one where there are fewer.
fn word(words: &[String], at: usize) -> &str
    ensures { result.now ≡ word (map string_bytes words.now) at }
{
    match words.get(at) {
        Some(word) => word.as_str(),
        None => "",
    }
}

// The command that the words are a form of.
fn run<S: Shelf, I: Source, O: Sink, L: Ledger>(
    alloc: Global,
    words: &[String],
    shelf: &mut S,
    input: &mut I,
    out: &mut O,
    steps: &mut Steps<L>,
) -> Stop
    ensures printed { Printed (command_of (map string_bytes words.now)) (λ files x. IsStarted (map string_bytes words.now) files None (Ok x)) (S.files shelf.old) (I.left input.old)
        (O.given out.old) (O.given out.new) result.status }
    ensures taken { Taken (command_of (map string_bytes words.now)) (I.left input.old) (I.left input.new) result.status }
    ensures filed { Filed (command_of (map string_bytes words.now)) (λ files x. IsStarted (map string_bytes words.now) files None (Ok x)) (S.files shelf.old) (S.files shelf.new)
        (names_in (map string_bytes words.now)).image result.status }
    ensures how { Ended (S.files shelf.old) (S.files shelf.new) (λ name. Rose (S.read_faults shelf.old name) (S.read_faults shelf.new name))
        (used_by (command_of (map string_bytes words.now)) (devices (I.faults input.old) (I.faults input.new) (O.faults out.old) (O.faults out.new)
        (S.write_faults shelf.old (names_in (map string_bytes words.now)).image) (S.write_faults shelf.new (names_in (map string_bytes words.now)).image)))
        (IsStarted (map string_bytes words.now)) (names_in (map string_bytes words.now)) result.status result.table }
    ensures usage { (result.status ≡ ended.Usage) ↔ (command_of (map string_bytes words.now) ≡ None) }
    ensures steps { steps.new ≡ steps.old }
{
    match command_in(words) {
        None => Stop::new(alloc, Status::Usage),
        Some(Command::Answer) => {
            let query = word(words, 1);
            answer(alloc, query, word(words, 2), shelf, input, out, steps)
        }
        Some(Command::Build) => {
            let query = word(words, 1);
            build_file(alloc, query, word(words, 2), word(words, 3), shelf)
        }
        Some(Command::Ask) => ask_file(alloc, word(words, 1), shelf, input, out, steps),
        Some(_) => Stop::new(alloc, Status::NotYet),
    }
}

/// Runs the command that the words ask for.
///
/// - `build QUERY SCRIPT IMAGE` reads the query, the script and the tables from the shelf, builds their
///   image and writes it under the name IMAGE.
/// - `ask IMAGE` reads and opens an image, reads the input to its end, and prints the reply of each line.
/// - `answer QUERY SCRIPT` builds the image in memory and asks it.
///
/// The status is the first that applies, in the order: `Usage`, where the words are no form of a
/// command, or `NotYet`, where they are of one that isn't there yet. For `build` and `answer` then the
/// query's file, its text, its names and types; the script's file and its text; for each table its file and
/// then its form; the image: its script's step may be refused, it may lose the order, compute a part too
/// early or too late, store what faults, or be too large. For `ask` the image's file, and whether it is an
/// image. For `build` last the write of the image, and for the others the input and then the output.
/// `Memory` may come at any point. Each status but `Ok` writes one line to `err`, and a failure of `err`
/// changes nothing else.
///
/// Building is linear in the files, with what computing the stored values costs; asking is linear in the
/// image and the input, with what reading the image costs for each line. Memory is the files, the image,
/// its data as a tree, the input and one reply.
pub fn castor<S: Shelf, I: Source, O: Sink, E: Sink, L: Ledger>(
    alloc: Global,
    words: &[String],
    shelf: &mut S,
    input: &mut I,
    out: &mut O,
    err: &mut E,
    steps: &mut Steps<L>,
) -> Status
    // With Ok of `ask` and `answer` the output grew by the image's reply to each line, in order; with Write or
    // Memory by a prefix of that; `build` gives it nothing.
    ensures printed { Printed (command_of (map string_bytes words.now)) (λ files x. IsStarted (map string_bytes words.now) files None (Ok x)) (S.files shelf.old) (I.left input.old)
        (O.given out.old) (O.given out.new) result }

    // With Ok of `ask` and `answer` nothing of the input is left, and what comes before the input takes nothing of
    // it; nor does `build`.
    ensures taken { Taken (command_of (map string_bytes words.now)) (I.left input.old) (I.left input.new) result }

    // With Ok of `build` the image stands under its name, and the other files stay; else all files stay, but where
    // writing the image failed.
    ensures filed { Filed (command_of (map string_bytes words.now)) (λ files x. IsStarted (map string_bytes words.now) files None (Ok x)) (S.files shelf.old) (S.files shelf.new)
        (names_in (map string_bytes words.now)).image result }

    // An image that is built has, under all parameters of the query's types, the rows that the query means over
    // its tables, in their order, or the faults that it means.
    ensures meaning { ImagesMeanTheirQueries }

    // The status is the first that applies, and one that names a failure has a count that rose. One line
    // tells of it, with the name of the table that it speaks of.
    ensures how { (table : List ℕ) × Ended (S.files shelf.old) (S.files shelf.new) (λ name. Rose (S.read_faults shelf.old name) (S.read_faults shelf.new name))
        (used_by (command_of (map string_bytes words.now)) (devices (I.faults input.old) (I.faults input.new) (O.faults out.old) (O.faults out.new)
        (S.write_faults shelf.old (names_in (map string_bytes words.now)).image) (S.write_faults shelf.new (names_in (map string_bytes words.now)).image)))
        (IsStarted (map string_bytes words.now)) (names_in (map string_bytes words.now)) result table
        × Tells (map string_bytes words.now) table result (E.given err.old) (E.given err.new) (E.faults err.old) (E.faults err.new) }
    ensures usage { (result ≡ ended.Usage) ↔ (command_of (map string_bytes words.now) ≡ None) }

    // Where the files and the input are told, no cause of a refusal holds and no count rose, the status is Ok or Memory.
    ensures complete { Completes (command_of (map string_bytes words.now)) (S.files shelf.old) (IsStarted (map string_bytes words.now)) (I.left input.old) (λ name. Rose (S.read_faults shelf.old name) (S.read_faults shelf.new name))
        (used_by (command_of (map string_bytes words.now)) (devices (I.faults input.old) (I.faults input.new) (O.faults out.old) (O.faults out.new)
        (S.write_faults shelf.old (names_in (map string_bytes words.now)).image) (S.write_faults shelf.new (names_in (map string_bytes words.now)).image))) result }

    // No step is taken yet.
    ensures steps { steps.new ≡ steps.old }
{
    let stop = run(alloc, words, shelf, input, out, steps);
    tell(err, words, stop.table.as_str(), stop.status);
    stop.status
}

/// Runs `castor` for a caller that counts no steps.
pub fn castor_uncounted<S: Shelf, I: Source, O: Sink, E: Sink, L: Ledger>(
    alloc: Global,
    words: &[String],
    shelf: &mut S,
    input: &mut I,
    out: &mut O,
    err: &mut E,
    blank: Blank,
) -> Status
    requires name { blank.name ≡ L.name }
    requires parts { blank.parts ≡ L.parts }
    requires some { 0 < blank.parts }
    ensures printed { Printed (command_of (map string_bytes words.now)) (λ files x. IsStarted (map string_bytes words.now) files None (Ok x)) (S.files shelf.old) (I.left input.old)
        (O.given out.old) (O.given out.new) result }
    ensures taken { Taken (command_of (map string_bytes words.now)) (I.left input.old) (I.left input.new) result }
    ensures filed { Filed (command_of (map string_bytes words.now)) (λ files x. IsStarted (map string_bytes words.now) files None (Ok x)) (S.files shelf.old) (S.files shelf.new)
        (names_in (map string_bytes words.now)).image result }
    ensures meaning { ImagesMeanTheirQueries }
    ensures how { (table : List ℕ) × Ended (S.files shelf.old) (S.files shelf.new) (λ name. Rose (S.read_faults shelf.old name) (S.read_faults shelf.new name))
        (used_by (command_of (map string_bytes words.now)) (devices (I.faults input.old) (I.faults input.new) (O.faults out.old) (O.faults out.new)
        (S.write_faults shelf.old (names_in (map string_bytes words.now)).image) (S.write_faults shelf.new (names_in (map string_bytes words.now)).image)))
        (IsStarted (map string_bytes words.now)) (names_in (map string_bytes words.now)) result table
        × Tells (map string_bytes words.now) table result (E.given err.old) (E.given err.new) (E.faults err.old) (E.faults err.new) }
    ensures usage { (result ≡ ended.Usage) ↔ (command_of (map string_bytes words.now) ≡ None) }
    ensures complete { Completes (command_of (map string_bytes words.now)) (S.files shelf.old) (IsStarted (map string_bytes words.now)) (I.left input.old) (λ name. Rose (S.read_faults shelf.old name) (S.read_faults shelf.new name))
        (used_by (command_of (map string_bytes words.now)) (devices (I.faults input.old) (I.faults input.new) (O.faults out.old) (O.faults out.new)
        (S.write_faults shelf.old (names_in (map string_bytes words.now)).image) (S.write_faults shelf.new (names_in (map string_bytes words.now)).image))) result }
{
    let mut steps: Steps<L> = Steps::new(blank);
    castor(alloc, words, shelf, input, out, err, &mut steps)
}
