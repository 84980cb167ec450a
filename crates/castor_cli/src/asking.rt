//! The commands that ask an image: the one of a file, and the one that is built of a query.

ghost use Rattle.std.specs.Prelude.{◌≡◌, List, ℕ, None, Ok};
ghost use Rattle.castor_base.specs.Causes.{Rose};
ghost use Rattle.castor_base.specs.Files.{SameFiles};
ghost use Rattle.castor_cli.specs.Answers.{content_in};
ghost use Rattle.castor_cli.specs.Opening.{IsOpened};
ghost use Rattle.castor_cli.specs.Outcome.{Ended, EndsOpened, EndsReady, IsNotUsage, PrintedBy, PrintedReplies, TakenAll, asking};
ghost use Rattle.castor_cli.specs.Preparation.{IsBuilt};
ghost use Rattle.castor_image.specs.Images.{IsImageOf};

use crate::answers::{PrintError, print_answers};
use crate::preparation::{Stop, prepare, read_file};
use crate::status::{Place, ReadFault, Status};
use castor_base::{Shelf, Sink, Source, Steps, TakeError, read_all};
use castor_image::{Image, OpenError, open_image};
use castor_val::{MAX_FILE_BYTES, MAX_INPUT_BYTES};
use std::alloc::Global;
use std::sync::ledger::Ledger;

// Reads the input to its end, and prints the image's reply to each line.
fn answer_input<I: Source, O: Sink, L: Ledger>(
    alloc: Global,
    image: &Image<'_>,
    input: &mut I,
    out: &mut O,
    steps: &mut Steps<L>,
) -> Status
    ensures printed { PrintedBy (λ x. x ≡ content_in image.now) (I.left input.old) (O.given out.old) (O.given out.new) result }
    ensures taken { TakenAll (I.left input.old) (I.left input.new) result }
    ensures ends { EndsReady (Rose (I.faults input.old) (I.faults input.new)) (Rose (O.faults out.old) (O.faults out.new)) result }
    ensures steps { steps.new ≡ steps.old }
{
    match read_all(alloc, input, MAX_INPUT_BYTES) {
        Ok(text) => match print_answers(alloc, image, &text, out, steps) {
            Ok(()) => Status::Ok,
            Err(PrintError::Failed) => Status::Write(Place::Output),
            Err(PrintError::Memory) => Status::Memory,
        },
        Err(TakeError::Failed) => Status::Read(Place::Input, ReadFault::Failed),
        Err(TakeError::TooLong) => Status::TooLong,
        Err(TakeError::Memory) => Status::Memory,
    }
}

// Opens an image, reads the input to its end, and prints the image's reply to each line.
fn answer_image<I: Source, O: Sink, L: Ledger>(
    alloc: Global,
    bytes: &[u8],
    input: &mut I,
    out: &mut O,
    steps: &mut Steps<L>,
) -> Status
    ensures printed { PrintedBy (λ x. IsImageOf x bytes.now) (I.left input.old) (O.given out.old) (O.given out.new) result }
    ensures taken { TakenAll (I.left input.old) (I.left input.new) result }
    ensures ends { EndsOpened bytes.now (Rose (I.faults input.old) (I.faults input.new)) (Rose (O.faults out.old) (O.faults out.new)) result }
    ensures steps { steps.new ≡ steps.old }
{
    match open_image(alloc, bytes) {
        Ok(image) => answer_input(alloc, &image, input, out, steps),
        Err(OpenError::NotImage) => Status::Image,
        Err(OpenError::Memory) => Status::Memory,
    }
}

/// The command `answer`: builds the image of a query, a script and tables in memory, reads the input to its
/// end, and prints the image's reply to each line.
pub fn answer<S: Shelf, I: Source, O: Sink, L: Ledger>(
    alloc: Global,
    query: &str,
    script: &str,
    shelf: &mut S,
    input: &mut I,
    out: &mut O,
    steps: &mut Steps<L>,
) -> Stop
    ensures printed { PrintedReplies (λ files x. IsBuilt None files query.now script.now (Ok x)) (S.files shelf.old) (I.left input.old) (O.given out.old) (O.given out.new) result.status }
    ensures taken { TakenAll (I.left input.old) (I.left input.new) result.status }
    ensures how { (image : List ℕ) → Ended (S.files shelf.old) (S.files shelf.new) (λ name. Rose (S.read_faults shelf.old name) (S.read_faults shelf.new name))
        (asking (Rose (I.faults input.old) (I.faults input.new)) (Rose (O.faults out.old) (O.faults out.new)))
        (λ files broken. IsBuilt broken files query.now script.now) (record { query = query.now; script = script.now; image = image }) result.status result.table }
    ensures usage { IsNotUsage result.status }
    ensures shelf { SameFiles (S.files shelf.old) (S.files shelf.new) }
    ensures steps { steps.new ≡ steps.old }
{
    match prepare(alloc, shelf, query, script) {
        Ok(image) => {
            let status = answer_image(alloc, &image, input, out, steps);
            Stop::new(alloc, status)
        }
        Err(stop) => stop,
    }
}

// How asking the image of a file ends.
fn ask_status<S: Shelf, I: Source, O: Sink, L: Ledger>(
    alloc: Global,
    name: &str,
    shelf: &mut S,
    input: &mut I,
    out: &mut O,
    steps: &mut Steps<L>,
) -> Status
    ensures printed { PrintedReplies (λ files x. IsOpened None files name.now (Ok x)) (S.files shelf.old) (I.left input.old) (O.given out.old) (O.given out.new) result }
    ensures taken { TakenAll (I.left input.old) (I.left input.new) result }
    ensures how { (query script table : List ℕ) → Ended (S.files shelf.old) (S.files shelf.new) (λ name. Rose (S.read_faults shelf.old name) (S.read_faults shelf.new name))
        (asking (Rose (I.faults input.old) (I.faults input.new)) (Rose (O.faults out.old) (O.faults out.new)))
        (λ files broken. IsOpened broken files name.now) (record { query = query; script = script; image = name.now }) result table }
    ensures usage { IsNotUsage result }
    ensures shelf { SameFiles (S.files shelf.old) (S.files shelf.new) }
    ensures steps { steps.new ≡ steps.old }
{
    match read_file(alloc, shelf, Place::Image, name, MAX_FILE_BYTES) {
        Ok(bytes) => answer_image(alloc, &bytes, input, out, steps),
        Err(status) => status,
    }
}

/// The command `ask`: opens the image of a file, reads the input to its end, and prints the image's reply to
/// each line.
pub fn ask_file<S: Shelf, I: Source, O: Sink, L: Ledger>(
    alloc: Global,
    name: &str,
    shelf: &mut S,
    input: &mut I,
    out: &mut O,
    steps: &mut Steps<L>,
) -> Stop
    ensures printed { PrintedReplies (λ files x. IsOpened None files name.now (Ok x)) (S.files shelf.old) (I.left input.old) (O.given out.old) (O.given out.new) result.status }
    ensures taken { TakenAll (I.left input.old) (I.left input.new) result.status }
    ensures how { (query script : List ℕ) → Ended (S.files shelf.old) (S.files shelf.new) (λ name. Rose (S.read_faults shelf.old name) (S.read_faults shelf.new name))
        (asking (Rose (I.faults input.old) (I.faults input.new)) (Rose (O.faults out.old) (O.faults out.new)))
        (λ files broken. IsOpened broken files name.now) (record { query = query; script = script; image = name.now }) result.status result.table }
    ensures usage { IsNotUsage result.status }
    ensures shelf { SameFiles (S.files shelf.old) (S.files shelf.new) }
    ensures steps { steps.new ≡ steps.old }
{
    let status = ask_status(alloc, name, shelf, input, out, steps);
    Stop::new(alloc, status)
}
