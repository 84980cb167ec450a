//! The command that builds an image and writes it.

ghost use Rattle.std.specs.Prelude.{None, Ok};
ghost use Rattle.castor_base.specs.Causes.{Rose};
ghost use Rattle.castor_cli.specs.Outcome.{Ended, EndsStored, IsImageFor, IsNotTooLong, IsNotUsage, Stores, Written, storing};
ghost use Rattle.castor_cli.specs.Preparation.{IsBuilt};

use crate::preparation::{Stop, prepare};
use crate::status::{Place, Status};
use castor_base::Shelf;
use std::alloc::Global;

// Writes an image under a name.
fn store<S: Shelf>(shelf: &mut S, name: &str, image: &[u8]) -> Status
    ensures stored { Stores (S.files shelf.old) (S.files shelf.new) name.now image.now result }
    ensures ends { EndsStored (Rose (S.write_faults shelf.old name.now) (S.write_faults shelf.new name.now)) result }
{
    match shelf.write(name, image) {
        Ok(()) => Status::Ok,
        Err(_) => Status::Write(Place::Image),
    }
}

/// The command `build`: builds the image of a query, a script and tables, and writes it under a name.
pub fn build_file<S: Shelf>(
    alloc: Global,
    query: &str,
    script: &str,
    name: &str,
    shelf: &mut S,
) -> Stop
    ensures written { Written (IsImageFor (λ files x. IsBuilt None files query.now script.now (Ok x))) (S.files shelf.old) (S.files shelf.new) name.now result.status }
    ensures how { Ended (S.files shelf.old) (S.files shelf.new) (λ n. Rose (S.read_faults shelf.old n) (S.read_faults shelf.new n))
        (storing (Rose (S.write_faults shelf.old name.now) (S.write_faults shelf.new name.now)))
        (λ files broken. IsBuilt broken files query.now script.now) (record { query = query.now; script = script.now; image = name.now }) result.status result.table }
    ensures usage { IsNotUsage result.status }
    ensures input { IsNotTooLong result.status }
{
    match prepare(alloc, shelf, query, script) {
        Ok(image) => {
            let status = store(shelf, name, &image);
            Stop::new(alloc, status)
        }
        Err(stop) => stop,
    }
}
