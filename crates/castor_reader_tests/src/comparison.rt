//! Whether the reader and the plain one give the same.

ghost use Rattle.std.specs.Prelude.{◌≡◌, ◌<◌};

use castor_alg::Held;
use castor_base::Steps;
use castor_code::Code;
use castor_image::{Image, open_image};
use castor_plain::{Given, Plain, plain_layout};
use castor_reader::{Reply, ask};
use castor_val::{Cell, Memory, compare_rows};
use std::alloc::Global;
use std::marker::{Brand, Model};
use std::sync::ledger::{Blank, Ledger};

/// What became of a question: the numbers of rows, or a fault, where both readers say the same.
#[derive(Clone, Copy, Debug, PartialEq, Eq)]
pub enum Outcome {
    Rows(usize),
    Faults,
    Differs,
    NoImage,
}

fn is_same(rows: &[Vec<Cell<'_>>], due: &[Vec<Cell<'_>>]) -> bool {
    if rows.len() != due.len() {
        return false;
    }
    for (row, other) in rows.iter().zip(due) {
        if !compare_rows(row.as_slice(), other.as_slice()).is_eq() {
            return false;
        }
    }
    true
}

fn judged(reply: &Reply<'_>, due: &Plain<'_>) -> Outcome {
    match reply {
        Reply::Rows(rows) => {
            if due.faults.is_empty() && is_same(rows.as_slice(), due.rows.as_slice()) {
                Outcome::Rows(rows.len())
            } else {
                Outcome::Differs
            }
        }
        Reply::Faults(faults) => {
            if *faults == due.faults && !faults.is_empty() {
                Outcome::Faults
            } else {
                Outcome::Differs
            }
        }
    }
}

fn due<'a>(
    alloc: Global,
    code: &'a Code,
    held: &'a Held,
    params: &[Cell<'a>],
) -> Result<Plain<'a>, Memory> {
    let given = Given {
        alloc,
        tables: &[],
        scopes: &[],
        params,
    };
    plain_layout(code, held, given)
}

fn answered<L: Ledger>(
    alloc: Global,
    image: &Image<'_>,
    params: &[Cell<'static>],
    steps: &mut Steps<L>,
) -> Result<Outcome, Memory> {
    let reply = ask(alloc, image, params, steps)?;
    let due = due(alloc, image.code(), image.decoded(), params)?;
    Ok(judged(&reply, &due))
}

/// What an image is answered with for these parameters.
pub fn asked(alloc: Global, bytes: &[u8], params: &[Cell<'static>]) -> Result<Outcome, Memory> {
    asked_by::<Brand>(alloc, bytes, params, Blank::new(1))
}

fn asked_by<L: Ledger>(
    alloc: Global,
    bytes: &[u8],
    params: &[Cell<'static>],
    blank: Blank,
) -> Result<Outcome, Memory>
    requires name { blank.name ≡ L.name }
    requires parts { blank.parts ≡ L.parts }
    requires some { 0 < blank.parts }
{
    let mut steps = Steps::<L>::new(blank);
    match open_image(alloc, bytes) {
        Ok(image) => answered(alloc, &image, params, &mut steps),
        Err(_) => Ok(Outcome::NoImage),
    }
}
