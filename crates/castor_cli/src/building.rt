//! The image of a checked query over its tables, and why none is built.

ghost use Rattle.castor_cli.specs.Building.{BuildsImage, built, built_last};
ghost use Rattle.castor_cli.specs.Causes.{items_of};
ghost use Rattle.castor_cli.specs.Sound.{IsSound, TablesFit};
ghost use Rattle.castor_cli.specs.Laying.{IsFinal};

use crate::finishing::{finished, hold_last};
use crate::imaging::image_of;
use crate::status::Status;
use castor_alg::Rel;
use castor_schema::Checked;
use castor_val::Table;
use std::alloc::Global;

// The image of a final query, after the checks of it.
fn build_last(
    alloc: Global,
    checked: &Checked,
    last: &Rel,
    tables: &[Table],
) -> Result<Vec<u8>, Status>
    requires sound { IsSound checked.now }
    requires fit { TablesFit checked.now tables.now }
    requires made { IsFinal checked.now last.now }
    ensures { BuildsImage (built_last checked.now tables.now last.now) (items_of result) }
{
    match hold_last(alloc, &checked.query, last, tables) {
        Ok(held) => image_of(alloc, checked, last, &held),
        Err(status) => Err(status),
    }
}

/// The image of a checked query over its tables: what the script `finish;` makes of the query, and what is
/// stored for it.
///
/// The refusals are, in this order: `Script` where the step is refused; `Build` with `OrderLost` where the
/// checked query has an `orderby` at its root and the final query isn't known to keep its order, with
/// `Stage` where a part of the final query is computed too early or too late, with `Faults` where what it
/// stores has faults, all of them, and with `TooLarge` where the image has more than 268,435,456 bytes,
/// which is known before it is written. Else `Memory`. Costs what finishing the query, computing what it
/// stores and writing the image cost, each byte of which is written once.
pub fn build(alloc: Global, checked: &Checked, tables: &[Table]) -> Result<Vec<u8>, Status>
    requires sound { IsSound checked.now }
    requires fit { TablesFit checked.now tables.now }
    ensures { BuildsImage (built checked.now tables.now) (items_of result) }
{
    match finished(alloc, checked) {
        Ok(last) => build_last(alloc, checked, &last, tables),
        Err(status) => Err(status),
    }
}
