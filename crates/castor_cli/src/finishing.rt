//! The final query of a checked one, what is held for it, and why no image is built.

ghost use Rattle.std.specs.Prelude.{◌≡◌, IfOk, map};
ghost use Rattle.std.specs.List.{starts_with};
ghost use Rattle.castor_val.specs.Columns.{types_of};
ghost use Rattle.castor_schema.specs.WellTyped.{IsWellTyped, query_context};
ghost use Rattle.castor_script.specs.Finish.{finish_of};
ghost use Rattle.castor_script.specs.Kept.{MeansTheSame};
ghost use Rattle.castor_alg.specs.HeldData.{held_data};
ghost use Rattle.castor_alg.specs.Stages.{stage as stage_of};
ghost use Rattle.castor_cli.specs.Building.{held_last, if_finished, if_held, if_ordered, if_staged, is_unfinished, keeps_order, same_key};
ghost use Rattle.castor_cli.specs.Gives.{GivesStatus};

use crate::status::{BuildFault, ScriptFault, Status};
use castor_alg::{Context, Held, Key, Rel, copy};
use castor_schema::{Checked, Declared};
use castor_script::{StepError, finish, orders};
use castor_stage::{HoldError, hold, stage};
use castor_val::{Column, Memory, Table, Ty};
use sqlite_items::Items;
use std::alloc::Global;

// The types of columns.
fn types_of(alloc: Global, columns: &[Column]) -> Result<Items<Ty>, Memory>
    ensures { IfOk result (λ types. types ≡ types_of columns.now) }
{
    let mut types = Items::new(alloc);
    for column in columns {
        types.push(column.ty)?;
    }
    Ok(types)
}

// The column types of tables.
fn types_of_tables(alloc: Global, tables: &[Declared]) -> Result<Items<Items<Ty>>, Memory>
    ensures { IfOk result (λ types. types ≡ map (λ t. types_of t.columns) tables.now) }
{
    let mut all = Items::new(alloc);
    for table in tables {
        all.push(types_of(alloc, table.columns.as_slice())?)?;
    }
    Ok(all)
}

/// The types of the tables and parameters, and no scope. Linear in their number.
pub fn query_context(alloc: Global, checked: &Checked) -> Result<Context, Memory>
    ensures { IfOk result (λ context. context ≡ query_context checked.now) }
{
    let tables = types_of_tables(alloc, checked.tables.as_slice())?;
    let params = types_of(alloc, checked.params.as_slice())?;
    Ok(Context {
        tables,
        scopes: Items::new(alloc),
        params,
    })
}

// The status of a script whose only step is refused.
fn unfinished(why: StepError) -> Status
    ensures { result ≡ is_unfinished why }
{
    match why {
        StepError::Memory => Status::Memory,
        _ => Status::Script(ScriptFault::Refused { index: 0, why }),
    }
}

/// The query that the script `finish;` makes of a checked one. Costs what `copy` and `finish` do.
pub fn finished(alloc: Global, checked: &Checked) -> Result<Rel, Status>
    requires typed { IsWellTyped checked.now }
    ensures keeps { IfOk result (MeansTheSame (query_context checked.now) checked.now.query) }
    ensures row { GivesStatus (λ q. q) (if_finished (finish_of (query_context checked.now).tables checked.now.query)) result }
{
    let Ok(context) = query_context(alloc, checked) else {
        return Err(Status::Memory);
    };
    let Ok(query) = copy(alloc, &checked.query) else {
        return Err(Status::Memory);
    };
    match finish(alloc, query, &context) {
        Ok(query) => Ok(query),
        Err(why) => Err(unfinished(why)),
    }
}

// Whether the order of a query is known to be that of its final query.
fn keeps_order(alloc: Global, query: &Rel, last: &Rel) -> Result<bool, Memory>
    ensures { IfOk result (λ kept. kept ≡ keeps_order query.now last.now) }
{
    match query {
        Rel::Order(keys, _) => {
            let known = orders(alloc, last)?;
            Ok(begins_with(&known, keys.as_slice()))
        }
        _ => Ok(true),
    }
}

fn begins_with(known: &[Key], keys: &[Key]) -> bool
    ensures { result ≡ starts_with same_key known.now keys.now }
{
    known.starts_with(keys)
}

// Refuses a final query that isn't known to keep the order.
fn check_order(alloc: Global, query: &Rel, last: &Rel) -> Result<(), Status>
    ensures { GivesStatus (λ done. last.now) (if_ordered (keeps_order query.now last.now) last.now) result }
{
    match keeps_order(alloc, query, last) {
        Ok(true) => Ok(()),
        Ok(false) => Err(Status::Build(BuildFault::OrderLost)),
        Err(Memory) => Err(Status::Memory),
    }
}

// Refuses a final query of which a part is computed too early or too late.
fn check_stage(last: &Rel) -> Result<(), Status>
    ensures { GivesStatus (λ done. last.now) (if_staged (stage_of last.now) last.now) result }
{
    match stage(last) {
        Ok(()) => Ok(()),
        Err(why) => Err(Status::Build(BuildFault::Stage(why))),
    }
}

// What is held for a final query, which is refused where its stored values fault.
fn hold_data(alloc: Global, last: &Rel, tables: &[Table]) -> Result<Held, Status>
    ensures { GivesStatus (λ held. held) (if_held (held_data last.now tables.now)) result }
{
    match hold(alloc, last, tables) {
        Ok(held) => Ok(held),
        Err(HoldError::Faults(faults)) => Err(Status::Build(BuildFault::Faults(faults))),
        Err(HoldError::Memory) => Err(Status::Memory),
    }
}

/// What is held for a final query, after the checks of it, in their order: that it keeps the order of the
/// rows, that each part is computed in time, and that what is stored has no faults.
pub fn hold_last(alloc: Global, query: &Rel, last: &Rel, tables: &[Table]) -> Result<Held, Status>
    ensures { GivesStatus (λ held. held) (held_last query.now tables.now last.now) result }
{
    match check_order(alloc, query, last) {
        Ok(()) => match check_stage(last) {
            Ok(()) => hold_data(alloc, last, tables),
            Err(status) => Err(status),
        },
        Err(status) => Err(status),
    }
}
