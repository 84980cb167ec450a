//! The types of what the queries of the tests read.

use castor_alg::Context;
use castor_val::{Memory, Ty};
use sqlite_items::Items;
use std::alloc::Global;

/// Tables of an id, a customer and a total, and of a name and a city.
pub fn tables(alloc: Global) -> Result<Items<Items<Ty>>, Memory> {
    let mut tables = Items::new(alloc);
    tables.push(Items::from_slice(alloc, &[Ty::Int, Ty::Text, Ty::Int])?)?;
    tables.push(Items::from_slice(alloc, &[Ty::Text, Ty::Text])?)?;
    Ok(tables)
}

/// The tables, no scopes, and as parameters a customer and a total.
pub fn context(alloc: Global) -> Result<Context, Memory> {
    Ok(Context {
        tables: tables(alloc)?,
        scopes: Items::new(alloc),
        params: Items::from_slice(alloc, &[Ty::Text, Ty::Int])?,
    })
}
