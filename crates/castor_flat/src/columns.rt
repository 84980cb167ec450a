//! Columns by their numbers.

ghost use Rattle.std.specs.Prelude.{◌≡◌, ◌+◌, ◌<◌, ◌≤◌, ◌^◌, IfOk, map, replicate, false};
ghost use Rattle.castor_val.specs.declared.value.Value.TheVariants.{Bool as Truth};
ghost use Rattle.castor_alg.specs.declared.expr.Expr.{Col, Lit};
ghost use Rattle.castor_alg.specs.ColumnCount.{column_count};
ghost use Rattle.castor_flat.specs.Columns as spec;
ghost use Rattle.castor_flat.specs.Making.{Makes};

use castor_alg::{Expr, Rel, column_count};
use castor_val::{Memory, Ty, Value};
use sqlite_items::Items;
use std::alloc::Global;

/// Whether each column of an expression has a number from `from` on and below `to`. Linear in the tree.
pub fn has_columns_within(e: &Expr, from: u64, to: u64) -> bool
    ensures { result ≡ spec.has_columns_within from to e.now }
{
    match e {
        Expr::Col(at) => from <= u64::from(*at) && u64::from(*at) < to,
        Expr::Scope(_, _) => true,
        Expr::Param(_) => true,
        Expr::Lit(_) => true,
        Expr::Bin(_, a, b) => has_columns_within(a.get(), from, to)
            && has_columns_within(b.get(), from, to),
        Expr::Not(a) => has_columns_within(a.get(), from, to),
        Expr::If(condition, a, b) => has_columns_within(condition.get(), from, to)
            && has_columns_within(a.get(), from, to)
            && has_columns_within(b.get(), from, to),
    }
}

/// The number of columns of a relation. Columns have numbers of 32 bits, and no memory holds more.
/// Linear in the relation, without its expressions.
fn width(query: &Rel, tables: &[Items<Ty>]) -> Result<u32, Memory>
    ensures { IfOk result (λ columns. columns ≡ column_count tables.now query.now) }
{
    match u32::try_from(column_count(query, tables)) {
        Ok(columns) => Ok(columns),
        Err(_) => Err(Memory),
    }
}

/// The numbers of columns of two operands, which together have numbers of 32 bits, too.
pub fn widths(left: &Rel, right: &Rel, tables: &[Items<Ty>]) -> Result<(u32, u32), Memory>
    ensures left { IfOk result (λ columns. columns.0 ≡ column_count tables.now left.now) }
    ensures right { IfOk result (λ columns. columns.1 ≡ column_count tables.now right.now) }
    ensures both { IfOk result (λ columns. columns.0 + columns.1 < 2 ^ 32) }
{
    let left = width(left, tables)?;
    let right = width(right, tables)?;
    if left.checked_add(right).is_none() {
        return Err(Memory);
    }
    Ok((left, right))
}

/// The columns from one number on and below another.
fn columns_between(alloc: Global, from: u32, to: u32) -> Result<Items<Expr>, Memory>
    requires { from ≤ to }
    ensures { Makes (spec.columns_between from to) result }
{
    let mut columns = Items::new(alloc);
    for at in from..to {
        columns.push(Expr::Col(at))?;
    }
    Ok(columns)
}

/// What the columns of two operands side by side are where the operands change places. Linear in their
/// number.
pub fn changed_places(alloc: Global, left: u32, right: u32) -> Result<Items<Expr>, Memory>
    requires { right + left < 2 ^ 32 }
    ensures { Makes (spec.changed_places left right) result }
{
    let mut columns = columns_between(alloc, right, right + left)?;
    columns.append(columns_between(alloc, 0, right)?)?;
    Ok(columns)
}

/// As many missing columns.
fn missing(alloc: Global, count: u32) -> Result<Items<Expr>, Memory>
    ensures { Makes (replicate count (Lit (Truth false))) result }
{
    let mut columns = Items::new(alloc);
    for _at in 0..count {
        columns.push(Expr::Lit(Value::Bool(false)))?;
    }
    Ok(columns)
}

/// What the columns of two operands side by side are over the second alone; those of the first are missing
/// there. Linear in their number.
pub fn over_second(alloc: Global, left: u32, right: u32) -> Result<Items<Expr>, Memory>
    ensures { Makes (spec.over_second left right) result }
{
    let mut columns = missing(alloc, left)?;
    columns.append(columns_between(alloc, 0, right)?)?;
    Ok(columns)
}

/// The columns of these numbers. Linear in their number.
pub fn columns_of(alloc: Global, numbers: &[u32]) -> Result<Items<Expr>, Memory>
    ensures { Makes (map Col numbers.now) result }
{
    let mut columns = Items::new(alloc);
    for at in numbers {
        columns.push(Expr::Col(*at))?;
    }
    Ok(columns)
}
