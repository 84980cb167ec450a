//! The values of expressions: one row of one value, and projections of rows.

ghost use Rattle.std.specs.Prelude.{◌≡◌, ◌++◌, IfOk, OnOk, map, [], ◌∷◌};
ghost use Rattle.castor_val.specs.Values.{union, value_of};
ghost use Rattle.castor_alg.specs.Answers.{answer_of};
ghost use Rattle.castor_alg.specs.Expression.{expr_values};
ghost use Rattle.castor_alg.specs.Rows.{faults_in, row_in, selected, single};
ghost use Rattle.castor_alg.specs.Scopes.{scopes_of};
ghost use Rattle.castor_eval.specs.Answers.{put_back};
ghost use Rattle.castor_eval.specs.Parts.{out_of};

use crate::cells::load_cells;
use crate::part::Part;
use castor_alg::{Env, Expr, Out, value};
use castor_val::{Cell, Faults, Memory, Row, Table};
use std::alloc::Global;

/// One row of the value of an expression, none where it faults.
pub fn scalar<'e, 'a, 't>(
    alloc: Global,
    e: &'a Expr,
    env: &Env<'e, 'a>,
    params: &[Cell<'a>],
) -> Result<Part<'t>, Memory>
    ensures { IfOk result (λ part. out_of part ≡ single (expr_values (e.now ∷ []) [] (scopes_of env.now) (map value_of params.now))) }
{
    let mut rows = Table::new(alloc);
    match value(e, &[], env, params) {
        Ok(cell) => {
            let mut row = Row::new(alloc);
            row.push(cell.to_value(alloc)?)?;
            rows.push(row)?;
            Ok(Part::made(Out {
                rows,
                faults: Faults::NONE,
            }))
        }
        Err(faults) => Ok(Part::made(Out { rows, faults })),
    }
}

/// The values of expressions on each row on which none of them faults. Linear in the rows and in what
/// the expressions cost on each.
pub fn select<'e, 'a, 't>(
    alloc: Global,
    es: &'a [Expr],
    from: Part,
    env: &Env<'e, 'a>,
    params: &[Cell<'a>],
) -> Result<Part<'t>, Memory>
    ensures { IfOk result (λ part. out_of part ≡ selected (λ row. expr_values es.now row (scopes_of env.now) (map value_of params.now)) (out_of from.entry)) }
{
    let faults = from.faults;
    let out = select_rows(alloc, es, from.as_slice(), faults, env, params)?;
    Ok(Part::made(out))
}

fn select_rows<'e, 'a>(
    alloc: Global,
    es: &'a [Expr],
    rows: &'a [Row],
    faults: Faults,
    env: &Env<'e, 'a>,
    params: &[Cell<'a>],
) -> Result<Out, Memory>
    ensures { IfOk result (λ out. out ≡ selected (λ row. expr_values es.now row (scopes_of env.now) (map value_of params.now)) (record { rows = rows.now; faults = faults })) }
{
    let mut cells = Vec::new(alloc);
    let mut out = Out {
        rows: Table::new(alloc),
        faults,
    };
    for row in rows {
        load_cells(&mut cells, row)?;
        let answer = values_of(alloc, es, cells.as_slice(), env, params)?;
        add_answer(&mut out, answer)?;
    }
    Ok(out)
}

/// The values of expressions on a row where none of them faults, else the faults of all.
pub fn values_of<'e, 'a>(
    alloc: Global,
    es: &'a [Expr],
    row: &[Cell<'a>],
    env: &Env<'e, 'a>,
    params: &[Cell<'a>],
) -> Result<Result<Row, Faults>, Memory>
    ensures { IfOk result (λ a. a ≡ expr_values es.now (map value_of row.now) (scopes_of env.now) (map value_of params.now)) }
{
    let mut answer = Ok(Row::new(alloc));
    for e in es {
        answer = add_value(alloc, answer, value(e, row, env, params))?;
    }
    Ok(answer)
}

/// The values so far and one more, where nothing faults, else the faults of all.
pub fn add_value(
    alloc: Global,
    answer: Result<Row, Faults>,
    next: Result<Cell, Faults>,
) -> Result<Result<Row, Faults>, Memory>
    ensures { IfOk result (λ a. a ≡ put_back answer (answer_of next.entry)) }
{
    match answer {
        Ok(mut row) => match next {
            Ok(cell) => {
                row.push(cell.to_value(alloc)?)?;
                Ok(Ok(row))
            }
            Err(faults) => Ok(Err(faults)),
        },
        Err(faults) => match next {
            Ok(_) => Ok(Err(faults)),
            Err(more) => Ok(Err(faults.union(more))),
        },
    }
}

/// Puts the row of an answer at the end, or its faults to those that were met.
pub fn add_answer(out: &mut Out, answer: Result<Row, Faults>) -> Result<(), Memory>
    ensures rows { OnOk result (out.new.rows ≡ out.old.rows ++ row_in answer) }
    ensures faults { OnOk result (out.new.faults ≡ union out.old.faults (faults_in answer)) }
{
    match answer {
        Ok(row) => {
            out.rows.push(row)?;
            Ok(())
        }
        Err(faults) => {
            out.faults = out.faults.union(faults);
            Ok(())
        }
    }
}
