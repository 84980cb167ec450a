//! The values of expressions: one row of them, and projections of rows.

ghost use Rattle.std.specs.Prelude.{◌≡◌, ◌++◌, IfOk, OnOk, map};
ghost use Rattle.castor_val.specs.Values.{union, value_of};
ghost use Rattle.castor_alg.specs.Answers.{answer_of};
ghost use Rattle.castor_alg.specs.Expression.{expr_values};
ghost use Rattle.castor_alg.specs.Rows.{faults_in, row_in, selected};
ghost use Rattle.castor_alg.specs.Scopes.{scopes_of};
ghost use Rattle.castor_eval.specs.Answers.{put_back};
ghost use Rattle.castor_reader.specs.Answers.{out_of, row_of, values_in};

use crate::answer::Answer;
use castor_alg::{Env, Expr, value};
use castor_val::{Cell, Faults, Memory};
use std::alloc::Global;

/// The values of expressions on each row on which none of them faults. Linear in the rows and in what
/// the expressions cost on each.
pub fn select<'e, 'a>(
    alloc: Global,
    es: &'a [Expr],
    from: Answer<'a>,
    env: &Env<'e, 'a>,
    params: &[Cell<'a>],
) -> Result<Answer<'a>, Memory>
    ensures { IfOk result (λ answer. out_of answer ≡ selected (λ row. expr_values es.now row (scopes_of env.now) (map value_of params.now)) (out_of from.entry)) }
{
    let faults = from.faults;
    Ok(select_rows(alloc, es, from.rows.as_slice(), faults, env, params)?)
}

fn select_rows<'e, 'a>(
    alloc: Global,
    es: &'a [Expr],
    rows: &[Vec<Cell<'a>>],
    faults: Faults,
    env: &Env<'e, 'a>,
    params: &[Cell<'a>],
) -> Result<Answer<'a>, Memory>
    ensures { IfOk result (λ answer. out_of answer ≡ selected (λ row. expr_values es.now row (scopes_of env.now) (map value_of params.now)) (record { rows = map values_in rows.now; faults = faults })) }
{
    let mut answer = Answer {
        rows: Vec::new(alloc),
        faults,
    };
    for row in rows {
        let values = values_of(alloc, es, row.as_slice(), env, params)?;
        add_row(&mut answer, values)?;
    }
    Ok(answer)
}

/// The values of expressions on a row where none of them faults, else the faults of all. Linear in what
/// the expressions cost.
pub fn values_of<'e, 'a>(
    alloc: Global,
    es: &'a [Expr],
    row: &[Cell<'a>],
    env: &Env<'e, 'a>,
    params: &[Cell<'a>],
) -> Result<Result<Vec<Cell<'a>>, Faults>, Memory>
    ensures { IfOk result (λ a. row_of a ≡ expr_values es.now (map value_of row.now) (scopes_of env.now) (map value_of params.now)) }
{
    let mut answer = Ok(Vec::new(alloc));
    for e in es {
        answer = add_cell(answer, value(e, row, env, params))?;
    }
    Ok(answer)
}

/// The cells so far and one more, where nothing faults, else the faults of all.
pub fn add_cell<'a>(
    answer: Result<Vec<Cell<'a>>, Faults>,
    next: Result<Cell<'a>, Faults>,
) -> Result<Result<Vec<Cell<'a>>, Faults>, Memory>
    ensures { IfOk result (λ a. row_of a ≡ put_back (row_of answer.entry) (answer_of next.entry)) }
{
    match answer {
        Ok(mut row) => match next {
            Ok(cell) => {
                row.push(cell)?;
                Ok(Ok(row))
            }
            Err(faults) => Ok(Err(faults)),
        },
        Err(faults) => match next {
            Ok(_) => Ok(Err(faults)),
            Err(more) => Ok(Err(faults.union(more))),
        },
    }
}

/// Puts a row at the end, or its faults to those that were met.
pub fn add_row<'a>(
    answer: &mut Answer<'a>,
    row: Result<Vec<Cell<'a>>, Faults>,
) -> Result<(), Memory>
    ensures rows { OnOk result ((out_of answer.new).rows ≡ (out_of answer.old).rows ++ row_in (row_of row.entry)) }
    ensures faults { OnOk result (answer.new.faults ≡ union answer.old.faults (faults_in (row_of row.entry))) }
{
    match row {
        Ok(row) => {
            answer.rows.push(row)?;
            Ok(())
        }
        Err(faults) => {
            answer.faults = answer.faults.union(faults);
            Ok(())
        }
    }
}
