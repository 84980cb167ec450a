//! The rows on which a condition is true.

ghost use Rattle.std.specs.Prelude.{◌≡◌, IfOk, map};
ghost use Rattle.castor_val.specs.Values.{value_of};
ghost use Rattle.castor_alg.specs.Answers.{answer_of};
ghost use Rattle.castor_alg.specs.Expression.{expr_value};
ghost use Rattle.castor_alg.specs.Rows.{faults_in, filtered, is_true, union_over};
ghost use Rattle.castor_alg.specs.Scopes.{scopes_of};
ghost use Rattle.castor_reader.specs.Answers.{out_of, values_in};

use crate::answer::Answer;
use crate::keep::keep_marked;
use castor_alg::{Env, Expr, value};
use castor_val::{Cell, Faults, Memory};
use std::alloc::Global;

/// Whether a condition is true on a row, and its faults there.
#[derive(Clone, Copy)]
pub struct Test {
    pub holds: bool,
    pub faults: Faults,
}

/// On which rows a condition is true, and its faults on all of them.
#[derive(Drop)]
pub struct Tests {
    pub marks: Vec<bool>,
    pub faults: Faults,
}

/// The rows on which a condition is true, moved. Linear in the rows and in what the condition costs on
/// each.
pub fn filter<'e, 'a>(
    alloc: Global,
    e: &'a Expr,
    from: Answer<'a>,
    env: &Env<'e, 'a>,
    params: &[Cell<'a>],
) -> Result<Answer<'a>, Memory>
    ensures { IfOk result (λ answer. out_of answer ≡ filtered (λ row. expr_value e.now row (scopes_of env.now) (map value_of params.now)) (out_of from.entry)) }
{
    let Answer { rows, faults } = from;
    let tests = test_rows(alloc, e, rows.as_slice(), env, params)?;
    Ok(Answer {
        rows: keep_marked(alloc, rows, tests.marks.as_slice())?,
        faults: faults.union(tests.faults),
    })
}

fn test_rows<'e, 'a>(
    alloc: Global,
    e: &'a Expr,
    rows: &[Vec<Cell<'a>>],
    env: &Env<'e, 'a>,
    params: &[Cell<'a>],
) -> Result<Tests, Memory>
    ensures marks { IfOk result (λ t. t.marks.items ≡ map (λ row. is_true (expr_value e.now row (scopes_of env.now) (map value_of params.now))) (map values_in rows.now)) }
    ensures faults { IfOk result (λ t. t.faults ≡ union_over (λ row. faults_in (expr_value e.now row (scopes_of env.now) (map value_of params.now))) (map values_in rows.now)) }
{
    let mut marks = Vec::new(alloc);
    let mut faults = Faults::NONE;
    for row in rows {
        let test = test_of(value(e, row.as_slice(), env, params));
        marks.push(test.holds)?;
        faults = faults.union(test.faults);
    }
    Ok(Tests { marks, faults })
}

/// What the answer of a condition says.
pub fn test_of(answer: Result<Cell, Faults>) -> Test
    ensures holds { result.holds ≡ is_true (answer_of answer.entry) }
    ensures faults { result.faults ≡ faults_in (answer_of answer.entry) }
{
    match answer {
        Ok(Cell::Bool(holds)) => Test {
            holds,
            faults: Faults::NONE,
        },
        Ok(Cell::Int(_)) => Test {
            holds: false,
            faults: Faults::NONE,
        },
        Ok(Cell::Text(_)) => Test {
            holds: false,
            faults: Faults::NONE,
        },
        Err(faults) => Test {
            holds: false,
            faults,
        },
    }
}
