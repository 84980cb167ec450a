//! Sources: relations that are computed as the data is built.

ghost use Rattle.std.specs.Prelude.{◌≡◌, [], IfOk};
ghost use Rattle.castor_alg.specs.Distinct.{deduped};
ghost use Rattle.castor_alg.specs.Meaning.{meaning};
ghost use Rattle.castor_alg.specs.Scopes.{scopes_in, scopes_of};
ghost use Rattle.castor_alg.specs.declared.rel.Rel.{Dedup};

use castor_alg::{Env, Out, OwnedEnv, Rel, boxed, copy};
use castor_eval::eval;
use castor_val::{Memory, Row, Table};
use std::alloc::Global;

/// The rows and the faults of a relation under the rows of the scopes in force, without parameters. As
/// costly as its evaluation; the rows of the scopes in force are copied.
pub fn source_rows<'e, 'a>(
    alloc: Global,
    r: &Rel,
    tables: &[Table],
    env: &Env<'e, 'a>,
) -> Result<Out, Memory>
    ensures { IfOk result (λ out. out ≡ meaning r.now tables.now (scopes_of env.now) []) }
{
    let env = OwnedEnv {
        scopes: owned_scopes(alloc, env)?,
        params: Row::new(alloc),
    };
    Ok(eval(alloc, r, tables, &env)?)
}

/// The distinct rows of a relation, by first appearance, and its faults.
///
/// The evaluator finds them by hashing. It is asked for a relation of its own, whose operand is a copy:
/// the copy is linear in the tree, which the evaluation goes over too.
pub fn distinct_rows<'e, 'a>(
    alloc: Global,
    r: &Rel,
    tables: &[Table],
    env: &Env<'e, 'a>,
) -> Result<Out, Memory>
    ensures { IfOk result (λ out. out ≡ deduped (meaning r.now tables.now (scopes_of env.now) [])) }
{
    let distinct = dedup(alloc, r)?;
    let out = source_rows(alloc, &distinct, tables, env);
    let_go(distinct);
    Ok(out?)
}

// A tree is let go here, since a search for proofs is slow where it is let go beside other facts.
fn let_go(_: Rel) {}

fn dedup(alloc: Global, r: &Rel) -> Result<Rel, Memory>
    ensures { IfOk result (λ distinct. distinct ≡ Dedup r.now) }
{
    Ok(Rel::Dedup(boxed(alloc, copy(alloc, r))?))
}

// The bindings, the innermost last.
fn owned_scopes<'e, 'a>(alloc: Global, env: &Env<'e, 'a>) -> Result<Vec<(u32, Row)>, Memory>
    ensures { IfOk result (λ scopes. scopes_in scopes.items ≡ scopes_of env.now) }
{
    match env {
        Env::Empty => Ok(Vec::new(alloc)),
        Env::Bind(k, row, outer) => {
            let row = Row::from_cells(alloc, row)?;
            let mut scopes = owned_scopes(alloc, outer)?;
            scopes.push((*k, row))?;
            Ok(scopes)
        }
    }
}
