//! The types of expressions.

ghost use Rattle.std.specs.Prelude.{◌≡◌, ◌==◌, is_some};
ghost use Rattle.std.specs.List.{list_all};
ghost use Rattle.castor_alg.specs.TypeEnvs.{context_of};
ghost use Rattle.castor_alg.specs.Typing.{agreed, allowed, are_columns, choice_type, expr_type_of, is_context, is_of, literal_type, negation_type, operator_type, same_type, type_under};

use crate::context::Context;
use crate::expr::{Expr, Op};
use crate::type_env::{TypeEnv, type_at};
use castor_val::{MAX_COLUMNS, MAX_TEXT, Ty, Value};
use sqlite_items::Items;

/// The type of an expression over columns of these types, and None exactly where it isn't well typed
/// there. Linear in the tree, the scopes in force for each node that reads one, and the context. Takes
/// no memory.
///
/// Each column, scope and parameter number is there. `=`, `!=`, `<`, `<=`, `>` and `>=` take two sides of
/// one type and give a bool. `and`, `or` and `not` take and give bools, and arithmetic takes and gives
/// ints. `if` takes a bool and two sides of one type. A text literal has at most 65,535 bytes. Every table
/// and scope of the context has 1 to 64 columns.
pub fn expr_type(e: &Expr, columns: &[Ty], context: &Context) -> Option<Ty>
    ensures { result ≡ expr_type_of e.now columns.now context.now }
{
    if is_context(context) {
        expr_type_in(e, columns, &TypeEnv::Outer(context))
    } else {
        None
    }
}

/// The type of an expression over columns of these types in the body of binders, and None exactly
/// where it isn't well typed there, if the context is within limits. Linear in the tree, and the scopes
/// in force for each node that reads one. Takes no memory.
pub fn expr_type_in(e: &Expr, columns: &[Ty], env: &TypeEnv<'_>) -> Option<Ty>
    ensures { result ≡ type_under e.now columns.now (context_of env.now) }
{
    match e {
        Expr::Col(at) => type_at(columns, *at),
        Expr::Scope(scope, at) => env.scope_column(*scope, *at),
        Expr::Param(at) => env.param(*at),
        Expr::Lit(literal) => literal_type(literal),
        Expr::Bin(op, a, b) => {
            let left = expr_type_in(a.get(), columns, env);
            let right = expr_type_in(b.get(), columns, env);
            operator_type(*op, left, right)
        }
        Expr::Not(a) => negation_type(expr_type_in(a.get(), columns, env)),
        Expr::If(condition, a, b) => {
            let test = expr_type_in(condition.get(), columns, env);
            let left = expr_type_in(a.get(), columns, env);
            let right = expr_type_in(b.get(), columns, env);
            choice_type(test, left, right)
        }
    }
}

/// Whether every table and every scope of the context has 1 to 64 columns. Linear in their number.
pub fn is_context(context: &Context) -> bool
    ensures { result ≡ is_context context.now }
{
    are_all_tables(context.tables.as_slice()) && are_all_scopes(context.scopes.as_slice())
}

fn are_all_tables(tables: &[Items<Ty>]) -> bool
    ensures { result ≡ list_all are_columns tables.now }
{
    tables.iter().all(|types| are_columns(types.as_slice()))
}

fn are_all_scopes(scopes: &[(u32, Items<Ty>)]) -> bool
    ensures { result ≡ list_all (λ entry. are_columns entry.1) scopes.now }
{
    scopes.iter().all(|entry| are_columns(entry.1.as_slice()))
}

/// Whether there are 1 to 64 columns, as each table, scope and relation has.
pub fn are_columns(types: &[Ty]) -> bool
    ensures { result ≡ are_columns types.now }
{
    !types.is_empty() && types.len() <= MAX_COLUMNS
}

fn literal_type(literal: &Value) -> Option<Ty>
    ensures { result ≡ literal_type literal.now }
{
    match literal {
        Value::Int(number) => {
            // Read, so that the proof knows it as an int of 64 bits.
            let _number = *number;
            Some(Ty::Int)
        }
        Value::Bool(_) => Some(Ty::Bool),
        Value::Text(text) => allowed(text.as_str().len() <= MAX_TEXT, Ty::Text),
    }
}

fn operator_type(op: Op, a: Option<Ty>, b: Option<Ty>) -> Option<Ty>
    ensures { result ≡ operator_type op a b }
{
    match op {
        Op::Or => allowed(is_of(Ty::Bool, a) && is_of(Ty::Bool, b), Ty::Bool),
        Op::And => allowed(is_of(Ty::Bool, a) && is_of(Ty::Bool, b), Ty::Bool),
        Op::Eq => allowed(agreed(a, b).is_some(), Ty::Bool),
        Op::Ne => allowed(agreed(a, b).is_some(), Ty::Bool),
        Op::Lt => allowed(agreed(a, b).is_some(), Ty::Bool),
        Op::Le => allowed(agreed(a, b).is_some(), Ty::Bool),
        Op::Gt => allowed(agreed(a, b).is_some(), Ty::Bool),
        Op::Ge => allowed(agreed(a, b).is_some(), Ty::Bool),
        Op::Add => allowed(is_of(Ty::Int, a) && is_of(Ty::Int, b), Ty::Int),
        Op::Sub => allowed(is_of(Ty::Int, a) && is_of(Ty::Int, b), Ty::Int),
        Op::Mul => allowed(is_of(Ty::Int, a) && is_of(Ty::Int, b), Ty::Int),
        Op::Div => allowed(is_of(Ty::Int, a) && is_of(Ty::Int, b), Ty::Int),
        Op::Rem => allowed(is_of(Ty::Int, a) && is_of(Ty::Int, b), Ty::Int),
    }
}

fn negation_type(a: Option<Ty>) -> Option<Ty>
    ensures { result ≡ negation_type a }
{
    allowed(is_of(Ty::Bool, a), Ty::Bool)
}

fn choice_type(condition: Option<Ty>, a: Option<Ty>, b: Option<Ty>) -> Option<Ty>
    ensures { result ≡ choice_type condition a b }
{
    if is_of(Ty::Bool, condition) {
        agreed(a, b)
    } else {
        None
    }
}

/// The type of both, where it is the same.
fn agreed(a: Option<Ty>, b: Option<Ty>) -> Option<Ty>
    ensures { result ≡ agreed a b }
{
    match (a, b) {
        (Some(x), Some(y)) => allowed(is_same_type(x, y), x),
        _ => None,
    }
}

/// Whether there is a type, and it is this one.
pub fn is_of(ty: Ty, found: Option<Ty>) -> bool
    ensures { result ≡ is_of ty found }
{
    match found {
        Some(found) => is_same_type(ty, found),
        None => false,
    }
}

fn is_same_type(a: Ty, b: Ty) -> bool
    ensures { result ≡ same_type a b }
{
    a == b
}

fn allowed(condition: bool, ty: Ty) -> Option<Ty>
    ensures { result ≡ allowed condition ty }
{
    if condition { Some(ty) } else { None }
}
