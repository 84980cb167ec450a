//! What expressions of names mean, and their types.

ghost use Rattle.std.specs.Prelude.{◌≡◌, position};
ghost use Rattle.std.specs.Str.{bytes_eq};
ghost use Rattle.castor_val.specs.declared.column.Column.{Column};
ghost use Rattle.castor_val.specs.Gives.{Gives};
ghost use Rattle.castor_exprs.specs.Expressions.{choice, column_meant, column_read, dotted, expression, negation, operation, parameter, scope_number, scope_read, with_type};
ghost use Rattle.castor_names.specs.Scopes.{innermost, scopes_of};
ghost use Rattle.castor_names.specs.declared.error.SchemaError.TheVariants as error;

use crate::types::{choice_type, literal_type, negation_type, operator_type};
use castor_alg::{Expr, Op};
use castor_names::{
    Declarations, NamedColumn, SchemaError, Scope, Scopes, by_name, by_qualifier, column_number,
    innermost, is_same, number_of,
};
use castor_tree::{PCol, PExpr};
use castor_val::{Column, Text, Ty};
use sqlite_items::{Boxed, at};
use std::alloc::Global;

/// An expression and its type.
#[derive(Drop)]
pub struct Typed {
    pub expr: Expr,
    pub ty: Ty,
}

fn column_read(columns: &[NamedColumn], number: u32) -> Result<Typed, SchemaError>
    ensures { result ≡ column_read columns.now number }
{
    match at(columns, number as usize) {
        Some(column) => Ok(Typed {
            expr: Expr::Col(number),
            ty: column.ty,
        }),
        None => Err(SchemaError::UnknownColumn),
    }
}

fn scope_read(scope: &Scope, number: u32) -> Result<Typed, SchemaError>
    ensures { result ≡ scope_read scope.now number }
{
    match scope.columns.get(number as usize) {
        Some(column) => Ok(Typed {
            expr: Expr::Scope(scope.number, number),
            ty: column.ty,
        }),
        None => Err(SchemaError::UnknownColumn),
    }
}

fn dotted(
    scopes: &Scopes<'_>,
    columns: &[NamedColumn],
    first: &Text,
    second: &Text,
) -> Result<Typed, SchemaError>
    ensures { Gives (λ found. found) error.Memory (dotted (innermost (scopes_of scopes.now) first.now) columns.now first.now second.now) result }
{
    match innermost(scopes, first) {
        Some(scope) => scope_read(scope, by_name(scope.columns.as_slice(), second)?),
        None => column_read(columns, by_qualifier(columns, first, second)?),
    }
}

#[tactic(auto, unfolding(crate::specs::Expressions::column_meant))]
fn column_meant(
    scopes: &Scopes<'_>,
    columns: &[NamedColumn],
    col: &PCol,
) -> Result<Typed, SchemaError>
    ensures { Gives (λ found. found) error.Memory (column_meant (scopes_of scopes.now) columns.now col.now) result }
{
    match col {
        PCol::Name(_) => column_read(columns, column_number(columns, col)?),
        PCol::Dotted(first, second) => dotted(scopes, columns, &first.text, &second.text),
        PCol::Number(_) => column_read(columns, column_number(columns, col)?),
    }
}

#[tactic(auto, unfolding(crate::specs::Expressions::scope_number))]
fn scope_number(scopes: &Scopes<'_>, name: &Text, number: u32) -> Result<Typed, SchemaError>
    ensures { result ≡ scope_number (innermost (scopes_of scopes.now) name.now) number }
{
    match innermost(scopes, name) {
        Some(scope) => scope_read(scope, number),
        None => Err(SchemaError::UnknownScope),
    }
}

fn place_of_param(params: &[Column], name: &Text) -> Option<usize>
    ensures { result ≡ position (λ (p : Column). bytes_eq p.name name.now) params.now }
{
    params.iter().position(|p| is_same(&p.name, name))
}

#[tactic(auto, unfolding(crate::specs::Expressions::parameter))]
fn parameter(params: &[Column], name: &Text) -> Result<Typed, SchemaError>
    ensures { Gives (λ found. found) error.Memory (parameter params.now name.now) result }
{
    let Some(place) = place_of_param(params, name) else {
        return Err(SchemaError::UnknownParam);
    };
    match at(params, place) {
        Some(param) => Ok(Typed {
            expr: Expr::Param(number_of(place)?),
            ty: param.ty,
        }),
        None => Err(SchemaError::UnknownParam),
    }
}

fn with_type(expr: Expr, ty: Option<Ty>) -> Result<Typed, SchemaError>
    ensures { result ≡ with_type expr ty }
{
    match ty {
        Some(ty) => Ok(Typed { expr, ty }),
        None => Err(SchemaError::TypeMismatch),
    }
}

#[tactic(auto, unfolding(crate::specs::Expressions::operation))]
fn operation(alloc: Global, op: Op, a: Typed, b: Typed) -> Result<Typed, SchemaError>
    ensures { Gives (λ found. found) error.Memory (operation op a b) result }
{
    let ty = operator_type(op, a.ty, b.ty);
    let a = Boxed::new(alloc, a.expr)?;
    let b = Boxed::new(alloc, b.expr)?;
    with_type(Expr::Bin(op, a, b), ty)
}

#[tactic(auto, unfolding(crate::specs::Expressions::negation))]
fn negation(alloc: Global, a: Typed) -> Result<Typed, SchemaError>
    ensures { Gives (λ found. found) error.Memory (negation a) result }
{
    let ty = negation_type(a.ty);
    let a = Boxed::new(alloc, a.expr)?;
    with_type(Expr::Not(a), ty)
}

#[tactic(auto, unfolding(crate::specs::Expressions::choice))]
fn choice(alloc: Global, condition: Typed, a: Typed, b: Typed) -> Result<Typed, SchemaError>
    ensures { Gives (λ found. found) error.Memory (choice condition a b) result }
{
    let ty = choice_type(condition.ty, a.ty, b.ty);
    let condition = Boxed::new(alloc, condition.expr)?;
    let a = Boxed::new(alloc, a.expr)?;
    let b = Boxed::new(alloc, b.expr)?;
    with_type(Expr::If(condition, a, b), ty)
}

/// What an expression means under declarations, the scopes in force and the columns of a row, or the
/// first refusal. Linear in the tree times the number of columns and scopes.
pub fn expression(
    alloc: Global,
    known: &Declarations,
    scopes: &Scopes<'_>,
    columns: &[NamedColumn],
    e: &PExpr,
) -> Result<Typed, SchemaError>
    ensures { Gives (λ found. found) error.Memory (expression e.now known.now (scopes_of scopes.now) columns.now) result }
{
    match e {
        PExpr::Col(col) => column_meant(scopes, columns, col),
        PExpr::ScopeAt(word, number) => scope_number(scopes, &word.text, *number),
        PExpr::Param(word) => parameter(known.params.as_slice(), &word.text),
        PExpr::Lit(_, value) => with_type(Expr::Lit(value.copy(alloc)?), literal_type(value)),
        PExpr::Bin(op, a, b) => {
            let a = expression(alloc, known, scopes, columns, a.get())?;
            let b = expression(alloc, known, scopes, columns, b.get())?;
            operation(alloc, *op, a, b)
        }
        PExpr::Not(a) => {
            let a = expression(alloc, known, scopes, columns, a.get())?;
            negation(alloc, a)
        }
        PExpr::If(condition, a, b) => {
            let condition = expression(alloc, known, scopes, columns, condition.get())?;
            let a = expression(alloc, known, scopes, columns, a.get())?;
            let b = expression(alloc, known, scopes, columns, b.get())?;
            choice(alloc, condition, a, b)
        }
    }
}
