//! Which types operators take and give.

ghost use Rattle.std.specs.Prelude.{◌≡◌, ◌&&◌, Some};
ghost use Rattle.castor_alg.specs.declared.expr.Op.TheVariants as op;
ghost use Rattle.castor_names.specs.Names.{types_of};
ghost use Rattle.castor_alg.specs.Typing.{agreed, allowed, choice_type, is_of, literal_type, negation_type, operator_type, same_type, same_types};

use castor_alg::Op;
use castor_names::NamedColumn;
use castor_val::{MAX_TEXT, Ty, Value};

/// Whether the two are one type.
pub fn is_same_type(a: Ty, b: Ty) -> bool
    ensures { result ≡ same_type a b }
{
    a == b
}

fn allowed(condition: bool, ty: Ty) -> Option<Ty>
    ensures { result ≡ allowed condition ty }
{
    if condition { Some(ty) } else { None }
}

/// The type of a literal, where it is a value: a text has at most 65,535 bytes.
pub fn literal_type(literal: &Value) -> Option<Ty>
    ensures { result ≡ literal_type literal.now }
{
    match literal {
        Value::Int(number) => {
            // Read, so that the proof knows it as an int of 64 bits.
            let _number = *number;
            Some(Ty::Int)
        }
        Value::Bool(_) => Some(Ty::Bool),
        Value::Text(text) => allowed(text.as_str().len() <= MAX_TEXT, Ty::Text),
    }
}

fn from_both(takes: Ty, gives: Ty, a: Ty, b: Ty) -> Option<Ty>
    ensures { result ≡ allowed (is_of takes (Some a) && is_of takes (Some b)) gives }
{
    allowed(is_same_type(takes, a) && is_same_type(takes, b), gives)
}

fn comparison_type(a: Ty, b: Ty) -> Option<Ty>
    ensures { result ≡ operator_type op.Eq (Some a) (Some b) }
{
    if is_same_type(a, b) {
        Some(Ty::Bool)
    } else {
        None
    }
}

/// The type of a binary operator over sides of these types, where it takes them.
pub fn operator_type(op: Op, a: Ty, b: Ty) -> Option<Ty>
    ensures { result ≡ operator_type op (Some a) (Some b) }
{
    match op {
        Op::Or | Op::And => from_both(Ty::Bool, Ty::Bool, a, b),
        Op::Eq | Op::Ne | Op::Lt | Op::Le | Op::Gt | Op::Ge => comparison_type(a, b),
        Op::Add | Op::Sub | Op::Mul | Op::Div | Op::Rem => from_both(Ty::Int, Ty::Int, a, b),
    }
}

/// The type of `not` over a side of this type, where it takes it.
pub fn negation_type(a: Ty) -> Option<Ty>
    ensures { result ≡ negation_type (Some a) }
{
    allowed(is_same_type(Ty::Bool, a), Ty::Bool)
}

/// The type of `if` over a condition and sides of these types, where it takes them.
pub fn choice_type(condition: Ty, a: Ty, b: Ty) -> Option<Ty>
    ensures { result ≡ choice_type (Some condition) (Some a) (Some b) }
{
    if is_same_type(Ty::Bool, condition) {
        allowed(is_same_type(a, b), a)
    } else {
        None
    }
}

/// Whether columns have these types, and are as many. Linear in their number.
pub fn have_types(columns: &[NamedColumn], types: &[Ty]) -> bool
    ensures { result ≡ same_types (types_of columns.now) types.now }
{
    match (columns, types) {
        ([], []) => true,
        ([column, columns @ ..], [ty, types @ ..]) => {
            is_same_type(column.ty, *ty) && have_types(columns, types)
        }
        _ => false,
    }
}

/// Whether two lists of columns have the same types. Linear in their number.
pub fn have_same_types(columns: &[NamedColumn], others: &[NamedColumn]) -> bool
    ensures { result ≡ same_types (types_of columns.now) (types_of others.now) }
{
    match (columns, others) {
        ([], []) => true,
        ([column, columns @ ..], [other, others @ ..]) => {
            is_same_type(column.ty, other.ty) && have_same_types(columns, others)
        }
        _ => false,
    }
}
