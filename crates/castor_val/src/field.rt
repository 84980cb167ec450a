//! What a field of text is read as.

ghost use Rattle.std.specs.Prelude.{◌≡◌, IfOk, IfSome, IsTrue, option_map};
ghost use Rattle.std.specs.Result.{result_ok};
ghost use Rattle.castor_val.specs.Fields.{bool_field, field_value, int_field, text_field};
ghost use Rattle.castor_val.specs.Gives.{Gives};
ghost use Rattle.castor_val.specs.Values.{value_fits, value_of};
ghost use Rattle.castor_val.specs.declared.field.FieldError.TheVariants as error;

use crate::limits::MAX_TEXT;
use crate::memory::Memory;
use crate::value::{Cell, Ty, Value};
use std::alloc::Global;

/// Why a field was not read as a value.
#[derive(Clone, Copy, Debug, PartialEq, Eq)]
pub enum FieldError {
    /// The field is not of the type, whatever its length.
    NotOfType,
    /// The type is that of texts, and the field has more than 65,535 bytes.
    TooLong,
    /// There was no memory for the value.
    Memory,
}

impl From<Memory> for FieldError {
    ghost use Rattle.castor_val.specs.declared.field.FieldError.TheVariants.{Memory};

    ghost from_gives = { λ _ e. e ≡ Memory };

    fn from(_: Memory) -> FieldError {
        FieldError::Memory
    }
}

impl Value {
    /// The value that a field of a type is read as, by the rules of `Cell::from_field`.
    ///
    /// `NotOfType` comes exactly where the field is not of the type, and `TooLong` exactly where
    /// the type is that of texts and the field has more than 65,535 bytes. Linear in the length.
    pub fn from_field(alloc: Global, ty: Ty, field: &str) -> Result<Value, FieldError>
        ensures value { Gives (λ v. v) error.Memory (field_value ty field.now) result }
        ensures fits { IfOk result (λ v. IsTrue (value_fits v ty)) }
    {
        match Cell::from_field(ty, field) {
            Some(cell) => Ok(cell.to_value(alloc)?),
            None => match ty {
                Ty::Int => Err(FieldError::NotOfType),
                Ty::Bool => Err(FieldError::NotOfType),
                Ty::Text => Err(FieldError::TooLong),
            },
        }
    }
}

impl<'a> Cell<'a> {
    /// The value that a field of a type is read as, if it is of the type and within the limits.
    ///
    /// An int is what `i64::from_str` reads: a sign or none, and decimal digits, of which any
    /// number may be leading zeros. A bool is `true` or `false`. A text is any text of at most
    /// 65,535 bytes. Linear in the length.
    pub fn from_field(ty: Ty, field: &'a str) -> Option<Cell<'a>>
        ensures value { option_map value_of result ≡ result_ok (field_value ty field.now) }
        ensures fits { IfSome result (λ c. IsTrue (value_fits (value_of c) ty)) }
    {
        match ty {
            Ty::Int => int_from(field),
            Ty::Bool => bool_from(field),
            Ty::Text => text_from(field),
        }
    }
}

fn int_from(field: &str) -> Option<Cell<'_>>
    ensures { option_map value_of result ≡ result_ok (int_field field.now) }
{
    match field.parse::<i64>() {
        Ok(number) => Some(Cell::Int(number)),
        Err(_) => None,
    }
}

fn bool_from(field: &str) -> Option<Cell<'_>>
    ensures { option_map value_of result ≡ result_ok (bool_field field.now) }
{
    match field.parse::<bool>() {
        Ok(truth) => Some(Cell::Bool(truth)),
        Err(_) => None,
    }
}

fn text_from(field: &str) -> Option<Cell<'_>>
    ensures { option_map value_of result ≡ result_ok (text_field field.now) }
{
    if field.len() > MAX_TEXT {
        return None;
    }
    Some(Cell::Text(field))
}
