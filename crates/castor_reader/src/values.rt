//! Parts that are one value each, whose only combination is the row of these.

ghost use Rattle.std.specs.Prelude.{◌≡◌, IfOk, IfSome, length};
ghost use Rattle.std.specs.Option.{is_some};
ghost use Rattle.castor_reader.specs.Answers.{values_in};
ghost use Rattle.castor_reader.specs.HeldValues.{AreHeldValues, IsHeldValue, are_values, is_value};

use crate::shapes::leaf;
use castor_alg::Held;
use castor_code::Code;
use castor_val::{Cell, Memory, Value};
use std::alloc::Global;

// The value of a part that is a leaf under the code of a scalar.
fn held_value<'b>(kid: &Code, part: &'b Held) -> Option<&'b Value>
    ensures is { is_some result ≡ is_value kid.now part.now }
    ensures meant { IfSome result (λ v. IsHeldValue kid.now part.now v.now) }
{
    match kid {
        Code::Int { .. } => leaf(part),
        Code::Bool => leaf(part),
        Code::Text { .. } => leaf(part),
        _ => None,
    }
}

/// The cells of parts that are all leaves under the codes of scalars, and None where one isn't. Linear in the parts;
/// copies no text.
pub fn held_values<'b>(
    alloc: Global,
    kids: &[Code],
    parts: &'b [Held],
) -> Result<Option<Vec<Cell<'b>>>, Memory>
    requires { length parts.now ≡ length kids.now }
    ensures are { IfOk result (λ found. is_some found ≡ are_values kids.now parts.now) }
    ensures meant { IfOk result (λ found. IfSome found (λ row. AreHeldValues kids.now parts.now (values_in row))) }
{
    let mut row = Vec::with_capacity(alloc, kids.len())?;
    for (at, kid) in kids.iter().enumerate() {
        match held_value(kid, &parts[at]) {
            Some(value) => row.push(value.cell())?,
            None => return Ok(None),
        }
    }
    Ok(Some(row))
}
