//! Held data by its shape.

ghost use Rattle.std.specs.Prelude.{◌≡◌};
ghost use Rattle.std.specs.Option.{option_copied};
ghost use Rattle.castor_code.specs.Readings.{value_in};
ghost use Rattle.castor_code.specs.Shapes.{inner_of, keyed_of, leaf_of, parts_of, rows_of};

use castor_alg::{Entry, Held};
use castor_val::Value;

/// The value of a leaf.
pub fn leaf(held: &Held) -> Option<&Value>
    ensures { option_copied result ≡ leaf_of held.now }
{
    match held {
        Held::Leaf(value) => Some(value),
        Held::Parts(_) => None,
        Held::Rows(_) => None,
        Held::Keyed(_) => None,
        Held::Inner(_) => None,
    }
}

/// The parts of a combination.
pub fn parts(held: &Held) -> Option<&[Held]>
    ensures { option_copied result ≡ parts_of held.now }
{
    match held {
        Held::Leaf(_) => None,
        Held::Parts(parts) => Some(parts.as_slice()),
        Held::Rows(_) => None,
        Held::Keyed(_) => None,
        Held::Inner(_) => None,
    }
}

/// The children of a list.
pub fn rows(held: &Held) -> Option<&[Held]>
    ensures { option_copied result ≡ rows_of held.now }
{
    match held {
        Held::Leaf(_) => None,
        Held::Parts(_) => None,
        Held::Rows(rows) => Some(rows.as_slice()),
        Held::Keyed(_) => None,
        Held::Inner(_) => None,
    }
}

/// The entries of an index.
pub fn keyed(held: &Held) -> Option<&[Entry]>
    ensures { option_copied result ≡ keyed_of held.now }
{
    match held {
        Held::Leaf(_) => None,
        Held::Parts(_) => None,
        Held::Rows(_) => None,
        Held::Keyed(entries) => Some(entries.as_slice()),
        Held::Inner(_) => None,
    }
}

/// What the operand holds.
pub fn inner(held: &Held) -> Option<&Held>
    ensures { option_copied result ≡ inner_of held.now }
{
    match held {
        Held::Leaf(_) => None,
        Held::Parts(_) => None,
        Held::Rows(_) => None,
        Held::Keyed(_) => None,
        Held::Inner(inner) => Some(inner.get()),
    }
}

/// The value of a leaf, and `false` where it is none.
pub fn into_value(held: Held) -> Value
    ensures { result ≡ value_in (leaf_of held) }
{
    match held {
        Held::Leaf(value) => value,
        Held::Parts(_) => Value::Bool(false),
        Held::Rows(_) => Value::Bool(false),
        Held::Keyed(_) => Value::Bool(false),
        Held::Inner(_) => Value::Bool(false),
    }
}
