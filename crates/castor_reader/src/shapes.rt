//! Held data by its shape.

ghost use Rattle.std.specs.Prelude.{◌≡◌};
ghost use Rattle.std.specs.Option.{option_copied};
ghost use Rattle.castor_code.specs.LayoutMeaning.{all_in};
ghost use Rattle.castor_code.specs.Shapes.{inner_of, keyed_of, leaf_of, parts_of, rows_of};
ghost use Rattle.castor_reader.specs.Shapes.{first_part, second_part};

use castor_alg::{Entry, Held};
use castor_val::Value;

/// The value of a leaf.
pub fn leaf(held: &Held) -> Option<&Value>
    ensures { option_copied result ≡ leaf_of held.now }
{
    match held {
        Held::Leaf(value) => Some(value),
        Held::Parts(_) => None,
        Held::Rows(_) => None,
        Held::Keyed(_) => None,
        Held::Inner(_) => None,
    }
}

/// The parts of a combination, none where it is none.
pub fn parts(held: &Held) -> &[Held]
    ensures { result.now ≡ all_in (parts_of held.now) }
{
    match held {
        Held::Leaf(_) => &[],
        Held::Parts(parts) => parts.as_slice(),
        Held::Rows(_) => &[],
        Held::Keyed(_) => &[],
        Held::Inner(_) => &[],
    }
}

/// The children of a list, none where it is none.
pub fn rows(held: &Held) -> &[Held]
    ensures { result.now ≡ all_in (rows_of held.now) }
{
    match held {
        Held::Leaf(_) => &[],
        Held::Parts(_) => &[],
        Held::Rows(rows) => rows.as_slice(),
        Held::Keyed(_) => &[],
        Held::Inner(_) => &[],
    }
}

/// The entries of an index, none where it is none.
pub fn keyed(held: &Held) -> &[Entry]
    ensures { result.now ≡ all_in (keyed_of held.now) }
{
    match held {
        Held::Leaf(_) => &[],
        Held::Parts(_) => &[],
        Held::Rows(_) => &[],
        Held::Keyed(entries) => entries.as_slice(),
        Held::Inner(_) => &[],
    }
}

/// What the operand holds.
pub fn inner(held: &Held) -> Option<&Held>
    ensures { option_copied result ≡ inner_of held.now }
{
    match held {
        Held::Leaf(_) => None,
        Held::Parts(_) => None,
        Held::Rows(_) => None,
        Held::Keyed(_) => None,
        Held::Inner(inner) => Some(inner.get()),
    }
}

/// The first of the two parts of a dependent join.
pub fn first(held: &Held) -> Option<&Held>
    ensures { option_copied result ≡ first_part held.now }
{
    match parts(held) {
        [] => None,
        [_] => None,
        [part, _] => Some(part),
        [_, _, _, ..] => None,
    }
}

/// The second of the two parts of a dependent join.
pub fn second(held: &Held) -> Option<&Held>
    ensures { option_copied result ≡ second_part held.now }
{
    match parts(held) {
        [] => None,
        [_] => None,
        [_, part] => Some(part),
        [_, _, _, ..] => None,
    }
}
