//! Which column a name means.

ghost use Rattle.std.specs.Prelude.{◌≡◌, IfOk, count_by, position};
ghost use Rattle.std.specs.List.{list_any};
ghost use Rattle.std.specs.Str.{bytes_eq};
ghost use Rattle.castor_val.specs.Gives.{Gives};
ghost use Rattle.castor_names.specs.Names.{by_name, by_number, by_qualifier, column_number, has_both, has_name, has_qualifier, none_of_both};
ghost use Rattle.castor_names.specs.declared.error.SchemaError.TheVariants as error;

use crate::column::NamedColumn;
use crate::error::SchemaError;
use castor_tree::PCol;
use castor_val::{Memory, Text};

/// A place in a list as a number. A list of 2^32 items is in no memory.
pub fn number_of(place: usize) -> Result<u32, Memory>
    ensures { IfOk result (λ number. number ≡ place) }
{
    match u32::try_from(place) {
        Ok(number) => Ok(number),
        Err(_) => Err(Memory),
    }
}

/// Whether two texts have the same bytes.
pub fn is_same(a: &Text, b: &Text) -> bool
    ensures { result ≡ bytes_eq a.now b.now }
{
    a.as_str() == b.as_str()
}

fn has_name(name: &Text, column: &NamedColumn) -> bool
    ensures { result ≡ has_name name.now column.now }
{
    is_same(&column.name, name)
}

fn has_qualifier(qualifier: &Text, column: &NamedColumn) -> bool
    ensures { result ≡ has_qualifier qualifier.now column.now }
{
    match &column.qualifier {
        None => false,
        Some(own) => is_same(own, qualifier),
    }
}

fn has_both(qualifier: &Text, name: &Text, column: &NamedColumn) -> bool
    ensures { result ≡ has_both qualifier.now name.now column.now }
{
    has_qualifier(qualifier, column) && has_name(name, column)
}

fn count_of_name(columns: &[NamedColumn], name: &Text) -> usize
    ensures { result ≡ count_by (has_name name.now) columns.now }
{
    columns.iter().filter(|c| has_name(name, *c)).count()
}

fn place_of_name(columns: &[NamedColumn], name: &Text) -> Option<usize>
    ensures { result ≡ position (has_name name.now) columns.now }
{
    columns.iter().position(|c| has_name(name, c))
}

/// The number of the one column of a name: UnknownColumn where there is none, and Ambiguous where there
/// are several. Linear in the number of columns.
#[tactic(auto, unfolding(crate::specs::Names::by_name))]
pub fn by_name(columns: &[NamedColumn], name: &Text) -> Result<u32, SchemaError>
    ensures { Gives (λ number. number) error.Memory (by_name columns.now name.now) result }
{
    if count_of_name(columns, name) > 1 {
        return Err(SchemaError::Ambiguous);
    }
    match place_of_name(columns, name) {
        Some(place) => Ok(number_of(place)?),
        None => Err(SchemaError::UnknownColumn),
    }
}

fn count_of_both(columns: &[NamedColumn], qualifier: &Text, name: &Text) -> usize
    ensures { result ≡ count_by (has_both qualifier.now name.now) columns.now }
{
    columns
        .iter()
        .filter(|c| has_both(qualifier, name, *c))
        .count()
}

fn place_of_both(columns: &[NamedColumn], qualifier: &Text, name: &Text) -> Option<usize>
    ensures { result ≡ position (has_both qualifier.now name.now) columns.now }
{
    columns.iter().position(|c| has_both(qualifier, name, c))
}

/// The number of the one column with a qualifier and a name: Ambiguous where there are several. Where
/// there is none, UnknownColumn if some column has the qualifier, else UnknownScope. Linear in the
/// number of columns.
#[tactic(auto, unfolding(crate::specs::Names::by_qualifier))]
pub fn by_qualifier(
    columns: &[NamedColumn],
    qualifier: &Text,
    name: &Text,
) -> Result<u32, SchemaError>
    ensures { Gives (λ number. number) error.Memory (by_qualifier columns.now qualifier.now name.now) result }
{
    if count_of_both(columns, qualifier, name) > 1 {
        return Err(SchemaError::Ambiguous);
    }
    match place_of_both(columns, qualifier, name) {
        Some(place) => Ok(number_of(place)?),
        None => Err(none_of_both(columns, qualifier)),
    }
}

fn is_any_qualifier(columns: &[NamedColumn], qualifier: &Text) -> bool
    ensures { result ≡ list_any (has_qualifier qualifier.now) columns.now }
{
    columns.iter().any(|c| has_qualifier(qualifier, c))
}

fn none_of_both(columns: &[NamedColumn], qualifier: &Text) -> SchemaError
    ensures { result ≡ none_of_both columns.now qualifier.now }
{
    if is_any_qualifier(columns, qualifier) {
        SchemaError::UnknownColumn
    } else {
        SchemaError::UnknownScope
    }
}

/// The number of the column that is meant, where names are those of columns alone. Linear in the number
/// of columns.
pub fn column_number(columns: &[NamedColumn], col: &PCol) -> Result<u32, SchemaError>
    ensures { Gives (λ number. number) error.Memory (column_number columns.now col.now) result }
{
    match col {
        PCol::Name(word) => by_name(columns, &word.text),
        PCol::Dotted(qualifier, word) => by_qualifier(columns, &qualifier.text, &word.text),
        PCol::Number(number) => by_number(columns, *number),
    }
}

#[tactic(auto, unfolding(crate::specs::Names::by_number))]
fn by_number(columns: &[NamedColumn], number: u32) -> Result<u32, SchemaError>
    ensures { Gives (λ number. number) error.Memory (by_number columns.now number) result }
{
    if (number as usize) < columns.len() {
        Ok(number)
    } else {
        Err(SchemaError::UnknownColumn)
    }
}
