//! The scopes in force.

ghost use Rattle.std.specs.Prelude.{◌≡◌, option_copied};
ghost use Rattle.castor_names.specs.Scopes.{innermost, scope_column, scopes_of};

use crate::column::NamedColumn;
use crate::names::is_same;
use castor_val::Text;
use sqlite_items::Items;

/// A scope: its number, its name, and the columns of the row that it is bound to.
#[derive(Drop)]
pub struct Scope {
    pub number: u32,
    pub name: Text,
    pub columns: Items<NamedColumn>,
}

/// The scopes in force, the innermost first.
#[derive(Clone, Copy)]
pub enum Scopes<'a> {
    NoScope,
    /// A scope, and those outside of it.
    Inner(&'a Scope, &'a Scopes<'a>),
}

/// The innermost scope of a name. Linear in the number of scopes.
pub fn innermost<'a>(scopes: &'a Scopes<'a>, name: &Text) -> Option<&'a Scope>
    ensures { option_copied result ≡ innermost (scopes_of scopes.now) name.now }
{
    match scopes {
        Scopes::NoScope => None,
        Scopes::Inner(scope, outer) => {
            if is_same(&scope.name, name) {
                Some(*scope)
            } else {
                innermost(outer, name)
            }
        }
    }
}

/// A column of the scope with a number. Linear in the number of scopes.
pub fn scope_column<'a>(scopes: &'a Scopes<'a>, number: u32, at: u32) -> Option<&'a NamedColumn>
    ensures { option_copied result ≡ scope_column (scopes_of scopes.now) number at }
{
    match scopes {
        Scopes::NoScope => None,
        Scopes::Inner(scope, outer) => {
            if scope.number == number {
                scope.columns.get(at as usize)
            } else {
                scope_column(outer, number, at)
            }
        }
    }
}
