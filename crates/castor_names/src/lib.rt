//! What names in a query file stand for: declared tables and parameters, columns with their names, and
//! the scopes in force; which of them a name means, or why it means none.
#![tactic(auto)]

pub mod column;
pub mod declarations;
pub mod error;
pub mod names;
pub mod scopes;
pub mod table;

pub use column::{
    NamedColumn, called_or_numbered, column_called, column_kept, column_numbered, columns_of_table,
    plain_columns,
};
pub use declarations::Declarations;
pub use error::SchemaError;
pub use names::{by_name, by_qualifier, column_number, is_same, number_of};
pub use scopes::{Scope, Scopes, innermost, scope_column};
pub use table::Declared;
