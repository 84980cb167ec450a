//! What a query file means.

use castor_alg::Rel;
use castor_names::Declared;
use castor_val::Column;
use sqlite_items::Items;

/// A checked query file: its tables and parameters in the order of their declarations, the columns of
/// the answer, and the query, in which tables, parameters, scopes and columns have their numbers.
#[derive(Drop)]
pub struct Checked {
    pub tables: Items<Declared>,
    pub params: Items<Column>,
    pub columns: Items<Column>,
    pub query: Rel,
}
