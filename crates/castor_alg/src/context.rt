//! Contexts: the types of all that a relation may read.

use castor_val::Ty;
use sqlite_items::Items;

/// The column types of the tables and of the scopes in force, the innermost last, and the types of
/// the parameters.
#[derive(Drop)]
pub struct Context {
    pub tables: Items<Items<Ty>>,
    pub scopes: Items<(u32, Items<Ty>)>,
    pub params: Items<Ty>,
}
