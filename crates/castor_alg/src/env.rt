//! Environments: the rows that scopes are bound to.

use castor_val::{Cell, Row};

/// The rows of the scopes in force, the innermost binding first. Where a scope is bound twice the
/// innermost binding holds.
#[derive(Clone, Copy)]
pub enum Env<'e, 'a> {
    Empty,
    /// A scope, its row, and the bindings outside.
    Bind(u32, &'e [Cell<'a>], &'e Env<'e, 'a>),
}

/// The rows of the scopes in force, the innermost binding last, and the parameters.
#[derive(Drop)]
pub struct OwnedEnv {
    pub scopes: Vec<(u32, Row)>,
    pub params: Row,
}
