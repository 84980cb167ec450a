//! What is asked of a query.

use crate::shown::shown;
use crate::tables::tables;
use castor_alg::{Held, Rel};
use castor_stage::{HoldError, StageError, hold, stage};
use castor_val::{Faults, Memory};
use std::alloc::Global;

/// What a query over the known tables is to be.
#[derive(Clone, Copy)]
pub enum Asked {
    /// All of it stands in its phase, or this is the first that doesn't.
    Staged(Result<(), StageError>),
    /// What is held for it has this text.
    Holds(&'static str),
    /// Nothing is held for it, since its sources and scalars have these faults.
    Faults(Faults),
}

impl Asked {
    /// Whether the query is so.
    pub fn is_so(self, alloc: Global, query: &Rel) -> bool {
        match self {
            Asked::Staged(due) => stage(query) == due,
            Asked::Holds(due) => is_text(alloc, held(alloc, query), due),
            Asked::Faults(due) => is_fault(held(alloc, query), due),
        }
    }
}

fn held(alloc: Global, query: &Rel) -> Result<Held, HoldError> {
    match tables(alloc) {
        Ok(tables) => hold(alloc, query, tables.as_slice()),
        Err(Memory) => Err(HoldError::Memory),
    }
}

fn is_shown(alloc: Global, held: &Held, due: &str) -> bool {
    match shown(alloc, held) {
        Ok(text) => text.as_str() == due,
        Err(_) => false,
    }
}

fn is_text(alloc: Global, held: Result<Held, HoldError>, due: &str) -> bool {
    match held {
        Ok(held) => is_shown(alloc, &held, due),
        Err(_) => false,
    }
}

fn is_fault(held: Result<Held, HoldError>, due: Faults) -> bool {
    match held {
        Ok(_) => false,
        Err(why) => why == HoldError::Faults(due),
    }
}
