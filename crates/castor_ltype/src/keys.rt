//! Codes of the keys of indexes.

ghost use Rattle.std.specs.Prelude.{◌≡◌, ◌++◌, ◌∷◌, [], IfOk, map};
ghost use Rattle.castor_ltype.specs.Generation as generation;
ghost use Rattle.castor_ltype.specs.Sizes as size;

use crate::laid::{Laid, LaidParts};
use crate::places::key_values;
use crate::scalars::scalar;
use crate::sizes::{added, no_sizes};
use castor_alg::Entry;
use castor_val::{Memory, Ty};
use sqlite_items::Items;
use std::alloc::Global;

/// The code of each column of keys of these types, and for each entry the number of bytes of its key.
/// Linear in the entries for each column.
pub fn key_columns(alloc: Global, types: &[Ty], entries: &[&Entry]) -> Result<LaidParts, Memory>
    ensures codes { IfOk result (λ laid. laid.codes ≡ generation.key_codes 0 types.now (map (λ e. e.now) entries.now)) }
    ensures sizes { IfOk result (λ laid. laid.sizes.items ≡ map (size.key_size 0 laid.codes) (map (λ e. e.now) entries.now)) }
{
    let mut laid = LaidParts {
        codes: Items::new(alloc),
        sizes: no_sizes(alloc, entries)?,
    };
    let mut at = 0;
    for ty in types {
        let values = key_values(alloc, at, entries)?;
        let column = scalar(alloc, Some(*ty), values.as_slice())?;
        laid = with_part(alloc, laid, column)?;
        at += 1;
    }
    Ok(laid)
}

/// The codes with one more, and the sizes with those of its part.
pub fn with_part(alloc: Global, parts: LaidParts, part: Laid) -> Result<LaidParts, Memory>
    ensures codes { IfOk result (λ laid. laid.codes ≡ parts.codes ++ part.code ∷ []) }
    ensures sizes { IfOk result (λ laid. laid.sizes.items ≡ size.added parts.sizes.items part.sizes.items) }
{
    let LaidParts { mut codes, sizes } = parts;
    let Laid { code, sizes: more } = part;
    let sizes = added(alloc, sizes.as_slice(), more.as_slice())?;
    codes.push(code)?;
    Ok(LaidParts { codes, sizes })
}
