//! The rule by which keys are hashed.

ghost use Rattle.std.specs.Prelude.{◌≡◌, fold, map};
ghost use Rattle.castor_dir.specs.Hashing.{fnv_next, hash_of, value_bytes};
ghost use Rattle.castor_val.specs.Values.{value_of};

use castor_val::Cell;

#[cfg(test)]
mod tests;

// The hash of no byte.
const BASIS: u64 = 14_695_981_039_346_656_037;

// What each step multiplies by.
const PRIME: u64 = 1_099_511_628_211;

// What ends the bytes of a text, and is no byte of any.
const TEXT_END: u8 = 0xff;

/// The hash of a key: FNV-1a with 64 bits, after Fowler, Noll and Vo, over the bytes of its values
/// in order.
///
/// An int has 8 bytes of two's complement, the least first, a bool one byte, 0 or 1, and a text its
/// bytes and then `ff`. Linear in the bytes of the texts.
pub fn key_hash(key: &[Cell]) -> u64
    ensures { result ≡ hash_of (map value_of key.now) }
{
    let mut hash = BASIS;
    for cell in key {
        hash = with_cell(hash, *cell);
    }
    hash
}

fn with_cell(hash: u64, cell: Cell) -> u64
    ensures { result ≡ fold fnv_next hash (value_bytes (value_of cell.entry)) }
{
    match cell {
        Cell::Int(number) => with_bytes(hash, &number.to_le_bytes()),
        Cell::Bool(truth) => with_byte(hash, truth as u8),
        Cell::Text(text) => with_byte(with_bytes(hash, text.as_bytes()), TEXT_END),
    }
}

fn with_bytes(hash: u64, bytes: &[u8]) -> u64
    ensures { result ≡ fold fnv_next hash bytes.now }
{
    bytes.iter().fold(hash, |hash, byte| with_byte(hash, *byte))
}

fn with_byte(hash: u64, byte: u8) -> u64
    ensures { result ≡ fnv_next hash byte }
{
    (hash ^ byte as u64).wrapping_mul(PRIME)
}
