//! Names of parameters and columns.

ghost use Rattle.std.specs.Prelude.{◌≡◌, not};
ghost use Rattle.std.specs.List.{list_all};
ghost use Rattle.std.specs.Str.{bytes_eq};
ghost use Rattle.castor_image.specs.Heads.{are_distinct, is_digit, is_letter, is_head_name, is_word_byte, names};

use castor_val::{Column, MAX_NAME};

/// Whether bytes are a name: a letter or `_`, then letters, digits and `_`, with 1 to 64 bytes.
pub fn is_head_name(text: &[u8]) -> bool
    ensures { result ≡ is_head_name text.now }
{
    match text {
        [] => false,
        [first, rest @ ..] => {
            is_letter(*first) && are_word_bytes(rest) && text.len() <= MAX_NAME
        }
    }
}

fn are_word_bytes(text: &[u8]) -> bool
    ensures { result ≡ list_all is_word_byte text.now }
{
    text.iter().all(|byte| is_word_byte(*byte))
}

fn is_letter(byte: u8) -> bool
    ensures { result ≡ is_letter byte }
{
    (b'A' <= byte && byte <= b'Z') || (b'a' <= byte && byte <= b'z') || byte == b'_'
}

fn is_word_byte(byte: u8) -> bool
    ensures { result ≡ is_word_byte byte }
{
    is_letter(byte) || (b'0' <= byte && byte <= b'9')
}

/// Whether no name stands twice. Of the square of the number of columns.
pub fn are_distinct(columns: &[Column]) -> bool
    ensures { result ≡ are_distinct (names columns.now) }
{
    match columns {
        [] => true,
        [first, rest @ ..] => has_no(rest, first.name.as_str()) && are_distinct(rest),
    }
}

/// Whether no column has the name.
fn has_no(columns: &[Column], name: &str) -> bool
    ensures { result ≡ list_all (λ u. not (bytes_eq name.now u)) (names columns.now) }
{
    for column in columns {
        if name == column.name.as_str() {
            return false;
        }
    }
    true
}
