//! The text of a field.

ghost use Rattle.std.specs.Prelude.{◌≡◌, [], ◌∷◌, ◌++◌, OnOk};
ghost use Rattle.csv.specs.Writing.{default_writer, escaped, field_text, needs_quotes, quoted};

use castor_val::Memory;

// Whether a comma, a quote, a CR or an LF stands in a field.
fn needs_quotes(field: &[u8]) -> bool
    ensures { result ≡ needs_quotes default_writer field.now }
{
    field
        .iter()
        .any(|b| *b == b',' || *b == b'"' || *b == b'\r' || *b == b'\n')
}

// Puts a byte at the end of a text, twice if it is a quote.
fn put_escaped(text: &mut Vec<u8>, byte: u8) -> Result<(), Memory>
    ensures { OnOk result (text.new.items ≡ text.old.items ++ escaped default_writer (byte ∷ [])) }
{
    if byte == b'"' {
        text.push(b'"')?;
    }
    text.push(byte)?;
    Ok(())
}

// Puts a field between quotes, its own doubled, at the end of a text.
fn put_quoted(text: &mut Vec<u8>, field: &[u8]) -> Result<(), Memory>
    ensures { OnOk result (text.new.items ≡ text.old.items ++ quoted default_writer field.now) }
{
    text.push(b'"')?;
    for b in field {
        put_escaped(text, *b)?;
    }
    text.push(b'"')?;
    Ok(())
}

/// Puts a field at the end of a text as `csv` writes it: between quotes where it needs them, and
/// else as it is. Linear in its bytes.
pub(crate) fn put_field(text: &mut Vec<u8>, field: &[u8]) -> Result<(), Memory>
    ensures { OnOk result (text.new.items ≡ text.old.items ++ field_text default_writer field.now) }
{
    if needs_quotes(field) {
        return put_quoted(text, field);
    }
    text.extend_from_slice(field)?;
    Ok(())
}
