//! Lines that `csv` reads as they stand.

ghost use Rattle.std.specs.Prelude.{◌≡◌};
ghost use Rattle.std.specs.List.{list_any};
ghost use Rattle.castor_load.specs.Plain.{has_mark, is_plain, is_special};

// Whether a text begins with a byte order mark.
fn has_mark(text: &[u8]) -> bool
    ensures { result ≡ has_mark text.now }
{
    match text {
        [0xEF, 0xBB, 0xBF, ..] => true,
        _ => false,
    }
}

// Whether a quote, a CR or an LF stands in a text.
fn has_special(text: &[u8]) -> bool
    ensures { result ≡ list_any is_special text.now }
{
    text.iter()
        .any(|b| *b == b'"' || *b == b'\r' || *b == b'\n')
}

/// Whether a line is plain: it has a byte, no quote, no CR and no LF, and no byte order mark at its
/// start. To `csv` such a line is one record, whose fields stand between its commas. Linear in the
/// bytes of the line.
pub fn is_plain(line: &[u8]) -> bool
    ensures { result ≡ is_plain line.now }
{
    !line.is_empty() && !has_mark(line) && !has_special(line)
}
