//! The fields of a plain line.

ghost use Rattle.std.specs.Prelude.{◌≡◌, ◌∷◌, [], MatchOption, position};
ghost use Rattle.castor_load.specs.Plain.{fields_between, fields_left, is_comma};

/// The fields between the commas of a line, first to last. They borrow the line and take no memory.
#[derive(Clone, Copy)]
pub(crate) struct Fields<'a> {
    // The fields that are left with the commas between them, if any is left.
    rest: Option<&'a [u8]>,
}

// Where the first comma is.
fn first_comma(text: &[u8]) -> Option<usize>
    ensures { result ≡ position is_comma text.now }
{
    text.iter().position(|b| *b == b',')
}

impl<'a> Fields<'a> {
    /// The fields of a line, one more than it has commas.
    pub(crate) fn of_line(line: &'a [u8]) -> Fields<'a>
        ensures { fields_left result ≡ fields_between line.now }
    {
        Fields { rest: Some(line) }
    }

    /// The next field, or None behind the last. Linear in its bytes.
    pub(crate) fn next(&mut self) -> Option<&'a [u8]>
        ensures { MatchOption result (fields_left self.old ≡ [])
            (λ field. fields_left self.old ≡ field.now ∷ fields_left self.new) }
    {
        let rest = self.rest?;
        match first_comma(rest) {
            Some(at) => {
                self.rest = Some(&rest[at + 1..]);
                Some(&rest[..at])
            }
            None => {
                self.rest = None;
                Some(rest)
            }
        }
    }
}
