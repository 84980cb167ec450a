//! The lines of an input.

ghost use Rattle.std.specs.Prelude.{◌≡◌, ◌<◌, ◌==◌, ◌∷◌, length, position};
ghost use Rattle.castor_cli.specs.Lines.{lines_of};

const LINE_FEED: u8 = b'\n';

// Where the first line feed is.
fn line_end(text: &[u8]) -> Option<usize>
    ensures { result ≡ position (λ b. b == 10) text.now }
{
    text.iter().position(|b| *b == LINE_FEED)
}

/// The first line of a text, without its line feed, and what stands behind it.
#[derive(Clone, Copy)]
pub struct Cut<'a> {
    pub line: &'a [u8],
    pub rest: &'a [u8],
}

/// Cuts off the first line. Linear in the line.
pub fn cut_line(text: &[u8]) -> Cut<'_>
    requires { 0 < length text.now }
    ensures cut { lines_of text.now ≡ result.line.now ∷ lines_of result.rest.now }
    ensures shorter { length result.rest.now < length text.now }
{
    match line_end(text) {
        Some(at) => Cut {
            line: &text[..at],
            rest: &text[at + 1..],
        },
        None => Cut {
            line: text,
            rest: &[],
        },
    }
}
