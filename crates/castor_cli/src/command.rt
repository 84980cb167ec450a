//! What the words after the program's name ask for.

ghost use Rattle.std.specs.Prelude.{◌≡◌, map, string_bytes};
ghost use Rattle.std.specs.List.{list_all};
ghost use Rattle.castor_cli.specs.Commands.{command_of, has_no_leading_zero, is_digit, is_row_count, of_one, of_three, of_two};

/// A command, as the first word names it.
#[derive(Clone, Copy, Debug, PartialEq, Eq)]
pub enum Command {
    /// `answer QUERY SCRIPT`: the replies to the lines of the input.
    Answer,
    /// `build QUERY SCRIPT IMAGE`: an image, written under a name.
    Build,
    /// `ask IMAGE`: the replies of an image to the lines of the input.
    Ask,
    /// `show QUERY SCRIPT`: the final query and its cost.
    Show,
    /// `code IMAGE`: the reader code of an image.
    Code,
    /// `sample N`: the generated run over N rows.
    Sample,
}

// Whether no digit stands after a zero in front.
fn starts_well(word: &[u8]) -> bool
    ensures { result ≡ has_no_leading_zero word.now }
{
    match word {
        [] => false,
        [_] => true,
        [first, _, ..] => *first != b'0',
    }
}

// Whether all are decimal digits.
fn are_digits(word: &[u8]) -> bool
    ensures { result ≡ list_all is_digit word.now }
{
    word.iter().all(|c| b'0' <= *c && *c <= b'9')
}

// Whether a word is a number of rows for `sample`: 0 to 100,000 in decimal.
fn is_count(word: &[u8]) -> bool
    ensures { result ≡ is_row_count word.now }
{
    starts_well(word) && are_digits(word) && (word.len() <= 5 || word == b"100000".as_slice())
}

fn with_one(verb: &str, word: &str) -> Option<Command>
    ensures { result ≡ of_one verb.now word.now }
{
    if verb == "ask" {
        Some(Command::Ask)
    } else if verb == "code" {
        Some(Command::Code)
    } else if verb == "sample" && is_count(word.as_bytes()) {
        Some(Command::Sample)
    } else {
        None
    }
}

fn with_two(verb: &str) -> Option<Command>
    ensures { result ≡ of_two verb.now }
{
    if verb == "answer" {
        Some(Command::Answer)
    } else if verb == "show" {
        Some(Command::Show)
    } else {
        None
    }
}

fn with_three(verb: &str) -> Option<Command>
    ensures { result ≡ of_three verb.now }
{
    if verb == "build" {
        Some(Command::Build)
    } else {
        None
    }
}

/// The command that the words are a form of, if they are one. Takes no memory.
pub fn command_in(words: &[String]) -> Option<Command>
    ensures { result ≡ command_of (map string_bytes words.now) }
{
    match words {
        [verb, word] => with_one(verb.as_str(), word.as_str()),
        [verb, _query, _script] => with_two(verb.as_str()),
        [verb, _query, _script, _image] => with_three(verb.as_str()),
        _ => None,
    }
}
