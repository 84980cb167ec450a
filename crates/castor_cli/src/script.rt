//! The script that a command is about.

ghost use Rattle.std.specs.Prelude.{◌≡◌, IfOk};
ghost use Rattle.castor_tokens.specs.Tokens.{tokens_of};
ghost use Rattle.castor_cli.specs.Script.{are_finish, is_finish, is_spelled, slice};

use castor_tokens::{CutError, Span, Token, tokens};
use castor_val::Memory;
use std::alloc::Global;

// The bytes at a span.
fn slice(text: &[u8], at: Span) -> &[u8]
    ensures { result.now ≡ slice text.now at }
{
    let from = at.from.min(text.len() as u64) as usize;
    let rest = &text[from..];
    let len = at.to.saturating_sub(at.from).min(rest.len() as u64) as usize;
    &rest[..len]
}

// Whether a token is written so.
fn is_spelled(text: &[u8], token: Token, word: &[u8]) -> bool
    ensures { result ≡ is_spelled text.now token word.now }
{
    slice(text, token.span) == word
}

// Whether the tokens are the word `finish` and a semicolon.
fn is_finish(text: &[u8], tokens: &[Token]) -> bool
    ensures { result ≡ is_finish text.now tokens.now }
{
    match tokens {
        [first, second] => {
            is_spelled(text, *first, b"finish") && is_spelled(text, *second, b";")
        }
        _ => false,
    }
}

/// Whether a text is the one script that is built yet: `finish` and a semicolon. Linear in the text.
pub fn is_finish_script(alloc: Global, text: &[u8]) -> Result<bool, Memory>
    ensures { IfOk result (λ is. is ≡ are_finish text.now (tokens_of text.now)) }
{
    match tokens(alloc, text) {
        Ok(tokens) => Ok(is_finish(text, tokens.as_slice())),
        Err(CutError::Memory) => Err(Memory),
        Err(CutError::Syntax { .. }) => Ok(false),
    }
}
