//! The limits of tokens.

ghost use Rattle.std.specs.Prelude.{◌≡◌, ◌≤◌, length, All};
ghost use Rattle.std.specs.List.{list_all};
ghost use Rattle.castor_tokens.specs.Cut.{Stands};
ghost use Rattle.castor_parse.specs.Lexemes.{lexeme_of, lexemes, undoubled};
ghost use Rattle.castor_parse.specs.Limits as spec;

use castor_tokens::{Keyword, Kind, Symbol, Token};
use castor_val::{MAX_NAME, MAX_TEXT};

const MAX_OPEN: u64 = 256;

const MAX_NOTS: u64 = 64;

const MAX_TOKENS: usize = 65_536;

/// How many bytes a text has with one quote for each two.
fn undoubled_len(text: &[u8]) -> usize
    ensures { result ≡ length (undoubled text.now) }
{
    let mut len = 0;
    let mut was_quote = false;
    for byte in text {
        if was_quote && *byte == b'\'' {
            was_quote = false;
        } else {
            len += 1;
            was_quote = *byte == b'\'';
        }
    }
    len
}

/// Whether a name or a text literal is short enough.
fn is_short(text: &[u8], token: Token) -> bool
    requires { Stands text.now token }
    ensures { result ≡ spec.is_short (lexeme_of text.now token.kind token.span) }
{
    let (from, to) = (token.span.from, token.span.to);
    match token.kind {
        Kind::Name => to - from <= MAX_NAME as u64,
        Kind::Text => undoubled_len(&text[from as usize + 1..to as usize - 1]) <= MAX_TEXT,
        Kind::Int | Kind::Keyword(_) | Kind::Symbol(_) => true,
    }
}

fn are_short(text: &[u8], tokens: &[Token]) -> bool
    requires { All (Stands text.now) tokens.now }
    ensures { result ≡ list_all spec.is_short (lexemes text.now tokens.now) }
{
    for token in tokens {
        if !is_short(text, *token) {
            return false;
        }
    }
    true
}

/// How many parentheses and brackets are open after a token.
fn opened(text: &[u8], before: u64, token: Token) -> u64
    requires { before ≤ 256 }
    ensures { result ≡ spec.opened before (lexeme_of text.now token.kind token.span) }
{
    match token.kind {
        Kind::Symbol(Symbol::OpenParen) | Kind::Symbol(Symbol::OpenBracket) => before + 1,
        Kind::Symbol(Symbol::CloseParen) | Kind::Symbol(Symbol::CloseBracket) => {
            before.saturating_sub(1)
        }
        _ => before,
    }
}

fn are_few_open(text: &[u8], tokens: &[Token]) -> bool
    ensures { result ≡ spec.are_few_open 0 (lexemes text.now tokens.now) }
{
    let mut open = 0;
    for token in tokens {
        open = opened(text, open, *token);
        if open > MAX_OPEN {
            return false;
        }
    }
    true
}

/// How many `not` stand one after another up to a token.
fn repeated(text: &[u8], nots: u64, token: Token) -> u64
    requires { nots ≤ 64 }
    ensures { result ≡ spec.repeated nots (lexeme_of text.now token.kind token.span) }
{
    match token.kind {
        Kind::Keyword(Keyword::Not) => nots + 1,
        _ => 0,
    }
}

fn are_few_nots(text: &[u8], tokens: &[Token]) -> bool
    ensures { result ≡ spec.are_few_nots 0 (lexemes text.now tokens.now) }
{
    let mut nots = 0;
    for token in tokens {
        nots = repeated(text, nots, *token);
        if nots > MAX_NOTS {
            return false;
        }
    }
    true
}

/// Whether the tokens of a text are within all limits. Linear in the text.
pub fn are_within_limits(text: &[u8], tokens: &[Token]) -> bool
    requires { All (Stands text.now) tokens.now }
    ensures { result ≡ spec.are_within_limits (lexemes text.now tokens.now) }
{
    tokens.len() <= MAX_TOKENS
        && are_short(text, tokens)
        && are_few_open(text, tokens)
        && are_few_nots(text, tokens)
}
