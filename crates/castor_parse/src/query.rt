//! Parses query files.

ghost use Rattle.std.specs.Prelude.{◌≡◌, map, length, true, All, IfOk, IfErr, IsUtf8};
ghost use Rattle.castor_tokens.specs.Cut.{Stands, AreSpansInOrder};
ghost use Rattle.castor_tree.specs.Formed.{IsFormed};
ghost use Rattle.castor_parse.specs.Lexemes.{lexemes};
ghost use Rattle.castor_parse.specs.Limits.{are_within_limits};
ghost use Rattle.castor_parse.specs.Parsed.{IsParsed, IsRefused, IsRead, IsUnread, IsSmallFile, IsLarge, HasOneTree};

use crate::limits::are_within_limits;
use crate::parser::{Parser, Stop};
use castor_tokens::{CutError, Span, Token, tokens};
use castor_tree::{Decl, File, PRel, is_within};
use castor_val::{MAX_DEPTH, MAX_SOURCE_BYTES};
use sqlite_items::Items;
use std::alloc::{AllocError, AllocFailed, Global};

/// Why a text isn't parsed.
#[derive(Clone, Copy, Debug, PartialEq, Eq)]
pub enum ParseError {
    /// The text has more than 1,048,576 bytes, a token passes a limit, or the tree is too large: it has
    /// more than 4,096 nodes or a depth over 64.
    TooLarge,
    /// The text isn't UTF-8.
    NotUtf8,
    /// The first byte of the first token that can't stand there, counted from 0; or the first byte where
    /// no token begins; or the length of the text where it ends too early.
    Syntax { at: u64 },
    Memory,
}

impl From<AllocError> for ParseError {
    ghost use Rattle.std.specs.Prelude.{◌≡◌};
    ghost use Rattle.castor_parse.specs.declared.query.ParseError.TheVariants.{Memory};

    ghost from_gives = { λ _ e. e ≡ Memory };

    fn from(_: AllocError) -> ParseError {
        ParseError::Memory
    }
}

impl<T: Drop> From<AllocFailed<T>> for ParseError {
    ghost use Rattle.std.specs.Prelude.{◌≡◌};
    ghost use Rattle.castor_parse.specs.declared.query.ParseError.TheVariants.{Memory};

    ghost from_gives = { λ _ e. e ≡ Memory };

    fn from(_: AllocFailed<T>) -> ParseError {
        ParseError::Memory
    }
}

/// Where tokens stand.
fn spans(alloc: Global, tokens: &[Token]) -> Result<Items<Span>, AllocError>
    ensures { IfOk result (λ all. all ≡ map (λ t. t.span) tokens.now) }
{
    let mut spans = Items::new(alloc);
    for token in tokens {
        spans.push(token.span)?;
    }
    Ok(spans)
}

/// The file of a tree that left so much of the budget of nodes, if the tree isn't too large.
fn small_file(
    alloc: Global,
    tokens: &[Token],
    left: u64,
    decls: Items<Decl>,
    query: PRel,
) -> Result<File, ParseError>
    ensures ok { IfOk result (IsSmallFile tokens.now left decls query) }
    ensures err { IfErr result (IsLarge left query) }
{
    if left == 0 {
        return Err(ParseError::TooLarge);
    }
    if !is_within(&query, MAX_DEPTH) {
        return Err(ParseError::TooLarge);
    }
    let tokens = spans(alloc, tokens)?;
    Ok(File {
        tokens,
        decls,
        query,
    })
}

/// The file that tokens within the limits make.
fn file(alloc: Global, text: &str, tokens: &[Token]) -> Result<File, ParseError>
    requires stand { All (Stands text.now) tokens.now }
    requires within { are_within_limits (lexemes text.now tokens.now) ≡ true }
    ensures ok { IfOk result (IsRead text.now tokens.now) }
    ensures formed { IfOk result IsFormed }
    ensures err { IfErr result (IsUnread text.now tokens.now) }
{
    let mut parser = Parser::new(alloc, text, tokens);
    match parser.file() {
        Err(Stop::Memory) => Err(ParseError::Memory),
        Err(Stop::Syntax) => {
            let len = text.len() as u64;
            let at = parser.place().unwrap_or(len).min(len);
            Err(ParseError::Syntax { at })
        }
        Ok((decls, query)) => small_file(alloc, tokens, parser.budget(), decls, query),
    }
}

/// Parses a query file. Linear in the text.
///
/// What is refused, in this order: `TooLarge` where the text has more than 1,048,576 bytes; `NotUtf8`;
/// `Syntax` where the text isn't cut into tokens; `TooLarge` where a name has more than 64 bytes, a text
/// literal more than 65,535 after its quotes are undone, more than 256 parentheses and brackets are open
/// at one place, more than 64 `not` stand one after another, or there are more than 65,536 tokens;
/// `Syntax` where the tokens aren't of the grammar; `TooLarge` where the tree has more than 4,096 nodes
/// or a depth over 64.
pub fn parse(alloc: Global, text: &[u8]) -> Result<File, ParseError>
    ensures ok { IfOk result (IsParsed text.now) }
    ensures formed { IfOk result IsFormed }
    ensures order { IfOk result (λ file. AreSpansInOrder 0 (length text.now) file.tokens) }
    ensures err { IfErr result (IsRefused text.now) }

    // No other tree is derived from the tokens of a text.
    ensures one { HasOneTree text.now }
{
    if text.len() as u64 > MAX_SOURCE_BYTES {
        return Err(ParseError::TooLarge);
    }
    let Ok(text) = std::str::from_utf8(text) else {
        return Err(ParseError::NotUtf8);
    };
    match tokens(alloc, text.as_bytes()) {
        Err(CutError::Memory) => Err(ParseError::Memory),
        Err(CutError::Syntax { at }) => Err(ParseError::Syntax { at }),
        Ok(tokens) => {
            if !are_within_limits(text.as_bytes(), tokens.as_slice()) {
                return Err(ParseError::TooLarge);
            }
            file(alloc, text, tokens.as_slice())
        }
    }
}
