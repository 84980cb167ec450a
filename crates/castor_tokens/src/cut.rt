//! Cuts a text into tokens.

ghost use Rattle.std.specs.Prelude.{◌≡◌, ◌<◌, ◌≤◌, ◌+◌, ◌-◌, ◌^◌, All, length, take, drop, slice_index, IfOk, IfErr, IfSome, Some, true, false, find, nat_eq};
ghost use Rattle.std.specs.List.{starts_with};
ghost use Rattle.std.specs.Str.{bytes_eq};
ghost use Rattle.castor_tokens.specs.Tokens as spec;
ghost use Rattle.castor_tokens.specs.Cut.{IsWithin, StandsInFront, Stands, AreInOrder, IsCutError};

use crate::token::{Keyword, Kind, Span, Symbol, Token};
use std::alloc::{AllocError, AllocFailed, Global};

/// Why a text is not cut into tokens.
#[derive(Clone, Copy, Debug, PartialEq, Eq)]
pub enum CutError {
    /// At this byte, counted from 0, no token begins; or the text ends within a text literal.
    Syntax { at: u64 },
    Memory,
}

impl From<AllocError> for CutError {
    ghost use Rattle.castor_tokens.specs.declared.cut.CutError.TheVariants.{Memory};

    ghost from_gives = { λ _ e. e ≡ Memory };

    fn from(_: AllocError) -> CutError {
        CutError::Memory
    }
}

impl<T: Drop> From<AllocFailed<T>> for CutError {
    ghost use Rattle.castor_tokens.specs.declared.cut.CutError.TheVariants.{Memory};

    ghost from_gives = { λ _ e. e ≡ Memory };

    fn from(_: AllocFailed<T>) -> CutError {
        CutError::Memory
    }
}

/// What stands at the front of a text, with its length in bytes.
#[derive(Clone, Copy, Debug, PartialEq, Eq)]
pub enum Piece {
    /// White space, or a comment.
    Blank(usize),
    Token(Kind, usize),
    /// A byte that no token begins with.
    Stray,
    /// A text literal that no quote closes.
    Unclosed,
}

/// Sets of bytes, of which a piece is the longest run.
#[derive(Clone, Copy, Debug, PartialEq, Eq)]
enum Class {
    Space,
    Word,
    Digit,
    Line,
}

fn is_in(class: Class, b: u8) -> bool
    ensures { result ≡ spec.is_in class b }
{
    match class {
        Class::Space => b == b' ' || b == b'\t' || b == b'\r' || b == b'\n',
        Class::Word => b.is_ascii_alphanumeric() || b == b'_',
        Class::Digit => b.is_ascii_digit(),
        Class::Line => b != b'\n',
    }
}

/// The length of the longest run of a class at the front.
fn run(class: Class, z: &[u8]) -> usize
    ensures value { result ≡ spec.run class z.now }
    ensures within { result ≤ length z.now }
    ensures some { 0 < length z.now → spec.is_in class (slice_index z.now 0) ≡ true → 0 < result }
    ensures last { 0 < result → spec.is_in class (slice_index z.now (result - 1)) ≡ true }
{
    let mut end = 0;
    while end < z.len() && is_in(class, z[end]) {
        end += 1;
    }
    end
}

fn byte(z: &[u8], at: usize) -> u8
    ensures { result ≡ slice_index z.now at }
{
    if at < z.len() { z[at] } else { 0 }
}

fn find_keyword(all: &[Keyword], word: &[u8]) -> Option<Keyword>
    ensures { result ≡ find (λ k. bytes_eq (spec.keyword_spelling k) word.now) all.now }
{
    for keyword in all {
        if keyword.spelling() == word {
            return Some(*keyword);
        }
    }
    None
}

#[tactic(auto, unfolding(crate::specs::Tokens::keyword_of))]
fn keyword(word: &[u8]) -> Option<Keyword>
    ensures { result ≡ spec.keyword_of word.now }
{
    find_keyword(&Keyword::ALL, word)
}

fn find_symbol(all: &[Symbol], z: &[u8]) -> Option<Symbol>
    ensures value { result ≡ find (λ s. starts_with nat_eq z.now (spec.symbol_spelling s)) all.now }
    ensures within { IfSome result (λ s. length (spec.symbol_spelling s) ≤ length z.now) }
{
    for symbol in all {
        if z.starts_with(symbol.spelling()) {
            return Some(*symbol);
        }
    }
    None
}

#[tactic(auto, unfolding(crate::specs::Tokens::symbol_of))]
fn symbol(z: &[u8]) -> Option<Symbol>
    ensures value { result ≡ spec.symbol_of z.now }
    ensures within { IfSome result (λ s. length (spec.symbol_spelling s) ≤ length z.now) }
{
    find_symbol(&Symbol::ALL, z)
}

/// The length of the text literal at the front, with its quotes. Linear in it.
fn literal_end(mut z: &[u8]) -> Option<usize>
    requires { length z.now < 2 ^ 63 }
    ensures value { result ≡ spec.literal_end false 1 z.entry.now }
    ensures within { IfSome result (λ end. (2 ≤ end) × (end ≤ length z.entry.now + 1)) }
    ensures last { IfSome result (λ end. slice_index z.entry.now (end - 2) ≡ spec.quote) }
{
    let mut is_second = false;
    let mut at = 1;
    while let [b, rest @ ..] = z {
        if !is_second && *b == b'\'' && byte(rest, 0) != b'\'' {
            return Some(at + 1);
        }
        is_second = !is_second && *b == b'\'';
        at += 1;
        z = rest;
    }
    None
}

fn word(z: &[u8]) -> Piece
    requires some { 0 < length z.now }
    requires begins { spec.begins_word (slice_index z.now 0) ≡ true }
    requires goes_on { spec.is_in Class.Word (slice_index z.now 0) ≡ true }
    ensures value { result ≡ Piece.Token (spec.word_kind (spec.keyword_of (take (spec.run Class.Word z.now) z.now))) (spec.run Class.Word z.now) }
    ensures within { IsWithin z.now result }
    ensures stands { StandsInFront z.now result }
{
    let end = run(Class::Word, z);
    match keyword(&z[..end]) {
        Some(keyword) => Piece::Token(Kind::Keyword(keyword), end),
        None => Piece::Token(Kind::Name, end),
    }
}

fn literal(z: &[u8]) -> Piece
    requires some { 0 < length z.now }
    requires begins { slice_index z.now 0 ≡ spec.quote }
    ensures value { result ≡ spec.literal_piece (spec.literal_end false 1 (drop 1 z.now)) }
    ensures within { IsWithin z.now result }
    ensures stands { StandsInFront z.now result }
{
    match literal_end(&z[1..]) {
        None => Piece::Unclosed,
        Some(end) => Piece::Token(Kind::Text, end),
    }
}

fn mark(z: &[u8]) -> Piece
    ensures value { result ≡ spec.symbol_piece (spec.symbol_of z.now) }
    ensures within { IsWithin z.now result }
    ensures stands { StandsInFront z.now result }
{
    match symbol(z) {
        None => Piece::Stray,
        Some(symbol) => Piece::Token(Kind::Symbol(symbol), symbol.spelling().len()),
    }
}

/// What stands at the front of a text that isn't empty. Linear in what it answers.
#[tactic(auto, unfolding(crate::specs::Tokens::piece_of))]
fn next_piece(z: &[u8]) -> Piece
    requires { 0 < length z.now }
    ensures value { result ≡ spec.piece_of z.now }
    ensures within { IsWithin z.now result }
    ensures stands { StandsInFront z.now result }
{
    let b = byte(z, 0);
    if is_in(Class::Space, b) {
        Piece::Blank(run(Class::Space, z))
    } else if b == b'-' && byte(z, 1) == b'-' {
        Piece::Blank(run(Class::Line, z))
    } else if b.is_ascii_alphabetic() || b == b'_' {
        word(z)
    } else if is_in(Class::Digit, b) {
        Piece::Token(Kind::Int, run(Class::Digit, z))
    } else if b == b'\'' {
        literal(z)
    } else {
        mark(z)
    }
}

/// The tokens of a text, in order. Linear in the text.
///
/// `Syntax` comes exactly where the text isn't cut into tokens, with the place of the first byte that
/// no token begins with, or the length of the text where a text literal isn't closed.
pub fn tokens(alloc: Global, text: &[u8]) -> Result<Vec<Token>, CutError>
    ensures ok { IfOk result (λ v. spec.tokens_of text.now ≡ Some v.items) }
    ensures order { IfOk result (λ v. AreInOrder 0 (length text.now) v.items) }
    ensures stand { IfOk result (λ v. All (Stands text.now) v.items) }
    ensures err { IfErr result (IsCutError text.now) }
{
    let mut tokens = Vec::new(alloc);
    let mut at = 0;
    'cut: while at < text.len() {
        match next_piece(&text[at..]) {
            Piece::Blank(len) => at += len,
            Piece::Token(kind, len) => {
                let from = at as u64;
                let to = (at + len) as u64;
                tokens.push(Token {
                    kind,
                    span: Span { from, to },
                })?;
                at += len;
            }
            Piece::Stray => return Err(CutError::Syntax { at: at as u64 }),
            Piece::Unclosed => {
                return Err(CutError::Syntax {
                    at: text.len() as u64,
                });
            }
        }
    }
    Ok(tokens)
}
