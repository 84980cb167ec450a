//! A parser over the tokens of a text, and the steps that every rule is made of.

ghost use Rattle.std.specs.Prelude.{◌≡◌, ◌≤◌, if◌then◌else◌, length, All, IfOk, IsUtf8, Some};
ghost use Rattle.castor_tokens.specs.Cut.{Stands, StandsAt};
ghost use Rattle.castor_parse.specs.Lexemes.{lexemes, slice, inside, word_at, number_of, undoubled, IsNumber};
ghost use Rattle.castor_parse.specs.Parser as spec;
ghost use Rattle.castor_parse.specs.Parser.{Reads};

use castor_tokens::{Keyword, Kind, Span, Symbol, Token};
use castor_tree::Word;
use castor_val::{MAX_QUERY_NODES, Memory, Text};
use std::alloc::{AllocError, AllocFailed, Global};
use std::marker::Model;

/// Why a rule reads nothing.
#[derive(Clone, Copy, Debug, PartialEq, Eq)]
pub enum Stop {
    /// The next token can't stand there.
    Syntax,
    Memory,
}

impl From<AllocError> for Stop {
    ghost use Rattle.std.specs.Prelude.{◌≡◌};
    ghost use Rattle.castor_parse.specs.declared.parser.Stop.TheVariants.{Memory};

    ghost from_gives = { λ _ e. e ≡ Memory };

    fn from(_: AllocError) -> Stop {
        Stop::Memory
    }
}

impl<T: Drop> From<AllocFailed<T>> for Stop {
    ghost use Rattle.std.specs.Prelude.{◌≡◌};
    ghost use Rattle.castor_parse.specs.declared.parser.Stop.TheVariants.{Memory};

    ghost from_gives = { λ _ e. e ≡ Memory };

    fn from(_: AllocFailed<T>) -> Stop {
        Stop::Memory
    }
}

impl From<Memory> for Stop {
    ghost use Rattle.std.specs.Prelude.{◌≡◌};
    ghost use Rattle.castor_parse.specs.declared.parser.Stop.TheVariants.{Memory};

    ghost from_gives = { λ _ e. e ≡ Memory };

    fn from(_: Memory) -> Stop {
        Stop::Memory
    }
}

/// A parser over the tokens of a text. Each rule of the grammar is a method, which reads from the next
/// token on, and leaves the parser at the token that it can't read where it refuses.
///
/// Nodes are made on a budget. Where none of it is left the parser goes on reading, since a token that
/// can't stand where it does comes before a tree that is too large, and makes an empty tree in the place
/// of each node, so that no tree gets deep.
#[derive(Drop)]
pub struct Parser<'a> {
    alloc: Global,
    text: &'a str,
    /// The tokens that are left.
    tokens: &'a [Token],
    /// What is left of the budget of nodes: at least one where the tree isn't too large so far.
    budget: u64,
}

impl<'a> Model for Parser<'a> {
    ghost use Rattle.castor_parse.specs.Parser.{State};
    ghost use Rattle.castor_parse.specs.Place.{state_of, IsReady};

    ghost Value = { State };

    ghost view = { state_of };

    ghost invariant = { IsReady };
}

impl<'a> Parser<'a> {
    /// A parser at the first of the tokens of a text.
    pub fn new(alloc: Global, text: &'a str, tokens: &'a [Token]) -> Parser<'a>
        requires utf8 { IsUtf8 text.now }
        requires stand { All (Stands text.now) tokens.now }
        ensures { result ≡ spec.at (lexemes text.now tokens.now) spec.node_budget }
    {
        Parser {
            alloc,
            text,
            tokens,
            budget: MAX_QUERY_NODES + 1,
        }
    }

    /// The allocator that trees are made with.
    pub fn alloc(&self) -> Global {
        self.alloc
    }

    /// How many tokens are left.
    pub fn left(&self) -> usize
        ensures { result ≡ length self.now.rest }
    {
        self.tokens.len()
    }

    /// What is left of the budget of nodes, nothing where the tree has too many.
    pub fn budget(&self) -> u64
        ensures { result ≡ self.now.budget }
    {
        self.budget
    }

    /// Where the next token begins.
    pub fn place(&self) -> Option<u64> {
        match self.tokens {
            [token, ..] => Some(token.span.from),
            [] => None,
        }
    }

    /// What the next token is.
    pub fn peek(&self) -> Option<Kind>
        ensures { result ≡ spec.first_kind self.now.rest }
    {
        match self.tokens {
            [token, ..] => Some(token.kind),
            [] => None,
        }
    }

    /// Passes a token.
    pub fn advance(&mut self)
        ensures { self.new ≡ spec.advanced self.old }
    {
        if let [_, rest @ ..] = self.tokens {
            self.tokens = rest;
        }
    }

    fn sees_keyword(&self, keyword: Keyword) -> bool
        ensures { result ≡ spec.is_keyword keyword (spec.first_kind self.now.rest) }
    {
        match self.peek() {
            Some(Kind::Keyword(next)) => next == keyword,
            _ => false,
        }
    }

    fn sees_symbol(&self, symbol: Symbol) -> bool
        ensures { result ≡ spec.is_symbol symbol (spec.first_kind self.now.rest) }
    {
        match self.peek() {
            Some(Kind::Symbol(next)) => next == symbol,
            _ => false,
        }
    }

    /// Passes this reserved word, where it comes next.
    #[tactic(auto, unfolding(crate::specs::Parser::eat_keyword))]
    pub fn eat_keyword(&mut self, keyword: Keyword) -> bool
        ensures { spec.eat_keyword keyword self.old ≡ Some (result, self.new) }
    {
        let found = self.sees_keyword(keyword);
        if found {
            self.advance();
        }
        found
    }

    /// Passes this symbol, where it comes next.
    #[tactic(auto, unfolding(crate::specs::Parser::eat_symbol))]
    pub fn eat_symbol(&mut self, symbol: Symbol) -> bool
        ensures { spec.eat_symbol symbol self.old ≡ Some (result, self.new) }
    {
        let found = self.sees_symbol(symbol);
        if found {
            self.advance();
        }
        found
    }

    /// Passes this reserved word.
    #[tactic(auto, unfolding(crate::specs::Parser::expect_keyword))]
    pub fn expect_keyword(&mut self, keyword: Keyword) -> Result<(), Stop>
        ensures { Reads (spec.expect_keyword keyword self.old) result self.new }
    {
        if self.sees_keyword(keyword) {
            self.advance();
            Ok(())
        } else {
            Err(Stop::Syntax)
        }
    }

    /// Passes this symbol.
    #[tactic(auto, unfolding(crate::specs::Parser::expect_symbol))]
    pub fn expect_symbol(&mut self, symbol: Symbol) -> Result<(), Stop>
        ensures { Reads (spec.expect_symbol symbol self.old) result self.new }
    {
        if self.sees_symbol(symbol) {
            self.advance();
            Ok(())
        } else {
            Err(Stop::Syntax)
        }
    }

    /// A name.
    #[tactic(auto, unfolding(crate::specs::Parser::read_name))]
    pub fn name(&mut self) -> Result<Word, Stop>
        ensures { Reads (spec.read_name self.old) result self.new }
    {
        let [token, rest @ ..] = self.tokens else {
            return Err(Stop::Syntax);
        };
        let Kind::Name = token.kind else {
            return Err(Stop::Syntax);
        };
        let word = word(self.alloc, self.text, token.span)?;
        self.tokens = rest;
        Ok(word)
    }

    /// An int of at most this much.
    #[tactic(auto, unfolding(crate::specs::Parser::read_int))]
    pub fn int(&mut self, limit: u64) -> Result<u64, Stop>
        ensures value { Reads (spec.read_int limit self.old) result self.new }
        ensures within { IfOk result (λ n. n ≤ limit) }
    {
        let [token, rest @ ..] = self.tokens else {
            return Err(Stop::Syntax);
        };
        let Kind::Int = token.kind else {
            return Err(Stop::Syntax);
        };
        match number(self.text.as_bytes(), token.span) {
            Some(number) if number <= limit => {
                self.tokens = rest;
                Ok(number)
            }
            _ => Err(Stop::Syntax),
        }
    }

    /// What a text literal stands for.
    #[tactic(auto, unfolding(crate::specs::Parser::read_text))]
    pub fn text(&mut self) -> Result<Text, Stop>
        ensures { Reads (spec.read_text self.old) result self.new }
    {
        let [token, rest @ ..] = self.tokens else {
            return Err(Stop::Syntax);
        };
        let Kind::Text = token.kind else {
            return Err(Stop::Syntax);
        };
        let text = literal(self.alloc, self.text, token.span)?;
        self.tokens = rest;
        Ok(text)
    }

    /// One more node: the tree where some of the budget is left, and else an empty one.
    #[tactic(auto, unfolding(crate::specs::Parser::node))]
    pub fn node<T: Drop>(&mut self, empty: T, tree: T) -> T
        ensures { spec.node empty tree self.old ≡ Some (result, self.new) }
    {
        self.budget = self.budget.saturating_sub(1);
        chosen(self.budget > 0, tree, empty)
    }
}

/// The first of two where it is wanted, and else the second.
fn chosen<T: Drop>(is_wanted: bool, first: T, second: T) -> T
    ensures { result ≡ (if is_wanted then first else second) }
{
    if is_wanted { first } else { second }
}

/// The name at a span.
fn word(alloc: Global, text: &str, span: Span) -> Result<Word, Memory>
    requires utf8 { IsUtf8 text.now }
    requires stands { StandsAt text.now Kind.Name span.from span.to }
    ensures { IfOk result (λ w. w ≡ word_at text.now span) }
{
    let name = &text[span.from as usize..span.to as usize];
    Ok(Word {
        text: Text::from_str(alloc, name)?,
        span,
    })
}

/// The number that the digits at a span spell, where it is below 2^64. Linear in the digits.
fn number(text: &[u8], span: Span) -> Option<u64>
    requires { StandsAt text.now Kind.Int span.from span.to }
    ensures { IsNumber (number_of (slice text.now span)) result }
{
    let mut number: u64 = 0;
    for digit in &text[span.from as usize..span.to as usize] {
        let value = u64::from(digit.saturating_sub(b'0'));
        number = number.checked_mul(10)?.checked_add(value)?;
    }
    Some(number)
}

/// The text of a text literal at a span. Linear in it.
fn literal(alloc: Global, text: &str, span: Span) -> Result<Text, Memory>
    requires utf8 { IsUtf8 text.now }
    requires stands { StandsAt text.now Kind.Text span.from span.to }
    ensures { IfOk result (λ t. t ≡ undoubled (slice text.now (inside span))) }
{
    let within = &text[span.from as usize + 1..span.to as usize - 1];
    undoubled(alloc, within)
}

/// A text with one quote for each two. Linear in it.
fn undoubled(alloc: Global, text: &str) -> Result<Text, Memory>
    requires { IsUtf8 text.now }
    ensures { IfOk result (λ t. t ≡ undoubled text.now) }
{
    let bytes = undoubled_bytes(alloc, text.as_bytes())?;
    Ok(Text::new(String::from_utf8(bytes).unwrap()))
}

fn undoubled_bytes(alloc: Global, text: &[u8]) -> Result<Vec<u8>, Memory>
    ensures { IfOk result (λ v. v.items ≡ undoubled text.now) }
{
    let mut bytes = Vec::new(alloc);
    let mut was_quote = false;
    for byte in text {
        if was_quote && *byte == b'\'' {
            was_quote = false;
        } else {
            bytes.push(*byte)?;
            was_quote = *byte == b'\'';
        }
    }
    Ok(bytes)
}
