//! Tokens: the reserved words, the symbols, and where a token stands.

ghost use Rattle.std.specs.Prelude.{◌≡◌, ◌≤◌, length};
ghost use Rattle.castor_tokens.specs.Tokens.{keyword_spelling, symbol_spelling};

/// Where something stands in a text: the place of its first byte and the place after its last one.
#[derive(Clone, Copy, Debug, PartialEq, Eq)]
pub struct Span {
    pub from: u64,
    pub to: u64,
}

/// A reserved word, which is no name.
#[derive(Clone, Copy, Debug, PartialEq, Eq)]
pub enum Keyword {
    Table,
    Param,
    Query,
    Int,
    Bool,
    Text,
    Dec,
    Scalar,
    Cross,
    Concat,
    Select,
    Filter,
    Join,
    Depjoin,
    Groupby,
    Orderby,
    Dedup,
    List,
    Hash,
    Ordered,
    As,
    And,
    Or,
    Not,
    If,
    True,
    False,
    Asc,
    Desc,
    Count,
    Sum,
    Min,
    Max,
    Any,
}

impl Keyword {
    /// All reserved words.
    pub const ALL: [Keyword; 34] = [
        Keyword::Table,
        Keyword::Param,
        Keyword::Query,
        Keyword::Int,
        Keyword::Bool,
        Keyword::Text,
        Keyword::Dec,
        Keyword::Scalar,
        Keyword::Cross,
        Keyword::Concat,
        Keyword::Select,
        Keyword::Filter,
        Keyword::Join,
        Keyword::Depjoin,
        Keyword::Groupby,
        Keyword::Orderby,
        Keyword::Dedup,
        Keyword::List,
        Keyword::Hash,
        Keyword::Ordered,
        Keyword::As,
        Keyword::And,
        Keyword::Or,
        Keyword::Not,
        Keyword::If,
        Keyword::True,
        Keyword::False,
        Keyword::Asc,
        Keyword::Desc,
        Keyword::Count,
        Keyword::Sum,
        Keyword::Min,
        Keyword::Max,
        Keyword::Any,
    ];

    /// The word as it is written.
    #[tactic(auto, unfolding(crate::specs::Tokens::keyword_spelling))]
    pub fn spelling(self) -> &'static [u8]
        ensures { result.now ≡ keyword_spelling self }
    {
        match self {
            Keyword::Table => b"table",
            Keyword::Param => b"param",
            Keyword::Query => b"query",
            Keyword::Int => b"int",
            Keyword::Bool => b"bool",
            Keyword::Text => b"text",
            Keyword::Dec => b"dec",
            Keyword::Scalar => b"scalar",
            Keyword::Cross => b"cross",
            Keyword::Concat => b"concat",
            Keyword::Select => b"select",
            Keyword::Filter => b"filter",
            Keyword::Join => b"join",
            Keyword::Depjoin => b"depjoin",
            Keyword::Groupby => b"groupby",
            Keyword::Orderby => b"orderby",
            Keyword::Dedup => b"dedup",
            Keyword::List => b"list",
            Keyword::Hash => b"hash",
            Keyword::Ordered => b"ordered",
            Keyword::As => b"as",
            Keyword::And => b"and",
            Keyword::Or => b"or",
            Keyword::Not => b"not",
            Keyword::If => b"if",
            Keyword::True => b"true",
            Keyword::False => b"false",
            Keyword::Asc => b"asc",
            Keyword::Desc => b"desc",
            Keyword::Count => b"count",
            Keyword::Sum => b"sum",
            Keyword::Min => b"min",
            Keyword::Max => b"max",
            Keyword::Any => b"any",
        }
    }
}

/// A symbol.
#[derive(Clone, Copy, Debug, PartialEq, Eq)]
pub enum Symbol {
    Ne,
    Le,
    Ge,
    OpenParen,
    CloseParen,
    OpenBracket,
    CloseBracket,
    Comma,
    Semicolon,
    Dot,
    Dollar,
    Hash,
    Eq,
    Lt,
    Gt,
    Plus,
    Minus,
    Star,
    Slash,
    Percent,
}

impl Symbol {
    /// All symbols, the longest first.
    pub const ALL: [Symbol; 20] = [
        Symbol::Ne,
        Symbol::Le,
        Symbol::Ge,
        Symbol::OpenParen,
        Symbol::CloseParen,
        Symbol::OpenBracket,
        Symbol::CloseBracket,
        Symbol::Comma,
        Symbol::Semicolon,
        Symbol::Dot,
        Symbol::Dollar,
        Symbol::Hash,
        Symbol::Eq,
        Symbol::Lt,
        Symbol::Gt,
        Symbol::Plus,
        Symbol::Minus,
        Symbol::Star,
        Symbol::Slash,
        Symbol::Percent,
    ];

    /// The symbol as it is written.
    #[tactic(auto, unfolding(crate::specs::Tokens::symbol_spelling))]
    pub fn spelling(self) -> &'static [u8]
        ensures spelling { result.now ≡ symbol_spelling self }
        ensures some { 1 ≤ length result.now }
    {
        match self {
            Symbol::Ne => b"!=",
            Symbol::Le => b"<=",
            Symbol::Ge => b">=",
            Symbol::OpenParen => b"(",
            Symbol::CloseParen => b")",
            Symbol::OpenBracket => b"[",
            Symbol::CloseBracket => b"]",
            Symbol::Comma => b",",
            Symbol::Semicolon => b";",
            Symbol::Dot => b".",
            Symbol::Dollar => b"$",
            Symbol::Hash => b"#",
            Symbol::Eq => b"=",
            Symbol::Lt => b"<",
            Symbol::Gt => b">",
            Symbol::Plus => b"+",
            Symbol::Minus => b"-",
            Symbol::Star => b"*",
            Symbol::Slash => b"/",
            Symbol::Percent => b"%",
        }
    }
}

/// What a token is.
#[derive(Clone, Copy, Debug, PartialEq, Eq)]
pub enum Kind {
    /// A letter or `_`, and then letters, digits and `_`; no reserved word.
    Name,
    /// One or more digits.
    Int,
    /// A text between single quotes, with two quotes for one inside.
    Text,
    Keyword(Keyword),
    Symbol(Symbol),
}

/// A token of a text.
#[derive(Clone, Copy, Debug, PartialEq, Eq)]
pub struct Token {
    pub kind: Kind,
    pub span: Span,
}
