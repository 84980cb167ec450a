//! The trees of query files, in which everything is still called by its name.

use castor_alg::Op;
use castor_tokens::Span;
use castor_val::{Text, Ty, Value};
use sqlite_items::{Boxed, Items};

/// A name of a text, and where it stands.
#[derive(Debug, Drop)]
pub struct Word {
    pub text: Text,
    pub span: Span,
}

/// A declaration.
#[derive(Drop)]
pub enum Decl {
    /// A table, with the names and types of its columns.
    Table(Word, Items<(Word, Ty)>),
    /// A parameter.
    Param(Word, Ty),
}

/// A column by its name.
#[derive(Drop)]
pub enum PCol {
    Name(Word),
    /// A column of a table or scope: `A.B`.
    Dotted(Word, Word),
    /// A column by its number from 0: `#3`.
    Number(u32),
}

/// An expression.
#[derive(Drop)]
pub enum PExpr {
    Col(PCol),
    /// A column of a scope by its number from 0: `k.3`.
    ScopeAt(Word, u32),
    Param(Word),
    /// A literal: its type and its value.
    Lit(Ty, Value),
    Bin(Op, Boxed<PExpr>, Boxed<PExpr>),
    Not(Boxed<PExpr>),
    /// The condition, what is taken where it is true, and what is taken where it is false.
    If(Boxed<PExpr>, Boxed<PExpr>, Boxed<PExpr>),
}

/// An expression of a `select` or `scalar`, and the name that `as` gives it.
#[derive(Drop)]
pub struct Item {
    pub expr: PExpr,
    pub name: Option<Word>,
}

/// An aggregate.
#[derive(Drop)]
pub enum PAgg {
    Count,
    Sum(PCol),
    Min(PCol),
    Max(PCol),
}

/// One end of the range of an ordered index.
#[derive(Drop)]
pub enum PBound {
    /// No limit.
    Any,
    /// Up to the value, which is in the range.
    Incl(PExpr),
    /// Up to the value, which isn't.
    Excl(PExpr),
}

/// A relation. In a binder (`DepJoin`, `List`, `Hash`, `Ord`) the word is the scope, the first relation
/// is the source and the second the body.
#[derive(Drop)]
pub enum PRel {
    Table(Word),
    Scalar(Item),
    Cross(Items<PRel>),
    Concat(Items<PRel>),
    Select(Items<Item>, Boxed<PRel>),
    Filter(PExpr, Boxed<PRel>),
    Join(PExpr, Boxed<PRel>, Boxed<PRel>),
    DepJoin(Word, Boxed<PRel>, Boxed<PRel>),
    List(Word, Boxed<PRel>, Boxed<PRel>),
    Hash(Word, Boxed<PRel>, Boxed<PRel>, Items<PExpr>),
    /// The scope, the source, the body, the lower and the upper bound.
    Ord(Word, Boxed<PRel>, Boxed<PRel>, PBound, PBound),
    /// The keys, the aggregates with the names that `as` gives them, and what is grouped.
    Group(Items<PCol>, Items<(PAgg, Option<Word>)>, Boxed<PRel>),
    /// The keys, each with whether it falls, and what is ordered.
    Order(Items<(PCol, bool)>, Boxed<PRel>),
    Dedup(Boxed<PRel>),
}

/// A query file: where its tokens stand, its declarations in order, and its query.
#[derive(Drop)]
pub struct File {
    pub tokens: Items<Span>,
    pub decls: Items<Decl>,
    pub query: PRel,
}
