//! The grammar of relations: a method of the parser for each rule.

ghost use Rattle.std.specs.Prelude.{◌≡◌, [], ◌∷◌, IfOk, Some};
ghost use Rattle.castor_parse.specs.Parser as spec;
ghost use Rattle.castor_parse.specs.Parser.{Reads};

use crate::kept::{before, beside};
use crate::parser::{Parser, Stop};
use castor_tokens::{Keyword, Kind, Symbol};
use castor_tree::{Item, PAgg, PBound, PCol, PExpr, PRel, Word};
use sqlite_items::{Boxed, Items};
use std::alloc::{AllocError, Global};

/// The list of one item.
pub fn only<T: Drop>(alloc: Global, item: T) -> Result<Items<T>, AllocError>
    ensures { IfOk result (λ all. all ≡ item ∷ []) }
{
    let mut all = Items::new(alloc);
    all.push(item)?;
    Ok(all)
}

/// Whether an operator begins with this word.
fn begins_rel(keyword: Keyword) -> bool
    ensures { result ≡ spec.begins_rel keyword }
{
    match keyword {
        Keyword::Scalar
        | Keyword::Cross
        | Keyword::Concat
        | Keyword::Select
        | Keyword::Filter
        | Keyword::Join
        | Keyword::Depjoin
        | Keyword::List
        | Keyword::Hash
        | Keyword::Ordered
        | Keyword::Groupby
        | Keyword::Orderby
        | Keyword::Dedup => true,
        _ => false,
    }
}

/// One or more of what `$item` reads, with commas between.
macro_rules! separated {
    ($parser:ident, $item:expr) => {{
        let mut found = only($parser.alloc(), $item?)?;
        for _turn in 0..$parser.left() {
            if !$parser.eat_symbol(Symbol::Comma) {
                return Ok(found);
            }
            found.push($item?)?;
        }
        Ok(found)
    }};
}

pub(crate) use separated;

impl<'a> Parser<'a> {
    fn rel_node(&mut self, tree: PRel) -> PRel
        ensures { spec.rel_node tree self.old ≡ Some (result, self.new) }
    {
        let empty = PRel::Cross(Items::new(self.alloc()));
        self.node(empty, tree)
    }

    /// `[ "as" NAME ]`
    #[tactic(auto, unfolding(crate::specs::Parser::read_alias))]
    fn alias(&mut self) -> Result<Option<Word>, Stop>
        ensures { Reads (spec.read_alias self.old) result self.new }
    {
        if self.eat_keyword(Keyword::As) {
            Ok(Some(self.name()?))
        } else {
            Ok(None)
        }
    }

    /// `item := expr [ "as" NAME ]`
    #[tactic(auto, unfolding(crate::specs::Parser::read_item))]
    fn item(&mut self, depth: usize) -> Result<Item, Stop>
        ensures { Reads (spec.read_item (spec.expr_at depth) self.old) result self.new }
    {
        let expr = self.expr(depth)?;
        let (expr, name) = beside(expr, self.alias())?;
        Ok(Item { expr, name })
    }

    /// `lower := "any" | ">=" expr | ">" expr`
    #[tactic(auto, unfolding(crate::specs::Parser::read_lower))]
    fn lower(&mut self, depth: usize) -> Result<PBound, Stop>
        ensures { Reads (spec.read_lower (spec.expr_at depth) self.old) result self.new }
    {
        match self.peek() {
            Some(Kind::Keyword(Keyword::Any)) => {
                self.advance();
                Ok(PBound::Any)
            }
            Some(Kind::Symbol(Symbol::Ge)) => {
                self.advance();
                Ok(PBound::Incl(self.expr(depth)?))
            }
            Some(Kind::Symbol(Symbol::Gt)) => {
                self.advance();
                Ok(PBound::Excl(self.expr(depth)?))
            }
            _ => Err(Stop::Syntax),
        }
    }

    /// `upper := "any" | "<=" expr | "<" expr`
    #[tactic(auto, unfolding(crate::specs::Parser::read_upper))]
    fn upper(&mut self, depth: usize) -> Result<PBound, Stop>
        ensures { Reads (spec.read_upper (spec.expr_at depth) self.old) result self.new }
    {
        match self.peek() {
            Some(Kind::Keyword(Keyword::Any)) => {
                self.advance();
                Ok(PBound::Any)
            }
            Some(Kind::Symbol(Symbol::Le)) => {
                self.advance();
                Ok(PBound::Incl(self.expr(depth)?))
            }
            Some(Kind::Symbol(Symbol::Lt)) => {
                self.advance();
                Ok(PBound::Excl(self.expr(depth)?))
            }
            _ => Err(Stop::Syntax),
        }
    }

    /// `"(" col ")"` behind the word of an aggregate.
    #[tactic(auto, unfolding(crate::specs::Parser::aggregated))]
    fn aggregated(&mut self) -> Result<PCol, Stop>
        ensures { Reads (spec.aggregated self.old) result self.new }
    {
        self.advance();
        self.expect_symbol(Symbol::OpenParen)?;
        let col = self.col()?;
        before(col, self.expect_symbol(Symbol::CloseParen))
    }

    #[tactic(auto, unfolding(crate::specs::Parser::read_count))]
    fn count(&mut self) -> Result<PAgg, Stop>
        ensures { Reads (spec.read_count self.old) result self.new }
    {
        self.advance();
        self.expect_symbol(Symbol::OpenParen)?;
        self.expect_symbol(Symbol::CloseParen)?;
        Ok(PAgg::Count)
    }

    /// `"count" "(" ")" | ( "sum" | "min" | "max" ) "(" col ")"`
    #[tactic(auto, unfolding(crate::specs::Parser::read_aggregate))]
    fn aggregate(&mut self) -> Result<PAgg, Stop>
        ensures { Reads (spec.read_aggregate self.old) result self.new }
    {
        match self.peek() {
            Some(Kind::Keyword(Keyword::Count)) => self.count(),
            Some(Kind::Keyword(Keyword::Sum)) => Ok(PAgg::Sum(self.aggregated()?)),
            Some(Kind::Keyword(Keyword::Min)) => Ok(PAgg::Min(self.aggregated()?)),
            Some(Kind::Keyword(Keyword::Max)) => Ok(PAgg::Max(self.aggregated()?)),
            _ => Err(Stop::Syntax),
        }
    }

    /// `agg`: an aggregate, and the name that `as` gives it.
    #[tactic(auto, unfolding(crate::specs::Parser::read_agg))]
    fn agg(&mut self) -> Result<(PAgg, Option<Word>), Stop>
        ensures { Reads (spec.read_agg self.old) result self.new }
    {
        let aggregate = self.aggregate()?;
        beside(aggregate, self.alias())
    }

    fn falls(&mut self) -> bool
        ensures { spec.falls_by (spec.first_kind self.old.rest) self.old ≡ Some (result, self.new) }
    {
        match self.peek() {
            Some(Kind::Keyword(Keyword::Asc)) => {
                self.advance();
                false
            }
            Some(Kind::Keyword(Keyword::Desc)) => {
                self.advance();
                true
            }
            _ => false,
        }
    }

    /// `key := col [ "asc" | "desc" ]`
    #[tactic(auto, unfolding(crate::specs::Parser::read_key))]
    fn key(&mut self) -> Result<(PCol, bool), Stop>
        ensures { Reads (spec.read_key self.old) result self.new }
    {
        let col = self.col()?;
        Ok((col, self.falls()))
    }

    /// `item { "," item }`
    #[tactic(auto, unfolding(crate::specs::Parser::separated, crate::specs::Parser::separated_from))]
    fn items(&mut self, depth: usize) -> Result<Items<Item>, Stop>
        ensures { Reads (spec.separated (spec.read_item (spec.expr_at depth)) self.old) result self.new }
    {
        separated!(self, self.item(depth))
    }

    /// `expr { "," expr }`
    #[tactic(auto, unfolding(crate::specs::Parser::separated, crate::specs::Parser::separated_from))]
    fn exprs(&mut self, depth: usize) -> Result<Items<PExpr>, Stop>
        ensures { Reads (spec.separated (spec.expr_at depth) self.old) result self.new }
    {
        separated!(self, self.expr(depth))
    }

    /// `col { "," col }`
    #[tactic(auto, unfolding(crate::specs::Parser::separated, crate::specs::Parser::separated_from))]
    fn cols(&mut self) -> Result<Items<PCol>, Stop>
        ensures { Reads (spec.separated spec.read_col self.old) result self.new }
    {
        separated!(self, self.col())
    }

    /// `agg { "," agg }`
    #[tactic(auto, unfolding(crate::specs::Parser::separated, crate::specs::Parser::separated_from))]
    fn aggs(&mut self) -> Result<Items<(PAgg, Option<Word>)>, Stop>
        ensures { Reads (spec.separated spec.read_agg self.old) result self.new }
    {
        separated!(self, self.agg())
    }

    /// `key { "," key }`
    #[tactic(auto, unfolding(crate::specs::Parser::separated, crate::specs::Parser::separated_from))]
    fn keys(&mut self) -> Result<Items<(PCol, bool)>, Stop>
        ensures { Reads (spec.separated spec.read_key self.old) result self.new }
    {
        separated!(self, self.key())
    }

    /// `"[" item { "," item } "]"`
    #[tactic(auto, unfolding(crate::specs::Parser::bracketed, crate::specs::Parser::followed))]
    fn bracketed_items(&mut self, depth: usize) -> Result<Items<Item>, Stop>
        ensures { Reads (spec.bracketed (spec.read_item (spec.expr_at depth)) self.old) result self.new }
    {
        self.expect_symbol(Symbol::OpenBracket)?;
        let items = self.items(depth)?;
        before(items, self.expect_symbol(Symbol::CloseBracket))
    }

    /// `"[" expr { "," expr } "]"`
    #[tactic(auto, unfolding(crate::specs::Parser::bracketed, crate::specs::Parser::followed))]
    fn bracketed_exprs(&mut self, depth: usize) -> Result<Items<PExpr>, Stop>
        ensures { Reads (spec.bracketed (spec.expr_at depth) self.old) result self.new }
    {
        self.expect_symbol(Symbol::OpenBracket)?;
        let exprs = self.exprs(depth)?;
        before(exprs, self.expect_symbol(Symbol::CloseBracket))
    }

    /// `"[" key { "," key } "]"`
    #[tactic(auto, unfolding(crate::specs::Parser::bracketed, crate::specs::Parser::followed))]
    fn bracketed_keys(&mut self) -> Result<Items<(PCol, bool)>, Stop>
        ensures { Reads (spec.bracketed spec.read_key self.old) result self.new }
    {
        self.expect_symbol(Symbol::OpenBracket)?;
        let keys = self.keys()?;
        before(keys, self.expect_symbol(Symbol::CloseBracket))
    }

    /// `"[" [ col { "," col } ] "]"`
    #[tactic(auto, unfolding(crate::specs::Parser::maybe_bracketed, crate::specs::Parser::followed))]
    fn bracketed_cols(&mut self) -> Result<Items<PCol>, Stop>
        ensures { Reads (spec.maybe_bracketed spec.read_col self.old) result self.new }
    {
        self.expect_symbol(Symbol::OpenBracket)?;
        if self.eat_symbol(Symbol::CloseBracket) {
            return Ok(Items::new(self.alloc()));
        }
        let cols = self.cols()?;
        before(cols, self.expect_symbol(Symbol::CloseBracket))
    }

    /// `"[" [ agg { "," agg } ] "]"`
    #[tactic(auto, unfolding(crate::specs::Parser::maybe_bracketed, crate::specs::Parser::followed))]
    fn bracketed_aggs(&mut self) -> Result<Items<(PAgg, Option<Word>)>, Stop>
        ensures { Reads (spec.maybe_bracketed spec.read_agg self.old) result self.new }
    {
        self.expect_symbol(Symbol::OpenBracket)?;
        if self.eat_symbol(Symbol::CloseBracket) {
            return Ok(Items::new(self.alloc()));
        }
        let aggs = self.aggs()?;
        before(aggs, self.expect_symbol(Symbol::CloseBracket))
    }

    /// `"scalar" "(" item ")"`, behind the parenthesis that opens.
    #[tactic(auto, unfolding(crate::specs::Parser::read_scalar, crate::specs::Parser::followed))]
    fn scalar(&mut self, depth: usize) -> Result<PRel, Stop>
        ensures { Reads (spec.read_scalar (spec.rel_at depth) (spec.expr_at depth) self.old) result self.new }
    {
        let item = self.item(depth)?;
        let item = before(item, self.expect_symbol(Symbol::CloseParen))?;
        Ok(self.rel_node(PRel::Scalar(item)))
    }

    /// A table, by its name.
    #[tactic(auto, unfolding(crate::specs::Parser::read_table_name))]
    fn table(&mut self) -> Result<PRel, Stop>
        ensures { Reads (spec.read_table_name self.old) result self.new }
    {
        let name = self.name()?;
        Ok(self.rel_node(PRel::Table(name)))
    }
}

// What stands before or between the operands of an operator, with the symbol behind it.
impl<'a> Parser<'a> {
    /// `"[" item { "," item } "]" ","`
    #[tactic(auto, unfolding(crate::specs::Parser::followed))]
    fn select_list(&mut self, depth: usize) -> Result<Items<Item>, Stop>
        ensures { Reads (spec.followed (spec.bracketed (spec.read_item (spec.expr_at depth))) Symbol.Comma self.old) result self.new }
    {
        let items = self.bracketed_items(depth)?;
        before(items, self.expect_symbol(Symbol::Comma))
    }

    /// `expr ","`
    #[tactic(auto, unfolding(crate::specs::Parser::followed))]
    fn condition(&mut self, depth: usize) -> Result<PExpr, Stop>
        ensures { Reads (spec.followed (spec.expr_at depth) Symbol.Comma self.old) result self.new }
    {
        let condition = self.expr(depth)?;
        before(condition, self.expect_symbol(Symbol::Comma))
    }

    /// `"[" expr { "," expr } "]" ")"`
    #[tactic(auto, unfolding(crate::specs::Parser::followed))]
    fn hash_keys(&mut self, depth: usize) -> Result<Items<PExpr>, Stop>
        ensures { Reads (spec.followed (spec.bracketed (spec.expr_at depth)) Symbol.CloseParen self.old) result self.new }
    {
        let keys = self.bracketed_exprs(depth)?;
        before(keys, self.expect_symbol(Symbol::CloseParen))
    }

    /// `lower ","`
    #[tactic(auto, unfolding(crate::specs::Parser::followed))]
    fn lower_bound(&mut self, depth: usize) -> Result<PBound, Stop>
        ensures { Reads (spec.followed (spec.read_lower (spec.expr_at depth)) Symbol.Comma self.old) result self.new }
    {
        let bound = self.lower(depth)?;
        before(bound, self.expect_symbol(Symbol::Comma))
    }

    /// `upper ")"`
    #[tactic(auto, unfolding(crate::specs::Parser::followed))]
    fn upper_bound(&mut self, depth: usize) -> Result<PBound, Stop>
        ensures { Reads (spec.followed (spec.read_upper (spec.expr_at depth)) Symbol.CloseParen self.old) result self.new }
    {
        let bound = self.upper(depth)?;
        before(bound, self.expect_symbol(Symbol::CloseParen))
    }

    /// `"[" [ col { "," col } ] "]" ","`
    #[tactic(auto, unfolding(crate::specs::Parser::followed))]
    fn group_keys(&mut self) -> Result<Items<PCol>, Stop>
        ensures { Reads (spec.followed (spec.maybe_bracketed spec.read_col) Symbol.Comma self.old) result self.new }
    {
        let keys = self.bracketed_cols()?;
        before(keys, self.expect_symbol(Symbol::Comma))
    }

    /// `"[" [ agg { "," agg } ] "]" ","`
    #[tactic(auto, unfolding(crate::specs::Parser::followed))]
    fn group_aggs(&mut self) -> Result<Items<(PAgg, Option<Word>)>, Stop>
        ensures { Reads (spec.followed (spec.maybe_bracketed spec.read_agg) Symbol.Comma self.old) result self.new }
    {
        let aggs = self.bracketed_aggs()?;
        before(aggs, self.expect_symbol(Symbol::Comma))
    }

    /// `"[" key { "," key } "]" ","`
    #[tactic(auto, unfolding(crate::specs::Parser::followed))]
    fn order_keys(&mut self) -> Result<Items<(PCol, bool)>, Stop>
        ensures { Reads (spec.followed (spec.bracketed spec.read_key) Symbol.Comma self.old) result self.new }
    {
        let keys = self.bracketed_keys()?;
        before(keys, self.expect_symbol(Symbol::Comma))
    }
}

// The rules below lead back to relations. Those after `rel` read behind the word and the parenthesis that
// opens, and pass the one that closes.
impl<'a> Parser<'a> {
    /// `rel`: a table by its name, or an operator and its operands in parentheses.
    ///
    /// At most `depth` parentheses may open inside one another, less one.
    #[cycle(rel)]
    #[tactic(auto, unfolding(crate::specs::Parser::rel_at, crate::specs::Parser::read_rel))]
    pub fn rel(&mut self, depth: usize) -> Result<PRel, Stop>
        ensures { Reads (spec.rel_at depth self.old) result self.new }
    {
        if depth == 0 {
            return Err(Stop::Syntax);
        }
        match self.peek() {
            Some(Kind::Name) => self.table(),
            Some(Kind::Keyword(keyword)) => {
                if !begins_rel(keyword) {
                    return Err(Stop::Syntax);
                }
                self.advance();
                self.expect_symbol(Symbol::OpenParen)?;
                self.operator(depth - 1, keyword)
            }
            _ => Err(Stop::Syntax),
        }
    }

    #[cycle(rel)]
    fn operator(&mut self, depth: usize, keyword: Keyword) -> Result<PRel, Stop>
        ensures { Reads (spec.rel_by (spec.rel_at depth) (spec.expr_at depth) keyword self.old) result self.new }
    {
        match keyword {
            Keyword::Scalar => self.scalar(depth),
            Keyword::Cross => {
                let operands = self.operands(depth)?;
                Ok(self.rel_node(PRel::Cross(operands)))
            }
            Keyword::Concat => {
                let operands = self.operands(depth)?;
                Ok(self.rel_node(PRel::Concat(operands)))
            }
            Keyword::Join => self.join(depth),
            Keyword::Depjoin => {
                let (scope, source, body) = self.binder(depth)?;
                Ok(self.rel_node(PRel::DepJoin(scope, source, body)))
            }
            Keyword::List => {
                let (scope, source, body) = self.binder(depth)?;
                Ok(self.rel_node(PRel::List(scope, source, body)))
            }
            Keyword::Hash => self.hash(depth),
            Keyword::Ordered => self.ordered(depth),
            _ => self.unary(depth, keyword),
        }
    }

    /// The operators with one operand, which stands last: `select`, `filter`, `groupby`, `orderby` and
    /// `dedup`.
    #[cycle(rel)]
    #[tactic(auto, unfolding(crate::specs::Parser::read_select, crate::specs::Parser::read_filter, crate::specs::Parser::read_groupby, crate::specs::Parser::read_orderby, crate::specs::Parser::read_dedup))]
    fn unary(&mut self, depth: usize, keyword: Keyword) -> Result<PRel, Stop>
        ensures { Reads (spec.unary_by (spec.rel_at depth) (spec.expr_at depth) keyword self.old) result self.new }
    {
        match keyword {
            Keyword::Select => {
                let items = self.select_list(depth)?;
                let (items, operand) = beside(items, self.operand(depth, Symbol::CloseParen))?;
                Ok(self.rel_node(PRel::Select(items, operand)))
            }
            Keyword::Filter => {
                let condition = self.condition(depth)?;
                let found = beside(condition, self.operand(depth, Symbol::CloseParen));
                let (condition, operand) = found?;
                Ok(self.rel_node(PRel::Filter(condition, operand)))
            }
            Keyword::Groupby => {
                let keys = self.group_keys()?;
                let lists = beside(keys, self.group_aggs())?;
                let found = beside(lists, self.operand(depth, Symbol::CloseParen));
                let ((keys, aggs), operand) = found?;
                Ok(self.rel_node(PRel::Group(keys, aggs, operand)))
            }
            Keyword::Orderby => {
                let keys = self.order_keys()?;
                let (keys, operand) = beside(keys, self.operand(depth, Symbol::CloseParen))?;
                Ok(self.rel_node(PRel::Order(keys, operand)))
            }
            Keyword::Dedup => {
                let operand = self.operand(depth, Symbol::CloseParen)?;
                Ok(self.rel_node(PRel::Dedup(operand)))
            }
            _ => Err(Stop::Syntax),
        }
    }

    /// An operand, and the symbol behind it.
    #[cycle(rel)]
    #[tactic(auto, unfolding(crate::specs::Parser::followed))]
    fn operand(&mut self, depth: usize, end: Symbol) -> Result<Boxed<PRel>, Stop>
        ensures { Reads (spec.followed (spec.rel_at depth) end self.old) result self.new }
    {
        let operand = Boxed::new(self.alloc(), self.rel(depth)?)?;
        before(operand, self.expect_symbol(end))
    }

    /// `rel { "," rel } ")"`
    #[cycle(rel)]
    #[tactic(auto, unfolding(crate::specs::Parser::read_rels, crate::specs::Parser::followed))]
    fn operands(&mut self, depth: usize) -> Result<Items<PRel>, Stop>
        ensures { Reads (spec.read_rels (spec.rel_at depth) (spec.expr_at depth) self.old) result self.new }
    {
        let operands = self.rels(depth)?;
        before(operands, self.expect_symbol(Symbol::CloseParen))
    }

    /// `rel { "," rel }`
    #[cycle(rel)]
    #[tactic(auto, unfolding(crate::specs::Parser::separated, crate::specs::Parser::separated_from))]
    fn rels(&mut self, depth: usize) -> Result<Items<PRel>, Stop>
        ensures { Reads (spec.separated (spec.rel_at depth) self.old) result self.new }
    {
        separated!(self, self.rel(depth))
    }

    /// `"join" "(" expr "," rel "," rel ")"`
    #[cycle(rel)]
    #[tactic(auto, unfolding(crate::specs::Parser::read_join))]
    fn join(&mut self, depth: usize) -> Result<PRel, Stop>
        ensures { Reads (spec.read_join (spec.rel_at depth) (spec.expr_at depth) self.old) result self.new }
    {
        let condition = self.condition(depth)?;
        let found = beside(condition, self.operand(depth, Symbol::Comma))?;
        let found = beside(found, self.operand(depth, Symbol::CloseParen));
        let ((condition, left), right) = found?;
        Ok(self.rel_node(PRel::Join(condition, left, right)))
    }

    /// `rel "as" NAME ","`
    #[cycle(rel)]
    #[tactic(auto, unfolding(crate::specs::Parser::read_source))]
    fn source(&mut self, depth: usize) -> Result<(Boxed<PRel>, Word), Stop>
        ensures { Reads (spec.read_source (spec.rel_at depth) (spec.expr_at depth) self.old) result self.new }
    {
        let source = Boxed::new(self.alloc(), self.rel(depth)?)?;
        let source = before(source, self.expect_keyword(Keyword::As))?;
        let found = beside(source, self.name())?;
        before(found, self.expect_symbol(Symbol::Comma))
    }

    /// `rel "as" NAME "," rel ")"`
    #[cycle(rel)]
    #[tactic(auto, unfolding(crate::specs::Parser::read_binder))]
    fn binder(&mut self, depth: usize) -> Result<(Word, Boxed<PRel>, Boxed<PRel>), Stop>
        ensures { Reads (spec.read_binder (spec.rel_at depth) (spec.expr_at depth) self.old) result self.new }
    {
        let source = self.source(depth)?;
        let found = beside(source, self.operand(depth, Symbol::CloseParen));
        let ((source, scope), body) = found?;
        Ok((scope, source, body))
    }

    /// `"hash" "(" rel "as" NAME "," rel "," "[" expr { "," expr } "]" ")"`
    #[cycle(rel)]
    #[tactic(auto, unfolding(crate::specs::Parser::read_hash))]
    fn hash(&mut self, depth: usize) -> Result<PRel, Stop>
        ensures { Reads (spec.read_hash (spec.rel_at depth) (spec.expr_at depth) self.old) result self.new }
    {
        let source = self.source(depth)?;
        let found = beside(source, self.operand(depth, Symbol::Comma))?;
        let (((source, scope), body), keys) = beside(found, self.hash_keys(depth))?;
        Ok(self.rel_node(PRel::Hash(scope, source, body, keys)))
    }

    /// `"ordered" "(" rel "as" NAME "," rel "," lower "," upper ")"`
    #[cycle(rel)]
    #[tactic(auto, unfolding(crate::specs::Parser::read_ordered))]
    fn ordered(&mut self, depth: usize) -> Result<PRel, Stop>
        ensures { Reads (spec.read_ordered (spec.rel_at depth) (spec.expr_at depth) self.old) result self.new }
    {
        let source = self.source(depth)?;
        let found = beside(source, self.operand(depth, Symbol::Comma))?;
        let found = beside(found, self.lower_bound(depth))?;
        let ((((source, scope), body), lower), upper) = beside(found, self.upper_bound(depth))?;
        Ok(self.rel_node(PRel::Ord(scope, source, body, lower, upper)))
    }
}
