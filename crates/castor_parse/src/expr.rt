//! The grammar of expressions: a method of the parser for each rule.

ghost use Rattle.std.specs.Prelude.{◌≡◌, ◌<◌, ◌≤◌, ◌^◌, pos, ◌-ℤ◌, Some};
ghost use Rattle.castor_parse.specs.Parser as spec;
ghost use Rattle.castor_parse.specs.Parser.{Reads};

use crate::kept::{before, beside};
use crate::parser::{Parser, Stop};
use castor_alg::{Op, both, boxed};
use castor_tokens::{Keyword, Kind, Symbol};
use castor_tree::{PCol, PExpr, Word};
use castor_val::{Ty, Value};
use sqlite_items::Boxed;

/// The greatest int that is written without a sign.
const MAX_INT: u64 = 9_223_372_036_854_775_807;

/// The greatest number of a column.
const MAX_COLUMN: u64 = 4_294_967_295;

fn or_operator(next: Option<Kind>) -> Option<Op>
    ensures { result ≡ spec.or_operator next }
{
    match next {
        Some(Kind::Keyword(Keyword::Or)) => Some(Op::Or),
        _ => None,
    }
}

fn and_operator(next: Option<Kind>) -> Option<Op>
    ensures { result ≡ spec.and_operator next }
{
    match next {
        Some(Kind::Keyword(Keyword::And)) => Some(Op::And),
        _ => None,
    }
}

fn comparison(next: Option<Kind>) -> Option<Op>
    ensures { result ≡ spec.comparison next }
{
    match next {
        Some(Kind::Symbol(Symbol::Eq)) => Some(Op::Eq),
        Some(Kind::Symbol(Symbol::Ne)) => Some(Op::Ne),
        Some(Kind::Symbol(Symbol::Lt)) => Some(Op::Lt),
        Some(Kind::Symbol(Symbol::Le)) => Some(Op::Le),
        Some(Kind::Symbol(Symbol::Gt)) => Some(Op::Gt),
        Some(Kind::Symbol(Symbol::Ge)) => Some(Op::Ge),
        _ => None,
    }
}

fn sum_operator(next: Option<Kind>) -> Option<Op>
    ensures { result ≡ spec.sum_operator next }
{
    match next {
        Some(Kind::Symbol(Symbol::Plus)) => Some(Op::Add),
        Some(Kind::Symbol(Symbol::Minus)) => Some(Op::Sub),
        _ => None,
    }
}

fn term_operator(next: Option<Kind>) -> Option<Op>
    ensures { result ≡ spec.term_operator next }
{
    match next {
        Some(Kind::Symbol(Symbol::Star)) => Some(Op::Mul),
        Some(Kind::Symbol(Symbol::Slash)) => Some(Op::Div),
        Some(Kind::Symbol(Symbol::Percent)) => Some(Op::Rem),
        _ => None,
    }
}

/// The int that this number spells.
fn positive(number: u64) -> i64
    requires { number < 2 ^ 63 }
    ensures { result ≡ pos number }
{
    number as i64
}

/// The int that `-` and this number spell.
fn negative(number: u64) -> i64
    requires { number ≤ 2 ^ 63 }
    ensures { result ≡ pos 0 -ℤ pos number }
{
    if number == 0 {
        0
    } else {
        -((number - 1) as i64) - 1
    }
}

impl<'a> Parser<'a> {
    fn expr_node(&mut self, tree: PExpr) -> PExpr
        ensures { spec.expr_node tree self.old ≡ Some (result, self.new) }
    {
        self.node(PExpr::Lit(Ty::Bool, Value::Bool(false)), tree)
    }

    fn bin(&mut self, op: Op, left: PExpr, right: PExpr) -> Result<PExpr, Stop>
        ensures { Reads (spec.expr_node (PExpr.Bin op left right) self.old) result self.new }
    {
        let alloc = self.alloc();
        let (left, right) = both(boxed(alloc, Ok(left)), boxed(alloc, Ok(right)))?;
        Ok(self.expr_node(PExpr::Bin(op, left, right)))
    }

    /// `expr := and { "or" and }`
    ///
    /// At most `depth` parentheses may open inside one another, less one.
    #[cycle(expr)]
    #[tactic(auto, unfolding(crate::specs::Parser::expr_at))]
    pub fn expr(&mut self, depth: usize) -> Result<PExpr, Stop>
        ensures { Reads (spec.expr_at depth self.old) result self.new }
    {
        if depth == 0 {
            return Err(Stop::Syntax);
        }
        self.or_expr(depth - 1)
    }

    #[cycle(expr)]
    #[tactic(auto, unfolding(crate::specs::Parser::read_or, crate::specs::Parser::chain, crate::specs::Parser::chain_from))]
    fn or_expr(&mut self, depth: usize) -> Result<PExpr, Stop>
        ensures { Reads (spec.read_or (spec.expr_at depth) self.old) result self.new }
    {
        let mut left = self.and_expr(depth)?;
        for _turn in 0..self.left() {
            let Some(op) = or_operator(self.peek()) else {
                return Ok(left);
            };
            self.advance();
            let (first, second) = beside(left, self.and_expr(depth))?;
            left = self.bin(op, first, second)?;
        }
        Ok(left)
    }

    /// `and := not { "and" not }`
    #[cycle(expr)]
    #[tactic(auto, unfolding(crate::specs::Parser::read_and, crate::specs::Parser::chain, crate::specs::Parser::chain_from))]
    fn and_expr(&mut self, depth: usize) -> Result<PExpr, Stop>
        ensures { Reads (spec.read_and (spec.expr_at depth) self.old) result self.new }
    {
        let mut left = self.not_expr(depth)?;
        for _turn in 0..self.left() {
            let Some(op) = and_operator(self.peek()) else {
                return Ok(left);
            };
            self.advance();
            let (first, second) = beside(left, self.not_expr(depth))?;
            left = self.bin(op, first, second)?;
        }
        Ok(left)
    }

    /// `not := "not" not | cmp`
    #[cycle(expr)]
    #[tactic(auto, unfolding(crate::specs::Parser::read_not))]
    fn not_expr(&mut self, depth: usize) -> Result<PExpr, Stop>
        ensures { Reads (spec.read_not (spec.expr_at depth) self.old) result self.new }
    {
        let nots = self.nots();
        let expr = self.cmp(depth)?;
        self.negated(nots, expr)
    }

    /// `cmp := sum [ ( "=" | "!=" | "<" | "<=" | ">" | ">=" ) sum ]`
    #[cycle(expr)]
    #[tactic(auto, unfolding(crate::specs::Parser::read_cmp))]
    fn cmp(&mut self, depth: usize) -> Result<PExpr, Stop>
        ensures { Reads (spec.read_cmp (spec.expr_at depth) self.old) result self.new }
    {
        let left = self.sum(depth)?;
        let Some(op) = comparison(self.peek()) else {
            return Ok(left);
        };
        self.advance();
        let (left, right) = beside(left, self.sum(depth))?;
        self.bin(op, left, right)
    }

    /// `sum := term { ( "+" | "-" ) term }`
    #[cycle(expr)]
    #[tactic(auto, unfolding(crate::specs::Parser::read_sum, crate::specs::Parser::chain, crate::specs::Parser::chain_from))]
    fn sum(&mut self, depth: usize) -> Result<PExpr, Stop>
        ensures { Reads (spec.read_sum (spec.expr_at depth) self.old) result self.new }
    {
        let mut left = self.term(depth)?;
        for _turn in 0..self.left() {
            let Some(op) = sum_operator(self.peek()) else {
                return Ok(left);
            };
            self.advance();
            let (first, second) = beside(left, self.term(depth))?;
            left = self.bin(op, first, second)?;
        }
        Ok(left)
    }

    /// `term := prim { ( "*" | "/" | "%" ) prim }`
    #[cycle(expr)]
    #[tactic(auto, unfolding(crate::specs::Parser::read_term, crate::specs::Parser::chain, crate::specs::Parser::chain_from))]
    fn term(&mut self, depth: usize) -> Result<PExpr, Stop>
        ensures { Reads (spec.read_term (spec.expr_at depth) self.old) result self.new }
    {
        let mut left = self.prim(depth)?;
        for _turn in 0..self.left() {
            let Some(op) = term_operator(self.peek()) else {
                return Ok(left);
            };
            self.advance();
            let (first, second) = beside(left, self.prim(depth))?;
            left = self.bin(op, first, second)?;
        }
        Ok(left)
    }

    /// `prim := INT | "-" INT | TEXT | "true" | "false" | "$" NAME | col | NAME "." INT
    /// | "if" "(" expr "," expr "," expr ")" | "(" expr ")"`
    #[cycle(expr)]
    #[tactic(auto, unfolding(crate::specs::Parser::read_prim))]
    fn prim(&mut self, depth: usize) -> Result<PExpr, Stop>
        ensures { Reads (spec.read_prim (spec.expr_at depth) self.old) result self.new }
    {
        match self.peek() {
            Some(Kind::Int) => self.int_literal(),
            Some(Kind::Text) => self.text_literal(),
            Some(Kind::Name) => self.named(),
            Some(Kind::Keyword(Keyword::True)) => Ok(self.truth_literal(true)),
            Some(Kind::Keyword(Keyword::False)) => Ok(self.truth_literal(false)),
            Some(Kind::Keyword(Keyword::If)) => self.if_expr(depth),
            Some(Kind::Symbol(Symbol::Minus)) => self.negative_literal(),
            Some(Kind::Symbol(Symbol::Dollar)) => self.param(),
            Some(Kind::Symbol(Symbol::Hash)) => self.numbered_col(),
            Some(Kind::Symbol(Symbol::OpenParen)) => self.parenthesized(depth),
            _ => Err(Stop::Syntax),
        }
    }

    /// `"if" "(" expr "," expr "," expr ")"`
    #[cycle(expr)]
    #[tactic(auto, unfolding(crate::specs::Parser::read_if))]
    fn if_expr(&mut self, depth: usize) -> Result<PExpr, Stop>
        ensures { Reads (spec.read_if (spec.expr_at depth) self.old) result self.new }
    {
        self.advance();
        self.expect_symbol(Symbol::OpenParen)?;
        let condition = self.boxed_expr(depth)?;
        let condition = before(condition, self.expect_symbol(Symbol::Comma))?;
        let found = beside(condition, self.boxed_expr(depth))?;
        let found = before(found, self.expect_symbol(Symbol::Comma))?;
        let found = beside(found, self.boxed_expr(depth))?;
        let ((condition, yes), no) = before(found, self.expect_symbol(Symbol::CloseParen))?;
        Ok(self.expr_node(PExpr::If(condition, yes, no)))
    }

    #[cycle(expr)]
    fn boxed_expr(&mut self, depth: usize) -> Result<Boxed<PExpr>, Stop>
        ensures { Reads (spec.expr_at depth self.old) result self.new }
    {
        Ok(Boxed::new(self.alloc(), self.expr(depth)?)?)
    }

    /// `"(" expr ")"`, which makes no node.
    #[cycle(expr)]
    #[tactic(auto, unfolding(crate::specs::Parser::parenthesized))]
    fn parenthesized(&mut self, depth: usize) -> Result<PExpr, Stop>
        ensures { Reads (spec.parenthesized (spec.expr_at depth) self.old) result self.new }
    {
        self.advance();
        let expr = self.expr(depth)?;
        before(expr, self.expect_symbol(Symbol::CloseParen))
    }

    /// How many `not` come next; they are passed.
    #[tactic(auto, unfolding(crate::specs::Parser::read_nots))]
    fn nots(&mut self) -> usize
        ensures { spec.read_nots self.old ≡ Some (result, self.new) }
    {
        let left = self.left();
        for nots in 0..left {
            if !self.eat_keyword(Keyword::Not) {
                return nots;
            }
        }
        left
    }

    /// The tree under this many `not`.
    #[tactic(auto, unfolding(crate::specs::Parser::negated))]
    fn negated(&mut self, nots: usize, tree: PExpr) -> Result<PExpr, Stop>
        ensures { Reads (spec.negated nots tree self.old) result self.new }
    {
        let mut tree = tree;
        for _turn in 0..nots {
            let inner = Boxed::new(self.alloc(), tree)?;
            tree = self.expr_node(PExpr::Not(inner));
        }
        Ok(tree)
    }

    #[tactic(auto, unfolding(crate::specs::Parser::int_literal))]
    fn int_literal(&mut self) -> Result<PExpr, Stop>
        ensures { Reads (spec.int_literal self.old) result self.new }
    {
        let number = self.int(MAX_INT)?;
        Ok(self.expr_node(PExpr::Lit(Ty::Int, Value::Int(positive(number)))))
    }

    #[tactic(auto, unfolding(crate::specs::Parser::negative_literal))]
    fn negative_literal(&mut self) -> Result<PExpr, Stop>
        ensures { Reads (spec.negative_literal self.old) result self.new }
    {
        self.advance();
        let number = self.int(MAX_INT + 1)?;
        Ok(self.expr_node(PExpr::Lit(Ty::Int, Value::Int(negative(number)))))
    }

    #[tactic(auto, unfolding(crate::specs::Parser::text_literal))]
    fn text_literal(&mut self) -> Result<PExpr, Stop>
        ensures { Reads (spec.text_literal self.old) result self.new }
    {
        let text = self.text()?;
        Ok(self.expr_node(PExpr::Lit(Ty::Text, Value::Text(text))))
    }

    #[tactic(auto, unfolding(crate::specs::Parser::truth_literal))]
    fn truth_literal(&mut self, truth: bool) -> PExpr
        ensures { spec.truth_literal truth self.old ≡ Some (result, self.new) }
    {
        self.advance();
        self.expr_node(PExpr::Lit(Ty::Bool, Value::Bool(truth)))
    }

    /// `"$" NAME`
    #[tactic(auto, unfolding(crate::specs::Parser::read_param))]
    fn param(&mut self) -> Result<PExpr, Stop>
        ensures { Reads (spec.read_param self.old) result self.new }
    {
        self.advance();
        let name = self.name()?;
        Ok(self.expr_node(PExpr::Param(name)))
    }

    #[tactic(auto, unfolding(crate::specs::Parser::numbered_col))]
    fn numbered_col(&mut self) -> Result<PExpr, Stop>
        ensures { Reads (spec.numbered_col self.old) result self.new }
    {
        let col = self.col_number()?;
        Ok(self.expr_node(PExpr::Col(col)))
    }

    /// `NAME | NAME "." NAME | NAME "." INT`
    #[tactic(auto, unfolding(crate::specs::Parser::named))]
    fn named(&mut self) -> Result<PExpr, Stop>
        ensures { Reads (spec.named self.old) result self.new }
    {
        let name = self.name()?;
        if self.eat_symbol(Symbol::Dot) {
            self.member(name)
        } else {
            Ok(self.expr_node(PExpr::Col(PCol::Name(name))))
        }
    }

    fn member(&mut self, of: Word) -> Result<PExpr, Stop>
        ensures { Reads (spec.member_by (spec.first_kind self.old.rest) of self.old) result self.new }
    {
        match self.peek() {
            Some(Kind::Int) => {
                let number = self.int(MAX_COLUMN)?;
                Ok(self.expr_node(PExpr::ScopeAt(of, number as u32)))
            }
            _ => {
                let name = self.name()?;
                Ok(self.expr_node(PExpr::Col(PCol::Dotted(of, name))))
            }
        }
    }

    /// `col := NAME | NAME "." NAME | "#" INT`
    #[tactic(auto, unfolding(crate::specs::Parser::read_col))]
    pub fn col(&mut self) -> Result<PCol, Stop>
        ensures { Reads (spec.read_col self.old) result self.new }
    {
        match self.peek() {
            Some(Kind::Symbol(Symbol::Hash)) => self.col_number(),
            _ => self.col_name(),
        }
    }

    #[tactic(auto, unfolding(crate::specs::Parser::col_number))]
    fn col_number(&mut self) -> Result<PCol, Stop>
        ensures { Reads (spec.col_number self.old) result self.new }
    {
        self.advance();
        let number = self.int(MAX_COLUMN)?;
        Ok(PCol::Number(number as u32))
    }

    #[tactic(auto, unfolding(crate::specs::Parser::col_name))]
    fn col_name(&mut self) -> Result<PCol, Stop>
        ensures { Reads (spec.col_name self.old) result self.new }
    {
        let name = self.name()?;
        if self.eat_symbol(Symbol::Dot) {
            Ok(PCol::Dotted(name, self.name()?))
        } else {
            Ok(PCol::Name(name))
        }
    }
}
