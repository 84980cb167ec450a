//! The grammar of query files: declarations, and a query.

ghost use Rattle.std.specs.Prelude.{◌≡◌, [], IfOk};
ghost use Rattle.castor_parse.specs.Parser as spec;
ghost use Rattle.castor_parse.specs.Parser.{Reads};

use crate::kept::{before, beside};
use crate::parser::{Parser, Stop};
use crate::rel::{only, separated};
use castor_tokens::{Keyword, Kind, Symbol};
use castor_tree::{Decl, PRel, Word};
use castor_val::Ty;
use sqlite_items::Items;

/// How deep parentheses nest at most, and one more.
const NESTING: usize = 257;

impl<'a> Parser<'a> {
    /// `type := "int" | "bool" | "text"`
    #[tactic(auto, unfolding(crate::specs::Parser::read_type))]
    fn ty(&mut self) -> Result<Ty, Stop>
        ensures { Reads (spec.read_type self.old) result self.new }
    {
        match self.peek() {
            Some(Kind::Keyword(Keyword::Int)) => {
                self.advance();
                Ok(Ty::Int)
            }
            Some(Kind::Keyword(Keyword::Bool)) => {
                self.advance();
                Ok(Ty::Bool)
            }
            Some(Kind::Keyword(Keyword::Text)) => {
                self.advance();
                Ok(Ty::Text)
            }
            _ => Err(Stop::Syntax),
        }
    }

    /// `NAME type`
    #[tactic(auto, unfolding(crate::specs::Parser::read_column))]
    fn column(&mut self) -> Result<(Word, Ty), Stop>
        ensures { Reads (spec.read_column self.old) result self.new }
    {
        let name = self.name()?;
        beside(name, self.ty())
    }

    /// `NAME type { "," NAME type }`
    #[tactic(auto, unfolding(crate::specs::Parser::separated, crate::specs::Parser::separated_from))]
    fn columns(&mut self) -> Result<Items<(Word, Ty)>, Stop>
        ensures { Reads (spec.separated spec.read_column self.old) result self.new }
    {
        separated!(self, self.column())
    }

    /// `table := "table" NAME "(" NAME type { "," NAME type } ")" ";"`
    #[tactic(auto, unfolding(crate::specs::Parser::read_table, crate::specs::Parser::followed))]
    fn table_decl(&mut self) -> Result<Decl, Stop>
        ensures { Reads (spec.read_table self.old) result self.new }
    {
        self.advance();
        let name = self.name()?;
        let name = before(name, self.expect_symbol(Symbol::OpenParen))?;
        let found = beside(name, self.columns())?;
        let found = before(found, self.expect_symbol(Symbol::CloseParen))?;
        let (name, columns) = before(found, self.expect_symbol(Symbol::Semicolon))?;
        Ok(Decl::Table(name, columns))
    }

    /// `param := "param" NAME type ";"`
    #[tactic(auto, unfolding(crate::specs::Parser::read_param_decl))]
    fn param_decl(&mut self) -> Result<Decl, Stop>
        ensures { Reads (spec.read_param_decl self.old) result self.new }
    {
        self.advance();
        let name = self.name()?;
        let found = beside(name, self.ty())?;
        let (name, ty) = before(found, self.expect_symbol(Symbol::Semicolon))?;
        Ok(Decl::Param(name, ty))
    }

    /// `{ table | param }`
    #[tactic(auto, unfolding(crate::specs::Parser::read_decls, crate::specs::Parser::decls_from))]
    fn decls(&mut self) -> Result<Items<Decl>, Stop>
        ensures { Reads (spec.read_decls self.old) result self.new }
    {
        let mut found = Items::new(self.alloc());
        for _turn in 0..self.left() {
            match self.peek() {
                Some(Kind::Keyword(Keyword::Table)) => found.push(self.table_decl()?)?,
                Some(Kind::Keyword(Keyword::Param)) => found.push(self.param_decl()?)?,
                _ => return Ok(found),
            }
        }
        Ok(found)
    }

    /// The end of the text.
    #[tactic(auto, unfolding(crate::specs::Parser::read_end))]
    fn end(&self) -> Result<(), Stop>
        ensures { Reads (spec.read_end self.now) result self.now }
    {
        match self.peek() {
            None => Ok(()),
            Some(_) => Err(Stop::Syntax),
        }
    }

    /// `file := { table | param } "query" rel`
    #[tactic(auto, unfolding(crate::specs::Parser::read_file))]
    pub fn file(&mut self) -> Result<(Items<Decl>, PRel), Stop>
        ensures { Reads (spec.read_file self.old) result self.new }
    {
        let decls = self.decls()?;
        let decls = before(decls, self.expect_keyword(Keyword::Query))?;
        let found = beside(decls, self.rel(NESTING))?;
        before(found, self.end())
    }
}
