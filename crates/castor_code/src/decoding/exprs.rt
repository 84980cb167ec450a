//! Expressions, and what stands beside them in codes.

ghost use Rattle.std.specs.Prelude.{◌≡◌};
ghost use Rattle.castor_code.specs.CodeAnswers.{Takes, seen};
ghost use Rattle.castor_code.specs.CodeReadings.{agg_in, bound_in, expr_after, expr_in, expr_tag, key_in, list_in, op_in, some_in, told, tag_in, u32_in};
ghost use Rattle.castor_code.specs.Steps.{many};

use super::{CodeError, Input};
use crate::tag::{ExprTag, OPS, expr_tag};
use castor_alg::{Agg, Bound, Expr, Key, Op};
use castor_val::Value;
use sqlite_items::{Boxed, Items};
use std::alloc::Global;

impl<'a> Input<'a> {
    /// An expression of at most so many levels.
    #[cycle(expr)]
    pub fn expr(&mut self, alloc: Global, levels: u8) -> Result<Expr, CodeError>
        ensures { Takes (λ e. e) (expr_in levels (seen self.old)) (seen self.new) result }
    {
        if levels == 0 {
            return Err(CodeError::NotCode);
        }
        match expr_tag(self.tag()?) {
            Some(kind) => self.expr_behind(alloc, kind, levels - 1),
            None => Err(CodeError::NotCode),
        }
    }

    /// The node of an expression behind its tag, whose parts have at most so many levels.
    #[cycle(expr)]
    fn expr_behind(&mut self, alloc: Global, kind: ExprTag, levels: u8) -> Result<Expr, CodeError>
        ensures { Takes (λ e. e) (expr_after kind (λ s. expr_in levels s) (seen self.old)) (seen self.new) result }
    {
        match kind {
            ExprTag::Col => Ok(Expr::Col(self.u32()?)),
            ExprTag::Scope => {
                let scope = self.u32()?;
                Ok(Expr::Scope(scope, self.u32()?))
            }
            ExprTag::Param => Ok(Expr::Param(self.u32()?)),
            ExprTag::Int => Ok(Expr::Lit(Value::Int(self.int()?))),
            ExprTag::Bool => Ok(Expr::Lit(Value::Bool(self.bool()?))),
            ExprTag::Text => Ok(Expr::Lit(Value::Text(self.text(alloc)?))),
            ExprTag::Bin => {
                let op = self.op()?;
                let a = self.boxed_expr(alloc, levels)?;
                let b = self.boxed_expr(alloc, levels)?;
                Ok(Expr::Bin(op, a, b))
            }
            ExprTag::Not => Ok(Expr::Not(self.boxed_expr(alloc, levels)?)),
            ExprTag::If => {
                let condition = self.boxed_expr(alloc, levels)?;
                let a = self.boxed_expr(alloc, levels)?;
                let b = self.boxed_expr(alloc, levels)?;
                Ok(Expr::If(condition, a, b))
            }
        }
    }

    #[cycle(expr)]
    fn boxed_expr(&mut self, alloc: Global, levels: u8) -> Result<Boxed<Expr>, CodeError>
        ensures { Takes (λ e. e) (expr_in levels (seen self.old)) (seen self.new) result }
    {
        Ok(Boxed::new(alloc, self.expr(alloc, levels)?)?)
    }

    fn op(&mut self) -> Result<Op, CodeError>
        ensures { Takes (λ op. op) (op_in (seen self.old)) (seen self.new) result }
    {
        match OPS.get(self.u8()? as usize) {
            Some(op) => Ok(*op),
            None => Err(CodeError::NotCode),
        }
    }

    /// So many expressions.
    pub fn exprs(
        &mut self,
        alloc: Global,
        levels: u8,
        number: usize,
    ) -> Result<Items<Expr>, CodeError>
        ensures { Takes (λ es. es) (many number (λ s. expr_in levels s) (seen self.old)) (seen self.new) result }
    {
        let mut es = Items::new(alloc);
        for _ in 0..number {
            let e = match self.expr(alloc, levels) {
                Ok(e) => e,
                Err(why) => return Err(why),
            };
            es.push(e)?;
        }
        Ok(es)
    }

    /// A list of expressions that isn't empty.
    pub fn some_exprs(&mut self, alloc: Global, levels: u8) -> Result<Items<Expr>, CodeError>
        ensures { Takes (λ es. es) (some_in (λ s. expr_in levels s) (seen self.old)) (seen self.new) result }
    {
        let number = self.u16()?;
        if number == 0 {
            return Err(CodeError::NotCode);
        }
        self.exprs(alloc, levels, number as usize)
    }

    pub fn bound(&mut self, alloc: Global, levels: u8) -> Result<Bound, CodeError>
        ensures { Takes (λ b. b) (bound_in (λ s. expr_in levels s) (seen self.old)) (seen self.new) result }
    {
        match self.u8()? {
            0 => Ok(Bound::Any),
            1 => Ok(Bound::Incl(self.expr(alloc, levels)?)),
            2 => Ok(Bound::Excl(self.expr(alloc, levels)?)),
            _ => Err(CodeError::NotCode),
        }
    }

    fn agg(&mut self) -> Result<Agg, CodeError>
        ensures { Takes (λ a. a) (agg_in (seen self.old)) (seen self.new) result }
    {
        match self.u8()? {
            0 => Ok(Agg::Count),
            1 => Ok(Agg::Sum(self.u32()?)),
            2 => Ok(Agg::Min(self.u32()?)),
            3 => Ok(Agg::Max(self.u32()?)),
            _ => Err(CodeError::NotCode),
        }
    }

    fn key(&mut self) -> Result<Key, CodeError>
        ensures { Takes (λ k. k) (key_in (seen self.old)) (seen self.new) result }
    {
        let col = self.u32()?;
        let desc = self.bool()?;
        Ok(Key { col, desc })
    }

    /// A list of column numbers.
    pub fn columns(&mut self, alloc: Global) -> Result<Items<u32>, CodeError>
        ensures { Takes (λ ks. ks) (list_in (λ s. u32_in s) (seen self.old)) (seen self.new) result }
    {
        let number = self.u16()?;
        let mut columns = Items::new(alloc);
        for _ in 0..number {
            let column = match self.u32() {
                Ok(column) => column,
                Err(why) => return Err(why),
            };
            columns.push(column)?;
        }
        Ok(columns)
    }

    /// A list of aggregates.
    pub fn aggs(&mut self, alloc: Global) -> Result<Items<Agg>, CodeError>
        ensures { Takes (λ aggs. aggs) (list_in (λ s. agg_in s) (seen self.old)) (seen self.new) result }
    {
        let number = self.u16()?;
        let mut aggs = Items::new(alloc);
        for _ in 0..number {
            let agg = match self.agg() {
                Ok(agg) => agg,
                Err(why) => return Err(why),
            };
            aggs.push(agg)?;
        }
        Ok(aggs)
    }

    /// A list of sorting keys that isn't empty.
    pub fn some_keys(&mut self, alloc: Global) -> Result<Items<Key>, CodeError>
        ensures { Takes (λ ks. ks) (some_in (λ s. key_in s) (seen self.old)) (seen self.new) result }
    {
        let number = self.u16()?;
        if number == 0 {
            return Err(CodeError::NotCode);
        }
        self.keys(alloc, number)
    }

    /// So many sorting keys.
    fn keys(&mut self, alloc: Global, number: u16) -> Result<Items<Key>, CodeError>
        ensures { Takes (λ ks. ks) (many number (λ s. key_in s) (seen self.old)) (seen self.new) result }
    {
        let mut keys = Items::new(alloc);
        for _ in 0..number {
            let key = match self.key() {
                Ok(key) => key,
                Err(why) => return Err(why),
            };
            keys.push(key)?;
        }
        Ok(keys)
    }
}
