//! Codes.

ghost use Rattle.std.specs.Prelude.{◌≡◌, length};
ghost use Rattle.castor_code.specs.CodeAnswers.{Takes, seen};
ghost use Rattle.castor_code.specs.CodeReadings.{code_after, code_in, code_tag, group_in, hash_key_in, expr_in, is_scalar, key_code_in, key_codes_in, range_in, ranges_in, some_in, told, tag_in};
ghost use Rattle.castor_code.specs.Steps.{many};
ghost use Rattle.castor_code.specs.declared.tag.CodeTag.TheVariants as tag;

use super::{CodeError, Input};
use crate::code::{Code, Range};
use crate::tag::{CodeTag, code_tag};
use sqlite_items::{Boxed, Items};
use std::alloc::Global;

/// Whether a code is one of a single value.
pub fn is_scalar(code: &Code) -> bool
    ensures { result ≡ is_scalar code.now }
{
    match code {
        Code::Int { .. } => true,
        Code::Bool => true,
        Code::Text { .. } => true,
        _ => false,
    }
}

impl<'a> Input<'a> {
    /// A code of at most so many levels.
    #[cycle(code)]
    pub fn code(&mut self, alloc: Global, levels: u8) -> Result<Code, CodeError>
        ensures { Takes (λ c. c) (code_in levels (seen self.old)) (seen self.new) result }
    {
        if levels == 0 {
            return Err(CodeError::NotCode);
        }
        match code_tag(self.tag()?) {
            Some(kind) => self.code_behind(alloc, kind, levels - 1),
            None => Err(CodeError::NotCode),
        }
    }

    /// The node of a code behind its tag, whose parts have at most so many levels.
    #[cycle(code)]
    fn code_behind(&mut self, alloc: Global, kind: CodeTag, levels: u8) -> Result<Code, CodeError>
        ensures { Takes (λ c. c) (code_after kind (λ s. code_in levels s) (λ s. expr_in levels s) (seen self.old)) (seen self.new) result }
    {
        match kind {
            CodeTag::Int => self.int_code(),
            CodeTag::Bool => Ok(Code::Bool),
            CodeTag::Text => self.text_code(),
            CodeTag::Cross => Ok(Code::Cross(self.some_codes(alloc, levels)?)),
            CodeTag::Concat => Ok(Code::Concat(self.some_codes(alloc, levels)?)),
            CodeTag::List => self.list_code(alloc, levels),
            CodeTag::Hash => self.hash_code(alloc, levels),
            CodeTag::Ord => self.ord_code(alloc, levels),
            CodeTag::Select => {
                let es = self.some_exprs(alloc, levels)?;
                Ok(Code::Select(es, self.boxed_code(alloc, levels)?))
            }
            CodeTag::Filter => {
                let e = self.expr(alloc, levels)?;
                Ok(Code::Filter(e, self.boxed_code(alloc, levels)?))
            }
            CodeTag::Dep => {
                let scope = self.u32()?;
                let first = self.boxed_code(alloc, levels)?;
                Ok(Code::Dep(scope, first, self.boxed_code(alloc, levels)?))
            }
            CodeTag::Group => self.group_code(alloc, levels),
            CodeTag::Order => {
                let keys = self.some_keys(alloc)?;
                Ok(Code::Order(keys, self.boxed_code(alloc, levels)?))
            }
            CodeTag::Dedup => Ok(Code::Dedup(self.boxed_code(alloc, levels)?)),
        }
    }

    #[cycle(code)]
    fn boxed_code(&mut self, alloc: Global, levels: u8) -> Result<Boxed<Code>, CodeError>
        ensures { Takes (λ c. c) (code_in levels (seen self.old)) (seen self.new) result }
    {
        Ok(Boxed::new(alloc, self.code(alloc, levels)?)?)
    }

    fn int_code(&mut self) -> Result<Code, CodeError>
        ensures { Takes (λ c. c) (code_after tag.Int (λ s. code_in 0 s) (λ s. expr_in 0 s) (seen self.old)) (seen self.new) result }
    {
        let lo = self.int()?;
        let hi = self.int()?;
        if lo <= hi {
            Ok(Code::Int { lo, hi })
        } else {
            Err(CodeError::NotCode)
        }
    }

    fn text_code(&mut self) -> Result<Code, CodeError>
        ensures { Takes (λ c. c) (code_after tag.Text (λ s. code_in 0 s) (λ s. expr_in 0 s) (seen self.old)) (seen self.new) result }
    {
        let min = self.u16()?;
        let max = self.u16()?;
        if min <= max {
            Ok(Code::Text { min, max })
        } else {
            Err(CodeError::NotCode)
        }
    }

    fn range(&mut self) -> Result<Range, CodeError>
        ensures { Takes (λ r. r) (range_in (seen self.old)) (seen self.new) result }
    {
        let lo = self.u64()?;
        let hi = self.u64()?;
        if lo <= hi {
            Ok(Range { lo, hi })
        } else {
            Err(CodeError::NotCode)
        }
    }

    /// The ranges of a count and of a body length.
    fn ranges(&mut self) -> Result<(Range, Range), CodeError>
        ensures { Takes (λ r. r) (ranges_in (seen self.old)) (seen self.new) result }
    {
        let count = self.range()?;
        let body = self.range()?;
        Ok((count, body))
    }

    #[cycle(code)]
    fn list_code(&mut self, alloc: Global, levels: u8) -> Result<Code, CodeError>
        ensures { Takes (λ c. c) (code_after tag.List (λ s. code_in levels s) (λ s. expr_in levels s) (seen self.old)) (seen self.new) result }
    {
        let (count, body) = self.ranges()?;
        let kid = self.boxed_code(alloc, levels)?;
        Ok(Code::List { count, body, kid })
    }

    #[cycle(code)]
    fn hash_code(&mut self, alloc: Global, levels: u8) -> Result<Code, CodeError>
        ensures { Takes (λ c. c) (code_after tag.Hash (λ s. code_in levels s) (λ s. expr_in levels s) (seen self.old)) (seen self.new) result }
    {
        let (count, body) = self.ranges()?;
        let key = self.key_codes(alloc, levels)?;
        let kid = self.boxed_code(alloc, levels)?;
        let by = self.exprs(alloc, levels, key.len())?;
        Ok(Code::Hash {
            count,
            body,
            key,
            kid,
            by,
        })
    }

    #[cycle(code)]
    fn ord_code(&mut self, alloc: Global, levels: u8) -> Result<Code, CodeError>
        ensures { Takes (λ c. c) (code_after tag.Ord (λ s. code_in levels s) (λ s. expr_in levels s) (seen self.old)) (seen self.new) result }
    {
        let (count, body) = self.ranges()?;
        let key = Boxed::new(alloc, self.key_code(alloc, levels)?)?;
        let kid = self.boxed_code(alloc, levels)?;
        let lo = self.bound(alloc, levels)?;
        let hi = self.bound(alloc, levels)?;
        Ok(Code::Ord {
            count,
            body,
            key,
            kid,
            lo,
            hi,
        })
    }

    #[cycle(code)]
    fn group_code(&mut self, alloc: Global, levels: u8) -> Result<Code, CodeError>
        ensures { Takes (λ c. c) (code_after tag.Group (λ s. code_in levels s) (λ s. expr_in levels s) (seen self.old)) (seen self.new) result }
    {
        let keys = self.columns(alloc)?;
        let aggs = self.aggs(alloc)?;
        if keys.is_empty() && aggs.is_empty() {
            return Err(CodeError::NotCode);
        }
        let kid = self.boxed_code(alloc, levels)?;
        Ok(Code::Group(keys, aggs, kid))
    }

    /// A code for a column of a key.
    #[cycle(code)]
    fn key_code(&mut self, alloc: Global, levels: u8) -> Result<Code, CodeError>
        ensures { Takes (λ c. c) (key_code_in (λ s. code_in levels s) (seen self.old)) (seen self.new) result }
    {
        let code = self.code(alloc, levels)?;
        if is_scalar(&code) {
            Ok(code)
        } else {
            Err(CodeError::NotCode)
        }
    }

    /// 1 to 4 codes for the columns of a key.
    #[cycle(code)]
    fn key_codes(&mut self, alloc: Global, levels: u8) -> Result<Items<Code>, CodeError>
        ensures { Takes (λ ks. ks) (key_codes_in (λ s. code_in levels s) (seen self.old)) (seen self.new) result }
    {
        let number = self.u8()?;
        if number < 1 || number > 4 {
            return Err(CodeError::NotCode);
        }
        let mut codes = Items::new(alloc);
        for _ in 0..number {
            let code = match self.key_code(alloc, levels) {
                Ok(code) => code,
                Err(why) => return Err(why),
            };
            codes.push(code)?;
        }
        Ok(codes)
    }

    /// A list of codes that isn't empty.
    #[cycle(code)]
    fn some_codes(&mut self, alloc: Global, levels: u8) -> Result<Items<Code>, CodeError>
        ensures { Takes (λ ks. ks) (some_in (λ s. code_in levels s) (seen self.old)) (seen self.new) result }
    {
        let number = self.u16()?;
        if number == 0 {
            return Err(CodeError::NotCode);
        }
        self.codes(alloc, levels, number)
    }

    /// So many codes.
    #[cycle(code)]
    fn codes(&mut self, alloc: Global, levels: u8, number: u16) -> Result<Items<Code>, CodeError>
        ensures { Takes (λ ks. ks) (many number (λ s. code_in levels s) (seen self.old)) (seen self.new) result }
    {
        let mut codes = Items::new(alloc);
        for _ in 0..number {
            let code = match self.code(alloc, levels) {
                Ok(code) => code,
                Err(why) => return Err(why),
            };
            codes.push(code)?;
        }
        Ok(codes)
    }
}
