//! Numbers and texts.

ghost use Rattle.std.specs.Prelude.{◌≡◌};
ghost use Rattle.std.specs.Str.{is_utf8};
ghost use Rattle.castor_code.specs.CodeAnswers.{Takes, seen};
ghost use Rattle.castor_code.specs.CodeReadings.{bool_in, int_in, number_in, tag_in, text_in, u16_in, u32_in, u64_in, u8_in, utf8_in};

use super::{CodeError, Input};
use crate::fields::number_at;
use castor_val::Text;
use std::alloc::Global;
use std::str;

impl<'a> Input<'a> {
    /// A number from 0 to `most`.
    fn number(&mut self, most: u64) -> Result<u64, CodeError>
        ensures { Takes (λ n. n) (number_in most (seen self.old)) (seen self.new) result }
    {
        match number_at(self.rest, most) {
            Some((number, rest)) => {
                self.rest = rest;
                Ok(number)
            }
            None => Err(CodeError::NotCode),
        }
    }

    pub fn u8(&mut self) -> Result<u8, CodeError>
        ensures { Takes (λ n. n) (u8_in (seen self.old)) (seen self.new) result }
    {
        Ok(self.number(u8::MAX as u64)? as u8)
    }

    pub fn u16(&mut self) -> Result<u16, CodeError>
        ensures { Takes (λ n. n) (u16_in (seen self.old)) (seen self.new) result }
    {
        Ok(self.number(u16::MAX as u64)? as u16)
    }

    pub fn u32(&mut self) -> Result<u32, CodeError>
        ensures { Takes (λ n. n) (u32_in (seen self.old)) (seen self.new) result }
    {
        Ok(self.number(u32::MAX as u64)? as u32)
    }

    pub fn u64(&mut self) -> Result<u64, CodeError>
        ensures { Takes (λ n. n) (u64_in (seen self.old)) (seen self.new) result }
    {
        self.number(u64::MAX)
    }

    /// An int in two's complement.
    pub fn int(&mut self) -> Result<i64, CodeError>
        ensures { Takes (λ z. z) (int_in (seen self.old)) (seen self.new) result }
    {
        Ok(self.u64()?.cast_signed())
    }

    /// A bool, as 0 or 1.
    pub fn bool(&mut self) -> Result<bool, CodeError>
        ensures { Takes (λ b. b) (bool_in (seen self.old)) (seen self.new) result }
    {
        match self.u8()? {
            0 => Ok(false),
            1 => Ok(true),
            _ => Err(CodeError::NotCode),
        }
    }

    /// A length, and so many bytes of UTF-8.
    pub fn text(&mut self, alloc: Global) -> Result<Text, CodeError>
        ensures { Takes (λ t. t) (text_in (seen self.old)) (seen self.new) result }
    {
        let length = self.u16()?;
        Ok(Text::from_str(alloc, self.utf8(length)?)?)
    }

    /// So many bytes of UTF-8.
    fn utf8(&mut self, length: u16) -> Result<&'a str, CodeError>
        ensures { Takes (λ t. t.now) (utf8_in length (seen self.old)) (seen self.new) result }
    {
        if self.rest.len() < length as usize {
            return Err(CodeError::NotCode);
        }
        let (text, rest) = self.rest.split_at(length as usize);
        match str::from_utf8(text) {
            Ok(text) => {
                self.rest = rest;
                Ok(text)
            }
            Err(_) => Err(CodeError::NotCode),
        }
    }

    /// The tag of a node, which is counted.
    pub fn tag(&mut self) -> Result<u8, CodeError>
        ensures { Takes (λ n. n) (tag_in (seen self.old)) (seen self.new) result }
    {
        if self.nodes == 0 {
            return Err(CodeError::NotCode);
        }
        self.nodes -= 1;
        self.u8()
    }
}
