//! Values.

ghost use Rattle.std.specs.Prelude.{◌≡◌};
ghost use Rattle.castor_code.specs.Readings.{bool_read, int_read, text_read};
ghost use Rattle.castor_image.specs.HeadReadings.{utf8_read};
ghost use Rattle.castor_image.specs.Takes.{Takes};

use super::Input;
use crate::error::OpenError;
use crate::writing::gap;
use castor_alg::Held;
use castor_code::Range;
use castor_val::{Text, Value};
use std::alloc::Global;
use std::str;

impl<'a> Input<'a> {
    /// An int of a range.
    pub fn int(&mut self, lo: i64, hi: i64) -> Result<Held, OpenError>
        ensures { Takes (λ h. h) (int_read lo hi self.old.rest.now) self.new.rest.now result }
    {
        let number = self.number(gap(lo, hi))?;
        let value = lo as i128 + number as i128;
        if value > hi as i128 {
            return Err(OpenError::NotImage);
        }
        Ok(Held::Leaf(Value::Int(value as i64)))
    }

    /// A bool, as 0 or 1.
    pub fn bool(&mut self) -> Result<Held, OpenError>
        ensures { Takes (λ h. h) (bool_read self.old.rest.now) self.new.rest.now result }
    {
        match self.rest {
            [] => Err(OpenError::NotImage),
            [0, rest @ ..] => {
                self.rest = rest;
                Ok(Held::Leaf(Value::Bool(false)))
            }
            [1, rest @ ..] => {
                self.rest = rest;
                Ok(Held::Leaf(Value::Bool(true)))
            }
            _ => Err(OpenError::NotImage),
        }
    }

    /// A text, behind its length.
    pub fn text(&mut self, alloc: Global, min: u16, max: u16) -> Result<Held, OpenError>
        ensures { Takes (λ h. h) (text_read (record { lo = min; hi = max }) self.old.rest.now) self.new.rest.now result }
    {
        let length = self.ranged(Range {
            lo: min as u64,
            hi: max as u64,
        })?;
        let text = self.utf8(length)?;
        Ok(Held::Leaf(Value::Text(Text::from_str(alloc, text)?)))
    }

    /// So many bytes of UTF-8.
    pub fn utf8(&mut self, number: u64) -> Result<&'a str, OpenError>
        ensures { Takes (λ text. text.now) (utf8_read number self.old.rest.now) self.new.rest.now result }
    {
        if number > self.rest.len() as u64 {
            return Err(OpenError::NotImage);
        }
        let (text, rest) = self.rest.split_at(number as usize);
        match str::from_utf8(text) {
            Ok(text) => {
                self.rest = rest;
                Ok(text)
            }
            Err(_) => Err(OpenError::NotImage),
        }
    }
}
