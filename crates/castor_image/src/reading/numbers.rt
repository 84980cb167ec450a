//! Numbers in fields.

ghost use Rattle.std.specs.Prelude.{◌≡◌};
ghost use Rattle.castor_code.specs.Readings.{ranged};
ghost use Rattle.castor_fixed.specs.Fields.{number};
ghost use Rattle.castor_image.specs.Frames.{length_read, magic_read};
ghost use Rattle.castor_image.specs.Images.{magic};
ghost use Rattle.castor_image.specs.HeadReadings.{bytes_read};
ghost use Rattle.castor_image.specs.Takes.{Takes};

use super::Input;
use crate::error::OpenError;
use crate::image::MAGIC;
use castor_code::Range;
use castor_code::fields::number_at;

impl<'a> Input<'a> {
    /// A number from 0 to `most`.
    pub fn number(&mut self, most: u64) -> Result<u64, OpenError>
        ensures { Takes (λ n. n) (number most self.old.rest.now) self.new.rest.now result }
    {
        match number_at(self.rest, most) {
            Some((number, rest)) => {
                self.rest = rest;
                Ok(number)
            }
            None => Err(OpenError::NotImage),
        }
    }

    /// A number of a range.
    pub fn ranged(&mut self, range: Range) -> Result<u64, OpenError>
        ensures { Takes (λ n. n) (ranged range self.old.rest.now) self.new.rest.now result }
    {
        let number = self.number(range.hi.saturating_sub(range.lo))?;
        if number > range.hi || range.lo > range.hi - number {
            return Err(OpenError::NotImage);
        }
        Ok(range.lo + number)
    }

    /// A length of 64 bits.
    pub fn length(&mut self) -> Result<u64, OpenError>
        ensures { Takes (λ n. n) (length_read self.old.rest.now) self.new.rest.now result }
    {
        self.number(u64::MAX)
    }

    /// The first bytes of an image.
    pub fn magic(&mut self) -> Result<(), OpenError>
        ensures { Takes (λ u. magic) (magic_read self.old.rest.now) self.new.rest.now result }
    {
        let front = self.take(8)?;
        if front == MAGIC.as_slice() {
            Ok(())
        } else {
            Err(OpenError::NotImage)
        }
    }

    /// So many bytes.
    pub fn take(&mut self, number: u64) -> Result<&'a [u8], OpenError>
        ensures { Takes (λ bytes. bytes.now) (bytes_read number self.old.rest.now) self.new.rest.now result }
    {
        if number > self.rest.len() as u64 {
            return Err(OpenError::NotImage);
        }
        let (front, rest) = self.rest.split_at(number as usize);
        self.rest = rest;
        Ok(front)
    }
}
