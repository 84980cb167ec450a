//! Heads.

ghost use Rattle.std.specs.Prelude.{◌≡◌};
ghost use Rattle.castor_code.specs.Steps.{many};
ghost use Rattle.castor_image.specs.HeadReadings.{byte_read, column_read, columns_read, head_columns_read, head_read, name_read, params_read, type_read};
ghost use Rattle.castor_image.specs.Takes.{Takes};

use super::Input;
use crate::error::OpenError;
use crate::head::Head;
use crate::names::{are_distinct, is_head_name};
use castor_val::{Column, MAX_COLUMNS, MAX_PARAMS, Text, Ty};
use sqlite_items::Items;
use std::alloc::Global;

impl<'a> Input<'a> {
    fn byte(&mut self) -> Result<u8, OpenError>
        ensures { Takes (λ n. n) (byte_read self.old.rest.now) self.new.rest.now result }
    {
        match self.rest {
            [] => Err(OpenError::NotImage),
            [byte, rest @ ..] => {
                self.rest = rest;
                Ok(*byte)
            }
        }
    }

    fn ty(&mut self) -> Result<Ty, OpenError>
        ensures { Takes (λ ty. ty) (type_read self.old.rest.now) self.new.rest.now result }
    {
        match self.byte()? {
            0 => Ok(Ty::Int),
            1 => Ok(Ty::Bool),
            2 => Ok(Ty::Text),
            _ => Err(OpenError::NotImage),
        }
    }

    /// A name, behind its length.
    fn name(&mut self, alloc: Global) -> Result<Text, OpenError>
        ensures { Takes (λ name. name) (name_read self.old.rest.now) self.new.rest.now result }
    {
        let length = self.byte()?;
        let name = self.utf8(length as u64)?;
        if is_head_name(name.as_bytes()) {
            Ok(Text::from_str(alloc, name)?)
        } else {
            Err(OpenError::NotImage)
        }
    }

    fn column(&mut self, alloc: Global) -> Result<Column, OpenError>
        ensures { Takes (λ c. c) (column_read self.old.rest.now) self.new.rest.now result }
    {
        let ty = self.ty()?;
        let name = self.name(alloc)?;
        Ok(Column { name, ty })
    }

    /// So many columns.
    fn many_columns(&mut self, alloc: Global, number: u8) -> Result<Items<Column>, OpenError>
        ensures { Takes (λ cs. cs) (many number column_read self.old.rest.now) self.new.rest.now result }
    {
        let mut columns = Items::new(alloc);
        for _ in 0..number {
            let column = match self.column(alloc) {
                Ok(column) => column,
                Err(why) => return Err(why),
            };
            columns.push(column)?;
        }
        Ok(columns)
    }

    /// Columns, behind their number.
    fn columns(&mut self, alloc: Global) -> Result<Items<Column>, OpenError>
        ensures { Takes (λ cs. cs) (columns_read self.old.rest.now) self.new.rest.now result }
    {
        let number = self.byte()?;
        self.many_columns(alloc, number)
    }

    /// 0 to 16 parameters, with distinct names.
    fn params(&mut self, alloc: Global) -> Result<Items<Column>, OpenError>
        ensures { Takes (λ cs. cs) (params_read self.old.rest.now) self.new.rest.now result }
    {
        let params = self.columns(alloc)?;
        if params.len() <= MAX_PARAMS && are_distinct(params.as_slice()) {
            Ok(params)
        } else {
            Err(OpenError::NotImage)
        }
    }

    /// 1 to 64 columns.
    fn head_columns(&mut self, alloc: Global) -> Result<Items<Column>, OpenError>
        ensures { Takes (λ cs. cs) (head_columns_read self.old.rest.now) self.new.rest.now result }
    {
        let columns = self.columns(alloc)?;
        if columns.len() > 0 && columns.len() <= MAX_COLUMNS {
            Ok(columns)
        } else {
            Err(OpenError::NotImage)
        }
    }

    /// A head: parameters, then columns.
    pub fn head(&mut self, alloc: Global) -> Result<Head, OpenError>
        ensures { Takes (λ h. h) (head_read self.old.rest.now) self.new.rest.now result }
    {
        let params = self.params(alloc)?;
        let columns = self.head_columns(alloc)?;
        Ok(Head { params, columns })
    }
}
