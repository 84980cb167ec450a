//! The image of a final query for which data is held.

ghost use Rattle.std.specs.Prelude.{◌≡◌, ℕ, List, IfOk, length, nat_lt, true};
ghost use Rattle.castor_val.specs.Limits.{most_file_bytes};
ghost use Rattle.castor_code.specs.CodeForms.{code_bytes, is_well_formed};
ghost use Rattle.castor_image.specs.Heads.{is_head};
ghost use Rattle.castor_image.specs.Images.{framed};
ghost use Rattle.castor_schema.specs.WellTyped.{query_context};
ghost use Rattle.castor_cli.specs.Building.{BuildsImage, content_of, head_of, if_small};
ghost use Rattle.castor_cli.specs.Causes.{items_of};
ghost use Rattle.castor_cli.specs.Laying.{CanBeWritten, IsHeldFor, IsLayoutFor};

use crate::finishing::query_context;
use crate::status::{BuildFault, Status};
use castor_alg::{Held, Rel};
use castor_image::{Head, build, overhead};
use castor_ltype::{Layout, lay_out};
use castor_schema::Checked;
use castor_val::{Column, MAX_FILE_BYTES, Memory};
use sqlite_items::Items;
use std::alloc::Global;

// The parameters and columns of a checked query.
fn head_of(alloc: Global, checked: &Checked) -> Result<Head, Memory>
    ensures { IfOk result (λ head. head ≡ head_of checked.now) }
{
    Ok(Head {
        params: copy_columns(alloc, checked.params.as_slice())?,
        columns: copy_columns(alloc, checked.columns.as_slice())?,
    })
}

// Equal columns.
fn copy_columns(alloc: Global, columns: &[Column]) -> Result<Items<Column>, Memory>
    ensures { IfOk result (λ copies. copies ≡ columns.now) }
{
    let mut copies = Items::new(alloc);
    for column in columns {
        copies.push(column.copy(alloc)?)?;
    }
    Ok(copies)
}

// Whether an image has more bytes than its limit, by the number of the bytes of its data.
fn is_too_large(alloc: Global, head: &Head, layout: &Layout) -> Result<bool, Memory>
    requires head { is_head head.now ≡ true }
    requires code { is_well_formed layout.now.code ≡ true }
    ensures { IfOk result (λ is. (stored : List ℕ) → length stored ≡ layout.now.size → is ≡ nat_lt most_file_bytes (length (framed head.now (code_bytes layout.now.code) stored))) }
{
    let around = overhead(alloc, head, &layout.code)?;
    Ok(around > MAX_FILE_BYTES || layout.size > MAX_FILE_BYTES - around)
}

// The image of a head and a layout, where it is within the limit. It is measured before it is written.
fn write_image(alloc: Global, head: &Head, layout: &Layout, held: &Held) -> Result<Vec<u8>, Status>
    requires { CanBeWritten head.now layout.now held.now }
    ensures { BuildsImage (if_small (record { head = head.now; code = layout.now.code; held = held.now })) (items_of result) }
{
    match is_too_large(alloc, head, layout) {
        Ok(false) => match build(alloc, head, &layout.code, held) {
            Ok(image) => Ok(image),
            Err(Memory) => Err(Status::Memory),
        },
        Ok(true) => Err(Status::Build(BuildFault::TooLarge)),
        Err(Memory) => Err(Status::Memory),
    }
}

// The layout of what is held for a final query.
fn layout_of(alloc: Global, checked: &Checked, last: &Rel, held: &Held) -> Result<Layout, Memory>
    ensures { IfOk result (IsLayoutFor last.now (query_context checked.now) held.now) }
{
    let context = query_context(alloc, checked)?;
    lay_out(alloc, last, held, &context)
}

/// The image of a final query for which this is held, or `TooLarge`. Each byte is written once.
pub fn image_of(
    alloc: Global,
    checked: &Checked,
    last: &Rel,
    held: &Held,
) -> Result<Vec<u8>, Status>
    requires { IsHeldFor checked.now last.now held.now }
    ensures { BuildsImage (if_small (content_of checked.now last.now held.now)) (items_of result) }
{
    let Ok(head) = head_of(alloc, checked) else {
        return Err(Status::Memory);
    };
    let Ok(layout) = layout_of(alloc, checked, last, held) else {
        return Err(Status::Memory);
    };
    write_image(alloc, &head, &layout, held)
}
