//! Images, written.

ghost use Rattle.std.specs.Prelude.{◌≡◌, ◌≤◌, ◌+◌, ◌++◌, IfOk, OnOk, drop, take, true, vec_len};
ghost use Rattle.castor_code.specs.CodeForms.{code_bytes, is_well_formed};
ghost use Rattle.castor_code.specs.Data.{data_of, fits};
ghost use Rattle.castor_image.specs.Heads.{head_bytes, is_head};
ghost use Rattle.castor_image.specs.Images.{IsOverhead, fits_head, image_of, length_field, sections};

use crate::head::{Head, put_head};
use crate::image::MAGIC;
use crate::writing::{fill, put_data};
use castor_alg::Held;
use castor_code::fields::push_field;
use castor_code::{Code, encode};
use castor_val::Memory;
use std::alloc::Global;

/// The image of a head, a code and held data: the one that `open_image` opens as these. Linear in the held
/// data and the image, each byte of which is written once.
pub fn build(alloc: Global, head: &Head, code: &Code, held: &Held) -> Result<Vec<u8>, Memory>
    requires head { is_head head.now ≡ true }
    requires code { is_well_formed code.now ≡ true }
    requires types { fits_head code.now head.now ≡ true }
    requires held { fits code.now held.now ≡ true }
    ensures { IfOk result (λ image. image.items ≡ image_of head.now code.now held.now) }
{
    let mut image = Vec::new(alloc);
    image.extend_from_slice(&MAGIC)?;
    put_head(&mut image, head)?;
    put_sections(alloc, &mut image, code, held)?;
    Ok(image)
}

/// The lengths of the code and of the data, the code, and the data. The length of the data is filled in once
/// it stands.
fn put_sections(alloc: Global, image: &mut Vec<u8>, code: &Code, held: &Held) -> Result<(), Memory>
    requires code { is_well_formed code.now ≡ true }
    requires held { fits code.now held.now ≡ true }
    ensures { OnOk result (image.new.items ≡ image.old.items ++ sections (code_bytes code.now) (data_of code.now held.now)) }
{
    let code_bytes = encode(alloc, code)?;
    put_length(image, code_bytes.len())?;
    let at = image.len();
    put_length(image, 0)?;
    image.extend_from_slice(code_bytes.as_slice())?;
    let first = image.len();
    put_fitting(alloc, image, code, held)?;
    fill_length(alloc, image, at, image.len() - first)
}

/// A length, in 8 bytes.
fn put_length(image: &mut Vec<u8>, length: usize) -> Result<(), Memory>
    ensures { OnOk result (image.new.items ≡ image.old.items ++ length_field length) }
{
    push_field(image, u64::MAX, length as u64)
}

/// Writes a length over the 8 bytes at a place.
fn fill_length(alloc: Global, image: &mut Vec<u8>, at: usize, length: usize) -> Result<(), Memory>
    requires { at + 8 ≤ vec_len image.old }
    ensures { OnOk result (image.new.items ≡ take at image.old.items ++ (length_field length ++ drop (at + 8) image.old.items)) }
{
    let mut field = Vec::new(alloc);
    put_length(&mut field, length)?;
    fill(image, at, field.as_slice());
    Ok(())
}

/// The data of held data that fits.
fn put_fitting(alloc: Global, image: &mut Vec<u8>, code: &Code, held: &Held) -> Result<(), Memory>
    requires { fits code.now held.now ≡ true }
    ensures { OnOk result (image.new.items ≡ image.old.items ++ data_of code.now held.now) }
{
    match put_data(alloc, image, code, held) {
        Ok(()) => Ok(()),
        Err(_) => Err(Memory),
    }
}

/// The number of bytes of an image beside those of its data. Linear in the head and the code.
pub fn overhead(alloc: Global, head: &Head, code: &Code) -> Result<u64, Memory>
    requires head { is_head head.now ≡ true }
    requires code { is_well_formed code.now ≡ true }
    ensures { IfOk result (λ n. IsOverhead head.now (code_bytes code.now) n) }
{
    let mut around = Vec::new(alloc);
    around.extend_from_slice(&MAGIC)?;
    put_head(&mut around, head)?;
    let code = encode(alloc, code)?;
    put_length(&mut around, code.len())?;
    put_length(&mut around, 0)?;
    around.extend_from_slice(code.as_slice())?;
    Ok(around.len() as u64)
}
