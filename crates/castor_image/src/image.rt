//! Images, opened.

ghost use Rattle.std.specs.Prelude.{◌≡◌, ◌⊎◌, [], IfOk, IsTrue, MatchResult, Some, true, false};
ghost use Rattle.castor_val.specs.Columns.{types_of};
ghost use Rattle.castor_alg.specs.Typing.{same_types};
ghost use Rattle.castor_code.specs.CodeAnswers.{IsNoCode};
ghost use Rattle.castor_code.specs.CodeForms.{code_bytes, is_well_formed};
ghost use Rattle.castor_code.specs.Data.{fits, data_read};
ghost use Rattle.castor_image.specs.Frames.{IsNoData, IsNoFrame, frame_of, frame_read};
ghost use Rattle.castor_image.specs.Opens.{ChecksColumns, Opens};
ghost use Rattle.castor_image.specs.Takes.{Takes};
ghost use Rattle.castor_image.specs.Heads.{is_head};
ghost use Rattle.castor_image.specs.Images.{ImagesAreTold, IsImageOf, IsNoImage, fits_head, head_context};
ghost use Rattle.castor_image.specs.declared.error.OpenError.TheVariants as error;

use crate::error::OpenError;
use crate::head::Head;
use crate::reading::Input;
use crate::typing::code_type;
use castor_alg::{Context, Held, TypeError};
use castor_code::{Code, CodeError, decode};
use castor_val::{Column, Memory, Ty};
use sqlite_items::Items;
use std::alloc::Global;

/// The first bytes of an image.
pub const MAGIC: [u8; 8] = *b"CASTIMG1";

/// An image, opened: a valid head, a well-formed code that fits it, and held data that fits the code and is
/// kept in bytes of the image.
#[derive(Drop)]
pub struct Image<'a> {
    head: Head,
    code: Code,
    held: Held,
    data_part: &'a [u8],
    pub ghost valid: { IsTrue (is_head head) },
    pub ghost formed: { IsTrue (is_well_formed code) },
    pub ghost typed: { IsTrue (fits_head code head) },
    pub ghost fitting: { IsTrue (fits code held) },
}

impl<'a> Image<'a> {
    /// The code by which the data is read. Takes no memory.
    pub fn code(&self) -> &Code
        ensures { result.now ≡ self.now.code }
    {
        &self.code
    }

    /// The parameters and columns. Takes no memory.
    pub fn head(&self) -> &Head
        ensures { result.now ≡ self.now.head }
    {
        &self.head
    }

    /// The data, as a tree. Takes no memory.
    pub fn decoded(&self) -> &Held
        ensures { result.now ≡ self.now.held }
    {
        &self.held
    }
}

/// Opens an image. `NotImage` comes exactly where the bytes are no image, and else `Memory`.
///
/// Linear in the bytes, but for the order n log n in the entries of an index, and once more for each index
/// around them. The recursion is as deep as the code, which has at most 64 levels.
pub fn open_image<'a>(alloc: Global, bytes: &'a [u8]) -> Result<Image<'a>, OpenError>
    ensures value { MatchResult result (λ i. IsImageOf (record { head = i.head; code = i.code; held = i.held }) bytes.now) (λ e. (e ≡ error.Memory) ⊎ ((e ≡ error.NotImage) × IsNoImage bytes.now)) }

    // Bytes are the image of one head, code and held data at most, and no proper front part of an image is an
    // image.
    ensures law { ImagesAreTold }
{
    match open_frame(alloc, bytes) {
        Ok(frame) => open_code(alloc, frame),
        Err(why) => Err(why),
    }
}

/// The head, the bytes of the code, and the bytes of the data.
#[derive(Drop)]
struct Frame<'a> {
    head: Head,
    code: &'a [u8],
    data_part: &'a [u8],
}

/// The frame that the bytes are.
fn open_frame<'a>(alloc: Global, bytes: &'a [u8]) -> Result<Frame<'a>, OpenError>
    ensures { MatchResult result (λ f. frame_read bytes.now ≡ Some (frame_of f.head f.code.now f.data_part.now, [])) (λ e. (e ≡ error.Memory) ⊎ ((e ≡ error.NotImage) × IsNoFrame bytes.now)) }
{
    let mut input = Input::new(bytes);
    let frame = input.frame(alloc)?;
    let left = input.rest();
    if left.is_empty() {
        Ok(frame)
    } else {
        Err(OpenError::NotImage)
    }
}

impl<'a> Input<'a> {
    /// The frame that comes first.
    fn frame(&mut self, alloc: Global) -> Result<Frame<'a>, OpenError>
        ensures { Takes (λ f. frame_of f.head f.code.now f.data_part.now) (frame_read self.old.rest.now) self.new.rest.now result }
    {
        self.magic()?;
        let head = self.head(alloc)?;
        let code_length = self.length()?;
        let data_length = self.length()?;
        let code = self.take(code_length)?;
        let data_part = self.take(data_length)?;
        Ok(Frame {
            head,
            code,
            data_part,
        })
    }
}

/// The image of a frame.
fn open_code<'a>(alloc: Global, frame: Frame<'a>) -> Result<Image<'a>, OpenError>
    requires valid { is_head frame.head ≡ true }
    ensures { Opens frame.entry.head frame.entry.code.now frame.entry.data_part.now (λ i. i.head) (λ i. i.code) (λ i. i.held) result }
{
    let Frame {
        head,
        code,
        data_part,
    } = frame;
    match well_formed(alloc, code) {
        Ok(code) => open_typed(alloc, head, code, data_part),
        Err(why) => Err(why),
    }
}

/// The image of a head, a code, and bytes of data.
fn open_typed<'a>(
    alloc: Global,
    head: Head,
    code: Code,
    data_part: &'a [u8],
) -> Result<Image<'a>, OpenError>
    requires formed { is_well_formed code ≡ true }
    requires valid { is_head head ≡ true }
    ensures { Opens head (code_bytes code) data_part.now (λ i. i.head) (λ i. i.code) (λ i. i.held) result }
{
    match check_types(alloc, &head, &code) {
        Ok(()) => open_data(alloc, head, code, data_part),
        Err(why) => Err(why),
    }
}

/// The image of a head, a code that fits it, and bytes of data.
fn open_data<'a>(
    alloc: Global,
    head: Head,
    code: Code,
    data_part: &'a [u8],
) -> Result<Image<'a>, OpenError>
    requires formed { is_well_formed code ≡ true }
    requires valid { is_head head ≡ true }
    requires typed { fits_head code head ≡ true }
    ensures { Opens head (code_bytes code) data_part.now (λ i. i.head) (λ i. i.code) (λ i. i.held) result }
{
    match all_data(alloc, &code, data_part) {
        Ok(held) => Ok(Image {
            head,
            code,
            held,
            data_part,
        }),
        Err(why) => Err(why),
    }
}

/// The code of these bytes.
fn well_formed(alloc: Global, bytes: &[u8]) -> Result<Code, OpenError>
    ensures { MatchResult result (λ c. (is_well_formed c ≡ true) × (bytes.now ≡ code_bytes c)) (λ e. (e ≡ error.Memory) ⊎ ((e ≡ error.NotImage) × IsNoCode bytes.now)) }
{
    match decode(alloc, bytes) {
        Ok(code) => Ok(code),
        Err(CodeError::NotCode) => Err(OpenError::NotImage),
        Err(CodeError::Memory) => Err(OpenError::Memory),
    }
}

/// Whether a code is well typed with the parameters of the head, and gives its columns.
fn check_types(alloc: Global, head: &Head, code: &Code) -> Result<(), OpenError>
    ensures { MatchResult result (λ u. fits_head code.now head.now ≡ true) (λ e. (e ≡ error.Memory) ⊎ ((e ≡ error.NotImage) × (fits_head code.now head.now ≡ false))) }
{
    let context = head_context(alloc, head)?;
    check_columns(head.columns.as_slice(), code_type(alloc, code, &context))
}

/// The context of a whole code: the types of the parameters.
fn head_context(alloc: Global, head: &Head) -> Result<Context, Memory>
    ensures { IfOk result (λ c. c ≡ head_context head.now) }
{
    let mut params = Items::new(alloc);
    for param in head.params.as_slice() {
        params.push(param.ty)?;
    }
    Ok(Context {
        tables: Items::new(alloc),
        scopes: Items::new(alloc),
        params,
    })
}

/// Whether there are types, and they are those of the columns.
fn check_columns(columns: &[Column], types: Result<Vec<Ty>, TypeError>) -> Result<(), OpenError>
    ensures { ChecksColumns (λ found. found.items) columns.now types result }
{
    match types {
        Ok(types) => {
            if are_of(columns, types.as_slice()) {
                Ok(())
            } else {
                Err(OpenError::NotImage)
            }
        }
        Err(TypeError::Ill) => Err(OpenError::NotImage),
        Err(TypeError::Memory) => Err(OpenError::Memory),
    }
}

/// Whether columns have these types.
fn are_of(columns: &[Column], types: &[Ty]) -> bool
    ensures { result ≡ same_types types.now (types_of columns.now) }
{
    if columns.len() != types.len() {
        return false;
    }
    for at in 0..columns.len() {
        if types[at] != columns[at].ty {
            return false;
        }
    }
    true
}

/// The held data of a code whose data the bytes are.
fn all_data(alloc: Global, code: &Code, bytes: &[u8]) -> Result<Held, OpenError>
    ensures { MatchResult result (λ h. data_read code.now bytes.now ≡ Some (h, [])) (λ e. (e ≡ error.Memory) ⊎ ((e ≡ error.NotImage) × IsNoData code.now bytes.now)) }
{
    let mut input = Input::new(bytes);
    let held = input.data(alloc, code)?;
    let behind = input.rest();
    if behind.is_empty() {
        Ok(held)
    } else {
        Err(OpenError::NotImage)
    }
}
