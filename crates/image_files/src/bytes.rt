//! Bytes read as an image.

ghost use Rattle.std.specs.Prelude.{◌≡◌, ◌⊎◌, ℕ, List, Option, Ok, Err, IfErr, IfOk};
ghost use Rattle.image_files.specs.Bytes.{IsImage, IsNoImage, as_refusal, form_by};
ghost use Rattle.image_files.specs.declared.refusal.ImageRefusal.{ImageRefusal};
ghost use Rattle.image_files.specs.declared.refusal.ImageRefusal.TheVariants.{Refused};

use crate::form::{OtherText, form_alone, form_of};
use crate::refusal::{ImageRefusal, NoImage, of_fault};
use arguments::Refusal;
use image_reader::{Form, ImageFault, read_image};
use memory_map::Image;
use std::alloc::Global;

/// Returns the form of some bytes: that of their first record where none is said, and otherwise the
/// one that is said.
///
/// Errors: what the bytes look like, where no form is said and they begin with no record, or where
/// one without records is said and they begin with a record.
pub fn form_by(said: Option<Form>, bytes: &[u8]) -> Result<Form, OtherText>
    ensures { result ≡ form_by said bytes.now }
{
    match said {
        None => form_of(bytes),
        Some(Form::Tape) => Ok(Form::Tape),
        Some(Form::Text(form)) => Ok(Form::Text(form)),
        Some(Form::Raw(address)) => form_alone(Form::Raw(address), bytes),
        Some(Form::Prg) => form_alone(Form::Prg, bytes),
    }
}

/// Returns what reading an image gives as what a file gives.
fn as_refusal(read: Result<Image, ImageFault>) -> Result<Image, ImageRefusal>
    ensures { result ≡ as_refusal read }
{
    match read {
        Ok(image) => Ok(image),
        Err(fault) => Err(of_fault(fault)),
    }
}

/// Reads bytes in a form, which is theirs.
fn image_in(
    alloc: Global,
    said: Option<Form>,
    form: Form,
    bytes: &[u8],
) -> Result<Image, ImageRefusal>
    requires { form_by said bytes.now ≡ Ok form }
    ensures found { IfOk result (IsImage said bytes.now) }
    ensures only { (cells : List (Option ℕ)) → IsImage said bytes.now cells
        → (result ≡ Ok cells) ⊎ (result ≡ Err (Refused Refusal.OutOfMemory)) }
    ensures fault { IfErr result
        (λ why. (why ≡ Refused Refusal.OutOfMemory) ⊎ IsNoImage said bytes.now why) }
    ensures refused { (why : ImageRefusal) → IsNoImage said bytes.now why
        → (result ≡ Err why) ⊎ (result ≡ Err (Refused Refusal.OutOfMemory)) }
{
    as_refusal(read_image(alloc, form, bytes))
}

/// Refuses bytes that tell no form.
fn no_form(said: Option<Form>, bytes: &[u8], like: OtherText) -> Result<Image, ImageRefusal>
    requires { form_by said bytes.now ≡ Err like }
    ensures found { IfOk result (IsImage said bytes.now) }
    ensures only { (cells : List (Option ℕ)) → IsImage said bytes.now cells
        → (result ≡ Ok cells) ⊎ (result ≡ Err (Refused Refusal.OutOfMemory)) }
    ensures fault { IfErr result
        (λ why. (why ≡ Refused Refusal.OutOfMemory) ⊎ IsNoImage said bytes.now why) }
    ensures refused { (why : ImageRefusal) → IsNoImage said bytes.now why
        → (result ≡ Err why) ⊎ (result ≡ Err (Refused Refusal.OutOfMemory)) }
{
    Err(ImageRefusal::NoImage(NoImage::Looks(like)))
}

/// Reads bytes as an image: in the form that is said, or in that of their first record.
///
/// # Errors
///
/// - `NoImage`: the first fault of the bytes in their form; or what they look like, where no form
///   is said and they begin with no record, or one without records is said and they begin with one.
/// - `Refused`: with `Tape` and the first fault of a tape; with `OutOfMemory` if an allocation
///   fails.
pub fn image_of_bytes(
    alloc: Global,
    said: Option<Form>,
    bytes: &[u8],
) -> Result<Image, ImageRefusal>
    // What is read is what the bytes denote.
    ensures found { IfOk result (IsImage said bytes.now) }
    // What denotes an image is read, unless memory runs out.
    ensures only { (cells : List (Option ℕ)) → IsImage said bytes.now cells
        → (result ≡ Ok cells) ⊎ (result ≡ Err (Refused Refusal.OutOfMemory)) }
    // Each error says why the bytes denote none, or that memory ran out.
    ensures fault { IfErr result
        (λ why. (why ≡ Refused Refusal.OutOfMemory) ⊎ IsNoImage said bytes.now why) }
    // What denotes none is refused for that, unless memory runs out.
    ensures refused { (why : ImageRefusal) → IsNoImage said bytes.now why
        → (result ≡ Err why) ⊎ (result ≡ Err (Refused Refusal.OutOfMemory)) }
{
    match form_by(said, bytes) {
        Ok(form) => image_in(alloc, said, form, bytes),
        Err(like) => no_form(said, bytes, like),
    }
}
