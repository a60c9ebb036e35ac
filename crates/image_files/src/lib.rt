//! A file read as an image, in the form that is said of it or that its first record tells.
//!
//! `image_of_bytes` has the theorem: what is read is the image that the bytes denote, and each of
//! the refusals is their first fault (`specs/Bytes.antt`). `image_of_file` reads a file so, and an
//! `ImageRefusal` says why it is no image. `refuse_image` refuses a text that is given as a source,
//! and begins with a record of an image. `with_image_options` adds the options that say the form.
//! `form` tells it by the first record. `free_base` finds where a port would meet no bytes of it.
//! `fill_at` finds fill there, and `without_port` leaves it out. `write_form` writes an image in a
//! form, and `union_of` joins two.
#![tactic(auto)]

mod bytes;
mod ends;
mod file;
mod fill;
mod form;
mod looks;
mod options;
mod ports;
mod refusal;
mod union;
mod wording;
mod written;

pub use bytes::{form_by, image_of_bytes};
pub use ends::ends_of;
pub use file::{image_bytes, image_of_file};
pub use fill::{cell_at, fill_at, without_port};
pub use form::{OtherText, at_record};
pub use looks::{looks_like_capture, looks_raw, refuse_image};
pub use options::{fill_asked, form_said, forms_said, said_of, with_image_options};
pub use ports::free_base;
pub use refusal::{ImageFileRefusal, ImageRefusal, NoImage, record_note};
pub use union::{first_clash, union_of};
pub use written::write_form;
