//! Why a program is not found by its debug file.

ghost use Rattle.std.specs.Prelude.{◌≡◌};
ghost use Rattle.debug_images.specs.Faults.{alone, of_file, status_of_image, told_text};
ghost use Rattle.model.specs.Writers.{AppendsFront};

use arguments::{LoadFault, Refusal, put_named, refuse_file};
use std::alloc::{AllocError, AllocFailed};
use std::io::Write;

/// What is said of a debug file whose segments have no bytes in files.
const NO_FILE: &str = ": no segment has bytes in a file";

/// What is said of a file of the linker, behind its name.
const NO_PLACE: &str = " stands at no one address; say it as FILE@HHHH, beside --debug-info";

/// What is said of a file that has fewer bytes than its segments, behind its name.
const SHORT: &str = " has fewer bytes than its segments";

/// What is said of a file whose path is no UTF-8, behind its name.
const NO_TEXT: &str =
    " is no name in UTF-8; rename it, and say it as FILE@HHHH, beside --debug-info";

/// Why a program is not found by its debug file. Names of files are those that are shown.
#[derive(Drop)]
pub enum ImageFault {
    /// The debug file is not read.
    Unread(LoadFault),
    /// The path of this file of the linker is no UTF-8.
    NoText(Vec<u8>),
    /// The segments of this file do not agree on where it stands.
    NoPlace(Vec<u8>),
    /// This file has fewer bytes than its segments.
    Short(Vec<u8>),
    /// No segment has bytes in a file.
    NoFile,
    /// An allocation failed.
    OutOfMemory,
}

impl From<AllocError> for ImageFault {
    ghost use Rattle.debug_images.specs.declared.fault.ImageFault.TheVariants.{OutOfMemory};

    ghost from_gives = { λ _ fault. fault ≡ OutOfMemory };

    fn from(_error: AllocError) -> ImageFault {
        ImageFault::OutOfMemory
    }
}

impl<T: Drop> From<AllocFailed<T>> for ImageFault {
    ghost use Rattle.debug_images.specs.declared.fault.ImageFault.TheVariants.{OutOfMemory};

    ghost from_gives = { λ _ fault. fault ≡ OutOfMemory };

    fn from(_refused: AllocFailed<T>) -> ImageFault {
        ImageFault::OutOfMemory
    }
}

/// Writes what is said of a file of the linker, and returns the exit status 1.
fn tell_of<E: Write>(file: &str, name: &[u8], what: &str, errors: &mut E) -> u8
    ensures status { result ≡ 1 }
    ensures told { AppendsFront (E.contents errors.old) (E.contents errors.new)
        (of_file file.now name.now what.now) }
{
    put_named(file, &[b": ", name, what.as_bytes(), b"\n"], errors);
    1
}

/// Writes what is said of a debug file alone, and returns the exit status 1.
fn tell_alone<E: Write>(file: &str, what: &str, errors: &mut E) -> u8
    ensures status { result ≡ 1 }
    ensures told { AppendsFront (E.contents errors.old) (E.contents errors.new)
        (alone file.now what.now) }
{
    put_named(file, &[what.as_bytes(), b"\n"], errors);
    1
}

impl ImageFault {
    /// Writes why the program of a debug file is not found, or a beginning of that line if a write
    /// fails, and returns the exit status.
    pub fn tell<E: Write>(self, file: &str, errors: &mut E) -> u8
        ensures status { result ≡ status_of_image self }
        ensures told { AppendsFront (E.contents errors.old) (E.contents errors.new)
            (told_text file.now self) }
    {
        match self {
            ImageFault::Unread(fault) => fault.tell(file, errors),
            ImageFault::NoPlace(name) => tell_of(file, name.as_slice(), NO_PLACE, errors),
            ImageFault::Short(name) => tell_of(file, name.as_slice(), SHORT, errors),
            ImageFault::NoText(name) => tell_of(file, name.as_slice(), NO_TEXT, errors),
            ImageFault::NoFile => tell_alone(file, NO_FILE, errors),
            ImageFault::OutOfMemory => refuse_file(Refusal::OutOfMemory, file, errors),
        }
    }
}
