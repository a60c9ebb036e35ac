//! Why a word ends without an answer, and the file that it is of.

ghost use Rattle.std.specs.Prelude.{◌≡◌};
ghost use Rattle.arguments.specs.FaultLines.{file_line};
ghost use Rattle.arguments.specs.Statuses.{status_of};
ghost use Rattle.model.specs.Writers.{AppendsFront};

use crate::refusal::Refusal;
use crate::refused::refuse_file;
use std::io::Write;

/// Why a word ends without an answer, with the name of a file.
#[derive(Clone, Copy, Debug)]
pub struct FileRefusal<'a> {
    /// The file that cannot be read or written, or that has the fault.
    pub file: &'a str,
    /// Why there is no answer. A map and memory are of no file.
    pub refusal: Refusal,
}

impl<'a> From<FileRefusal<'a>> for Refusal {
    ghost from_gives = { λ why refusal. refusal ≡ why.refusal };

    /// Returns why there is no answer, without the file.
    fn from(why: FileRefusal<'a>) -> Refusal {
        why.refusal
    }
}

impl FileRefusal<'_> {
    /// Writes the fault line with the name of the file, and returns the exit status, even if the
    /// line cannot be written.
    pub fn tell<E: Write>(self, errors: &mut E) -> u8
        ensures status { result ≡ status_of self.entry.refusal }
        ensures told { AppendsFront (E.contents errors.old) (E.contents errors.new)
            (file_line self.entry.file.now self.entry.refusal) }
    {
        refuse_file(self.refusal, self.file, errors)
    }
}
