//! Why there is no whole page.

ghost use Rattle.std.specs.Prelude.{◌≡◌};
ghost use Rattle.word_page.specs.Done.{EndsPage, IsRefused};
ghost use Rattle.word_page.specs.declared.fault.PageFault.TheVariants.{File};

use crate::notes::NotesFault;
use arguments::FileRefusal;
use std::io::Write;

/// Why there is no whole page.
#[derive(Clone, Copy)]
pub enum PageFault<'a> {
    /// A file is not read or written.
    File(FileRefusal<'a>),
    /// A file of notes has a fault.
    Notes { file: &'a str, fault: NotesFault },
}

impl<'a> From<FileRefusal<'a>> for PageFault<'a> {
    ghost from_gives = { λ why fault. fault ≡ File why };

    fn from(why: FileRefusal<'a>) -> PageFault<'a> {
        PageFault::File(why)
    }
}

impl PageFault<'_> {
    /// Writes why there is no whole page, with the name of the file, and returns the exit status,
    /// even if that cannot be written.
    pub fn tell<E: Write>(self, errors: &mut E) -> u8
        requires { EndsPage self }
        ensures { IsRefused (record {
          held = E.contents errors.old;
          now = E.contents errors.new;
        }) result }
    {
        match self {
            PageFault::File(why) => why.tell(errors),
            PageFault::Notes { file, fault } => fault.tell(file, errors),
        }
    }
}
