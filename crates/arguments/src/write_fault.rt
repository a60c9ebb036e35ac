//! Why a file is not written.

ghost use Rattle.std.specs.Prelude.{◌≡◌};
ghost use Rattle.arguments.specs.Refusals.{write_fault_of};
ghost use Rattle.arguments.specs.FaultLines.{write_reason};

use crate::wording::{
    IS_FOLDER, NO_ROOM, NO_SUCH_FOLDER, OTHER_FILE, PERMISSION_DENIED, SAME_FILE, SOURCE_LIKE_TAPE,
};
use std::io::ErrorKind;

/// Why a file is not written.
#[derive(Clone, Copy, Debug, PartialEq, Eq)]
pub enum WriteFault {
    /// The disk is full, or the user's share of it, or the file would be too large.
    NoRoom,
    /// The user may not write the file, or may not make one in its folder.
    PermissionDenied,
    /// The name is that of a folder.
    IsFolder,
    /// The folder of the file is not there.
    NoSuchFolder,
    /// The file is one that is read, or another one that is written.
    SameFile,
    /// The file is there, and what is given as a source looks like a tape.
    LooksLikeTape,
    /// The file is there, and has something else than what would replace it.
    OtherFile,
    /// Another reason, or none that is known.
    Other,
}

/// Returns why a file is not written, by the kind of error that the system tells.
pub fn write_fault_of(kind: ErrorKind) -> WriteFault
    ensures { result ≡ write_fault_of kind }
{
    match kind {
        ErrorKind::StorageFull | ErrorKind::QuotaExceeded | ErrorKind::FileTooLarge => {
            WriteFault::NoRoom
        }
        ErrorKind::PermissionDenied | ErrorKind::ReadOnlyFilesystem => WriteFault::PermissionDenied,
        ErrorKind::IsADirectory => WriteFault::IsFolder,
        ErrorKind::NotFound | ErrorKind::NotADirectory => WriteFault::NoSuchFolder,
        _ => WriteFault::Other,
    }
}

/// Returns the words that say why a file is not written, with a blank before them. There are none
/// where the reason is not known.
pub fn write_reason(fault: WriteFault) -> &'static str
    ensures { result.now ≡ write_reason fault }
{
    match fault {
        WriteFault::NoRoom => NO_ROOM,
        WriteFault::PermissionDenied => PERMISSION_DENIED,
        WriteFault::IsFolder => IS_FOLDER,
        WriteFault::NoSuchFolder => NO_SUCH_FOLDER,
        WriteFault::SameFile => SAME_FILE,
        WriteFault::LooksLikeTape => SOURCE_LIKE_TAPE,
        WriteFault::OtherFile => OTHER_FILE,
        WriteFault::Other => "",
    }
}
