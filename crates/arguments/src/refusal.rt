//! Refusals, and how each part's fault becomes one.
ghost use Rattle.std.specs.Prelude.{◌≡◌};
ghost use Rattle.std.specs.IoError.{error_kind};
ghost use Rattle.arguments.specs.Refusals.{of_session, of_source, of_tape_read, read_fault_of};
ghost use Rattle.arguments.specs.Refusals.{write_fault_of};
ghost use Rattle.arguments.specs.declared.refusal.Refusal.TheVariants.{Map};

use crate::write_fault::{WriteFault, write_fault_of};
use model::{AsmFault, AsmFaultKind, BusFault, SessionFault, TapeFault, TapeFaultKind};
use papertape::TapeReadFault;
use std::io;
use std::io::ErrorKind;

/// Why a file or the standard input cannot be read, or not as what it is given as.
#[derive(Clone, Copy, Debug, PartialEq, Eq)]
pub enum ReadFault {
    /// There is no file of that name.
    NoSuchFile,
    /// The user may not read the file.
    PermissionDenied,
    /// The name is that of a folder.
    Folder,
    /// It is read as a file of names, and no line of it is a name in a form that is known.
    NoName,
    /// Another reason, or none that is known.
    Other,
}

/// Returns why a file cannot be read, by the kind of error that the system tells.
fn read_fault(kind: ErrorKind) -> ReadFault
    ensures { result ≡ read_fault_of kind }
{
    match kind {
        ErrorKind::NotFound => ReadFault::NoSuchFile,
        ErrorKind::PermissionDenied => ReadFault::PermissionDenied,
        ErrorKind::IsADirectory => ReadFault::Folder,
        _ => ReadFault::Other,
    }
}

/// Why a word ends without having done what it was asked for.
///
/// Each but `OutOfMemory`, `Read`, `Write` and `WriteFile` is found before anything is written.
#[derive(Clone, Copy, Debug, PartialEq, Eq)]
pub enum Refusal {
    /// The word does not take one of the words after it.
    Words,
    /// The port and the ROM do not make a map.
    Map(BusFault),
    /// The source has a fault.
    Source(AsmFault),
    /// The tape has a fault.
    Tape(TapeFault),
    /// The image has bytes at the port's addresses. Only a tape can have them.
    Session(SessionFault),
    /// Memory ran out.
    OutOfMemory,
    /// A file or the standard input cannot be read.
    Read(ReadFault),
    /// The standard output cannot be written.
    Write,
    /// A file cannot be written.
    WriteFile(WriteFault),
}

impl Refusal {
    ghost use Rattle.arguments.specs.Statuses.{status_of};

    /// Returns the exit status.
    ///
    /// It is 1 for a source or tape, 2 for the words or the map, 3 for memory, 4 for reading and
    /// writing.
    pub fn status(&self) -> u8
        ensures { result ≡ status_of self.now }
    {
        match self {
            Refusal::Source(_) | Refusal::Tape(_) | Refusal::Session(_) => 1,
            Refusal::Words | Refusal::Map(_) => 2,
            Refusal::OutOfMemory => 3,
            Refusal::Read(_) | Refusal::Write | Refusal::WriteFile(_) => 4,
        }
    }

    /// Returns why a file could not be read.
    pub fn unreadable(error: &io::Error) -> Refusal
        ensures memory { error_kind error.now ≡ ErrorKind.OutOfMemory
            → result ≡ Refusal.OutOfMemory }
        ensures other { ¬ (error_kind error.now ≡ ErrorKind.OutOfMemory)
            → result ≡ Refusal.Read (read_fault_of (error_kind error.now)) }
    {
        match error.kind() {
            ErrorKind::OutOfMemory => Refusal::OutOfMemory,
            kind => Refusal::Read(read_fault(kind)),
        }
    }

    /// Returns why a standard stream could not be written.
    pub fn unwritable(error: &io::Error) -> Refusal
        ensures memory { error_kind error.now ≡ ErrorKind.OutOfMemory
            → result ≡ Refusal.OutOfMemory }
        ensures other { ¬ (error_kind error.now ≡ ErrorKind.OutOfMemory) → result ≡ Refusal.Write }
    {
        match error.kind() {
            ErrorKind::OutOfMemory => Refusal::OutOfMemory,
            _ => Refusal::Write,
        }
    }

    /// Returns why a file could not be written, by the kind of error that the system tells.
    pub fn unwritable_by(kind: ErrorKind) -> Refusal
        ensures memory { kind ≡ ErrorKind.OutOfMemory → result ≡ Refusal.OutOfMemory }
        ensures other { ¬ (kind ≡ ErrorKind.OutOfMemory)
            → result ≡ Refusal.WriteFile (write_fault_of kind) }
    {
        match kind {
            ErrorKind::OutOfMemory => Refusal::OutOfMemory,
            kind => Refusal::WriteFile(write_fault_of(kind)),
        }
    }

    /// Returns why a file could not be written.
    pub fn unwritable_file(error: &io::Error) -> Refusal
        ensures memory { error_kind error.now ≡ ErrorKind.OutOfMemory
            → result ≡ Refusal.OutOfMemory }
        ensures other { ¬ (error_kind error.now ≡ ErrorKind.OutOfMemory)
            → result ≡ Refusal.WriteFile (write_fault_of (error_kind error.now)) }
    {
        Refusal::unwritable_by(error.kind())
    }
}

impl From<BusFault> for Refusal {
    ghost from_gives = { λ fault refusal. refusal ≡ Map fault };

    fn from(fault: BusFault) -> Refusal {
        Refusal::Map(fault)
    }
}

impl From<AsmFault> for Refusal {
    ghost from_gives = { λ fault refusal. refusal ≡ of_source fault };

    fn from(fault: AsmFault) -> Refusal {
        match fault.kind {
            AsmFaultKind::OutOfMemory => Refusal::OutOfMemory,
            _ => Refusal::Source(fault),
        }
    }
}

impl From<TapeReadFault> for Refusal {
    ghost from_gives = { λ fault refusal. refusal ≡ of_tape_read fault };

    fn from(fault: TapeReadFault) -> Refusal {
        match fault {
            TapeReadFault::Read => Refusal::Read(ReadFault::Other),
            TapeReadFault::Tape(fault) => match fault.kind {
                TapeFaultKind::OutOfMemory => Refusal::OutOfMemory,
                _ => Refusal::Tape(fault),
            },
        }
    }
}

impl From<SessionFault> for Refusal {
    ghost from_gives = { λ fault refusal. refusal ≡ of_session fault };

    fn from(fault: SessionFault) -> Refusal {
        match fault {
            SessionFault::OutOfMemory => Refusal::OutOfMemory,
            fault => Refusal::Session(fault),
        }
    }
}
