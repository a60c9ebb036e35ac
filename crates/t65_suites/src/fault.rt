//! Why a file of rows cannot be tested.

ghost use Rattle.std.specs.Prelude.{◌≡◌};
ghost use Rattle.t65_suites.specs.FaultTexts.{is_memory, is_out, is_out_of_rows};
ghost use Rattle.t65_suites.specs.FaultTexts.{fault_at, line_in_rows, line_of};
ghost use Rattle.t65_suites.specs.FaultTexts.{is_out_of_file, is_out_of_program};
ghost use Rattle.t65_suites.specs.declared.fault.FileFault.TheVariants.{InRows};
ghost use Rattle.t65_suites.specs.declared.fault.TestFault.TheVariants.{Refused};

use arguments::{LoadFault, Refusal};
use loading::NamedFault;
use t65_values::TextFault;

/// Why a file of rows cannot be tested.
#[derive(Clone, Copy)]
pub enum TestFault {
    /// The head of the file has a fault, or a row that is run before or after each test.
    Rows(TextFault),
    /// The file has more than 1,048,576 bytes.
    TooLarge,
    /// No line of the file is a test.
    NoRow,
    /// What other words are refused for too: the map, reading, memory.
    Refused(Refusal),
}

impl From<Refusal> for TestFault {
    ghost from_gives = { λ refusal fault. fault ≡ Refused refusal };

    fn from(refusal: Refusal) -> TestFault {
        TestFault::Refused(refusal)
    }
}

/// Where a fault is: in the file of rows, in the file of that path, which its rows are run on, or
/// in the file of debug information.
#[derive(Drop)]
pub enum FileFault {
    InRows(TestFault),
    InProgram(String, NamedFault),
    InDebug(LoadFault),
}

/// Why there is nothing to run rows on: the program is not loaded, or what stands where in it is
/// not found.
#[derive(Drop)]
pub enum Unplaced {
    Program(NamedFault),
    Debug(LoadFault),
}

/// Returns where a fault of what rows are run on is, which has this path.
pub fn fault_at(path: String, fault: Unplaced) -> FileFault
    ensures { result ≡ fault_at path fault }
{
    match fault {
        Unplaced::Program(fault) => FileFault::InProgram(path, fault),
        Unplaced::Debug(fault) => FileFault::InDebug(fault),
    }
}

/// Why a suite cannot be tested, what is told of a row that cannot be read, and how many points its
/// rows are worth together: none where these were not reached.
#[derive(Drop)]
pub struct Unprepared {
    pub fault: FileFault,
    pub told: Option<Vec<u8>>,
    pub points: u64,
}

impl From<TestFault> for Unprepared {
    ghost from_gives = { λ fault why. (why.fault ≡ InRows fault) × (why.points ≡ 0) };

    fn from(fault: TestFault) -> Unprepared {
        Unprepared {
            fault: FileFault::InRows(fault),
            told: None,
            points: 0,
        }
    }
}

fn is_out(refusal: Refusal) -> bool
    ensures { result ≡ is_out refusal }
{
    matches!(refusal, Refusal::OutOfMemory)
}

fn is_out_of_rows(fault: TestFault) -> bool
    ensures { result ≡ is_out_of_rows fault }
{
    match fault {
        TestFault::Refused(refusal) => is_out(refusal),
        TestFault::Rows(_) | TestFault::TooLarge | TestFault::NoRow => false,
    }
}

fn is_out_of_file(fault: &LoadFault) -> bool
    ensures { result ≡ is_out_of_file fault.now }
{
    match fault {
        LoadFault::Refused(refusal) => is_out(*refusal),
        LoadFault::LooksLikeTape
        | LoadFault::LooksLikeHex
        | LoadFault::LooksLikeSRecords
        | LoadFault::LooksLikeRaw
        | LoadFault::LooksLikeCapture
        | LoadFault::NoImage { .. }
        | LoadFault::Faults { .. }
        | LoadFault::AtPort { .. } => false,
    }
}

fn is_out_of_program(fault: &NamedFault) -> bool
    ensures { result ≡ is_out_of_program fault.now }
{
    match fault {
        NamedFault::OfFile(fault) => is_out_of_file(fault),
        NamedFault::OfNames(refusal) => is_out(*refusal),
        NamedFault::HasSource => false,
    }
}

fn line_in_rows(fault: TestFault) -> u32
    ensures { result ≡ line_in_rows fault }
{
    match fault {
        TestFault::Rows(fault) => fault.line,
        TestFault::TooLarge | TestFault::NoRow | TestFault::Refused(_) => 1,
    }
}

/// Returns the line of the file of rows that is to blame: that of the fault, or the first one.
pub fn line_of(fault: &FileFault) -> u32
    ensures { result ≡ line_of fault.now }
{
    match fault {
        FileFault::InRows(fault) => line_in_rows(*fault),
        FileFault::InProgram(_, _) | FileFault::InDebug(_) => 1,
    }
}

/// Returns whether memory ran out: then nothing more is told of the file.
pub fn is_memory(fault: &FileFault) -> bool
    ensures { result ≡ is_memory fault.now }
{
    match fault {
        FileFault::InRows(fault) => is_out_of_rows(*fault),
        FileFault::InProgram(_, fault) => is_out_of_program(fault),
        FileFault::InDebug(fault) => is_out_of_file(fault),
    }
}
