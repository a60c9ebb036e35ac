//! A suite read: its rows, what they are run on, and the places of that.

ghost use Rattle.std.specs.Prelude.{◌≡◌, ◌⊎◌, ◌≤◌, ◌<◌, ◌+◌, [], IfErr, IfOk, Ok, false, length, map};
ghost use Rattle.std.specs.Prelude.{true};
ghost use Rattle.arguments.specs.Asked.{file_view};
ghost use Rattle.arguments.specs.Values.{base_of};
ghost use Rattle.model.specs.State.{is_map};
ghost use Rattle.model.specs.TextLines.{lines_of};
ghost use Rattle.t65_suites.specs.HeadText.{head_from, head_view};
ghost use Rattle.t65_reader.specs.CPrograms.{program_view};
ghost use Rattle.t65_reader.specs.RowText.{asking_view, line_view, points_of, rows_from};
ghost use Rattle.t65_suites.specs.CFunctions.{AreFunctions};
ghost use Rattle.std.specs.Option.{option_map};
ghost use Rattle.t65_suites.specs.Ends.{EndsAnyTest, EndsFile, EndsPlaced, EndsPlaces};
ghost use Rattle.t65_suites.specs.Ends.{EndsRows};
ghost use Rattle.t65_suites.specs.Prepared.{ArePlaces, IsPrepared, map_of, named_places};
ghost use Rattle.t65_suites.specs.Programs.{EndsProgram, IsProgram, file_asked};
ghost use Rattle.t65_suites.specs.Suites.{asking_of, reading_view, suite_view};

use crate::c_functions::c_program_of;
use crate::fault::{FileFault, TestFault, Unplaced, Unprepared, fault_at};
use crate::head::{Head, Opened, read_head};
use crate::names::{path_of, read_rows_text};
use crate::program::program_of;
use crate::suites::{Reading, Suite};
use arguments::{FileForm, FileWords, LoadFault, Refusal};
use assembler::Assembly;
use debug_files::{DebugPlaces, load_places};
use loading::NamedFault;
use memory_map::{MapSpec, Port};
use model::{BusFault, Profile};
use source_map::Places;
use std::alloc::{AllocError, Global};
use std::rt::Files;
use t65_failures::faulty_text;
use t65_reader::{Asking, CProgram, Line, points_of, read_rows};
use t65_reports::RowLines;
use t65_runner::has_test;
use t65_values::RowFaultKind;

/// A file of rows, what they are run on, and what its lines ask for, one of them a test at least.
/// An image is an assembly without a line, with the names of a file or none.
#[derive(Drop)]
pub struct Prepared {
    pub text: Vec<u8>,
    pub map: MapSpec,
    /// As what the rows' program was read.
    pub form: FileForm,
    pub assembly: Assembly,
    pub rows: Vec<Line>,
    pub places: Places,
}

/// Returns the port with a base, or none.
fn port_at(base: Option<u16>) -> Port
    ensures { result ≡ base_of base }
{
    match base {
        Some(base) => Port::based(base),
        None => Port::none(),
    }
}

/// Returns the map that a head asks for.
fn map_of(head: Head<'_>) -> Result<MapSpec, TestFault>
    ensures map { IfOk result (λ map. map ≡ map_of (head_view head.entry)) }
    ensures is_map { IfOk result (λ _. is_map (head_view head.entry).rom
        (base_of (head_view head.entry).port) ≡ true) }
    ensures none { IfErr result (λ fault. (fault ≡ TestFault.Refused (Refusal.Map BusFault.BadMap))
        × (is_map (head_view head.entry).rom (base_of (head_view head.entry).port) ≡ false)) }
{
    arguments::map_of(head.profile, head.rom, port_at(head.port)).map_err(
        |fault| TestFault::Refused(Refusal::Map(fault)),
    )
}

/// Returns how the file of a path is read for a head.
fn words_for<'a>(reading: Reading<'_>, head: Head<'_>, path: &'a str) -> FileWords<'a>
    ensures { file_view result
        ≡ file_asked (reading_view reading.entry) (head_view head.entry) path.now }
{
    FileWords {
        file: path,
        form: reading.form,
        port: port_at(head.port),
        rom: head.rom,
        profile: head.profile,
        omits_fill: false,
    }
}

/// Returns what is loaded of the file of a path on the map of a head.
///
/// Errors: those of `program_of`.
fn loaded<H: Files + AllocGlobal>(
    rt: &H,
    reading: Reading<'_>,
    head: Head<'_>,
    path: &str,
    map: &MapSpec,
) -> Result<Assembly, NamedFault>
    requires map { map.now ≡ map_of (head_view head) }
    requires is_map { is_map (head_view head).rom (base_of (head_view head).port) ≡ true }
    ensures program { IfOk result (IsProgram
        (file_asked (reading_view reading.entry) (head_view head.entry) path.now)
        (reading_view reading.entry).symbols) }
    ensures refused { IfErr result (EndsProgram
        (file_asked (reading_view reading.entry) (head_view head.entry) path.now)
        (reading_view reading.entry).symbols) }
{
    let words = words_for(reading, head, path);
    program_of(rt, &words, reading.symbols, map)
}

/// Returns places with the names of a program besides.
///
/// Errors: `OutOfMemory`.
fn named_places(alloc: Global, places: Places, assembly: &Assembly) -> Result<Places, LoadFault>
    ensures named { IfOk result (λ named. named ≡ named_places places assembly.now) }
    ensures refused { IfErr result (λ fault. fault ≡ LoadFault.Refused Refusal.OutOfMemory) }
{
    let mut named = places;
    match named.add_names(alloc, assembly) {
        Ok(()) => Ok(named),
        Err(_) => Err(LoadFault::Refused(Refusal::OutOfMemory)),
    }
}

/// Returns what stands where in what was loaded of the file of a path: by the debug information
/// that is named, and otherwise by its source.
///
/// Errors: those of `load_places`, and `OutOfMemory`.
#[tactic(auto, using(crate::proofs::Ends::memory_ends))]
fn places_for<H: Files + AllocGlobal>(
    rt: &H,
    reading: Reading<'_>,
    profile: Profile,
    path: &str,
    assembly: &Assembly,
) -> Result<Places, LoadFault>
    ensures places { IfOk result (ArePlaces (reading_view reading.entry).debug profile path.now
        assembly.now) }
    ensures refused { IfErr result (EndsPlaces (reading_view reading.entry).debug) }
{
    match reading.debug {
        None => match Places::of_source(rt.alloc(), path.as_bytes(), assembly) {
            Ok(places) => Ok(places),
            Err(_) => Err(LoadFault::Refused(Refusal::OutOfMemory)),
        },
        Some(file) => match load_places(rt, file, reading.root, profile, assembly.image()) {
            Ok(DebugPlaces { places, sought: _ }) => named_places(rt.alloc(), places, assembly),
            Err(fault) => Err(fault),
        },
    }
}

/// What rows are run on: a program, what stands where in it, and its functions of C.
#[derive(Drop)]
struct TestedProgram {
    assembly: Assembly,
    places: Places,
    program: CProgram,
}

/// Returns the functions of C of what was loaded on the map of a head: none without debug
/// information.
///
/// Errors: `OutOfMemory`.
fn c_program_for(
    alloc: Global,
    debug: Option<&str>,
    head: Head<'_>,
    map: MapSpec,
    assembly: &Assembly,
    places: &Places,
) -> Result<CProgram, LoadFault>
    ensures program { IfOk result (λ program. AreFunctions (option_map (λ d. d.now) debug.entry) map
        assembly.now.image (head_view head.entry).stack places.now (program_view program)) }
    ensures refused { IfErr result (λ fault. fault ≡ LoadFault.Refused Refusal.OutOfMemory) }
{
    let Some(_) = debug else {
        return Ok(CProgram::none(alloc));
    };
    match c_program_of(alloc, map, assembly.image(), head.stack, places) {
        Ok(program) => Ok(program),
        Err(_) => Err(LoadFault::Refused(Refusal::OutOfMemory)),
    }
}

/// Returns what is loaded of the file of a path on the map of a head, its places, and its functions
/// of C.
///
/// Errors: those of `program_of`, of `places_for` and of `c_program_for`.
#[tactic(auto, using(crate::proofs::Ends::memory_ends))]
fn placed<H: Files + AllocGlobal>(
    rt: &H,
    reading: Reading<'_>,
    head: Head<'_>,
    path: &str,
    map: &MapSpec,
) -> Result<TestedProgram, Unplaced>
    requires map { map.now ≡ map_of (head_view head) }
    requires is_map { is_map (head_view head).rom (base_of (head_view head).port) ≡ true }
    ensures program { IfOk result (λ found. IsProgram
        (file_asked (reading_view reading.entry) (head_view head.entry) path.now)
        (reading_view reading.entry).symbols found.assembly) }
    ensures places { IfOk result (λ found. ArePlaces (reading_view reading.entry).debug
        (head_view head.entry).profile path.now found.assembly found.places) }
    ensures functions { IfOk result (λ found. AreFunctions
        (reading_view reading.entry).debug map.now found.assembly.image
        (head_view head.entry).stack found.places (program_view found.program)) }
    ensures refused { IfErr result (EndsPlaced
        (file_asked (reading_view reading.entry) (head_view head.entry) path.now)
        (reading_view reading.entry)) }
{
    let assembly = match loaded(rt, reading, head, path, map) {
        Ok(assembly) => assembly,
        Err(fault) => return Err(Unplaced::Program(fault)),
    };
    match places_for(rt, reading, head.profile, path, &assembly) {
        Ok(places) => match c_program_for(
            rt.alloc(),
            reading.debug,
            head,
            *map,
            &assembly,
            &places,
        ) {
            Ok(program) => Ok(TestedProgram {
                assembly,
                places,
                program,
            }),
            Err(fault) => Err(Unplaced::Debug(fault)),
        },
        Err(fault) => Err(Unplaced::Debug(fault)),
    }
}

/// Returns a file of rows with its head read.
#[tactic(auto, using(crate::proofs::Ends::head_ends))]
fn opened_in(text: &[u8]) -> Result<Opened<'_>, TestFault>
    requires { length text.now ≤ 1048576 }
    ensures head { IfOk result (λ opened. head_from 1 (lines_of text.now)
        ≡ Ok (head_view opened.head, opened.next, lines_of opened.rest.now)) }
    ensures room { IfOk result
        (λ opened. opened.next + length opened.rest.now ≤ 1 + length text.now) }
    ensures refused { IfErr result EndsAnyTest }
{
    read_head(text).map_err(TestFault::Rows)
}

/// Returns what is asked of the rows of a suite that is read so.
fn asking_of<'a>(steps: u32, reading: Reading<'a>) -> Asking<'a>
    ensures { asking_view result ≡ asking_of steps (reading_view reading.entry) }
{
    Asking {
        steps,
        seed: reading.seed,
        only: reading.only.as_bytes(),
    }
}

/// Returns how many points the rows of a suite that is read so are worth together.
fn worth_of(reading: Reading<'_>, text: &[u8]) -> u64
    requires { length text.now < 4294967296 }
    ensures { result ≡ points_of (reading_view reading.entry).only (lines_of text.now) }
{
    points_of(reading.only.as_bytes(), text)
}

/// Returns what the lines of a text ask for under the names of a source and with functions of C, a
/// test at least.
#[tactic(auto, using(crate::proofs::Ends::no_test))]
fn rows_in(
    alloc: Global,
    names: &Assembly,
    program: &CProgram,
    first: u32,
    steps: u32,
    reading: Reading<'_>,
    text: &[u8],
) -> Result<Vec<Line>, TestFault>
    requires { first + length text.now < 4294967296 }
    ensures rows { IfOk result (λ rows. rows_from (asking_of steps (reading_view reading.entry))
        names.now.names (program_view program.now) first (lines_of text.now)
        ≡ Ok (map line_view rows.items)) }
    ensures refused { IfErr result (EndsRows (asking_of steps (reading_view reading.entry))
        names.now.names (program_view program.now) first (lines_of text.now)) }
{
    match read_rows(
        alloc,
        names,
        program,
        first,
        asking_of(steps, reading),
        text,
    ) {
        Ok(rows) => match has_test(alloc, &rows) {
            Ok(true) => Ok(rows),
            Ok(false) => Err(TestFault::NoRow),
            Err(_) => Err(TestFault::Refused(Refusal::OutOfMemory)),
        },
        Err(fault) => match fault.kind {
            RowFaultKind::OutOfMemory => Err(TestFault::Refused(Refusal::OutOfMemory)),
            _ => Err(TestFault::Rows(fault)),
        },
    }
}

/// Returns what is told of a row of a file that cannot be read, with the nearest name of a source,
/// if that is the fault.
///
/// Errors: `AllocError` if an allocation fails.
fn told_row(
    alloc: Global,
    names: &Assembly,
    rows: &str,
    text: &[u8],
    fault: TestFault,
) -> Result<Option<Vec<u8>>, AllocError> {
    match fault {
        TestFault::Rows(fault) => {
            let mut lines = RowLines::new(text, 1);
            let line = lines.walk_to(fault.line);
            let told = faulty_text(alloc, names, rows, line, fault)?;
            Ok(Some(told.into_bytes()))
        }
        TestFault::TooLarge | TestFault::NoRow | TestFault::Refused(_) => Ok(None),
    }
}

/// Returns why the rows of a file are not tested, which are worth so many points, with what is told
/// of a row that cannot be read. If memory runs out, that is why.
fn unread(
    alloc: Global,
    names: &Assembly,
    rows: &str,
    text: &[u8],
    fault: TestFault,
    points: u64,
) -> Unprepared
    ensures fault { (result.fault ≡ FileFault.InRows fault)
        ⊎ (result.fault ≡ FileFault.InRows (TestFault.Refused Refusal.OutOfMemory)) }
    ensures points { result.points ≡ points }
{
    match told_row(alloc, names, rows, text, fault) {
        Ok(told) => Unprepared {
            fault: FileFault::InRows(fault),
            told,
            points,
        },
        Err(_) => Unprepared {
            fault: FileFault::InRows(TestFault::Refused(Refusal::OutOfMemory)),
            told: None,
            points,
        },
    }
}

/// Reads the rows of a suite, and loads what they are run on.
///
/// # Errors
///
/// - `InRows`: the file of rows cannot be read, or has more than 1,048,576 bytes; its head has a
///   fault, or a row that is run before or after each test; its head asks for a map that is none;
///   no line is a test.
/// - `InProgram`: what the rows are run on is not loaded, as `program_of` says.
/// - `InDebug`: the debug information of that is not loaded, as `load_places` says.
///
/// An allocation that fails is `OutOfMemory` in one of them. Where the map is one, what the rows
/// are worth together is told too.
#[tactic(auto, using(crate::proofs::Ends::map_ends, crate::proofs::Ends::passed_on))]
pub fn prepare<H: Files + AllocGlobal>(
    rt: &H,
    suite: Suite<'_>,
    steps: u32,
) -> Result<Prepared, Unprepared>
    ensures prepared { IfOk result (IsPrepared steps (suite_view suite.entry)) }
    ensures refused { IfErr result
        (λ why. EndsFile (suite_view suite.entry).reading why.points why.fault) }
{
    let text = read_rows_text(rt, suite.rows)?;
    let opened = opened_in(&text)?;
    let map = map_of(opened.head)?;
    let path = path_of(rt.alloc(), suite, opened.head.source)?;
    let points = worth_of(suite.reading, opened.rest);
    match placed(rt, suite.reading, opened.head, &path, &map) {
        Ok(
            TestedProgram {
                assembly,
                places,
                program,
            },
        ) => {
            let (reading, next) = (suite.reading, opened.next);
            match rows_in(
                rt.alloc(),
                &assembly,
                &program,
                next,
                steps,
                reading,
                opened.rest,
            ) {
                Ok(rows) => Ok(Prepared {
                    text,
                    map,
                    form: suite.reading.form,
                    assembly,
                    rows,
                    places,
                }),
                Err(fault) => Err(unread(rt.alloc(), &assembly, suite.rows, &text, fault, points)),
            }
        }
        Err(fault) => Err(Unprepared {
            fault: fault_at(path, fault),
            told: None,
            points,
        }),
    }
}
