//! Files that are read, and that a report would replace.

ghost use Rattle.std.specs.List.{list_any};
ghost use Rattle.std.specs.Prelude.{◌≡◌, ◌||◌, None, Some, IfOk, IfSome, false, map, option_map};
ghost use Rattle.std.specs.Prelude.{string_bytes};
ghost use Rattle.std.specs.Str.{bytes_eq};
ghost use Rattle.arguments.specs.Outputs.{is_named};
ghost use Rattle.t65_suites.specs.Replaced.{IsNamedIn, IsReadFor, IsReadForOne, IsSourceOf};
ghost use Rattle.t65_suites.specs.Replaced.{IsReadOrTold, IsToldBy, is_read, replaces_any};
ghost use Rattle.t65_suites.specs.Suites.{reading_view, suite_view, suites_of};

use crate::fault::TestFault;
use crate::head::read_head;
use crate::names::{copied, path_of, read_rows_text};
use crate::suites::{Reading, Suite, suites_of};
use arguments::{Refusal, is_one_output};
use debug_files::replaced_source as source_told;
use std::rt::Files;

/// Returns the path of the file that a suite's rows are run on.
///
/// Errors: why the head of the file of rows cannot be read; `OutOfMemory` if an allocation fails.
fn path_in<H: Files + AllocGlobal>(rt: &H, suite: Suite<'_>) -> Result<String, TestFault>
    ensures { IfOk result (λ path. IsSourceOf (suite_view suite.entry) (string_bytes path)) }
{
    let text = read_rows_text(rt, suite.rows)?;
    match read_head(&text) {
        Ok(opened) => {
            let path = path_of(rt.alloc(), suite, opened.head.source)?;
            Ok(path)
        }
        Err(fault) => Err(TestFault::Rows(fault)),
    }
}

/// Returns the path of the file that a suite's rows are run on, or `None` where the head of the
/// file of rows cannot be read.
///
/// Errors: `OutOfMemory` if an allocation fails.
fn source_of<H: Files + AllocGlobal>(rt: &H, suite: Suite<'_>) -> Result<Option<String>, TestFault>
    ensures { IfOk result (λ found. IfSome found
        (λ path. IsSourceOf (suite_view suite.entry) (string_bytes path))) }
{
    match path_in(rt, suite) {
        Ok(path) => Ok(Some(path)),
        Err(TestFault::Refused(Refusal::OutOfMemory)) => {
            Err(TestFault::Refused(Refusal::OutOfMemory))
        }
        Err(_) => Ok(None),
    }
}

/// Returns the path of a file, if a report would replace it.
///
/// Errors: `OutOfMemory` if an allocation fails.
fn replaced_file<H: Files + AllocGlobal>(
    rt: &H,
    file: &str,
    report: &str,
) -> Result<Option<String>, TestFault>
    ensures spared { IfOk result
        (λ found. found ≡ None → bytes_eq file.now report.now ≡ false) }
    ensures found { IfOk result (λ found. IfSome found (λ path. string_bytes path ≡ file.now)) }
{
    if is_one_output(rt, file, report)? {
        let path = copied(rt.alloc(), file)?;
        Ok(Some(path))
    } else {
        Ok(None)
    }
}

/// Returns the path of the file that a file of rows names, if a report would replace it.
///
/// Errors: `OutOfMemory` if an allocation fails.
fn replaced_own<H: Files + AllocGlobal>(
    rt: &H,
    suite: Suite<'_>,
    report: &str,
) -> Result<Option<String>, TestFault>
    ensures { IfOk result (λ found. IfSome found
        (λ path. IsSourceOf (suite_view suite.entry) (string_bytes path))) }
{
    match source_of(rt, suite)? {
        Some(path) => {
            if is_one_output(rt, &path, report)? {
                Ok(Some(path))
            } else {
                Ok(None)
            }
        }
        None => Ok(None),
    }
}

/// Returns the path of the file that a suite's rows are run on, if a report would replace it.
///
/// Errors: `OutOfMemory` if an allocation fails.
fn replaced_source<H: Files + AllocGlobal>(
    rt: &H,
    suite: Suite<'_>,
    report: &str,
) -> Result<Option<String>, TestFault>
    ensures spared { IfOk result (λ found. found ≡ None
        → is_named report.now (option_map (λ s. s.now) suite.entry.source) ≡ false) }
    ensures found { IfOk result (λ found. IfSome found
        (λ path. IsSourceOf (suite_view suite.entry) (string_bytes path))) }
{
    match suite.source {
        Some(source) => match replaced_file(rt, source, report)? {
            Some(path) => Ok(Some(path)),
            None => Ok(None),
        },
        None => replaced_own(rt, suite, report),
    }
}

/// Returns the path of a file that the words name, if there is one and a report would replace it.
///
/// Errors: `OutOfMemory` if an allocation fails.
fn replaced_named<H: Files + AllocGlobal>(
    rt: &H,
    file: Option<&str>,
    report: &str,
) -> Result<Option<String>, TestFault>
    ensures spared { IfOk result (λ found. found ≡ None
        → is_named report.now (option_map (λ f. f.now) file.entry) ≡ false) }
    ensures found { IfOk result (λ found. IfSome found
        (λ path. option_map (λ f. f.now) file.entry ≡ Some (string_bytes path))) }
{
    match file {
        Some(file) => match replaced_file(rt, file, report)? {
            Some(path) => Ok(Some(path)),
            None => Ok(None),
        },
        None => Ok(None),
    }
}

/// Returns the path of the file of a suite's names, or of its debug information, if a report would
/// replace it.
///
/// Errors: `OutOfMemory` if an allocation fails.
fn replaced_names<H: Files + AllocGlobal>(
    rt: &H,
    suite: Suite<'_>,
    report: &str,
) -> Result<Option<String>, TestFault>
    ensures spared { IfOk result (λ found. found ≡ None
        → (is_named report.now (suite_view suite.entry).reading.symbols
        || is_named report.now (suite_view suite.entry).reading.debug) ≡ false) }
    ensures found { IfOk result (λ found. IfSome found
        (λ path. IsNamedIn (suite_view suite.entry) (string_bytes path))) }
{
    match replaced_named(rt, suite.reading.symbols, report)? {
        Some(path) => Ok(Some(path)),
        None => match replaced_named(rt, suite.reading.debug, report)? {
            Some(path) => Ok(Some(path)),
            None => Ok(None),
        },
    }
}

/// Returns which of the files that a suite's rows are run on a report would replace, if it would
/// one: the program, or a file that tells of it.
///
/// Errors: `OutOfMemory` if an allocation fails.
fn replaced_program<H: Files + AllocGlobal>(
    rt: &H,
    suite: Suite<'_>,
    report: &str,
) -> Result<Option<String>, TestFault>
    ensures spared { IfOk result (λ found. found ≡ None
        → (is_named report.now (suite_view suite.entry).source
        || (is_named report.now (suite_view suite.entry).reading.symbols
        || is_named report.now (suite_view suite.entry).reading.debug)) ≡ false) }
    ensures found { IfOk result (λ found. IfSome found
        (λ path. IsReadForOne (suite_view suite.entry) (string_bytes path))) }
{
    match replaced_source(rt, suite, report)? {
        Some(path) => Ok(Some(path)),
        None => match replaced_names(rt, suite, report)? {
            Some(path) => Ok(Some(path)),
            None => Ok(None),
        },
    }
}

/// Returns which file of a suite the report would replace, if it would one.
///
/// Errors: `OutOfMemory` if an allocation fails.
fn replaced_in<H: Files + AllocGlobal>(
    rt: &H,
    suite: Suite<'_>,
    report: &str,
) -> Result<Option<String>, TestFault>
    ensures spared { IfOk result
        (λ found. found ≡ None → is_read report.now (suite_view suite.entry) ≡ false) }
    ensures found { IfOk result (λ found. IfSome found
        (λ path. IsReadForOne (suite_view suite.entry) (string_bytes path))) }
{
    match replaced_file(rt, suite.rows, report)? {
        Some(path) => Ok(Some(path)),
        None => match replaced_program(rt, suite, report)? {
            Some(path) => Ok(Some(path)),
            None => Ok(None),
        },
    }
}

/// Returns the path of the first file that is read for some suites and that a report would replace,
/// if there is one.
///
/// Errors: `OutOfMemory` if an allocation fails.
fn first_replaced<H: Files + AllocGlobal>(
    rt: &H,
    suites: &[Suite<'_>],
    report: &str,
) -> Result<Option<String>, TestFault>
    ensures spared { IfOk result (λ found. found ≡ None
        → list_any (is_read report.now) (map suite_view suites.now) ≡ false) }
    ensures found { IfOk result (λ found. IfSome found
        (λ path. IsReadFor (map suite_view suites.now) (string_bytes path))) }
{
    for index in 0..suites.len() {
        match replaced_in(rt, suites[index], report)? {
            Some(path) => return Ok(Some(path)),
            None => {}
        }
    }
    Ok(None)
}

/// Returns the path of a source that the debug information names, if there is some and a report
/// would replace the source.
///
/// Errors: `OutOfMemory` if an allocation fails.
fn replaced_told<H: Files + AllocGlobal>(
    rt: &H,
    reading: Reading<'_>,
    report: &str,
) -> Result<Option<String>, TestFault>
    ensures { IfOk result (λ found. IfSome found
        (λ path. IsToldBy (reading_view reading.entry) (string_bytes path))) }
{
    let Some(file) = reading.debug else {
        return Ok(None);
    };
    match source_told(rt, file, reading.root, report)? {
        Some(path) => match String::from_utf8(path) {
            Ok(path) => Ok(Some(path)),
            Err(_) => Ok(None),
        },
        None => Ok(None),
    }
}

/// Returns the path of the first file that is read for some suites, or of a source that the debug
/// information names, if a report would replace it.
///
/// Errors: `OutOfMemory` if an allocation fails.
fn replaced_any<H: Files + AllocGlobal>(
    rt: &H,
    suites: &[Suite<'_>],
    reading: Reading<'_>,
    report: &str,
) -> Result<Option<String>, TestFault>
    ensures spared { IfOk result (λ found. found ≡ None
        → list_any (is_read report.now) (map suite_view suites.now) ≡ false) }
    ensures found { IfOk result (λ found. IfSome found
        (λ path. IsReadOrTold (reading_view reading.entry) (map suite_view suites.now)
        (string_bytes path))) }
{
    match first_replaced(rt, suites, report)? {
        Some(path) => Ok(Some(path)),
        None => match replaced_told(rt, reading, report)? {
            Some(path) => Ok(Some(path)),
            None => Ok(None),
        },
    }
}

/// Returns the path of the first file that is read for the suites of some files of rows and
/// sources, or that their debug information names as a source, and that a report would replace, if
/// there are such a file and a report.
///
/// Errors: `OutOfMemory` if an allocation fails.
pub fn replaced_by<H: Files + AllocGlobal>(
    rt: &H,
    files: &[&str],
    sources: &[&str],
    reading: Reading<'_>,
    report: Option<&str>,
) -> Result<Option<String>, TestFault>
    // No file that is read by a name of the words has the report's name.
    ensures spared { IfOk result (λ found. found ≡ None
        → replaces_any (option_map (λ r. r.now) report.entry)
        (suites_of (reading_view reading.entry) (map (λ s. s.now) sources.now)
        (map (λ f. f.now) files.now)) ≡ false) }
    // The path is that of a file of rows, of what it is run on, of one that tells of that, or of a
    // source that this names.
    ensures found { IfOk result (λ found. IfSome found (λ path. IsReadOrTold
        (reading_view reading.entry) (suites_of (reading_view reading.entry)
        (map (λ s. s.now) sources.now) (map (λ f. f.now) files.now)) (string_bytes path))) }
{
    let Some(report) = report else {
        return Ok(None);
    };
    match suites_of(rt.alloc(), files, sources, reading) {
        Ok(suites) => replaced_any(rt, &suites, reading, report),
        Err(_) => Err(TestFault::Refused(Refusal::OutOfMemory)),
    }
}
