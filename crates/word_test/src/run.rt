//! What the word `test` does.

ghost use Rattle.std.specs.Prelude.{◌≡◌, ◌≢◌, ◌⊎◌, ◌≤◌, IfOk, MatchResult, None, false, option_map};
ghost use Rattle.std.specs.Prelude.{true};
ghost use Rattle.arguments.specs.Words.{AsksForHelp, Fits, Misfits, texts};
ghost use Rattle.word_test.specs.CommandLine.{Asks, test, words_asked};
ghost use Rattle.word_test.specs.Told.{AreKept, AreTested, HasBegun};
ghost use Rattle.word_test.specs.Views.{test_view};
ghost use Rattle.t65_suites.specs.Replaced.{replaces_any};
ghost use Rattle.t65_suites.specs.Suites.{suites_of};

use crate::coverage::begin_coverage;
use crate::files::{Manner, run_suites};
use crate::report::{Reports, begin_report};
use crate::stop::Stop;
use crate::words::{TestWords, read_words};
use arguments::{
    Refusal, WriteFault, check_output, is_one_output, put_named, refuse, refuse_file,
    refused_words, write_text,
};
use std::alloc::{AllocError, Global};
use std::fs;
use std::io::Write;
use std::os::unix::fs::FileTypeExt;
use std::rt::Files;
use t65_reports::{begin_text, end_text};
use t65_suites::{TestFault, replaced_by, suites_of};

/// Runs the suites of the words, and tells of them on the output. Returns whether all tests pass.
fn run_told<H: Files + AllocGlobal, O: Write>(
    rt: &H,
    words: &TestWords<'_>,
    output: &mut O,
    reports: &mut Reports,
) -> Result<bool, Stop>
    ensures { MatchResult result (AreTested (test_view words.now) (O.contents output.old)
        (O.contents output.new)) (λ _. HasBegun (test_view words.now) (O.contents output.old)
        (O.contents output.new)) }
{
    let suites = suites_of(rt.alloc(), &words.files, &words.sources, words.reading)?;
    let manner = Manner {
        steps: words.steps,
        telling: words.telling,
    };
    write_text(output, begin_text(words.telling).as_bytes())?;
    let (count, all_pass) = run_suites(rt, &suites, manner, output, reports)?;
    let end = end_text(rt.alloc(), words.telling, count)?;
    write_text(output, end.as_bytes())?;
    Ok(all_pass)
}

/// Writes why a file cannot be written, and returns the exit status.
fn refuse_written<E: Write>(fault: WriteFault, file: Option<&str>, errors: &mut E) -> u8
    ensures { result ≡ 4 }
{
    match file {
        Some(file) => refuse_file(Refusal::WriteFile(fault), file, errors),
        None => refuse(Refusal::WriteFile(fault), errors),
    }
}

/// Writes that the report's file is a pipe, and returns the exit status.
fn refuse_pipe<E: Write>(file: Option<&str>, errors: &mut E) -> u8
    ensures { result ≡ 4 }
{
    put_named(
        file.unwrap_or(""),
        &[b": a report is written to a file, not to a pipe\n"],
        errors,
    );
    4
}

/// Writes why no more tests are run, or why a file is not written, and returns the exit status.
fn refuse_stop<E: Write>(stop: Stop, words: &TestWords<'_>, errors: &mut E) -> u8
    ensures low { 3 ≤ result }
    ensures high { result ≤ 4 }
{
    match stop {
        Stop::OutOfMemory => refuse(Refusal::OutOfMemory, errors),
        Stop::Output => refuse(Refusal::Write, errors),
        Stop::Report(fault) => refuse_written(fault, words.junit, errors),
        Stop::Pipe => refuse_pipe(words.junit, errors),
        Stop::Coverage(fault) => refuse_written(fault, words.coverage, errors),
    }
}

/// Writes that a file is not written, if one is asked for, since not all tests were run.
fn tell_unwritten<E: Write>(file: Option<&str>, errors: &mut E) {
    if let Some(file) = file {
        put_named(
            file,
            &[b": not written, since not all tests were run\n"],
            errors,
        );
    }
}

/// Writes which files are not written since no more tests are run, and why these are not, and
/// returns the exit status.
fn refuse_cut<E: Write>(stop: Stop, words: &TestWords<'_>, errors: &mut E) -> u8
    ensures low { 3 ≤ result }
    ensures high { result ≤ 4 }
{
    tell_unwritten(words.junit, errors);
    tell_unwritten(words.coverage, errors);
    refuse_stop(stop, words, errors)
}

/// Returns the path of the first file that is read and that a report would replace, if there are
/// such a file and a report.
///
/// Errors: `OutOfMemory` if an allocation fails.
fn replaced_for<H: Files + AllocGlobal>(
    rt: &H,
    words: &TestWords<'_>,
    report: Option<&str>,
) -> Result<Option<String>, TestFault>
    ensures { IfOk result (λ found. found ≡ None
        → replaces_any (option_map (λ r. r.now) report.entry)
        (suites_of (test_view words.now).reading (test_view words.now).sources
        (test_view words.now).files) ≡ false) }
{
    replaced_by(rt, &words.files, &words.sources, words.reading, report)
}

/// Returns the path of the first file that is read and that the report for JUnit or the file for
/// lcov would replace, if there is one.
///
/// Errors: `OutOfMemory` if an allocation fails.
fn replaced_file<H: Files + AllocGlobal>(
    rt: &H,
    words: &TestWords<'_>,
) -> Result<Option<String>, TestFault>
    ensures { IfOk result (λ found. found ≡ None → AreKept (test_view words.now)) }
{
    match replaced_for(rt, words, words.junit)? {
        Some(path) => Ok(Some(path)),
        None => match replaced_for(rt, words, words.coverage)? {
            Some(path) => Ok(Some(path)),
            None => Ok(None),
        },
    }
}

/// Writes which file the report would replace, and returns the exit status.
fn refuse_replaced<E: Write>(file: &str, errors: &mut E) -> u8
    ensures { result ≡ 4 }
{
    put_named(file, &[b": the report would replace it\n"], errors);
    4
}

/// Returns whether the report for JUnit and the file for lcov are one file.
///
/// Errors: `OutOfMemory` if an allocation fails.
fn are_one_output<H: Files + AllocGlobal>(rt: &H, words: &TestWords<'_>) -> Result<bool, Refusal> {
    match (words.junit, words.coverage) {
        (Some(junit), Some(coverage)) => is_one_output(rt, junit, coverage),
        _ => Ok(false),
    }
}

/// Returns whether a name is that of a pipe, which has no reader maybe.
fn is_pipe<H: Files>(rt: &H, path: &str) -> bool {
    match fs::metadata(rt, path) {
        Ok(file) => file.file_type().is_fifo(),
        Err(_) => false,
    }
}

/// Checks that the report can be written to a file of that name, which stays as it is.
///
/// Errors: `Pipe` if it is a pipe; `Report` if it cannot be written; `OutOfMemory` if an allocation
/// fails.
fn check_report<H: Files + AllocGlobal>(rt: &H, path: &str) -> Result<(), Stop> {
    if is_pipe(rt, path) {
        return Err(Stop::Pipe);
    }
    check_output(rt, path).map_err(Stop::of_report)
}

/// Checks that the files of the words can be written, which stay as they are.
///
/// Errors: those of `check_report`; `Coverage` if the file for lcov cannot be written.
fn check_reports<H: Files + AllocGlobal>(rt: &H, words: &TestWords<'_>) -> Result<(), Stop> {
    if let Some(path) = words.junit {
        check_report(rt, path)?;
    }
    if let Some(path) = words.coverage {
        check_output(rt, path).map_err(Stop::of_coverage)?;
    }
    Ok(())
}

/// Begins what is written in files.
///
/// Errors: `AllocError` if an allocation fails.
fn begin_reports(alloc: Global, words: &TestWords<'_>) -> Result<Reports, AllocError> {
    Ok(Reports {
        junit: begin_report(alloc, words.junit)?,
        coverage: begin_coverage(alloc, words.coverage)?,
    })
}

/// Runs the suites of the words, writes their reports, and returns the exit status.
fn run_reported<H: Files + AllocGlobal, O: Write, E: Write>(
    rt: &H,
    words: &TestWords<'_>,
    output: &mut O,
    errors: &mut E,
) -> u8
    ensures status { result ≤ 4 }
    ensures passed { result ≡ 0
        → AreTested (test_view words.now) (O.contents output.old) (O.contents output.new) true }
    ensures failed { result ≡ 1
        → AreTested (test_view words.now) (O.contents output.old) (O.contents output.new) false }
    ensures never { result ≢ 2 }
    ensures begun { 3 ≤ result
        → HasBegun (test_view words.now) (O.contents output.old) (O.contents output.new) }
    ensures quiet { result ≤ 1 → errors.new ≡ errors.old }
{
    let mut reports = match begin_reports(rt.alloc(), words) {
        Ok(reports) => reports,
        Err(_) => return refuse(Refusal::OutOfMemory, errors),
    };
    match run_told(rt, words, output, &mut reports) {
        Ok(all_pass) => match reports.finish(rt) {
            Ok(()) => { if all_pass { 0 } else { 1 } }
            Err(stop) => refuse_stop(stop, words, errors),
        },
        Err(stop) => refuse_cut(stop, words, errors),
    }
}

/// Runs the suites of the words if what is to be written can be written, in files of which no two
/// are one, and returns the exit status.
fn run_checked<H: Files + AllocGlobal, O: Write, E: Write>(
    rt: &H,
    words: &TestWords<'_>,
    output: &mut O,
    errors: &mut E,
) -> u8
    ensures status { result ≤ 4 }
    ensures passed { result ≡ 0
        → AreTested (test_view words.now) (O.contents output.old) (O.contents output.new) true }
    ensures failed { result ≡ 1
        → AreTested (test_view words.now) (O.contents output.old) (O.contents output.new) false }
    ensures never { result ≢ 2 }
    ensures begun { 3 ≤ result
        → HasBegun (test_view words.now) (O.contents output.old) (O.contents output.new) }
    ensures quiet { result ≤ 1 → errors.new ≡ errors.old }
{
    match are_one_output(rt, words) {
        Ok(false) => match check_reports(rt, words) {
            Ok(()) => run_reported(rt, words, output, errors),
            Err(stop) => refuse_stop(stop, words, errors),
        },
        Ok(true) => refuse_written(WriteFault::SameFile, words.coverage, errors),
        Err(_) => refuse(Refusal::OutOfMemory, errors),
    }
}

/// Runs the suites of the words, unless a report would replace a file that is read, and returns
/// the exit status.
fn run_words<H: Files + AllocGlobal, O: Write, E: Write>(
    rt: &H,
    words: &TestWords<'_>,
    output: &mut O,
    errors: &mut E,
) -> u8
    ensures status { result ≤ 4 }
    ensures passed { result ≡ 0
        → AreTested (test_view words.now) (O.contents output.old) (O.contents output.new) true }
    ensures failed { result ≡ 1
        → AreTested (test_view words.now) (O.contents output.old) (O.contents output.new) false }
    ensures never { result ≢ 2 }
    ensures begun { 3 ≤ result
        → HasBegun (test_view words.now) (O.contents output.old) (O.contents output.new) }
    ensures quiet { result ≤ 1 → errors.new ≡ errors.old }
{
    match replaced_file(rt, words) {
        Ok(None) => run_checked(rt, words, output, errors),
        Ok(Some(file)) => refuse_replaced(&file, errors),
        Err(_) => refuse(Refusal::OutOfMemory, errors),
    }
}

/// Does what the words of `test` ask for, its own name left out, and returns the exit status.
///
/// - 0: all rows of all files pass. 1: a row fails, or a file cannot be tested.
/// - 2: the words are wrong. 3: memory ran out. 4: reading or writing failed.
///
/// TAP, the tests that fail, or CSV goes to `output`, which is flushed after each test. The report
/// for JUnit and the file for lcov, with a record for each suite that was run on a source, are
/// written if they are asked for, when all tests were run: a file that is there stays until a whole
/// one replaces it, and where the run ends before, `errors` says that it is not written. The report
/// goes to no pipe. Neither is a file that is read: where its name is that of a file of the words,
/// or both have one name, the words are wrong, and where it is another name for one, or is the
/// source that a file names, the status is 4. What cannot be read, assembled or loaded is a test
/// that fails, and other files are tested. That `errors` cannot be written changes no status.
pub fn test<H: Files + AllocGlobal, O: Write, E: Write>(
    rt: &H,
    words: &[&str],
    output: &mut O,
    errors: &mut E,
) -> u8
    ensures status { result ≤ 4 }
    // If all files were tested, nothing is written on the error stream.
    ensures quiet { result ≤ 1 → errors.new ≡ errors.old }
    // Words that are wrong leave the output unchanged.
    ensures untouched { result ≡ 2 → output.new ≡ output.old }
    // 0 means that all suites of the words were tested, told of on the output in their order, and
    // that all of their tests pass; or that it is help that is asked for.
    ensures passed { result ≡ 0 → AsksForHelp test (texts words.entry.now)
        ⊎ Asks (texts words.entry.now) (λ asked. AreTested asked (O.contents output.old)
        (O.contents output.new) true) }
    // 1 means the same, but that a test fails: a row, or a suite that cannot be tested.
    ensures failed { result ≡ 1 → Asks (texts words.entry.now)
        (λ asked. AreTested asked (O.contents output.old) (O.contents output.new) false) }
    // 2 means that the words do not fit, or that a value is wrong.
    ensures refused { result ≡ 2 → Misfits test (texts words.entry.now)
        ⊎ (Fits test (texts words.entry.now)
        × (words_asked (texts words.entry.now) ≡ None)) }
    // 3 means that memory ran out: of what is told of the suites a beginning was written, or
    // nothing.
    ensures memory { result ≡ 3 → (output.new ≡ output.old)
        ⊎ Asks (texts words.entry.now)
        (λ asked. HasBegun asked (O.contents output.old) (O.contents output.new)) }
    // 4 means that a stream or a file failed: a beginning of the same was written; or that it is
    // help that is asked for.
    ensures begun { result ≡ 4 → AsksForHelp test (texts words.entry.now)
        ⊎ Asks (texts words.entry.now)
        (λ asked. HasBegun asked (O.contents output.old) (O.contents output.new)) }
{
    match read_words(rt.alloc(), words) {
        Ok(asked) => run_words(rt, &asked, output, errors),
        Err(fault) => refused_words(fault, output, errors),
    }
}
