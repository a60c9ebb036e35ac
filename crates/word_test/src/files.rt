//! Suites, run and told of one after another.

ghost use Rattle.std.specs.Prelude.{◌≡◌, ◌⊎◌, ◌++◌, ◌&&◌, ℕ, List, IfErr, IfOk, MatchResult, false, map};
ghost use Rattle.std.specs.Prelude.{option_map, string_bytes};
ghost use Rattle.std.specs.Io.KnownBytes.{Appends};
ghost use Rattle.model.specs.TextLines.{lines_of};
ghost use Rattle.model.specs.Writers.{AppendsFront, Writes};
ghost use Rattle.arguments.specs.Shown.{shown_name};
ghost use Rattle.t65_reports.specs.Csv.{csv_line};
ghost use Rattle.t65_reports.specs.Reports.{junit_fault, summary_text};
ghost use Rattle.t65_reports.specs.Telling.{fault_text};
ghost use Rattle.t65_suites.specs.FaultTexts.{line_of};
ghost use Rattle.t65_suites.specs.Suites.{name_of, suite_view};
ghost use Rattle.word_test.specs.Tested.{fresh_tally, rows_text, source_text, sum_text};
ghost use Rattle.word_test.specs.Tested.{tally_after};
ghost use Rattle.t65_suites.specs.Prepared.{ground_in};
ghost use Rattle.word_test.specs.Tested.{tally_rows};
ghost use Rattle.t65_suites.specs.Prepared.{tests_in};
ghost use Rattle.word_test.specs.Told.{AreBegun, AreRun, IsBegun, IsFaultText, IsRun};

use crate::report::Reports;
use crate::rows::{Told, run_rows, write_told};
use crate::stop::Stop;
use crate::tally::{Tally, fresh_tally, tally_after};
use arguments::{shown_name, write_text};
use std::alloc::{AllocError, Global};
use std::io::Write;
use std::rt::Files;
use t65_reports::{Score, Telling, csv_line, fault_text, junit_fault, summary};
use t65_runner::tests_of;
use t65_suites::{Prepared, Suite, Unprepared, is_memory, line_of, prepare, remarks_of, title_of};

/// How rows are run and told of.
#[derive(Clone, Copy)]
pub struct Manner {
    /// The most steps of a call.
    pub steps: u32,
    /// What is written of tests.
    pub telling: Telling,
}

/// Writes the line that sums up a suite.
fn write_summary<O: Write>(
    alloc: Global,
    name: &str,
    score: Score,
    output: &mut O,
) -> Result<(), Stop>
    ensures { Writes (O.contents output.old) (O.contents output.new) (summary_text name.now score)
        result }
{
    let line = summary(alloc, name, score)?;
    write_text(output, line.as_bytes())?;
    Ok(())
}

/// Returns the source that the words name, as it is shown; no byte where they name none.
fn source_text(alloc: Global, source: Option<&str>) -> Result<String, AllocError>
    ensures { IfOk result (λ text. string_bytes text
        ≡ source_text (option_map (λ s. s.now) source.entry)) }
{
    match source {
        None => Ok(String::new(alloc)),
        Some(source) => shown_name(alloc, source),
    }
}

/// Returns the line of CSV of a suite.
fn csv_of(alloc: Global, suite: Suite<'_>, score: Score) -> Result<Vec<u8>, AllocError>
    ensures { IfOk result (λ line. line.items
        ≡ csv_line (source_text (suite_view suite.entry).source)
        (shown_name (suite_view suite.entry).rows) score) }
{
    let source = source_text(alloc, suite.source)?;
    let rows = shown_name(alloc, suite.rows)?;
    csv_line(alloc, &source, &rows, score)
}

/// Writes the line of CSV of a suite.
fn write_csv<O: Write>(
    alloc: Global,
    suite: Suite<'_>,
    score: Score,
    output: &mut O,
) -> Result<(), Stop>
    ensures { Writes (O.contents output.old) (O.contents output.new)
        (csv_line (source_text (suite_view suite.entry).source)
        (shown_name (suite_view suite.entry).rows) score) result }
{
    let line = csv_of(alloc, suite, score)?;
    write_text(output, &line)?;
    Ok(())
}

/// Writes what the tests of a suite have come to, where that is told.
fn write_sum<O: Write>(
    alloc: Global,
    telling: Telling,
    suite: Suite<'_>,
    score: Score,
    output: &mut O,
) -> Result<(), Stop>
    ensures { Writes (O.contents output.old) (O.contents output.new)
        (sum_text telling (suite_view suite.entry) score) result }
{
    match telling {
        Telling::Tap => Ok(()),
        Telling::Summed => write_summary(alloc, suite.name(), score, output),
        Telling::Quiet => write_summary(alloc, suite.name(), score, output),
        Telling::Csv => write_csv(alloc, suite, score, output),
    }
}

/// Runs the tests of a suite that was prepared, after so many tests, and sums them up.
fn run_tested<H: Files + AllocGlobal, O: Write>(
    rt: &H,
    prepared: &Prepared,
    suite: Suite<'_>,
    telling: Telling,
    count: u64,
    output: &mut O,
    reports: &mut Reports,
) -> Result<Tally, Stop>
    ensures tally { IfOk result (λ tally. tally ≡ tally_rows (ground_in prepared.now)
        (fresh_tally count) (tests_in prepared.now)) }
    ensures written { IfOk result (λ tally. Appends (O.contents output.old) (O.contents output.new)
        (rows_text telling (ground_in prepared.now) (suite_view suite.entry) count 1
        (lines_of prepared.now.text.items) (tests_in prepared.now)
        ++ sum_text telling (suite_view suite.entry) tally.score)) }
    ensures begun { IfErr result (λ _. AppendsFront (O.contents output.old) (O.contents output.new)
        (rows_text telling (ground_in prepared.now) (suite_view suite.entry) count 1
        (lines_of prepared.now.text.items) (tests_in prepared.now)
        ++ sum_text telling (suite_view suite.entry)
        (tally_rows (ground_in prepared.now) (fresh_tally count) (tests_in prepared.now)).score)) }
{
    let tests = tests_of(rt.alloc(), &prepared.rows)?;
    reports
        .junit
        .begin_suite(rt.alloc(), suite.name(), tests.len())?;
    reports.coverage.begin_suite(rt.alloc())?;
    let first = fresh_tally(count);
    let tally = run_rows(
        rt.alloc(),
        prepared,
        &tests,
        suite,
        telling,
        first,
        output,
        reports,
    )?;
    reports.coverage.end_suite(rt.alloc(), prepared)?;
    reports.junit.end_suite(rt.alloc())?;
    write_sum(rt.alloc(), telling, suite, tally.score, output)?;
    Ok(tally)
}

/// Returns what is told of a suite that cannot be tested, by the number of that test among all.
fn untested(
    alloc: Global,
    telling: Telling,
    number: u64,
    suite: Suite<'_>,
    why: &Unprepared,
) -> Result<Told, AllocError>
    ensures texts { IfOk result (λ told. (title : List ℕ) × (remarks : List ℕ)
        × (string_bytes told.tap
        ≡ fault_text telling number (name_of (suite_view suite.entry)) title remarks)
        × IsFaultText why.now.fault title remarks
        × (string_bytes told.junit
        ≡ junit_fault (name_of (suite_view suite.entry)) (suite_view suite.entry).rows
        (line_of why.now.fault) title remarks)) }
    ensures fails { IfOk result (λ told. told.passes ≡ false) }
{
    let title = title_of(alloc, suite, &why.fault)?;
    let remarks = remarks_of(alloc, suite, why)?;
    let line = line_of(&why.fault);
    Ok(Told {
        tap: fault_text(alloc, telling, number, suite.name(), &title, &remarks)?,
        junit: junit_fault(alloc, suite.name(), suite.rows, line, &title, &remarks)?,
        passes: false,
    })
}

/// Returns what a suite that cannot be tested comes to, after so many tests: one that fails, and is
/// worth the points of all rows.
fn untested_tally(points: u64, count: u64) -> Tally
    ensures { result ≡ tally_after false points (fresh_tally count) }
{
    tally_after(false, points, fresh_tally(count))
}

/// Tells of a suite that cannot be tested, after so many tests: as a test that fails.
fn run_untested<H: Files + AllocGlobal, O: Write>(
    rt: &H,
    suite: Suite<'_>,
    telling: Telling,
    count: u64,
    why: &Unprepared,
    output: &mut O,
    reports: &mut Reports,
) -> Result<Tally, Stop>
    ensures tally { IfOk result
        (λ tally. tally ≡ tally_after false why.now.points (fresh_tally count)) }
    ensures written { IfOk result (λ tally. (title : List ℕ) × (remarks : List ℕ)
        × Appends (O.contents output.old) (O.contents output.new)
        (fault_text telling tally.count (name_of (suite_view suite.entry)) title remarks
        ++ sum_text telling (suite_view suite.entry) tally.score)
        × IsFaultText why.now.fault title remarks) }
    // Where memory ran out before there was a text, nothing was written.
    ensures begun { IfErr result (λ _. (output.new ≡ output.old)
        ⊎ ((title : List ℕ) × (remarks : List ℕ)
        × AppendsFront (O.contents output.old) (O.contents output.new)
        (fault_text telling (tally_after false why.now.points (fresh_tally count)).count
        (name_of (suite_view suite.entry)) title remarks
        ++ sum_text telling (suite_view suite.entry)
        (tally_after false why.now.points (fresh_tally count)).score)
        × IsFaultText why.now.fault title remarks)) }
{
    let tally = untested_tally(why.points, count);
    let told = untested(rt.alloc(), telling, tally.count, suite, why)?;
    reports.junit.begin_suite(rt.alloc(), suite.name(), 1)?;
    write_told(&told, output, reports)?;
    reports.junit.end_suite(rt.alloc())?;
    write_sum(rt.alloc(), telling, suite, tally.score, output)?;
    Ok(tally)
}

/// Runs a suite after so many tests. Its texts are written, and the output is flushed, test by
/// test.
fn run_suite<H: Files + AllocGlobal, O: Write>(
    rt: &H,
    suite: Suite<'_>,
    manner: Manner,
    count: u64,
    output: &mut O,
    reports: &mut Reports,
) -> Result<Tally, Stop>
    ensures { MatchResult result (IsRun manner (suite_view suite.entry) count
        (O.contents output.old) (O.contents output.new))
        (λ _. IsBegun manner (suite_view suite.entry) count (O.contents output.old)
        (O.contents output.new)) }
{
    let telling = manner.telling;
    match prepare(rt, suite, manner.steps) {
        Ok(prepared) => run_tested(rt, &prepared, suite, telling, count, output, reports),
        Err(why) => {
            if is_memory(&why.fault) {
                return Err(Stop::OutOfMemory);
            }
            run_untested(rt, suite, telling, count, &why, output, reports)
        }
    }
}

/// Runs suites, each on its program, and tells of their tests as they end. Returns how many tests
/// there are, and whether all pass.
///
/// # Errors
///
/// `OutOfMemory` if an allocation fails, `Output` if the output cannot be written: it has then a
/// beginning of what is told of the suites. What cannot be read, assembled or
/// loaded is a test that fails, and the other suites are run.
pub fn run_suites<H: Files + AllocGlobal, O: Write>(
    rt: &H,
    suites: &[Suite<'_>],
    manner: Manner,
    output: &mut O,
    reports: &mut Reports,
) -> Result<(u64, bool), Stop>
    ensures { MatchResult result (λ end. AreRun manner (map suite_view suites.now)
        (O.contents output.old) (O.contents output.new) end.0 end.1)
        (λ _. AreBegun manner (map suite_view suites.now) (O.contents output.old)
        (O.contents output.new)) }
{
    let mut count = 0u64;
    let mut all_pass = true;
    for index in 0..suites.len() {
        match run_suite(rt, suites[index], manner, count, output, reports) {
            Ok(tally) => {
                count = tally.count;
                all_pass = both(all_pass, tally.all_pass);
            }
            Err(stop) => return Err(stop),
        }
    }
    Ok((count, all_pass))
}

/// Returns whether both hold.
fn both(first: bool, second: bool) -> bool
    ensures { result ≡ (first && second) }
{
    if first { second } else { false }
}
