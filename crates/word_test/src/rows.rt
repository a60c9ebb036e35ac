//! The rows of a suite, run and told of one after another.

ghost use Rattle.std.specs.Prelude.{◌≡◌, ◌+◌, IfOk, OnOk, Some, false, is_none, map};
ghost use Rattle.std.specs.Prelude.{string_bytes};
ghost use Rattle.std.specs.Option.{option_map};
ghost use Rattle.model.specs.TextLines.{lines_of};
ghost use Rattle.model.specs.Writers.{Writes};
ghost use Rattle.t65_reader.specs.RowText.{is_hidden, line_points, line_view, numbered_view};
ghost use Rattle.t65_failures.specs.Failures.{detail_text};
ghost use Rattle.t65_failures.specs.Faulty.{faulty_text};
ghost use Rattle.t65_reports.specs.Junit.{with_test};
ghost use Rattle.t65_reports.specs.Reports.{junit_case};
ghost use Rattle.t65_reports.specs.Telling.{case_text};
ghost use Rattle.t65_runner.specs.Start.{fresh};
ghost use Rattle.word_test.specs.Covered.{told_in};
ghost use Rattle.word_test.specs.Tested.{IsAround, failure_of, hidden_line, hidden_why, passes};
ghost use Rattle.word_test.specs.Tested.{rows_reported, rows_text, run_of, told_case};
ghost use Rattle.word_test.specs.Tested.{told_junit};
ghost use Rattle.t65_suites.specs.Prepared.{ground_in};
ghost use Rattle.t65_suites.specs.Suites.{suite_view};
ghost use Rattle.word_test.specs.Tested.{tally_rows, why, why_row};
ghost use Rattle.t65_runner.specs.Parts.{lines_seen};
ghost use Rattle.t65_runner.specs.Passes.{rows_seen};

use crate::coverage::Coverage;
use crate::report::Reports;
use crate::stop::Stop;
use crate::tally::{Tally, tally_after};
use arguments::write_text;
use debugger::Session;
use std::alloc::{AllocError, Global};
use std::io::Write;
use t65_failures::{Bench, detail_of, faulty_text};
use t65_reader::{Faulty, Line, Ranges, Row, is_hidden};
use t65_reports::{Case, RowLines, Telling, case_text, junit_case};
use t65_runner::{Around, HISTORY, Values, first_failed};
use t65_suites::{Prepared, Suite};

/// The texts of a test that has ended, and whether it passes.
#[derive(Drop)]
pub struct Told {
    /// What the output gets.
    pub tap: String,
    pub junit: String,
    pub passes: bool,
}

/// Returns why a test fails for these values of its ranges, where some rows are run for it.
fn detail_in(
    alloc: Global,
    prepared: &Prepared,
    ranges: Ranges,
    rows: &[&(u32, Row)],
    values: Values,
) -> Result<String, AllocError>
    ensures { IfOk result (λ text. string_bytes text
        ≡ detail_text prepared.now.map prepared.now.assembly.image prepared.now.places
        ranges (rows_seen rows.now) values) }
{
    let bench = Bench {
        map: prepared.map,
        image: prepared.assembly.image(),
        places: &prepared.places,
    };
    detail_of(alloc, bench, ranges, rows, values)
}

/// Returns the text that is told of a hidden row, which is worth so many points.
#[tactic(auto, unfolding(crate::specs::Tested::hidden_line))]
fn hidden_line(alloc: Global, points: u32) -> Result<String, AllocError>
    ensures { IfOk result (λ text. string_bytes text ≡ hidden_line points) }
{
    let mut text = String::new(alloc);
    write!(text, "hidden points={points}")?;
    Ok(text)
}

/// Returns why a hidden row fails, if it does: no byte.
fn hidden_why(detail: Option<&str>) -> Option<&'static str>
    ensures { option_map (λ why. why.now) result
        ≡ hidden_why (option_map (λ why. why.now) detail.entry) }
{
    match detail {
        None => None,
        Some(_) => Some(""),
    }
}

/// Returns the texts of a row by its number among all tests, which passes or not; its text is told,
/// and the reason that is given, if one is.
fn plain_texts(
    alloc: Global,
    telling: Telling,
    number: u64,
    case: Case<'_>,
    has_passed: bool,
    detail: Option<&str>,
) -> Result<Told, AllocError>
    ensures tap { IfOk result (λ told. string_bytes told.tap
        ≡ case_text telling number case.entry.file.now case.entry.line case.entry.text.now
        (option_map (λ why. why.now) detail.entry)) }
    ensures junit { IfOk result (λ told. string_bytes told.junit
        ≡ junit_case case.entry.file.now case.entry.rows.now case.entry.line case.entry.text.now
        (option_map (λ why. why.now) detail.entry)) }
    ensures passes { IfOk result (λ told. told.passes ≡ has_passed) }
{
    Ok(Told {
        tap: case_text(alloc, telling, number, case, detail)?,
        junit: junit_case(alloc, case, detail)?,
        passes: has_passed,
    })
}

/// Returns the texts of a hidden row by its number among all tests, which fails for the reason that
/// is given, if one is.
fn hidden_texts(
    alloc: Global,
    telling: Telling,
    number: u64,
    case: Case<'_>,
    points: u32,
    detail: Option<&str>,
) -> Result<Told, AllocError>
    ensures tap { IfOk result (λ told. string_bytes told.tap
        ≡ case_text telling number case.entry.file.now case.entry.line (hidden_line points)
        (hidden_why (option_map (λ why. why.now) detail.entry))) }
    ensures junit { IfOk result (λ told. string_bytes told.junit
        ≡ junit_case case.entry.file.now case.entry.rows.now case.entry.line (hidden_line points)
        (hidden_why (option_map (λ why. why.now) detail.entry))) }
    ensures passes { IfOk result (λ told. told.passes ≡ is_none detail.entry) }
{
    let line = hidden_line(alloc, points)?;
    let shown = Case {
        file: case.file,
        rows: case.rows,
        line: case.line,
        text: line.as_bytes(),
    };
    let has_passed = detail.is_none();
    plain_texts(
        alloc,
        telling,
        number,
        shown,
        has_passed,
        hidden_why(detail),
    )
}

/// Returns the texts of a row by its number among all tests, which is worth so many points, and
/// fails for the reason that is given, if one is. Of a hidden row neither is told.
fn texts_of(
    alloc: Global,
    telling: Telling,
    number: u64,
    case: Case<'_>,
    points: u32,
    detail: Option<&str>,
) -> Result<Told, AllocError>
    ensures tap { IfOk result (λ told. string_bytes told.tap
        ≡ told_case telling number case.entry.file.now case.entry.line points case.entry.text.now
        (option_map (λ why. why.now) detail.entry)) }
    ensures junit { IfOk result (λ told. string_bytes told.junit
        ≡ told_junit case.entry.file.now case.entry.rows.now case.entry.line points
        case.entry.text.now (option_map (λ why. why.now) detail.entry)) }
    ensures passes { IfOk result (λ told. told.passes ≡ is_none detail.entry) }
{
    if is_hidden(case.text) {
        hidden_texts(alloc, telling, number, case, points, detail)
    } else {
        plain_texts(alloc, telling, number, case, detail.is_none(), detail)
    }
}

/// Returns what is run for a test of a suite, one row after another.
fn run_for<'a>(
    alloc: Global,
    prepared: &Prepared,
    around: &Around<'a>,
    row: &'a (u32, Row),
) -> Result<Vec<&'a (u32, Row)>, AllocError>
    requires { IsAround prepared.now around.now }
    ensures { IfOk result (λ run. rows_seen run.items
        ≡ run_of (ground_in prepared.now) (numbered_view row.now)) }
{
    let run = around.run_of(alloc, row)?;
    Ok(run)
}

/// Runs a test from the start of the machine, goes back there, and returns the row's texts.
fn run_row(
    alloc: Global,
    session: &mut Session,
    prepared: &Prepared,
    around: &Around<'_>,
    telling: Telling,
    number: u64,
    case: Case<'_>,
    row: &(u32, Row),
    coverage: &mut Coverage,
) -> Result<Told, AllocError>
    requires start { session.old ≡ fresh prepared.now.map prepared.now.assembly.image }
    requires around { IsAround prepared.now around.now }
    ensures back { OnOk result
        (session.new ≡ fresh prepared.now.map prepared.now.assembly.image) }
    ensures tap { IfOk result (λ told. string_bytes told.tap
        ≡ told_case telling number case.entry.file.now case.entry.line row.now.1.points
        case.entry.text.now (why_row (ground_in prepared.now) (numbered_view row.now))) }
    ensures junit { IfOk result (λ told. string_bytes told.junit
        ≡ told_junit case.entry.file.now case.entry.rows.now case.entry.line row.now.1.points
        case.entry.text.now (why_row (ground_in prepared.now) (numbered_view row.now))) }
    ensures passes { IfOk result (λ told. told.passes
        ≡ is_none (failure_of (ground_in prepared.now) (numbered_view row.now))) }
{
    let rows = run_for(alloc, prepared, around, row)?;
    let image = prepared.assembly.image();
    let failed = first_failed(alloc, session, prepared.map, image, &row.1, &rows)?;
    coverage.count(alloc, session, prepared, &row.1, &rows, failed)?;
    match failed {
        None => texts_of(alloc, telling, number, case, row.1.points, None),
        Some(values) => {
            let detail = detail_in(alloc, prepared, row.1.ranges, &rows, values)?;
            let points = row.1.points;
            texts_of(alloc, telling, number, case, points, Some(detail.as_str()))
        }
    }
}

/// Returns the texts of a row of a suite that cannot be read.
fn faulty_row(
    alloc: Global,
    prepared: &Prepared,
    suite: Suite<'_>,
    telling: Telling,
    number: u64,
    case: Case<'_>,
    row: Faulty,
) -> Result<Told, AllocError>
    ensures tap { IfOk result (λ told. string_bytes told.tap
        ≡ told_case telling number case.entry.file.now case.entry.line row.points
        case.entry.text.now
        (Some (faulty_text prepared.now.assembly.names (suite_view suite.entry).rows
        case.entry.text.now row.fault))) }
    ensures junit { IfOk result (λ told. string_bytes told.junit
        ≡ told_junit case.entry.file.now case.entry.rows.now case.entry.line row.points
        case.entry.text.now
        (Some (faulty_text prepared.now.assembly.names (suite_view suite.entry).rows
        case.entry.text.now row.fault))) }
    ensures passes { IfOk result (λ told. told.passes ≡ false) }
{
    let names = &prepared.assembly;
    let detail = faulty_text(alloc, names, suite.rows, case.text, row.fault)?;
    texts_of(
        alloc,
        telling,
        number,
        case,
        row.points,
        Some(detail.as_str()),
    )
}

/// Runs a test of a suite from the start of the machine, if it can be read, goes back there, and
/// returns the test's texts.
fn run_test(
    alloc: Global,
    session: &mut Session,
    prepared: &Prepared,
    around: &Around<'_>,
    suite: Suite<'_>,
    telling: Telling,
    number: u64,
    case: Case<'_>,
    test: &Line,
    coverage: &mut Coverage,
) -> Result<Told, AllocError>
    requires start { session.old ≡ fresh prepared.now.map prepared.now.assembly.image }
    requires around { IsAround prepared.now around.now }
    ensures back { OnOk result
        (session.new ≡ fresh prepared.now.map prepared.now.assembly.image) }
    ensures tap { IfOk result (λ told. string_bytes told.tap
        ≡ told_case telling number case.entry.file.now case.entry.line
        (line_points (line_view test.now)) case.entry.text.now
        (why (ground_in prepared.now) (suite_view suite.entry).rows case.entry.text.now
        (line_view test.now))) }
    ensures junit { IfOk result (λ told. string_bytes told.junit
        ≡ told_junit case.entry.file.now case.entry.rows.now case.entry.line
        (line_points (line_view test.now)) case.entry.text.now
        (why (ground_in prepared.now) (suite_view suite.entry).rows case.entry.text.now
        (line_view test.now))) }
    ensures passes { IfOk result (λ told. told.passes
        ≡ passes (ground_in prepared.now) (line_view test.now)) }
{
    match test {
        Line::Row(row) => {
            run_row(
                alloc, session, prepared, around, telling, number, case, row, coverage,
            )
        }
        Line::Faulty(row) => { faulty_row(alloc, prepared, suite, telling, number, case, *row) }
    }
}

/// Writes the texts of a test: into the report, and then on the output, which is flushed.
///
/// Where memory runs out, or the output cannot be written, the output has a beginning of the text
/// that it gets.
pub fn write_told<O: Write>(told: &Told, output: &mut O, reports: &mut Reports) -> Result<(), Stop>
    ensures written { Writes (O.contents output.old) (O.contents output.new)
        (string_bytes told.now.tap) result }
    ensures report { OnOk result (told_in reports.new.junit ≡ option_map
        (with_test told.now.passes (string_bytes told.now.junit)) (told_in reports.old.junit)) }
{
    reports.junit.push_test(told.junit.as_str(), told.passes)?;
    write_text(output, told.tap.as_bytes())?;
    Ok(())
}

/// Runs tests of a suite, each from the start of the machine. The texts of a test are written, and
/// the output is flushed, before the next one runs.
fn run_each<O: Write>(
    alloc: Global,
    session: &mut Session,
    prepared: &Prepared,
    around: &Around<'_>,
    tests: &[&Line],
    suite: Suite<'_>,
    telling: Telling,
    tally: Tally,
    output: &mut O,
    reports: &mut Reports,
) -> Result<Tally, Stop>
    requires start { session.old ≡ fresh prepared.now.map prepared.now.assembly.image }
    requires around { IsAround prepared.now around.now }
    ensures written { Writes (O.contents output.old) (O.contents output.new)
        (rows_text telling (ground_in prepared.now) (suite_view suite.entry) tally.count 1
        (lines_of prepared.now.text.items) (lines_seen tests.now)) result }
    ensures report { OnOk result (told_in reports.new.junit ≡ option_map
        (rows_reported (ground_in prepared.now) (suite_view suite.entry) 1
        (lines_of prepared.now.text.items) (lines_seen tests.now)) (told_in reports.old.junit)) }
    ensures tally { IfOk result (λ all. all
        ≡ tally_rows (ground_in prepared.now) tally (lines_seen tests.now)) }
{
    let mut lines = RowLines::new(&prepared.text, 1);
    let mut so_far = tally;
    for index in 0..tests.len() {
        let test = tests[index];
        let line = test.number();
        let text = lines.walk_to(line);
        let case = Case {
            file: suite.name(),
            rows: suite.rows,
            line,
            text,
        };
        let number = so_far.count.saturating_add(1);
        let coverage = &mut reports.coverage;
        let told = run_test(
            alloc, session, prepared, around, suite, telling, number, case, test, coverage,
        )?;
        write_told(&told, output, reports)?;
        so_far = tally_after(told.passes, test.points() as u64, so_far);
    }
    Ok(so_far)
}

/// Runs the tests of a suite, each from the start of its machine. The texts of a test are written,
/// and the output is flushed, before the next one runs.
///
/// # Errors
///
/// `OutOfMemory` if an allocation fails, `Output` if the output cannot be written: it has then a
/// beginning of the texts of all tests.
pub fn run_rows<O: Write>(
    alloc: Global,
    prepared: &Prepared,
    tests: &[&Line],
    suite: Suite<'_>,
    telling: Telling,
    tally: Tally,
    output: &mut O,
    reports: &mut Reports,
) -> Result<Tally, Stop>
    ensures written { Writes (O.contents output.old) (O.contents output.new)
        (rows_text telling (ground_in prepared.now) (suite_view suite.entry) tally.count 1
        (lines_of prepared.now.text.items) (lines_seen tests.now)) result }
    ensures report { OnOk result (told_in reports.new.junit ≡ option_map
        (rows_reported (ground_in prepared.now) (suite_view suite.entry) 1
        (lines_of prepared.now.text.items) (lines_seen tests.now)) (told_in reports.old.junit)) }
    ensures tally { IfOk result (λ all. all ≡ tally_rows (ground_in prepared.now) tally
        (lines_seen tests.now)) }
{
    let around = Around::new(alloc, &prepared.rows)?;
    match Session::new(alloc, prepared.map, prepared.assembly.image(), HISTORY) {
        Ok(mut session) => {
            run_each(
                alloc,
                &mut session,
                prepared,
                &around,
                tests,
                suite,
                telling,
                tally,
                output,
                reports,
            )
        }
        Err(_) => Err(Stop::OutOfMemory),
    }
}
