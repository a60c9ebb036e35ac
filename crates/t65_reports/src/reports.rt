//! TAP and JUnit: a test's text is made when it has ended.

ghost use Rattle.std.specs.Prelude.{◌≡◌, ◌==◌, ◌++◌};
ghost use Rattle.std.specs.Prelude.{not, chars, flat_map, string_bytes, IfOk, OnOk};
ghost use Rattle.std.specs.List.{prefix_len};
ghost use Rattle.std.specs.Option.{option_map};
ghost use Rattle.t65_reports.specs.Reports.{before_comment, begins_comment, behind, case_end};
ghost use Rattle.t65_reports.specs.Reports.{case_fails, case_front};
ghost use Rattle.t65_reports.specs.Reports.{fault_front, first_line, junit_case};
ghost use Rattle.t65_reports.specs.Reports.{junit_fault, line_text, numbers_text, place_text};
ghost use Rattle.t65_reports.specs.Reports.{plan_text, row_of, score_text};
ghost use Rattle.t65_reports.specs.Reports.{suite_head, summary_text, tap_case, tap_character};
ghost use Rattle.t65_reports.specs.Reports.{tap_comment, tap_detail, tap_fault, tap_name, tap_row};
ghost use Rattle.t65_reports.specs.Reports.{tap_text, tap_title, value_character, xml};
ghost use Rattle.t65_reports.specs.Reports.{xml_character, xml_value};

use crate::wording::{
    AT_LINE, CASE, CASE_END, CASE_FAILS, CASE_PASSES, FAILS, FAILURES, FAULT_NAME, IN_FILE, LINE,
    PASSES, QUOTE, SUITE, TAG_END, TESTS,
};
use std::alloc::{AllocError, Global};
use t65_values::{characters_of, push_visible};

/// A row that was run, as it is told of.
#[derive(Clone, Copy)]
pub struct Case<'a> {
    /// The name of the suite.
    pub file: &'a str,
    /// The name of the file of rows.
    pub rows: &'a str,
    /// The number of the row's line.
    pub line: u32,
    /// The row's line.
    pub text: &'a [u8],
}

/// What the tests of a file have come to.
#[derive(Clone, Copy)]
pub struct Score {
    /// How many pass.
    pub passed: u64,
    /// How many fail.
    pub failed: u64,
    /// The points of those that pass.
    pub earned: u64,
    /// The points of all.
    pub worth: u64,
}

/// Where a byte of a row stands.
#[derive(Clone, Copy)]
pub enum Quoted {
    /// In no string.
    Outside,
    /// In a string.
    Inside,
    /// In a string, behind a `\`.
    Escaped,
}

/// Returns whether a comment begins with a byte of a row that stands there.
fn begins_comment(byte: u8, quoted: Quoted) -> bool
    ensures { result ≡ begins_comment byte quoted }
{
    match quoted {
        Quoted::Outside => byte == b';',
        Quoted::Inside => false,
        Quoted::Escaped => false,
    }
}

/// Returns where the byte stands behind a byte of a row that stands there.
fn behind(byte: u8, quoted: Quoted) -> Quoted
    ensures { result ≡ behind byte quoted }
{
    match quoted {
        Quoted::Outside => {
            if byte == b'"' {
                Quoted::Inside
            } else {
                Quoted::Outside
            }
        }
        Quoted::Inside => {
            if byte == b'"' {
                Quoted::Outside
            } else if byte == b'\\' {
                Quoted::Escaped
            } else {
                Quoted::Inside
            }
        }
        Quoted::Escaped => Quoted::Inside,
    }
}

/// Returns a row's text without its comment.
fn without_comment(line: &[u8]) -> &[u8]
    ensures { result.now ≡ before_comment Quoted.Outside line.now }
{
    let mut quoted = Quoted::Outside;
    for at in 0..line.len() {
        let byte = line[at];
        if begins_comment(byte, quoted) {
            return &line[..at];
        }
        quoted = behind(byte, quoted);
    }
    line
}

/// Returns a row's text without the blanks in front of it, its comment, and the blanks before that.
fn row_of(line: &[u8]) -> &[u8]
    ensures { result.now ≡ row_of line.now }
{
    without_comment(line).trim_ascii()
}

/// Appends a character of a row's text for TAP.
fn push_tap_character(text: &mut String, character: char) -> Result<(), AllocError>
    ensures { OnOk result
        (string_bytes text.new ≡ string_bytes text.old ++ tap_character character) }
{
    if character == '#' || character == '\\' {
        text.push('\\')?;
    }
    push_visible(text, character)
}

/// Appends the characters of a name for TAP.
fn push_tap_characters(text: &mut String, name: &str) -> Result<(), AllocError>
    ensures { OnOk result (string_bytes text.new
        ≡ string_bytes text.old ++ flat_map tap_character (chars name.now)) }
{
    for character in name.chars() {
        push_tap_character(text, character)?;
    }
    Ok(())
}

/// Appends a name for TAP, where `#` and `\` have `\` before them.
fn push_tap_name(text: &mut String, name: &[u8]) -> Result<(), AllocError>
    ensures { OnOk result (string_bytes text.new ≡ string_bytes text.old ++ tap_name name.now) }
{
    let characters = characters_of(text, name)?;
    push_tap_characters(text, &characters)
}

/// Appends a row's text without its comment for TAP.
fn push_description(text: &mut String, line: &[u8]) -> Result<(), AllocError>
    ensures { OnOk result (string_bytes text.new ≡ string_bytes text.old ++ tap_text line.now) }
{
    push_tap_name(text, row_of(line))
}

/// Appends a character as XML has it in values.
fn push_value_character(text: &mut String, character: char) -> Result<(), AllocError>
    ensures { OnOk result
        (string_bytes text.new ≡ string_bytes text.old ++ value_character character) }
{
    match character {
        '&' => text.push_str("&amp;"),
        '<' => text.push_str("&lt;"),
        '>' => text.push_str("&gt;"),
        '"' => text.push_str("&quot;"),
        other => push_visible(text, other),
    }
}

/// Appends characters as XML has them in values.
fn push_value_characters(text: &mut String, value: &str) -> Result<(), AllocError>
    ensures { OnOk result (string_bytes text.new
        ≡ string_bytes text.old ++ flat_map value_character (chars value.now)) }
{
    for character in value.chars() {
        push_value_character(text, character)?;
    }
    Ok(())
}

/// Appends bytes as XML has them in values.
fn push_value(text: &mut String, bytes: &[u8]) -> Result<(), AllocError>
    ensures { OnOk result (string_bytes text.new ≡ string_bytes text.old ++ xml_value bytes.now) }
{
    let characters = characters_of(text, bytes)?;
    push_value_characters(text, &characters)
}

/// Appends a name as XML has it in values.
fn push_name(text: &mut String, name: &str) -> Result<(), AllocError>
    ensures { OnOk result (string_bytes text.new ≡ string_bytes text.old ++ xml_value name.now) }
{
    push_value(text, name.as_bytes())
}

/// Appends a character as XML has it between tags.
fn push_xml_character(text: &mut String, character: char) -> Result<(), AllocError>
    ensures { OnOk result
        (string_bytes text.new ≡ string_bytes text.old ++ xml_character character) }
{
    if character == '\n' {
        text.push('\n')
    } else {
        push_value_character(text, character)
    }
}

/// Appends characters as XML has them between tags.
fn push_xml_characters(text: &mut String, between: &str) -> Result<(), AllocError>
    ensures { OnOk result (string_bytes text.new
        ≡ string_bytes text.old ++ flat_map xml_character (chars between.now)) }
{
    for character in between.chars() {
        push_xml_character(text, character)?;
    }
    Ok(())
}

/// Appends bytes as XML has them between tags.
fn push_xml(text: &mut String, bytes: &[u8]) -> Result<(), AllocError>
    ensures { OnOk result (string_bytes text.new ≡ string_bytes text.old ++ xml bytes.now) }
{
    let characters = characters_of(text, bytes)?;
    push_xml_characters(text, &characters)
}

/// Appends a text as XML has it between tags.
fn push_xml_text(text: &mut String, other: &str) -> Result<(), AllocError>
    ensures { OnOk result (string_bytes text.new ≡ string_bytes text.old ++ xml other.now) }
{
    push_xml(text, other.as_bytes())
}

/// Returns how many bytes the first line has, without its end.
fn line_len(bytes: &[u8]) -> usize
    ensures { result ≡ prefix_len (λ b. not (b == 10)) bytes.now }
{
    bytes.iter().take_while(|byte| **byte != b'\n').count()
}

/// Returns the first line of a text, without its end.
#[tactic(auto, using(crate::proofs::RowText::prefixes))]
fn first_line(text: &[u8]) -> &[u8]
    ensures { result.now ≡ first_line text.now }
{
    &text[..line_len(text)]
}

/// Appends how many tests a suite has, and how many of them fail.
fn push_numbers(text: &mut String, tests: usize, failed: usize) -> Result<(), AllocError>
    ensures { OnOk result (string_bytes text.new
        ≡ string_bytes text.old ++ numbers_text tests failed) }
{
    write!(text, "{}{tests}{}{failed}{}", TESTS, FAILURES, QUOTE)
}

/// Appends the number of a row's line.
fn push_line(text: &mut String, line: u32) -> Result<(), AllocError>
    ensures { OnOk result (string_bytes text.new ≡ string_bytes text.old ++ line_text line) }
{
    write!(text, "{}{line}: ", LINE)
}

/// Appends the head of a suite of so many tests, of which so many fail so far.
///
/// Errors: `AllocError` if an allocation fails.
#[tactic(auto, unfolding(crate::specs::Reports::suite_head))]
pub fn push_suite_head(
    junit: &mut String,
    file: &str,
    tests: usize,
    failed: usize,
) -> Result<(), AllocError>
    ensures { OnOk result (string_bytes junit.new
        ≡ string_bytes junit.old ++ suite_head file.now tests failed) }
{
    junit.push_str(SUITE)?;
    push_name(junit, file)?;
    push_numbers(junit, tests, failed)?;
    junit.push_str(">\n")
}

/// Appends a row's text without its comment as XML has it in values.
fn push_xml_row(text: &mut String, line: &[u8]) -> Result<(), AllocError>
    ensures { OnOk result
        (string_bytes text.new ≡ string_bytes text.old ++ xml_value (row_of line.now)) }
{
    push_value(text, row_of(line))
}

/// Appends the row of TAP that tells of a row, by its number among all rows, whether it passes.
#[tactic(auto, unfolding(crate::specs::Reports::tap_row))]
fn push_tap_row(
    tap: &mut String,
    count: u64,
    case: Case<'_>,
    failed: bool,
) -> Result<(), AllocError>
    ensures { OnOk result (string_bytes tap.new ≡ string_bytes tap.old
        ++ tap_row failed count case.entry.file.now case.entry.line case.entry.text.now) }
{
    tap.push_str(if failed { FAILS } else { PASSES })?;
    write!(tap, "{count} - ")?;
    push_tap_name(tap, case.file.as_bytes())?;
    write!(tap, ":{} ", case.line)?;
    push_description(tap, case.text)?;
    tap.push('\n')
}

/// Appends a line of why a row fails, as TAP has it.
fn push_tap_comment(tap: &mut String, line: &str) -> Result<(), AllocError>
    ensures { OnOk result (string_bytes tap.new
        ≡ string_bytes tap.old ++ tap_comment line.now) }
{
    writeln!(tap, "# {line}")
}

/// Appends the lines of why a row fails, as TAP has them.
fn push_tap_detail(tap: &mut String, detail: &str) -> Result<(), AllocError>
    ensures { OnOk result (string_bytes tap.new
        ≡ string_bytes tap.old ++ tap_detail (Some detail.now)) }
{
    for line in detail.lines() {
        push_tap_comment(tap, line)?;
    }
    Ok(())
}

/// Returns the row of TAP that tells of a row, by its number among all tests, whether it passes.
///
/// Errors: `AllocError` if an allocation fails.
pub fn tap_row(
    alloc: Global,
    number: u64,
    case: Case<'_>,
    failed: bool,
) -> Result<String, AllocError>
    ensures { IfOk result (λ tap. string_bytes tap
        ≡ tap_row failed number case.entry.file.now case.entry.line case.entry.text.now) }
{
    let mut tap = String::new(alloc);
    push_tap_row(&mut tap, number, case, failed)?;
    Ok(tap)
}

/// Returns what TAP tells of a row, by its number among all tests: its row, and why it fails, if it
/// does.
///
/// Errors: `AllocError` if an allocation fails.
pub fn tap_case(
    alloc: Global,
    number: u64,
    case: Case<'_>,
    detail: Option<&str>,
) -> Result<String, AllocError>
    ensures { IfOk result (λ tap. string_bytes tap
        ≡ tap_case number case.entry.file.now case.entry.line case.entry.text.now
        (option_map (λ why. why.now) detail.entry)) }
{
    let mut tap = String::new(alloc);
    push_tap_row(&mut tap, number, case, detail.is_some())?;
    match detail {
        None => {}
        Some(detail) => push_tap_detail(&mut tap, detail)?,
    }
    Ok(tap)
}

/// Appends the row of TAP of a file that cannot be tested.
#[tactic(auto, unfolding(crate::specs::Reports::tap_title))]
fn push_tap_title(tap: &mut String, number: u64, file: &str, title: &str) -> Result<(), AllocError>
    ensures { OnOk result (string_bytes tap.new
        ≡ string_bytes tap.old ++ tap_title number file.now title.now) }
{
    tap.push_str(FAILS)?;
    write!(tap, "{number} - ")?;
    push_tap_name(tap, file.as_bytes())?;
    tap.push_str(": ")?;
    push_tap_name(tap, title.as_bytes())?;
    tap.push('\n')
}

/// Returns the row of TAP of a file that cannot be tested, by the number of that test among all.
///
/// Errors: `AllocError` if an allocation fails.
pub fn tap_title(alloc: Global, number: u64, file: &str, title: &str) -> Result<String, AllocError>
    ensures { IfOk result (λ tap. string_bytes tap ≡ tap_title number file.now title.now) }
{
    let mut tap = String::new(alloc);
    push_tap_title(&mut tap, number, file, title)?;
    Ok(tap)
}

/// Returns what TAP tells of a file that cannot be tested, by the number of that test among all:
/// why, in a few words, and remarks.
///
/// Errors: `AllocError` if an allocation fails.
pub fn tap_fault(
    alloc: Global,
    number: u64,
    file: &str,
    title: &str,
    remarks: &str,
) -> Result<String, AllocError>
    ensures { IfOk result (λ tap. string_bytes tap
        ≡ tap_fault number file.now title.now remarks.now) }
{
    let mut tap = String::new(alloc);
    push_tap_title(&mut tap, number, file, title)?;
    push_tap_detail(&mut tap, remarks)?;
    Ok(tap)
}

/// Appends what a file's tests have come to.
#[tactic(auto, unfolding(crate::specs::Reports::score_text))]
fn push_score(tap: &mut String, score: Score) -> Result<(), AllocError>
    ensures { OnOk result (string_bytes tap.new ≡ string_bytes tap.old ++ score_text score) }
{
    writeln!(
        tap,
        "{} passed, {} failed, {} of {} points",
        score.passed, score.failed, score.earned, score.worth
    )
}

/// Returns the line of a file with what its tests have come to: a comment of TAP.
///
/// Errors: `AllocError` if an allocation fails.
pub fn summary(alloc: Global, file: &str, score: Score) -> Result<String, AllocError>
    ensures { IfOk result (λ tap. string_bytes tap ≡ summary_text file.now score) }
{
    let mut tap = String::new(alloc);
    tap.push_str("# ")?;
    push_tap_name(&mut tap, file.as_bytes())?;
    tap.push_str(": ")?;
    push_score(&mut tap, score)?;
    Ok(tap)
}

/// Returns the last line of TAP: how many tests there are.
///
/// Errors: `AllocError` if an allocation fails.
pub fn plan(alloc: Global, count: u64) -> Result<String, AllocError>
    ensures { IfOk result (λ tap. string_bytes tap ≡ plan_text count) }
{
    let mut tap = String::new(alloc);
    writeln!(tap, "1..{count}")?;
    Ok(tap)
}

/// Appends the place of a test: a file of rows, and a line of it.
fn push_place(junit: &mut String, rows: &str, line: u32) -> Result<(), AllocError>
    ensures { OnOk result (string_bytes junit.new
        ≡ string_bytes junit.old ++ place_text rows.now line) }
{
    junit.push_str(IN_FILE)?;
    push_name(junit, rows)?;
    write!(junit, "{}{line}", AT_LINE)
}

/// Appends the beginning of what the report for JUnit tells of a row.
fn push_case_front(junit: &mut String, case: Case<'_>) -> Result<(), AllocError>
    ensures { OnOk result (string_bytes junit.new ≡ string_bytes junit.old
        ++ case_front case.entry.file.now case.entry.rows.now case.entry.line
        case.entry.text.now) }
{
    junit.push_str(CASE)?;
    push_name(junit, case.file)?;
    push_line(junit, case.line)?;
    push_xml_row(junit, case.text)?;
    push_place(junit, case.rows, case.line)?;
    Ok(())
}

/// Appends why a test fails, in a few words and in all, and the end of what the report for JUnit
/// tells of it.
fn push_failure(junit: &mut String, message: &[u8], detail: &str) -> Result<(), AllocError>
    ensures { OnOk result (string_bytes junit.new
        ≡ string_bytes junit.old ++ case_fails message.now detail.now) }
{
    junit.push_str(CASE_FAILS)?;
    push_value(junit, message)?;
    junit.push_str(TAG_END)?;
    push_xml_text(junit, detail)?;
    junit.push_str(CASE_END)?;
    Ok(())
}

/// Appends the end of what the report for JUnit tells of a row.
fn push_case_end(junit: &mut String, detail: Option<&str>) -> Result<(), AllocError>
    ensures { OnOk result (string_bytes junit.new ≡ string_bytes junit.old
        ++ case_end (option_map (λ why. why.now) detail.entry)) }
{
    match detail {
        None => junit.push_str(CASE_PASSES),
        Some(detail) => push_failure(junit, first_line(detail.as_bytes()), detail),
    }
}

/// Returns what the report for JUnit tells of a row.
///
/// Errors: `AllocError` if an allocation fails.
pub fn junit_case(alloc: Global, case: Case<'_>, detail: Option<&str>) -> Result<String, AllocError>
    ensures { IfOk result (λ junit. string_bytes junit
        ≡ junit_case case.entry.file.now case.entry.rows.now case.entry.line case.entry.text.now
        (option_map (λ why. why.now) detail.entry)) }
{
    let mut junit = String::new(alloc);
    push_case_front(&mut junit, case)?;
    push_case_end(&mut junit, detail)?;
    Ok(junit)
}

/// Appends the beginning of what the report for JUnit tells of a file that cannot be tested.
fn push_fault_front(junit: &mut String, file: &str, rows: &str, line: u32) -> Result<(), AllocError>
    ensures { OnOk result (string_bytes junit.new
        ≡ string_bytes junit.old ++ fault_front file.now rows.now line) }
{
    junit.push_str(CASE)?;
    push_name(junit, file)?;
    junit.push_str(FAULT_NAME)?;
    push_place(junit, rows, line)?;
    Ok(())
}

/// Returns what the report for JUnit tells of a suite that cannot be tested, with the line of its
/// file of rows that is to blame.
///
/// Errors: `AllocError` if an allocation fails.
pub fn junit_fault(
    alloc: Global,
    file: &str,
    rows: &str,
    line: u32,
    title: &str,
    remarks: &str,
) -> Result<String, AllocError>
    ensures { IfOk result (λ junit. string_bytes junit
        ≡ junit_fault file.now rows.now line title.now remarks.now) }
{
    let mut junit = String::new(alloc);
    push_fault_front(&mut junit, file, rows, line)?;
    push_failure(&mut junit, title.as_bytes(), remarks)?;
    Ok(junit)
}
