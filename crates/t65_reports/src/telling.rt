//! What is written of tests.

ghost use Rattle.std.specs.Prelude.{◌≡◌, IfOk, string_bytes};
ghost use Rattle.std.specs.Option.{option_map};
ghost use Rattle.t65_reports.specs.Telling.{begin_text, case_text, end_text, fault_text, quiet_case};

use crate::reports::{Case, plan, tap_case, tap_fault, tap_row, tap_title};
use crate::wording::{CSV_BEGIN, NOTHING, TAP_BEGIN};
use std::alloc::{AllocError, Global};

/// What is written of tests.
#[derive(Clone, Copy)]
pub enum Telling {
    /// TAP.
    Tap,
    /// TAP, and a line that sums up each suite.
    Summed,
    /// The row of TAP of each test that fails, and a line that sums up each suite.
    Quiet,
    /// CSV, with a line for each suite.
    Csv,
}

/// Returns what is written before all tests.
pub fn begin_text(telling: Telling) -> &'static str
    ensures { result.now ≡ begin_text telling }
{
    match telling {
        Telling::Tap => TAP_BEGIN,
        Telling::Summed => TAP_BEGIN,
        Telling::Quiet => NOTHING,
        Telling::Csv => CSV_BEGIN,
    }
}

/// Returns the row of TAP of a test that fails.
fn quiet_case(
    alloc: Global,
    number: u64,
    case: Case<'_>,
    detail: Option<&str>,
) -> Result<String, AllocError>
    ensures { IfOk result (λ text. string_bytes text
        ≡ quiet_case number case.entry.file.now case.entry.line case.entry.text.now
        (option_map (λ why. why.now) detail.entry)) }
{
    match detail {
        None => Ok(String::new(alloc)),
        Some(_) => tap_row(alloc, number, case, true),
    }
}

/// Returns what is written of a row, by its number among all tests, which fails for the reason that
/// is given, if one is.
///
/// Errors: `AllocError` if an allocation fails.
pub fn case_text(
    alloc: Global,
    telling: Telling,
    number: u64,
    case: Case<'_>,
    detail: Option<&str>,
) -> Result<String, AllocError>
    ensures { IfOk result (λ text. string_bytes text
        ≡ case_text telling number case.entry.file.now case.entry.line case.entry.text.now
        (option_map (λ why. why.now) detail.entry)) }
{
    match telling {
        Telling::Tap => tap_case(alloc, number, case, detail),
        Telling::Summed => tap_case(alloc, number, case, detail),
        Telling::Quiet => quiet_case(alloc, number, case, detail),
        Telling::Csv => Ok(String::new(alloc)),
    }
}

/// Returns what is written of a file that cannot be tested, by the number of that test among all:
/// why, in a few words, and remarks.
///
/// Errors: `AllocError` if an allocation fails.
pub fn fault_text(
    alloc: Global,
    telling: Telling,
    number: u64,
    file: &str,
    title: &str,
    remarks: &str,
) -> Result<String, AllocError>
    ensures { IfOk result (λ text. string_bytes text
        ≡ fault_text telling number file.now title.now remarks.now) }
{
    match telling {
        Telling::Tap => tap_fault(alloc, number, file, title, remarks),
        Telling::Summed => tap_fault(alloc, number, file, title, remarks),
        Telling::Quiet => tap_title(alloc, number, file, title),
        Telling::Csv => Ok(String::new(alloc)),
    }
}

/// Returns what is written behind all tests: how many there are.
///
/// Errors: `AllocError` if an allocation fails.
pub fn end_text(alloc: Global, telling: Telling, count: u64) -> Result<String, AllocError>
    ensures { IfOk result (λ text. string_bytes text ≡ end_text telling count) }
{
    match telling {
        Telling::Tap => plan(alloc, count),
        Telling::Summed => plan(alloc, count),
        Telling::Quiet => Ok(String::new(alloc)),
        Telling::Csv => Ok(String::new(alloc)),
    }
}
