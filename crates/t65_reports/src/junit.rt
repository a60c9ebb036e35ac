//! The report for JUnit as a text, which is whole after each test.

ghost use Rattle.std.specs.Prelude.{◌≡◌, ◌++◌, IfErr, IfOk, OnOk, string_bytes};
ghost use Rattle.std.specs.Option.{option_map};
ghost use Rattle.t65_reports.specs.Junit.{failed_after, no_suite, open_text, report_text};
ghost use Rattle.t65_reports.specs.Junit.{report_told, suite_text, suite_told, with_case};
ghost use Rattle.t65_reports.specs.Junit.{with_end, with_suite, with_test};

use crate::reports::push_suite_head;
use crate::wording::{JUNIT_BEGIN, JUNIT_END, SUITE_END};
use std::alloc::{AllocError, Global};

/// A suite whose tests are run.
#[derive(Drop)]
pub struct OpenSuite {
    file: String,
    tests: usize,
    /// How many of the tests so far fail.
    failed: usize,
    /// What is told of the tests so far.
    cases: String,
}

/// A report for JUnit: what is told of the tests so far, which is a whole file after each of them.
#[derive(Drop)]
pub struct Junit {
    /// The text of the suites that have ended.
    ended: String,
    /// The suite whose tests are run, if there is one.
    suite: Option<OpenSuite>,
}

/// Returns a count with one failure more where a test fails.
fn failed_after(passes: bool, failed: usize) -> usize
    ensures { result ≡ failed_after passes failed }
{
    if passes {
        failed
    } else {
        failed.saturating_add(1)
    }
}

/// Appends what is told of a suite so far, and its end.
fn push_suite(text: &mut String, suite: &OpenSuite) -> Result<(), AllocError>
    ensures { OnOk result (string_bytes text.new
        ≡ string_bytes text.old ++ suite_text (suite_told suite.now)) }
{
    push_suite_head(text, &suite.file, suite.tests, suite.failed)?;
    text.push_str(&suite.cases)?;
    text.push_str(SUITE_END)
}

/// Appends what is told of the suite whose tests are run, if there is one.
fn push_open(text: &mut String, suite: Option<&OpenSuite>) -> Result<(), AllocError>
    ensures { OnOk result (string_bytes text.new ≡ string_bytes text.old
        ++ open_text (option_map (λ s. suite_told s.now) suite.entry)) }
{
    match suite {
        None => Ok(()),
        Some(suite) => push_suite(text, suite),
    }
}

impl OpenSuite {
    /// Appends the text of a test, which passes or not.
    fn push_case(&mut self, text: &str, passes: bool) -> Result<(), AllocError>
        ensures case { OnOk result
            (suite_told self.new ≡ with_case passes text.now (suite_told self.old)) }
        ensures same { IfErr result (λ _. suite_told self.new ≡ suite_told self.old) }
    {
        self.cases.push_str(text)?;
        self.failed = failed_after(passes, self.failed);
        Ok(())
    }
}

impl Junit {
    /// Returns a report that has no suite.
    pub fn new(alloc: Global) -> Junit
        ensures { report_told result ≡ no_suite }
    {
        Junit {
            ended: String::new(alloc),
            suite: None,
        }
    }

    /// Begins a suite of so many tests, which has the name of a file.
    ///
    /// Errors: `AllocError` if an allocation fails: the report is then as it was.
    pub fn begin_suite(&mut self, alloc: Global, file: &str, tests: usize) -> Result<(), AllocError>
        ensures begun { OnOk result
            (report_told self.new ≡ with_suite file.now tests (report_told self.old)) }
        ensures same { IfErr result (λ _. report_told self.new ≡ report_told self.old) }
    {
        let mut name = String::new(alloc);
        name.push_str(file)?;
        self.suite = Some(OpenSuite {
            file: name,
            tests,
            failed: 0,
            cases: String::new(alloc),
        });
        Ok(())
    }

    /// Appends the text of a test of the suite, which passes or not.
    ///
    /// Errors: `AllocError` if an allocation fails: the report is then as it was.
    pub fn push_test(&mut self, text: &str, passes: bool) -> Result<(), AllocError>
        ensures test { OnOk result
            (report_told self.new ≡ with_test passes text.now (report_told self.old)) }
        ensures same { IfErr result (λ _. report_told self.new ≡ report_told self.old) }
    {
        match &mut self.suite {
            None => Ok(()),
            Some(suite) => suite.push_case(text, passes),
        }
    }

    /// Ends the suite.
    ///
    /// Errors: `AllocError` if an allocation fails: the report is then as it was.
    pub fn end_suite(&mut self, alloc: Global) -> Result<(), AllocError>
        ensures end { OnOk result (report_told self.new ≡ with_end (report_told self.old)) }
        ensures same { IfErr result (λ _. report_told self.new ≡ report_told self.old) }
    {
        let mut text = String::new(alloc);
        push_open(&mut text, self.suite.as_ref())?;
        self.ended.push_str(&text)?;
        self.suite = None;
        Ok(())
    }

    /// Returns the whole report: of a suite whose tests are run it has those so far.
    ///
    /// Errors: `AllocError` if an allocation fails.
    pub fn text(&self, alloc: Global) -> Result<String, AllocError>
        ensures { IfOk result (λ text. string_bytes text ≡ report_text (report_told self.now)) }
    {
        let mut text = String::new(alloc);
        text.push_str(JUNIT_BEGIN)?;
        text.push_str(&self.ended)?;
        push_open(&mut text, self.suite.as_ref())?;
        text.push_str(JUNIT_END)?;
        Ok(text)
    }
}
