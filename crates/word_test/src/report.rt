//! What is written in files beside TAP: a report for JUnit, and which lines were run.
//!
//! Both are kept as texts, and each is written to its file once, whole, after the last test. So a
//! run that ends before leaves the files that were there.

ghost use Rattle.std.specs.Prelude.{◌≡◌, IfOk, OnOk};
ghost use Rattle.std.specs.Option.{option_map};
ghost use Rattle.t65_reports.specs.Junit.{no_suite, report_told, with_end, with_suite, with_test};
ghost use Rattle.word_test.specs.Covered.{told_in};

use crate::coverage::Coverage;
use crate::stop::Stop;
use arguments::write_file;
use std::alloc::{AllocError, Global};
use std::rt::Files;
use t65_reports::Junit;
use t65_suites::text_of;

/// A report for JUnit, and the name of its file.
#[derive(Drop)]
pub struct ReportFile {
    path: String,
    junit: Junit,
}

/// A report for JUnit; nothing is told where none is asked for.
#[derive(Drop)]
pub struct Report {
    file: Option<ReportFile>,
}

/// What is written in files.
#[derive(Drop)]
pub struct Reports {
    pub junit: Report,
    pub coverage: Coverage,
}

/// Begins a report for the file of that name. The file stays as it is.
fn begin_file(alloc: Global, path: &str) -> Result<ReportFile, AllocError>
    ensures { IfOk result (λ file. report_told file.junit ≡ no_suite) }
{
    Ok(ReportFile {
        path: text_of(alloc, path)?,
        junit: Junit::new(alloc),
    })
}

/// Begins a report for the file of that name, if one is asked for. The file stays as it is.
///
/// Errors: `AllocError` if an allocation fails.
pub fn begin_report(alloc: Global, path: Option<&str>) -> Result<Report, AllocError>
    // There is a report where one is asked for, and it has no suite.
    ensures { IfOk result
        (λ report. told_in report ≡ option_map (λ _. no_suite) path.entry) }
{
    match path {
        None => Ok(Report { file: None }),
        Some(path) => {
            let file = begin_file(alloc, path)?;
            Ok(Report { file: Some(file) })
        }
    }
}

impl ReportFile {
    /// Writes the report to its file.
    fn write<H: Files + AllocGlobal>(&self, rt: &H) -> Result<(), Stop> {
        let text = self.junit.text(rt.alloc())?;
        match write_file(rt, self.path.as_str(), text.as_bytes()) {
            Ok(()) => Ok(()),
            Err(refusal) => Err(Stop::of_report(refusal)),
        }
    }
}

impl Report {
    /// Begins a suite of so many tests.
    ///
    /// Errors: `AllocError` if an allocation fails.
    pub fn begin_suite(&mut self, alloc: Global, name: &str, tests: usize) -> Result<(), AllocError>
        ensures { OnOk result (told_in self.new
            ≡ option_map (with_suite name.now tests) (told_in self.old)) }
    {
        match &mut self.file {
            None => Ok(()),
            Some(file) => file.junit.begin_suite(alloc, name, tests),
        }
    }

    /// Appends the text of a test of the suite, which passes or not.
    ///
    /// Errors: `OutOfMemory` if an allocation fails.
    pub fn push_test(&mut self, text: &str, passes: bool) -> Result<(), Stop>
        ensures { OnOk result (told_in self.new
            ≡ option_map (with_test passes text.now) (told_in self.old)) }
    {
        match &mut self.file {
            None => Ok(()),
            Some(file) => Ok(file.junit.push_test(text, passes)?),
        }
    }

    /// Ends the suite.
    ///
    /// Errors: `AllocError` if an allocation fails.
    pub fn end_suite(&mut self, alloc: Global) -> Result<(), AllocError>
        ensures { OnOk result (told_in self.new ≡ option_map with_end (told_in self.old)) }
    {
        match &mut self.file {
            None => Ok(()),
            Some(file) => file.junit.end_suite(alloc),
        }
    }

    /// Writes the report to its file, if one is asked for: after the last suite.
    ///
    /// Errors: `OutOfMemory` if an allocation fails, `Report` if the file cannot be written.
    pub fn finish<H: Files + AllocGlobal>(&self, rt: &H) -> Result<(), Stop> {
        match &self.file {
            None => Ok(()),
            Some(file) => file.write(rt),
        }
    }
}

impl Reports {
    /// Writes the files that are asked for: the records for lcov, and the report for JUnit, also
    /// where the records cannot be written.
    ///
    /// Errors: `OutOfMemory` if an allocation fails, `Report` and `Coverage` if these cannot be
    /// written.
    pub fn finish<H: Files + AllocGlobal>(&self, rt: &H) -> Result<(), Stop> {
        let covered = self.coverage.finish(rt);
        self.junit.finish(rt)?;
        covered
    }
}
