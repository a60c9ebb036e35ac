//! Which lines of the sources were run, as lcov reads it. Those of an image are of the files that
//! its debug information names.

ghost use Rattle.std.specs.Prelude.{◌≡◌, ◌++◌, [], IfOk, None, OnOk, is_some};
ghost use Rattle.std.specs.Option.{option_map};
ghost use Rattle.source_map.specs.Lines.{file_name};
ghost use Rattle.trace_rows.specs.Records.{record_text, records_text};
ghost use Rattle.word_test.specs.Covered.{counts_begun, record_of};
ghost use Rattle.t65_reader.specs.RowText.{row_view};
ghost use Rattle.t65_runner.specs.Counting.{test_counted};
ghost use Rattle.t65_runner.specs.Passes.{rows_seen};
ghost use Rattle.t65_runner.specs.Start.{fresh};

use crate::stop::Stop;
use accesses::Tally;
use arguments::{FileForm, write_file};
use debugger::Session;
use std::alloc::{AllocError, Global};
use std::rt::Files;
use t65_reader::Row;
use t65_runner::{Values, count_test};
use t65_suites::{Prepared, text_of};
use trace_rows::{push_record, push_records};

/// What is written for lcov: a record for each suite that was tested; nothing is counted where no
/// file is asked for.
#[derive(Drop)]
pub struct Coverage {
    path: Option<String>,
    /// The records of the suites that have ended.
    text: Vec<u8>,
    /// How often steps began at each address, in the tests of the suite so far.
    counts: Option<Tally>,
}

/// Begins what is written for lcov to a file of that name, if that is asked for. The file stays as
/// it is.
///
/// Errors: `AllocError` if an allocation fails.
pub fn begin_coverage(alloc: Global, path: Option<&str>) -> Result<Coverage, AllocError>
    // There is no record yet, and nothing is counted.
    ensures path { IfOk result (λ coverage. is_some coverage.path ≡ is_some path.entry) }
    ensures text { IfOk result (λ coverage. coverage.text.items ≡ []) }
    ensures counts { IfOk result (λ coverage. coverage.counts ≡ None) }
{
    let path = match path {
        None => None,
        Some(path) => Some(text_of(alloc, path)?),
    };
    Ok(Coverage {
        path,
        text: Vec::new(alloc),
        counts: None,
    })
}

/// Returns a count of nothing, if steps are to be counted.
fn counts_begun(alloc: Global, is_asked: bool) -> Result<Option<Tally>, AllocError>
    ensures { IfOk result (λ counts. counts ≡ counts_begun is_asked) }
{
    if !is_asked {
        return Ok(None);
    }
    let tally = Tally::new(alloc)?;
    Ok(Some(tally))
}

/// Returns the record of a suite's source.
fn source_record(alloc: Global, prepared: &Prepared, counts: &Tally) -> Result<Vec<u8>, AllocError>
    ensures { IfOk result (λ text. text.items
        ≡ record_text (file_name prepared.now.places.sources 0) prepared.now.assembly counts.now) }
{
    let mut text = Vec::new(alloc);
    let path = prepared.places.file();
    push_record(&mut text, alloc, path, &prepared.assembly, counts)?;
    Ok(text)
}

/// Returns the records of the files that the debug information of an image names.
fn image_records(alloc: Global, prepared: &Prepared, counts: &Tally) -> Result<Vec<u8>, AllocError>
    ensures { IfOk result (λ text. text.items
        ≡ records_text prepared.now.places counts.now) }
{
    let mut text = Vec::new(alloc);
    push_records(&mut text, alloc, &prepared.places, counts)?;
    Ok(text)
}

/// Returns the records of a suite whose steps were counted; no byte where they were not.
fn record_of(
    alloc: Global,
    prepared: &Prepared,
    counts: Option<&Tally>,
) -> Result<Vec<u8>, AllocError>
    ensures { IfOk result (λ text. text.items
        ≡ record_of prepared.now (option_map (λ c. c.now) counts.entry)) }
{
    match counts {
        None => Ok(Vec::new(alloc)),
        Some(counts) => match prepared.form {
            FileForm::Source => source_record(alloc, prepared, counts),
            FileForm::Records | FileForm::Raw(_) | FileForm::Prg => {
                image_records(alloc, prepared, counts)
            }
        },
    }
}

impl Coverage {
    /// Begins a suite.
    ///
    /// Errors: `AllocError` if an allocation fails.
    pub fn begin_suite(&mut self, alloc: Global) -> Result<(), AllocError>
        ensures path { self.new.path ≡ self.old.path }
        ensures text { self.new.text ≡ self.old.text }
        ensures counts { OnOk result (self.new.counts ≡ counts_begun (is_some self.old.path)) }
    {
        let counts = counts_begun(alloc, self.path.is_some())?;
        self.counts = counts;
        Ok(())
    }

    /// Runs the rows of a test once more and counts where steps begin, if that is asked for; goes
    /// back to the start.
    ///
    /// Errors: `AllocError` if an allocation fails.
    pub fn count(
        &mut self,
        alloc: Global,
        session: &mut Session,
        prepared: &Prepared,
        row: &Row,
        rows: &[&(u32, Row)],
        failed: Option<Values>,
    ) -> Result<(), AllocError>
        requires { session.old ≡ fresh prepared.now.map prepared.now.assembly.image }
        ensures back { OnOk result
            (session.new ≡ fresh prepared.now.map prepared.now.assembly.image) }
        ensures path { self.new.path ≡ self.old.path }
        ensures text { self.new.text ≡ self.old.text }
        ensures counts { OnOk result (self.new.counts ≡ option_map (test_counted
            (row_view row.now) (rows_seen rows.now)
            (fresh prepared.now.map prepared.now.assembly.image) failed) self.old.counts) }
    {
        match &mut self.counts {
            None => Ok(()),
            Some(counts) => {
                count_test(
                    alloc,
                    session,
                    prepared.map,
                    prepared.assembly.image(),
                    row,
                    rows,
                    failed,
                    counts,
                )?;
                Ok(())
            }
        }
    }

    /// Ends a suite: appends the record of its source, if it has one and its steps were counted.
    ///
    /// Errors: `AllocError` if an allocation fails.
    pub fn end_suite(&mut self, alloc: Global, prepared: &Prepared) -> Result<(), AllocError>
        // The record of the suite stands behind those of the suites before it.
        ensures told { OnOk result (self.new.text.items
            ≡ self.old.text.items ++ record_of prepared.now self.old.counts) }
        ensures path { self.new.path ≡ self.old.path }
        ensures counts { self.new.counts ≡ self.old.counts }
    {
        let record = record_of(alloc, prepared, self.counts.as_ref())?;
        self.text.extend_from_slice(&record)
    }

    /// Writes the records to the file, if one is asked for: after the last suite.
    ///
    /// Errors: `Coverage` if the file cannot be written.
    pub fn finish<H: Files + AllocGlobal>(&self, rt: &H) -> Result<(), Stop> {
        match &self.path {
            None => Ok(()),
            Some(path) => match write_file(rt, path.as_str(), self.text.as_slice()) {
                Ok(()) => Ok(()),
                Err(refusal) => Err(Stop::of_coverage(refusal)),
            },
        }
    }
}
