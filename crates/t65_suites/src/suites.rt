//! Which files of rows are run on which files.

ghost use Rattle.std.specs.Prelude.{◌≡◌, ◌++◌, [], IfOk, OnOk, map, unwrap_or};
ghost use Rattle.std.specs.Option.{option_map};
ghost use Rattle.t65_suites.specs.Suites.{name_of, on_source, reading_view, suite_view};
ghost use Rattle.t65_suites.specs.Suites.{suites_of, suites_of_file};

use arguments::FileForm;
use std::alloc::{AllocError, Global};

/// How a file is read that rows are run on, and which rows are, from which random numbers on.
#[derive(Clone, Copy)]
pub struct Reading<'a> {
    /// As a source, or as an image in this form.
    pub form: FileForm,
    /// The file whose names an image has, if one is named.
    pub symbols: Option<&'a str>,
    /// The file of an image's debug information, if one is named.
    pub debug: Option<&'a str>,
    /// Where relative names of sources begin, if not in the folder of that file.
    pub root: Option<&'a str>,
    /// Where random numbers begin, if not where the rows say.
    pub seed: Option<u32>,
    /// The routine whose rows alone are run; those of all, where this is empty.
    pub only: &'a str,
}

/// A file of rows, and what its rows are run on.
#[derive(Clone, Copy)]
pub struct Suite<'a> {
    pub rows: &'a str,
    /// The file that the rows are run on, where it is not the one that the file of rows names.
    pub source: Option<&'a str>,
    /// How that is read.
    pub reading: Reading<'a>,
}

impl<'a> Suite<'a> {
    /// Returns the name of the suite: that of the file that the words name for its rows to be run
    /// on, or of the file of rows.
    pub fn name(&self) -> &'a str
        ensures { result.now ≡ name_of (suite_view self.now) }
    {
        match self.source {
            Some(source) => source,
            None => self.rows,
        }
    }
}

/// Appends the suites of a file of rows: one for each file that they are run on.
fn push_each<'a>(
    suites: &mut Vec<Suite<'a>>,
    rows: &'a str,
    sources: &[&'a str],
    reading: Reading<'a>,
) -> Result<(), AllocError>
    ensures { OnOk result (map suite_view suites.new.items ≡ map suite_view suites.old.items
        ++ map (on_source (reading_view reading.entry) rows.now)
        (map (λ s. s.now) sources.now)) }
{
    for source in sources {
        suites.push(Suite {
            rows,
            source: Some(*source),
            reading,
        })?;
    }
    Ok(())
}

/// Appends the suites of a file of rows: one for each file that they are run on, or one on the file
/// that it names.
fn push_suites<'a>(
    suites: &mut Vec<Suite<'a>>,
    rows: &'a str,
    sources: &[&'a str],
    reading: Reading<'a>,
) -> Result<(), AllocError>
    ensures { OnOk result (map suite_view suites.new.items ≡ map suite_view suites.old.items
        ++ suites_of_file (reading_view reading.entry) (map (λ s. s.now) sources.now) rows.now) }
{
    if sources.is_empty() {
        suites.push(Suite {
            rows,
            source: None,
            reading,
        })?;
        Ok(())
    } else {
        push_each(suites, rows, sources, reading)
    }
}

/// Returns the suites of files of rows, in their order: each file on each source, or on its own.
/// All that they are run on is read in one way.
///
/// Errors: `AllocError` if an allocation fails.
pub fn suites_of<'a>(
    alloc: Global,
    files: &[&'a str],
    sources: &[&'a str],
    reading: Reading<'a>,
) -> Result<Vec<Suite<'a>>, AllocError>
    ensures { IfOk result (λ suites. map suite_view suites.items
        ≡ suites_of (reading_view reading.entry) (map (λ s. s.now) sources.now)
        (map (λ f. f.now) files.now)) }
{
    let mut suites = Vec::new(alloc);
    for rows in files {
        push_suites(&mut suites, *rows, sources, reading)?;
    }
    Ok(suites)
}
