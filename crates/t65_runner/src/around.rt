//! Which rows of a file are tests, and which are run before and after each.

ghost use Rattle.std.specs.Prelude.{◌≡◌, ◌++◌, ◌∷◌, [], IfOk, false, map, option_map};
ghost use Rattle.t65_reader.specs.RowText.{line_view, numbered_view, row_seen};
ghost use Rattle.t65_reader.specs.declared.row.Part.TheVariants as the_part;
ghost use Rattle.t65_runner.specs.Parts.{is_part, is_test, lines_seen, row_in, rows_of, tests_of};
ghost use Rattle.t65_runner.specs.Passes.{rows_seen};

use std::alloc::{AllocError, Global};
use t65_reader::{Line, Part, Row};

/// The rows that are run before and after each test.
#[derive(Drop)]
pub struct Around<'a> {
    pub before: Vec<&'a (u32, Row)>,
    pub after: Vec<&'a (u32, Row)>,
}

fn is_part(part: Part, other: Part) -> bool
    ensures { result ≡ is_part part other }
{
    match (part, other) {
        (Part::Test, Part::Test) => true,
        (Part::Setup, Part::Setup) => true,
        (Part::Teardown, Part::Teardown) => true,
        _ => false,
    }
}

/// Returns the row of a line, if it is one of a part.
fn row_in(part: Part, line: &Line) -> Option<&(u32, Row)>
    ensures { option_map row_seen result ≡ row_in part (line_view line.now) }
{
    match line {
        Line::Row(row) => {
            if is_part(part, row.1.part) {
                Some(row)
            } else {
                None
            }
        }
        Line::Faulty(_) => None,
    }
}

/// Returns the rows of a part, in their order.
///
/// Errors: `AllocError` if an allocation fails.
fn rows_of(alloc: Global, lines: &[Line], part: Part) -> Result<Vec<&(u32, Row)>, AllocError>
    ensures { IfOk result (λ found. rows_seen found.items
        ≡ rows_of part (map line_view lines.now)) }
{
    let mut found = Vec::new(alloc);
    for line in lines {
        match row_in(part, line) {
            Some(row) => found.push(row)?,
            None => {}
        }
    }
    Ok(found)
}

/// Returns whether a line is a test: a row that is one, or what cannot be read.
fn is_test(line: &Line) -> bool
    ensures { result ≡ is_test (line_view line.now) }
{
    match line {
        Line::Row(row) => is_part(Part::Test, row.1.part),
        Line::Faulty(_) => true,
    }
}

/// Returns the lines that are tests, in their order.
///
/// Errors: `AllocError` if an allocation fails.
pub fn tests_of(alloc: Global, lines: &[Line]) -> Result<Vec<&Line>, AllocError>
    ensures { IfOk result (λ found. lines_seen found.items
        ≡ tests_of (map line_view lines.now)) }
{
    let mut found = Vec::new(alloc);
    for line in lines {
        if !is_test(line) {
            continue;
        }
        found.push(line)?;
    }
    Ok(found)
}

/// Returns whether a line is a test.
///
/// Errors: `AllocError` if an allocation fails.
pub fn has_test(alloc: Global, lines: &[Line]) -> Result<bool, AllocError>
    ensures { IfOk result (λ has. has ≡ false → tests_of (map line_view lines.now) ≡ []) }
{
    let tests = tests_of(alloc, lines)?;
    Ok(!tests.is_empty())
}

impl<'a> Around<'a> {
    /// Returns the rows that are run before and after each test.
    ///
    /// Errors: `AllocError` if an allocation fails.
    pub fn new(alloc: Global, lines: &'a [Line]) -> Result<Around<'a>, AllocError>
        ensures before { IfOk result (λ a. rows_seen a.before.items
            ≡ rows_of the_part.Setup (map line_view lines.now)) }
        ensures after { IfOk result (λ a. rows_seen a.after.items
            ≡ rows_of the_part.Teardown (map line_view lines.now)) }
    {
        Ok(Around {
            before: rows_of(alloc, lines, Part::Setup)?,
            after: rows_of(alloc, lines, Part::Teardown)?,
        })
    }

    /// Returns what is run for a test, one row after another.
    ///
    /// Errors: `AllocError` if an allocation fails.
    pub fn run_of(
        &self,
        alloc: Global,
        row: &'a (u32, Row),
    ) -> Result<Vec<&'a (u32, Row)>, AllocError>
        ensures { IfOk result (λ run. rows_seen run.items
            ≡ rows_seen self.now.before.items
            ++ numbered_view row.now ∷ rows_seen self.now.after.items) }
    {
        let mut run = Vec::new(alloc);
        run.extend_from_slice(&self.before)?;
        run.push(row)?;
        run.extend_from_slice(&self.after)?;
        Ok(run)
    }
}
