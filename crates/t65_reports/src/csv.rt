//! What the tests of a suite have come to, as a line of CSV.

ghost use Rattle.std.specs.Prelude.{◌≡◌, ◌++◌, ◌||◌, ◌==◌, IfOk, OnOk, string_bytes};
ghost use Rattle.std.specs.List.{list_any};
ghost use Rattle.t65_reports.specs.Csv.{csv_field, csv_line, csv_score, doubled, doubled_all};
ghost use Rattle.t65_reports.specs.Csv.{is_quoted_byte};

use crate::reports::Score;
use std::alloc::{AllocError, Global};

/// Returns whether a field with this byte stands between two `"`.
fn is_quoted_byte(byte: u8) -> bool
    ensures { result ≡ is_quoted_byte byte }
{
    byte == b',' || byte == b'"' || byte == b'\r' || byte == b'\n'
}

/// Returns whether a field stands between two `"`.
fn is_quoted(field: &[u8]) -> bool
    ensures { result ≡ list_any is_quoted_byte field.now }
{
    for byte in field {
        if is_quoted_byte(*byte) {
            return true;
        }
    }
    false
}

/// Appends a byte of a field between two `"`: a `"` twice.
fn push_doubled(line: &mut Vec<u8>, byte: u8) -> Result<(), AllocError>
    ensures { OnOk result (line.new.items ≡ line.old.items ++ doubled byte) }
{
    if byte == b'"' {
        line.push(byte)?;
    }
    line.push(byte)?;
    Ok(())
}

/// Appends the bytes of a field between two `"`.
fn push_all_doubled(line: &mut Vec<u8>, field: &[u8]) -> Result<(), AllocError>
    ensures { OnOk result (line.new.items ≡ line.old.items ++ doubled_all field.now) }
{
    for byte in field {
        push_doubled(line, *byte)?;
    }
    Ok(())
}

/// Appends a field.
fn push_field(line: &mut Vec<u8>, field: &[u8]) -> Result<(), AllocError>
    ensures { OnOk result (line.new.items ≡ line.old.items ++ csv_field field.now) }
{
    if is_quoted(field) {
        line.push(b'"')?;
        push_all_doubled(line, field)?;
        line.push(b'"')?;
        Ok(())
    } else {
        line.extend_from_slice(field)
    }
}

/// Returns the four numbers of a score, and the line's end.
#[tactic(auto, unfolding(crate::specs::Csv::csv_score))]
fn csv_score(alloc: Global, score: Score) -> Result<String, AllocError>
    ensures { IfOk result (λ text. string_bytes text ≡ csv_score score) }
{
    let mut text = String::new(alloc);
    writeln!(
        text,
        ",{},{},{},{}",
        score.passed, score.failed, score.earned, score.worth
    )?;
    Ok(text)
}

/// Returns the line of a suite: the source, no byte where the words name none, the file of rows,
/// and what its tests have come to.
///
/// Errors: `AllocError` if an allocation fails.
pub fn csv_line(
    alloc: Global,
    source: &str,
    rows: &str,
    score: Score,
) -> Result<Vec<u8>, AllocError>
    ensures { IfOk result (λ line. line.items ≡ csv_line source.now rows.now score) }
{
    let mut line = Vec::new(alloc);
    push_field(&mut line, source.as_bytes())?;
    line.push(b',')?;
    push_field(&mut line, rows.as_bytes())?;
    let score = csv_score(alloc, score)?;
    line.extend_from_slice(score.as_bytes())?;
    Ok(line)
}
