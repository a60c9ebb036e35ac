//! A file of marks, read.

ghost use Rattle.marks_files.specs.MarksFile.{IsMarksFile, marks_file};
ghost use Rattle.marks_files.specs.Views.{marks_view};

use crate::fault::MarksError;
use crate::marks::Marks;
use crate::taking::take_line;
use line_parts::next_line;
use model::Profile;
use std::alloc::Global;

/// Returns what a file of marks says, after what was said before it.
///
/// A line is empty, or a comment behind `;` or `#`, or a mark: `data`, `text`, `words`,
/// `rts-words` or `code` with a range, `split` or `rts-split` with two addresses and a count,
/// `follow` with an address or none, `inline` with a routine, `label` with an address and a name,
/// `comment` or `block` with an address and a text. Behind each but the last two a comment may
/// stand. A range may not meet one of another kind, and a routine has one kind of data behind its
/// calls.
///
/// Errors: `Fault` with the first fault, and its line and column; `Memory` if a request for memory
/// was refused. Source: mos65.
pub fn marks_of_file(
    alloc: Global,
    profile: Profile,
    given: Marks,
    file: &[u8],
) -> Result<Marks, MarksError>
    ensures { IsMarksFile result (marks_file profile (marks_view given) file.now) }
{
    let mut marks = given;
    let mut rest = file;
    let mut number = 1usize;
    while !rest.is_empty() {
        let (line, behind) = next_line(rest);
        take_line(alloc, profile, &mut marks, number, line)?;
        rest = behind;
        number += 1;
    }
    Ok(marks)
}
