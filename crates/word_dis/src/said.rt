//! What is said of an image, with a file of marks.

ghost use Rattle.std.specs.Prelude.{◌≡◌, IfErr, IfOk};
ghost use Rattle.marks_files.specs.Views.{marks_view};
ghost use Rattle.word_dis.specs.Told.{place_of, status_of_marks};
ghost use Rattle.word_dis.specs.Views.{source_view};
ghost use Rattle.word_dis.specs.Word.{AreSaid, EndsMarks, with_said};
ghost use Rattle.word_dis.specs.Told.{AreOfSome, IsMarks};

use crate::asked::SourceWords;
use arguments::{ReadFault, Refusal, read_source, refuse_file, tell_no_image};
use formatting::{Text, push_bytes, push_decimal};
use marks_files::{Marks, MarksError, MarksFault, marks_of_file};
use model::Profile;
use std::alloc::Global;
use std::io::Write;
use std::rt::Files;

/// The most bytes that a file of marks has. Source: mos65.
const LONGEST: usize = 1_048_576;

/// Why there are no marks.
#[derive(Clone, Copy, Debug)]
pub enum MarksRefusal {
    /// Their file has this fault.
    Fault(MarksFault),
    /// Their file cannot be read, or has more than 1,048,576 bytes; or memory ran out.
    Refused(Refusal),
}

/// Returns where a fault is.
#[tactic(auto, unfolding(crate::specs::Told::place_of))]
fn place_of(fault: MarksFault) -> Text
    ensures { result.items ≡ place_of fault }
{
    let mut text = Text::new();
    push_bytes(&mut text, b"MARKS line ");
    push_decimal(&mut text, fault.line as u64);
    push_bytes(&mut text, b" column ");
    push_decimal(&mut text, fault.column as u64);
    push_bytes(&mut text, b" ");
    text
}

impl MarksRefusal {
    /// Writes why there are no marks, with the name of the file, and returns the exit status, even
    /// if the line cannot be written: 1 for a fault, otherwise that of the refusal.
    pub fn tell<E: Write>(self, file: &str, errors: &mut E) -> u8
        ensures { result ≡ status_of_marks self }
    {
        match self {
            MarksRefusal::Fault(fault) => {
                let number = Some(fault.kind.number());
                tell_no_image(
                    file,
                    place_of(fault).as_slice(),
                    fault.kind.name(),
                    number,
                    errors,
                );
                1
            }
            MarksRefusal::Refused(refusal) => refuse_file(refusal, file, errors),
        }
    }
}

/// What a file of marks says, after what the words say, or why not.
fn marks_in(
    alloc: Global,
    profile: Profile,
    said: Marks,
    file: &[u8],
) -> Result<Marks, MarksRefusal>
    ensures { IsMarks profile (marks_view said) file.now result }
{
    match marks_of_file(alloc, profile, said, file) {
        Ok(marks) => Ok(marks),
        Err(MarksError::Fault(fault)) => Err(MarksRefusal::Fault(fault)),
        Err(MarksError::Memory) => Err(MarksRefusal::Refused(Refusal::OutOfMemory)),
    }
}

/// What the words say of the image, and what the file of marks of that path says.
///
/// A file of more than 1,048,576 bytes is not read: `Refused` with `Read`.
#[tactic(auto, using(crate::proofs::MarksSaid::unread))]
fn marks_of_path<H: Files + AllocGlobal>(
    rt: &H,
    profile: Profile,
    said: Marks,
    path: &str,
) -> Result<Marks, MarksRefusal>
    ensures { AreOfSome profile (marks_view said) result }
{
    let file = match read_source(rt, path) {
        Ok(file) => file,
        Err(refusal) => return Err(MarksRefusal::Refused(refusal)),
    };
    if file.len() > LONGEST {
        return Err(MarksRefusal::Refused(Refusal::Read(ReadFault::Other)));
    }
    marks_in(rt.alloc(), profile, said, file.as_slice())
}

/// Returns the words with what their file of marks says, if there is one.
#[tactic(auto, using(crate::proofs::MarksSaid::marks_end))]
pub fn with_marks<'a, H: Files + AllocGlobal>(
    rt: &H,
    words: SourceWords<'a>,
) -> Result<SourceWords<'a>, MarksRefusal>
    ensures said { IfOk result (λ w. AreSaid (source_view words.entry).marks
        (source_view words.entry) (source_view w).said) }
    ensures same { IfOk result (λ w. source_view w
        ≡ with_said (source_view words.entry) (source_view w).said) }
    ensures refused { IfErr result (EndsMarks (source_view words.entry)) }
{
    let Some(path) = words.marks else {
        return Ok(words);
    };
    let SourceWords {
        tape,
        form,
        first,
        last,
        said,
        only,
        labels,
        addresses,
        symbols,
        marks,
        profile,
        fill,
    } = words;
    let said = marks_of_path(rt, profile, said, path)?;
    Ok(SourceWords {
        tape,
        form,
        first,
        last,
        said,
        only,
        labels,
        addresses,
        symbols,
        marks,
        profile,
        fill,
    })
}
