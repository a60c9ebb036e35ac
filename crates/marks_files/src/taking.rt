//! A line, taken.

ghost use Rattle.std.specs.Prelude.{◌≡◌};
ghost use Rattle.lexer.specs.Front.{first_field};
ghost use Rattle.model.specs.Commands.{address_of};
ghost use Rattle.model.specs.Names.{number_in};
ghost use Rattle.marks_files.specs.Fields.{behind_word};
ghost use Rattle.marks_files.specs.MarksFile.{IsRead, count_read, entry_read, fields_read, follow_read};
ghost use Rattle.marks_files.specs.MarksFile.{halves_read, high_read, label_read, line_read};
ghost use Rattle.marks_files.specs.MarksFile.{mark_read, name_once, name_read, range_read};
ghost use Rattle.marks_files.specs.MarksFile.{remark_read, routine_once, routine_read, split_read};
ghost use Rattle.marks_files.specs.Values.{number_of, range_of, routine_of};
ghost use Rattle.marks_files.specs.Views.{fields_view, marks_view};
ghost use Rattle.reached.specs.Reached.{tail_at};

use crate::fault::{MarksError, MarksFaultKind, fault_at};
use crate::fields::{Fields, behind_word, column_of, fields_of, is_nothing};
use crate::labels::is_name;
use crate::marks::{
    Marks, RangeKind, Split, is_same_tail, is_text, is_whole, meets_other, meets_split, push_entry,
    push_name, push_range, push_remark, push_routine, push_split,
};
use crate::values::{number_of, range, routine};
use crate::word::{MarkWord, word_of};
use commands::address_of;
use lexer::{first_field, without_blanks};
use model::Profile;
use reached::{Inline, tail_at};
use std::alloc::Global;

/// Takes a range.
fn take_range(
    marks: &mut Marks,
    number: usize,
    fields: &Fields<'_>,
    kind: RangeKind,
) -> Result<(), MarksError>
    ensures { IsRead result (marks_view marks.new) (range_read number (fields_view fields.now) kind
        (marks_view marks.old) (range_of fields.now.value.now)) }
{
    let Some(range) = range(fields.value) else {
        return Err(MarksError::Fault(fault_at(
            number,
            fields.value_column,
            MarksFaultKind::BadRange,
        )));
    };
    if !is_nothing(fields.rest) {
        return Err(MarksError::Fault(fault_at(
            number,
            fields.rest_column,
            MarksFaultKind::JunkBehind,
        )));
    }
    if meets_other(kind, marks, range) {
        return Err(MarksError::Fault(fault_at(
            number,
            fields.value_column,
            MarksFaultKind::Disagrees,
        )));
    }
    push_range(marks, kind, range)?;
    Ok(())
}

/// Takes a table in two halves.
fn take_halves(
    marks: &mut Marks,
    number: usize,
    line: &[u8],
    fields: &Fields<'_>,
    split: Split,
) -> Result<(), MarksError>
    ensures { IsRead result (marks_view marks.new) (halves_read number line.now
        (fields_view fields.now) split (marks_view marks.old)) }
{
    let counted = behind_word(fields.rest);
    let behind = behind_word(counted);
    if !is_whole(split) {
        return Err(MarksError::Fault(fault_at(
            number,
            column_of(line, counted),
            MarksFaultKind::BadCount,
        )));
    }
    if !is_nothing(behind) {
        return Err(MarksError::Fault(fault_at(
            number,
            column_of(line, behind),
            MarksFaultKind::JunkBehind,
        )));
    }
    if meets_split(marks, split) {
        return Err(MarksError::Fault(fault_at(
            number,
            fields.value_column,
            MarksFaultKind::Disagrees,
        )));
    }
    push_split(marks, split)?;
    Ok(())
}

/// Takes a table in two halves by where these begin.
fn take_count(
    marks: &mut Marks,
    number: usize,
    line: &[u8],
    fields: &Fields<'_>,
    more: u16,
    low: u16,
    high: u16,
) -> Result<(), MarksError>
    ensures { IsRead result (marks_view marks.new) (count_read number line.now
        (fields_view fields.now) more low high (marks_view marks.old)
        (number_of (first_field (behind_word (fields_view fields.now).rest)))) }
{
    let counted = behind_word(fields.rest);
    let Some(count) = number_of(first_field(counted)) else {
        return Err(MarksError::Fault(fault_at(
            number,
            column_of(line, counted),
            MarksFaultKind::BadCount,
        )));
    };
    let split = Split {
        low,
        high,
        count,
        more,
    };
    take_halves(marks, number, line, fields, split)
}

/// Takes a table in two halves by where the low bytes begin.
fn take_high(
    marks: &mut Marks,
    number: usize,
    line: &[u8],
    fields: &Fields<'_>,
    more: u16,
    low: u16,
) -> Result<(), MarksError>
    ensures { IsRead result (marks_view marks.new) (high_read number line.now
        (fields_view fields.now) more low (marks_view marks.old)
        (address_of (first_field (fields_view fields.now).rest))) }
{
    let Some(high) = address_of(first_field(fields.rest)) else {
        return Err(MarksError::Fault(fault_at(
            number,
            fields.rest_column,
            MarksFaultKind::BadAddress,
        )));
    };
    take_count(marks, number, line, fields, more, low, high)
}

/// Takes a table in two halves.
fn take_split(
    marks: &mut Marks,
    number: usize,
    line: &[u8],
    fields: &Fields<'_>,
    more: u16,
) -> Result<(), MarksError>
    ensures { IsRead result (marks_view marks.new) (split_read number line.now
        (fields_view fields.now) more (marks_view marks.old) (address_of fields.now.value.now)) }
{
    let Some(low) = address_of(fields.value) else {
        return Err(MarksError::Fault(fault_at(
            number,
            fields.value_column,
            MarksFaultKind::BadAddress,
        )));
    };
    take_high(marks, number, line, fields, more, low)
}

/// Takes an address where control comes in.
fn take_entry(marks: &mut Marks, number: usize, fields: &Fields<'_>) -> Result<(), MarksError>
    ensures { IsRead result (marks_view marks.new) (entry_read number (fields_view fields.now)
        (marks_view marks.old) (address_of fields.now.value.now)) }
{
    let Some(address) = address_of(fields.value) else {
        return Err(MarksError::Fault(fault_at(
            number,
            fields.value_column,
            MarksFaultKind::BadAddress,
        )));
    };
    if !is_nothing(fields.rest) {
        return Err(MarksError::Fault(fault_at(
            number,
            fields.rest_column,
            MarksFaultKind::JunkBehind,
        )));
    }
    push_entry(marks, address)?;
    Ok(())
}

/// Takes that control is followed.
fn take_following(marks: &mut Marks, number: usize, fields: &Fields<'_>) -> Result<(), MarksError>
    ensures { IsRead result (marks_view marks.new)
        (follow_read number (fields_view fields.now) (marks_view marks.old)) }
{
    if is_nothing(fields.value) {
        marks.follows = true;
        return Ok(());
    }
    take_entry(marks, number, fields)
}

/// Takes a routine, if none was said at its address before.
fn take_once(
    marks: &mut Marks,
    number: usize,
    fields: &Fields<'_>,
    routine: Inline,
) -> Result<(), MarksError>
    ensures { IsRead result (marks_view marks.new) (routine_once number (fields_view fields.now)
        routine (marks_view marks.old)
        (tail_at (marks_view marks.old).routines routine.address)) }
{
    match tail_at(marks.routines.as_slice(), routine.address) {
        None => {
            push_routine(marks, routine)?;
            Ok(())
        }
        Some(tail) => {
            if is_same_tail(tail, routine.tail) {
                Ok(())
            } else {
                Err(MarksError::Fault(fault_at(
                    number,
                    fields.value_column,
                    MarksFaultKind::Disagrees,
                )))
            }
        }
    }
}

/// Takes a routine whose calls are followed by data.
fn take_routine(marks: &mut Marks, number: usize, fields: &Fields<'_>) -> Result<(), MarksError>
    ensures { IsRead result (marks_view marks.new) (routine_read number (fields_view fields.now)
        (marks_view marks.old) (routine_of fields.now.value.now)) }
{
    let Some(routine) = routine(fields.value) else {
        return Err(MarksError::Fault(fault_at(
            number,
            fields.value_column,
            MarksFaultKind::BadRoutine,
        )));
    };
    if !is_nothing(fields.rest) {
        return Err(MarksError::Fault(fault_at(
            number,
            fields.rest_column,
            MarksFaultKind::JunkBehind,
        )));
    }
    take_once(marks, number, fields, routine)
}

/// Takes a name, if it was not given before.
fn take_name_once(
    alloc: Global,
    marks: &mut Marks,
    number: usize,
    fields: &Fields<'_>,
    address: u16,
    name: &[u8],
) -> Result<(), MarksError>
    ensures { IsRead result (marks_view marks.new) (name_once number (fields_view fields.now)
        address name.now (marks_view marks.old) (number_in marks.old.names name.now)) }
{
    match marks.names.value_of(name) {
        None => {
            push_name(alloc, marks, name, address)?;
            Ok(())
        }
        Some(old) => {
            if old == address as i32 {
                Ok(())
            } else {
                Err(MarksError::Fault(fault_at(
                    number,
                    fields.rest_column,
                    MarksFaultKind::DuplicateName,
                )))
            }
        }
    }
}

/// Takes a name for an address.
fn take_name(
    alloc: Global,
    profile: Profile,
    marks: &mut Marks,
    number: usize,
    line: &[u8],
    fields: &Fields<'_>,
    address: u16,
    name: &[u8],
) -> Result<(), MarksError>
    ensures { IsRead result (marks_view marks.new) (name_read profile number line.now
        (fields_view fields.now) address name.now (marks_view marks.old)) }
{
    if !is_name(alloc, profile, name, address)? {
        return Err(MarksError::Fault(fault_at(
            number,
            fields.rest_column,
            MarksFaultKind::BadName,
        )));
    }
    let behind = behind_word(fields.rest);
    if !is_nothing(behind) {
        return Err(MarksError::Fault(fault_at(
            number,
            column_of(line, behind),
            MarksFaultKind::JunkBehind,
        )));
    }
    take_name_once(alloc, marks, number, fields, address, name)
}

/// Takes a label.
fn take_label(
    alloc: Global,
    profile: Profile,
    marks: &mut Marks,
    number: usize,
    line: &[u8],
    fields: &Fields<'_>,
) -> Result<(), MarksError>
    ensures { IsRead result (marks_view marks.new) (label_read profile number line.now
        (fields_view fields.now) (marks_view marks.old) (address_of fields.now.value.now)) }
{
    let Some(address) = address_of(fields.value) else {
        return Err(MarksError::Fault(fault_at(
            number,
            fields.value_column,
            MarksFaultKind::BadAddress,
        )));
    };
    let name = first_field(fields.rest);
    take_name(alloc, profile, marks, number, line, fields, address, name)
}

/// Takes a comment.
fn take_remark(
    marks: &mut Marks,
    number: usize,
    fields: &Fields<'_>,
    is_block: bool,
) -> Result<(), MarksError>
    ensures { IsRead result (marks_view marks.new) (remark_read number (fields_view fields.now)
        is_block (marks_view marks.old) (address_of fields.now.value.now)) }
{
    let Some(address) = address_of(fields.value) else {
        return Err(MarksError::Fault(fault_at(
            number,
            fields.value_column,
            MarksFaultKind::BadAddress,
        )));
    };
    if !is_text(fields.rest) {
        return Err(MarksError::Fault(fault_at(
            number,
            fields.rest_column,
            MarksFaultKind::BadText,
        )));
    }
    push_remark(marks, address, is_block, fields.rest)?;
    Ok(())
}

/// Takes what a line marks.
fn take_mark(
    alloc: Global,
    profile: Profile,
    marks: &mut Marks,
    number: usize,
    line: &[u8],
    fields: &Fields<'_>,
    word: Option<MarkWord>,
) -> Result<(), MarksError>
    ensures { IsRead result (marks_view marks.new) (mark_read profile number line.now
        (fields_view fields.now) (marks_view marks.old) word) }
{
    match word {
        None => Err(MarksError::Fault(fault_at(
            number,
            fields.word_column,
            MarksFaultKind::UnknownMark,
        ))),
        Some(MarkWord::Range(kind)) => take_range(marks, number, fields, kind),
        Some(MarkWord::Split(more)) => take_split(marks, number, line, fields, more),
        Some(MarkWord::Follow) => take_following(marks, number, fields),
        Some(MarkWord::Routine) => take_routine(marks, number, fields),
        Some(MarkWord::Label) => take_label(alloc, profile, marks, number, line, fields),
        Some(MarkWord::Comment(is_block)) => take_remark(marks, number, fields, is_block),
    }
}

/// Takes what the fields of a line say.
fn take_fields(
    alloc: Global,
    profile: Profile,
    marks: &mut Marks,
    number: usize,
    line: &[u8],
    fields: &Fields<'_>,
) -> Result<(), MarksError>
    ensures { IsRead result (marks_view marks.new) (fields_read profile number line.now
        (fields_view fields.now) (marks_view marks.old)) }
{
    let word = word_of(fields.word);
    take_mark(alloc, profile, marks, number, line, fields, word)
}

/// Takes a line of a file of marks.
#[tactic(auto, unfolding(crate::specs::MarksFile::line_read))]
pub fn take_line(
    alloc: Global,
    profile: Profile,
    marks: &mut Marks,
    number: usize,
    line: &[u8],
) -> Result<(), MarksError>
    ensures { IsRead result (marks_view marks.new)
        (line_read profile number line.now (marks_view marks.old)) }
{
    if is_nothing(without_blanks(line)) {
        return Ok(());
    }
    let fields = fields_of(line);
    take_fields(alloc, profile, marks, number, line, &fields)
}
