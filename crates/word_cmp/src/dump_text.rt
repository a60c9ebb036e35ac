//! What is said last of two images that differ: in how many bytes, and which fault explains it.

ghost use Rattle.std.specs.List.{list_all};
ghost use Rattle.std.specs.Prelude.{◌≡◌, ◌++◌, OnOk, string_bytes};
ghost use Rattle.dump_faults.specs.Changes.{changes_of};
ghost use Rattle.word_cmp.specs.DumpRows.{changes_text, count_row, dump_text, exchange_text};
ghost use Rattle.word_cmp.specs.DumpRows.{fault_row, fault_rows, fault_text, flips_text};
ghost use Rattle.word_cmp.specs.DumpRows.{is_from};
ghost use Rattle.word_cmp.specs.DumpRows.{is_of_line, known_line_text, line_name, sides_text};
ghost use Rattle.word_cmp.specs.DumpRows.{some_flips_text, stuck_rows, stuck_text, value_name};
ghost use Rattle.word_cmp.specs.DumpRows.{explained_text, first_value, second_value};
ghost use Rattle.word_cmp.specs.DumpRows.{values_text, which_text};
ghost use Rattle.word_cmp.specs.Sides.{side_view};

use crate::sides::Side;
use crate::wording;
use dump_faults::{
    Bus, Change, Fault, Flip, Stuck, changes_of, faults_between, flips_of, stuck_between,
};
use std::alloc::{AllocError, Global};
use tape_words::push_count;

/// Returns whether a change of one line is of this line.
fn is_of_line(line: u8, flip: Flip) -> bool
    ensures { result ≡ is_of_line line flip }
{
    flip.line == line
}

/// Returns whether a change of one line is from a value.
fn is_from(was: bool, flip: Flip) -> bool
    ensures { result ≡ is_from was flip }
{
    if was { flip.was } else { !flip.was }
}

/// Returns the words for a line's value on the first side.
fn first_value(was: bool) -> &'static str
    ensures { result.now ≡ first_value was }
{
    if was {
        wording::IS_1_IN
    } else {
        wording::IS_0_IN
    }
}

/// Returns the words for its value on the second side.
fn second_value(was: bool) -> &'static str
    ensures { result.now ≡ second_value was }
{
    if was {
        wording::AND_0_IN
    } else {
        wording::AND_1_IN
    }
}

/// Appends which value a line has on each side.
#[tactic(auto, unfolding(crate::specs::DumpRows::sides_text))]
fn push_sides(
    words: &mut String,
    one: &Side<'_>,
    other: &Side<'_>,
    was: bool,
) -> Result<(), AllocError>
    ensures { OnOk result (string_bytes words.new ≡ string_bytes words.old
        ++ sides_text (side_view one.now) (side_view other.now) was) }
{
    words.push_str(first_value(was))?;
    words.push_str(one.name())?;
    words.push_str(second_value(was))?;
    words.push_str(other.name())
}

/// Returns whether changes of one line are all from a value.
fn are_from(was: bool, flips: &[Flip]) -> bool
    ensures { result ≡ list_all (is_from was) flips.now }
{
    flips.iter().all(|flip| is_from(was, *flip))
}

/// Appends which value a line has on each side, if it is always the same.
fn push_values(
    words: &mut String,
    one: &Side<'_>,
    other: &Side<'_>,
    was: bool,
    flips: &[Flip],
) -> Result<(), AllocError>
    ensures { OnOk result (string_bytes words.new ≡ string_bytes words.old
        ++ values_text (side_view one.now) (side_view other.now) was flips.now) }
{
    if are_from(was, flips) {
        return push_sides(words, one, other, was);
    }
    Ok(())
}

/// Appends which line it is.
#[tactic(auto, unfolding(crate::specs::DumpRows::known_line_text))]
fn push_known_line(
    words: &mut String,
    one: &Side<'_>,
    other: &Side<'_>,
    flip: Flip,
    flips: &[Flip],
) -> Result<(), AllocError>
    ensures { OnOk result (string_bytes words.new ≡ string_bytes words.old
        ++ known_line_text (side_view one.now) (side_view other.now) flip flips.now) }
{
    let line = flip.line;
    write!(words, ": D{line}")?;
    push_values(words, one, other, flip.was, flips)
}

/// Returns whether changes of one line are all of the same line.
fn are_of_line(line: u8, flips: &[Flip]) -> bool
    ensures { result ≡ list_all (is_of_line line) flips.now }
{
    flips.iter().all(|flip| is_of_line(line, *flip))
}

/// Appends which line it is, if it is always the same.
fn push_which(
    words: &mut String,
    one: &Side<'_>,
    other: &Side<'_>,
    flip: Flip,
    flips: &[Flip],
) -> Result<(), AllocError>
    ensures { OnOk result (string_bytes words.new ≡ string_bytes words.old
        ++ which_text (side_view one.now) (side_view other.now) flip flips.now) }
{
    if are_of_line(flip.line, flips) {
        return push_known_line(words, one, other, flip, flips);
    }
    Ok(())
}

/// Appends how many bytes differ in one line alone, and what is known of it.
#[tactic(auto, unfolding(crate::specs::DumpRows::some_flips_text))]
fn push_some_flips(
    words: &mut String,
    one: &Side<'_>,
    other: &Side<'_>,
    flip: Flip,
    flips: &[Flip],
) -> Result<(), AllocError>
    ensures { OnOk result (string_bytes words.new ≡ string_bytes words.old
        ++ some_flips_text (side_view one.now) (side_view other.now) flip flips.now) }
{
    let count = flips.len();
    write!(words, ", {count}")?;
    words.push_str(wording::IN_ONE_BIT)?;
    push_which(words, one, other, flip, flips)
}

/// Appends how many bytes differ in one line alone, if some do.
fn push_flips(
    words: &mut String,
    one: &Side<'_>,
    other: &Side<'_>,
    flips: &[Flip],
) -> Result<(), AllocError>
    ensures { OnOk result (string_bytes words.new ≡ string_bytes words.old
        ++ flips_text (side_view one.now) (side_view other.now) flips.now) }
{
    match flips {
        [] => Ok(()),
        [flip, ..] => push_some_flips(words, one, other, *flip, flips),
    }
}

/// Appends the row of the bytes that differ.
#[tactic(auto, unfolding(crate::specs::DumpRows::count_row))]
fn push_count_row(
    alloc: Global,
    words: &mut String,
    one: &Side<'_>,
    other: &Side<'_>,
    changes: &[Change],
) -> Result<(), AllocError>
    ensures { OnOk result (string_bytes words.new ≡ string_bytes words.old
        ++ count_row (side_view one.now) (side_view other.now) changes.now) }
{
    let flips = flips_of(alloc, changes)?;
    push_count(
        words,
        changes.len() as u64,
        wording::BYTE_DIFFERS,
        wording::BYTES_DIFFER,
    )?;
    push_flips(words, one, other, &flips)?;
    words.push_str("\n")
}

/// Appends the row of the bytes that differ, if some do.
fn push_changes(
    alloc: Global,
    words: &mut String,
    one: &Side<'_>,
    other: &Side<'_>,
) -> Result<(), AllocError>
    ensures { OnOk result (string_bytes words.new ≡ string_bytes words.old
        ++ changes_text (side_view one.now) (side_view other.now)
        (changes_of one.now.image other.now.image)) }
{
    let changes = changes_of(alloc, one.image(), other.image())?;
    if changes.is_empty() {
        return Ok(());
    }
    push_count_row(alloc, words, one, other, &changes)
}

/// Appends the name of a line.
fn push_line_name(words: &mut String, bus: Bus, line: u8) -> Result<(), AllocError>
    ensures { OnOk result (string_bytes words.new ≡ string_bytes words.old ++ line_name bus line) }
{
    match bus {
        Bus::Data => write!(words, "D{line}"),
        Bus::Address => write!(words, "A{line}"),
    }
}

/// Returns the words for a line at a value.
fn value_name(value: bool) -> &'static str
    ensures { result.now ≡ value_name value }
{
    if value { wording::AT_1 } else { wording::AT_0 }
}

/// Appends a line with its value.
#[tactic(auto, unfolding(crate::specs::DumpRows::stuck_text))]
fn push_stuck(words: &mut String, stuck: Stuck) -> Result<(), AllocError>
    ensures { OnOk result (string_bytes words.new ≡ string_bytes words.old ++ stuck_text stuck) }
{
    push_line_name(words, stuck.bus, stuck.line)?;
    words.push_str(value_name(stuck.value))
}

/// Appends two lines that are exchanged.
#[tactic(auto, unfolding(crate::specs::DumpRows::exchange_text))]
fn push_exchange(words: &mut String, bus: Bus, one: u8, other: u8) -> Result<(), AllocError>
    ensures { OnOk result (string_bytes words.new
        ≡ string_bytes words.old ++ exchange_text bus one other) }
{
    push_line_name(words, bus, one)?;
    words.push_str(wording::AND)?;
    push_line_name(words, bus, other)?;
    words.push_str(wording::EXCHANGED)
}

/// Appends what a fault does.
fn push_fault(words: &mut String, fault: Fault) -> Result<(), AllocError>
    ensures { OnOk result (string_bytes words.new ≡ string_bytes words.old ++ fault_text fault) }
{
    match fault {
        Fault::Stuck(stuck) => push_stuck(words, stuck),
        Fault::Exchanged(bus, one, other) => push_exchange(words, bus, one, other),
        Fault::Inverted => words.push_str(wording::INVERTED),
    }
}

/// Appends that one side is the other with a fault.
#[tactic(auto, unfolding(crate::specs::DumpRows::explained_text))]
fn push_explained(words: &mut String, one: &Side<'_>, other: &Side<'_>) -> Result<(), AllocError>
    ensures { OnOk result (string_bytes words.new ≡ string_bytes words.old
        ++ explained_text (side_view one.now) (side_view other.now)) }
{
    words.push_str(one.name())?;
    words.push_str(wording::IS)?;
    words.push_str(other.name())?;
    words.push_str(wording::WITH)
}

/// Appends the row of a fault that explains all bytes of one side by the other.
#[tactic(auto, unfolding(crate::specs::DumpRows::fault_row))]
fn push_fault_row(
    words: &mut String,
    one: &Side<'_>,
    other: &Side<'_>,
    fault: Fault,
) -> Result<(), AllocError>
    ensures { OnOk result (string_bytes words.new ≡ string_bytes words.old
        ++ fault_row (side_view one.now) (side_view other.now) fault) }
{
    push_explained(words, one, other)?;
    push_fault(words, fault)?;
    words.push_str("\n")
}

/// Appends the rows of the lines that explain one side by the other if they always have one value.
fn push_stuck_rows(
    alloc: Global,
    words: &mut String,
    one: &Side<'_>,
    other: &Side<'_>,
) -> Result<(), AllocError>
    ensures { OnOk result (string_bytes words.new ≡ string_bytes words.old
        ++ stuck_rows (side_view one.now) (side_view other.now)) }
{
    let found = stuck_between(alloc, one.image(), other.image())?;
    for stuck in &found {
        push_fault_row(words, one, other, Fault::Stuck(*stuck))?;
    }
    Ok(())
}

/// Appends the rows of the other faults that explain one side by the other.
fn push_fault_rows(
    alloc: Global,
    words: &mut String,
    one: &Side<'_>,
    other: &Side<'_>,
) -> Result<(), AllocError>
    ensures { OnOk result (string_bytes words.new ≡ string_bytes words.old
        ++ fault_rows (side_view one.now) (side_view other.now)) }
{
    let found = faults_between(alloc, one.image(), other.image())?;
    for fault in &found {
        push_fault_row(words, one, other, *fault)?;
    }
    Ok(())
}

/// Appends in how many bytes two sides differ, and which faults explain it.
#[tactic(auto, unfolding(crate::specs::DumpRows::dump_text))]
pub fn push_dump_text(
    alloc: Global,
    words: &mut String,
    one: &Side<'_>,
    other: &Side<'_>,
) -> Result<(), AllocError>
    ensures { OnOk result (string_bytes words.new ≡ string_bytes words.old
        ++ dump_text (side_view one.now) (side_view other.now)) }
{
    push_changes(alloc, words, one, other)?;
    push_stuck_rows(alloc, words, one, other)?;
    push_fault_rows(alloc, words, one, other)?;
    push_stuck_rows(alloc, words, other, one)
}
