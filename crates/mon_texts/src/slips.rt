//! What is missing or wrong in a line.

ghost use Rattle.std.specs.Prelude.{◌≡◌, ◌++◌, OnOk, codes, map};
ghost use Rattle.std.specs.List.{flat_map};
ghost use Rattle.mon_line_parts.specs.Reading.{flaw_view};
ghost use Rattle.mon_texts.specs.Help.{example_text};
ghost use Rattle.mon_line_parts.specs.Topics.{row_view, words};
ghost use Rattle.mon_texts.specs.Slips.{candidate, candidates};
ghost use Rattle.mon_texts.specs.Slips.{lack_text, no_bytes_text, quoted, quoted_and, quoted_byte};
ghost use Rattle.mon_texts.specs.Slips.{range_text, slip_text};

use crate::help::push_example;
use crate::wording::{
    A_FILE, A_NUMBER, A_REGISTER, A_VALUE, ADDEND, AN_ADDRESS, AN_INSTRUCTION, AND, BINARY_DIGITS,
    COMPARISON, HAS_BYTES, HEX_DIGITS, LAST_ADDRESS, LEFT_OVER, LEVEL, LINE_TOO_LONG, MISSING,
    NO_LINE_FROM, NO_NAME, NO_SOURCE, NO_WORD, NOT_BETWEEN, OTHER_SOURCE, POINTS, QUOTED_TEXT,
    SEVERAL_WORDS, SUBTRAHEND, TIMES_NUMBER, TOO_MANY, UNREADABLE,
};
use formatting::{push_count, push_text};
use mon_line_parts::{Flaw, Lack, Topic, all_words, begins_with};
use mon_lines::Slip;
use std::alloc::AllocError;

/// Appends a byte between quotes.
fn push_quoted_byte(text: &mut Vec<u8>, byte: u8) -> Result<(), AllocError>
    ensures { OnOk result (text.new.items ≡ text.old.items ++ quoted_byte byte) }
{
    let shown = match byte {
        b' '..=b'~' => byte,
        _ => b'?',
    };
    text.push(shown)?;
    Ok(())
}

/// Appends the bytes of a piece of a line.
fn push_piece(text: &mut Vec<u8>, piece: &[u8]) -> Result<(), AllocError>
    ensures { OnOk result (text.new.items ≡ text.old.items ++ flat_map quoted_byte piece.now) }
{
    for byte in piece {
        push_quoted_byte(text, *byte)?;
    }
    Ok(())
}

/// Appends a piece of a line between quotes.
fn push_quoted(text: &mut Vec<u8>, piece: &[u8]) -> Result<(), AllocError>
    ensures { OnOk result (text.new.items ≡ text.old.items ++ quoted piece.now) }
{
    text.push(b'\'')?;
    push_piece(text, piece)?;
    text.push(b'\'')?;
    Ok(())
}

/// Appends a piece of a line between quotes, and words.
fn push_quoted_and(text: &mut Vec<u8>, piece: &[u8], words: &str) -> Result<(), AllocError>
    ensures { OnOk result (text.new.items ≡ text.old.items ++ quoted_and piece.now words.now) }
{
    push_quoted(text, piece)?;
    push_text(text, words)
}

/// Appends a word behind a blank, if it begins with a piece.
fn push_candidate(text: &mut Vec<u8>, piece: &[u8], word: &[u8]) -> Result<(), AllocError>
    ensures { OnOk result (text.new.items ≡ text.old.items ++ candidate piece.now word.now) }
{
    if begins_with(word, piece) {
        text.push(b' ')?;
        text.extend_from_slice(word)?;
    }
    Ok(())
}

/// Appends those of some words that begin with a piece.
fn push_candidates(
    text: &mut Vec<u8>,
    piece: &[u8],
    rows: &[(&[u8], Topic)],
) -> Result<(), AllocError>
    ensures { OnOk result (text.new.items ≡ text.old.items
        ++ candidates piece.now (map row_view rows.now)) }
{
    for (word, _) in rows {
        push_candidate(text, piece, word)?;
    }
    Ok(())
}

/// Appends that a piece begins several words, and which.
fn push_several(text: &mut Vec<u8>, piece: &[u8]) -> Result<(), AllocError>
    ensures { OnOk result (text.new.items ≡ text.old.items
        ++ (quoted_and piece.now SEVERAL_WORDS.now ++ candidates piece.now words)) }
{
    push_quoted_and(text, piece, SEVERAL_WORDS)?;
    push_candidates(text, piece, all_words())
}

/// The words for what is missing in a line.
fn words_of(lack: Lack) -> &'static str
    ensures { result.now ≡ lack_text lack }
{
    match lack {
        Lack::HexDigits => HEX_DIGITS,
        Lack::BinaryDigits => BINARY_DIGITS,
        Lack::Address => AN_ADDRESS,
        Lack::Value => A_VALUE,
        Lack::Number => A_NUMBER,
        Lack::Addend => ADDEND,
        Lack::Subtrahend => SUBTRAHEND,
        Lack::Text => QUOTED_TEXT,
        Lack::Comparison => COMPARISON,
        Lack::Times => TIMES_NUMBER,
        Lack::Points => POINTS,
        Lack::LastAddress => LAST_ADDRESS,
        Lack::Register => A_REGISTER,
        Lack::Level => LEVEL,
        Lack::Instruction => AN_INSTRUCTION,
        Lack::File => A_FILE,
    }
}

/// Appends what is missing.
fn push_missing(text: &mut Vec<u8>, lack: Lack) -> Result<(), AllocError>
    ensures { OnOk result (text.new.items ≡ text.old.items ++ MISSING.now ++ lack_text lack) }
{
    push_text(text, MISSING)?;
    push_text(text, words_of(lack))
}

/// Appends between which numbers a number has to be.
fn push_range(text: &mut Vec<u8>, least: u32, most: u32) -> Result<(), AllocError>
    ensures { OnOk result (text.new.items ≡ text.old.items ++ range_text least most) }
{
    push_text(text, NOT_BETWEEN)?;
    push_count(text, least as u64)?;
    push_text(text, AND)?;
    push_count(text, most as u64)
}

/// Appends that no line from one on has bytes.
fn push_no_bytes(text: &mut Vec<u8>, line: u32) -> Result<(), AllocError>
    ensures { OnOk result (text.new.items ≡ text.old.items ++ no_bytes_text line) }
{
    push_text(text, NO_LINE_FROM)?;
    push_count(text, line as u64)?;
    push_text(text, HAS_BYTES)
}

/// Appends why a line cannot be read.
#[tactic(auto, unfolding(crate::specs::Slips::slip_text))]
fn push_flaw(text: &mut Vec<u8>, flaw: Flaw<'_>) -> Result<(), AllocError>
    ensures { OnOk result (text.new.items ≡ text.old.items ++ slip_text (flaw_view flaw.entry)) }
{
    match flaw {
        Flaw::Unknown(word) => push_quoted_and(text, word, NO_WORD),
        Flaw::Several(word) => push_several(text, word),
        Flaw::Missing(what) => push_missing(text, what),
        Flaw::Unreadable(piece) => push_quoted_and(text, piece, UNREADABLE),
        Flaw::Behind(piece) => push_quoted_and(text, piece, LEFT_OVER),
        Flaw::NoName(word) => push_quoted_and(text, word, NO_NAME),
        Flaw::Range { least, most } => push_range(text, least, most),
        Flaw::NoBytes(line) => push_no_bytes(text, line),
        Flaw::OtherSource(name) => push_quoted_and(text, name, OTHER_SOURCE),
        Flaw::NoSource => push_text(text, NO_SOURCE),
        Flaw::Many => push_text(text, TOO_MANY),
        Flaw::Long => push_text(text, LINE_TOO_LONG),
    }
}

/// Appends the line that says what is wrong in a line, with an example.
///
/// Errors: `AllocError` if an allocation fails.
pub fn push_slip(text: &mut Vec<u8>, slip: Slip<'_>) -> Result<(), AllocError>
    ensures ok { OnOk result (text.new.items ≡ text.old.items
        ++ slip_text (flaw_view slip.entry.flaw) ++ example_text slip.entry.topic ++ codes "\n") }
{
    push_flaw(text, slip.flaw)?;
    push_example(text, slip.topic)?;
    push_text(text, "\n")
}
