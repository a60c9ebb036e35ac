//! The console's output.

ghost use Rattle.std.specs.Prelude.{◌≡◌, ◌≤◌, ◌++◌, OnOk, drop, length};
ghost use Rattle.std.specs.List.{flat_map};
ghost use Rattle.mon_texts.specs.Screen.{is_open, line_end, output_since, output_text};
ghost use Rattle.mon_texts.specs.Screen.{screen_text, with_line_end};

use crate::wording::{NOTHING_WRITTEN, OUTPUT};
use debugger::Session;
use formatting::push_text;
use mon_instructions::push_character;
use std::alloc::AllocError;

/// Appends what a byte of the output shows: LF ends the line, and CR is left out.
fn push_shown(text: &mut Vec<u8>, byte: u8) -> Result<(), AllocError>
    ensures { OnOk result (text.new.items ≡ text.old.items ++ output_text byte) }
{
    match byte {
        b'\n' => push_text(text, "\n"),
        b'\r' => Ok(()),
        _ => push_character(text, byte),
    }
}

/// Appends what the bytes of the output from an index on show.
fn push_output(text: &mut Vec<u8>, session: &Session, from: u32) -> Result<(), AllocError>
    requires { from ≤ length session.now.current.bus.out }
    ensures { OnOk result (text.new.items ≡ text.old.items
        ++ flat_map output_text (drop from session.now.current.bus.out)) }
{
    for index in from..session.output_len() {
        push_shown(text, session.output_at(index).unwrap_or(0))?;
    }
    Ok(())
}

/// Returns whether the last line of a text is open.
fn is_open(text: &[u8]) -> bool
    ensures { result ≡ is_open text.now }
{
    match text.last() {
        Some(byte) => *byte != b'\n',
        None => false,
    }
}

/// Ends the last line of what follows the first `from` bytes, if it is open.
fn push_line_end(text: &mut Vec<u8>, from: usize) -> Result<(), AllocError>
    requires { from ≤ length text.old.items }
    ensures { OnOk result (text.new.items ≡ text.old.items
        ++ line_end (drop from text.old.items)) }
{
    if is_open(&text[from..]) {
        text.push(b'\n')?;
    }
    Ok(())
}

/// Appends what the bytes of the output from an index on show, the last line ended.
fn push_lines(text: &mut Vec<u8>, session: &Session, from: u32) -> Result<(), AllocError>
    requires { from ≤ length session.now.current.bus.out }
    ensures { OnOk result (text.new.items ≡ text.old.items
        ++ with_line_end (flat_map output_text (drop from session.now.current.bus.out))) }
{
    let start = text.len();
    push_output(text, session, from)?;
    push_line_end(text, start)
}

/// Appends the console's output as text, its last line ended, or that there is none yet.
///
/// Errors: `AllocError` if an allocation fails.
#[tactic(auto, unfolding(crate::specs::Screen::screen_text))]
pub fn push_screen(text: &mut Vec<u8>, session: &Session) -> Result<(), AllocError>
    ensures ok { OnOk result (text.new.items ≡ text.old.items
        ++ screen_text session.now.current.bus.out) }
{
    if session.output_len() == 0 {
        return push_text(text, NOTHING_WRITTEN);
    }
    push_lines(text, session, 0)
}

/// Appends the console's output from an index on as text, its last line ended, behind a word that
/// says so. Appends nothing if there is no more output.
///
/// Errors: `AllocError` if an allocation fails.
pub fn push_output_since(text: &mut Vec<u8>, session: &Session, from: u32) -> Result<(), AllocError>
    ensures ok { OnOk result (text.new.items ≡ text.old.items
        ++ output_since from session.now.current.bus.out) }
{
    if from < session.output_len() {
        push_text(text, OUTPUT)?;
        push_lines(text, session, from)
    } else {
        Ok(())
    }
}
