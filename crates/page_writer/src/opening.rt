//! What a page shows when it is opened, as facts: a step, a screen, and notes at steps.

ghost use Rattle.std.specs.Prelude.{◌≡◌, ◌++◌, OnOk};
ghost use Rattle.std.specs.List.{flat_map};
ghost use Rattle.page_writer.specs.Opening.{note_fact, opening_text, screen_fact, screen_line};
ghost use Rattle.page_writer.specs.Opening.{step_fact};

use formatting::{push_address, push_count, push_text};
use std::alloc::AllocError;

/// A note that a page shows at a step.
#[derive(Clone, Copy)]
pub struct Note<'a> {
    /// The number of steps that were made when it is shown.
    pub step: u32,
    /// What it says, in one line.
    pub text: &'a [u8],
}

/// What a page shows when it is opened.
#[derive(Clone, Copy)]
pub struct Opening<'a> {
    /// The number of steps that were made: none where nothing is said.
    pub step: Option<u32>,
    /// The first address of a screen of 32 by 32 bytes, if memory is shown as one.
    pub screen: Option<u16>,
    /// Notes at steps.
    pub notes: &'a [Note<'a>],
}

/// Appends the step at which a page is opened, if one is said.
#[tactic(auto, unfolding(crate::specs::Opening::step_fact))]
fn push_step(text: &mut Vec<u8>, step: Option<u32>) -> Result<(), AllocError>
    ensures { OnOk result (text.new.items ≡ text.old.items ++ step_fact step) }
{
    match step {
        None => Ok(()),
        Some(step) => {
            push_text(text, "at ")?;
            push_count(text, step as u64)?;
            push_text(text, "\n")
        }
    }
}

/// Appends where a screen is.
#[tactic(auto, unfolding(crate::specs::Opening::screen_line))]
fn push_screen_line(text: &mut Vec<u8>, address: u16) -> Result<(), AllocError>
    ensures { OnOk result (text.new.items ≡ text.old.items ++ screen_line address) }
{
    push_text(text, "screen ")?;
    push_address(text, address)?;
    push_text(text, "\n")
}

/// Appends where the screen is that a page shows, if it shows one.
fn push_screen(text: &mut Vec<u8>, screen: Option<u16>) -> Result<(), AllocError>
    ensures { OnOk result (text.new.items ≡ text.old.items ++ screen_fact screen) }
{
    match screen {
        None => Ok(()),
        Some(address) => push_screen_line(text, address),
    }
}

/// Appends a note: its step, and what it says.
#[tactic(auto, unfolding(crate::specs::Opening::note_fact))]
fn push_note(text: &mut Vec<u8>, note: Note<'_>) -> Result<(), AllocError>
    ensures { OnOk result (text.new.items ≡ text.old.items ++ note_fact note.entry) }
{
    push_text(text, "note ")?;
    push_count(text, note.step as u64)?;
    push_text(text, " ")?;
    text.extend_from_slice(note.text)?;
    push_text(text, "\n")
}

/// Appends notes.
fn push_notes(text: &mut Vec<u8>, notes: &[Note<'_>]) -> Result<(), AllocError>
    ensures { OnOk result (text.new.items ≡ text.old.items ++ flat_map note_fact notes.now) }
{
    for note in notes {
        push_note(text, *note)?;
    }
    Ok(())
}

/// Appends what a page shows when it is opened to the facts of its program.
///
/// Errors: `AllocError` if an allocation fails. Source: mos65.
#[tactic(auto, unfolding(crate::specs::Opening::opening_text))]
pub fn push_opening(text: &mut Vec<u8>, opening: &Opening<'_>) -> Result<(), AllocError>
    ensures { OnOk result (text.new.items ≡ text.old.items ++ opening_text opening.now) }
{
    push_step(text, opening.step)?;
    push_screen(text, opening.screen)?;
    push_notes(text, opening.notes)
}
