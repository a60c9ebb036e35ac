//! The line of the source at which a run has ended, in a program that another tool built.

ghost use Rattle.std.specs.Prelude.{◌≡◌, ◌++◌, OnOk};
ghost use Rattle.std.specs.Option.{option_copied};
ghost use Rattle.mon_steps.specs.SourceLines.{line_here, source_line, text_behind};

use formatting::push_text;
use mon_instructions::push_line_text;
use mon_runs::Session;
use source_map::{Places, Row};
use std::alloc::AllocError;

/// Appends the text of a line, if it is known.
fn push_text_behind(text: &mut Vec<u8>, line: Option<&[u8]>) -> Result<(), AllocError>
    ensures { OnOk result (text.new.items ≡ text.old.items
        ++ text_behind (option_copied line.entry)) }
{
    let Some(line) = line else {
        return Ok(());
    };
    push_text(text, ": ")?;
    push_line_text(text, line)
}

/// Appends the line of a row with its file and its text, if there is a row.
fn push_source_line(text: &mut Vec<u8>, places: &Places, row: Option<Row>) -> Result<(), AllocError>
    ensures { OnOk result (text.new.items ≡ text.old.items ++ source_line places.now row) }
{
    let Some(row) = row else {
        return Ok(());
    };
    places.push_site(text, row)?;
    push_text_behind(text, places.text_of(row.file, row.line))?;
    push_text(text, "\n")
}

/// Appends the line of the source at the program counter, if debug information has one.
#[tactic(auto, unfolding(crate::specs::SourceLines::line_here))]
pub fn push_line_here(
    text: &mut Vec<u8>,
    session: &Session,
    places: &Places,
) -> Result<(), AllocError>
    ensures { OnOk result (text.new.items ≡ text.old.items
        ++ line_here session.now.current places.now) }
{
    if places.is_whole() {
        return Ok(());
    }
    push_source_line(text, places, places.row_at(session.regs().pc))
}
