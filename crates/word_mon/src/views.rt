//! What a screen shows after a line.

ghost use Rattle.std.specs.Prelude.{◌≡◌};
ghost use Rattle.mon_lines.specs.Lines.{asked_view, command_view};
ghost use Rattle.word_mon.specs.Views.{IsRedrawn, IsViewAfter, IsViewBy, drawing_by, drawing_in};
ghost use Rattle.word_mon.specs.Views.{has_pages_of, meant_by, served_view, stretch_by, stretch_in};

use mon_lines::{Command, Drawing, Slip, Stretch};
use mon_screen::{Size, View, has_more, next_skipped};
use mon_session::MonState;

/// Returns the memory that a line asks for that can be read, otherwise what was shown before it.
fn stretch_in(command: &Command<'_>, shown: Stretch) -> Stretch
    ensures { result ≡ stretch_in (command_view command.now) shown }
{
    match command {
        Command::Mem(stretch) => *stretch,
        _ => shown,
    }
}

/// Returns the memory that a line asks for, otherwise what was shown before it.
fn stretch_by(asked: &Result<Command<'_>, Slip<'_>>, shown: Stretch) -> Stretch
    ensures { result ≡ stretch_by (asked_view asked.now) shown }
{
    match asked {
        Ok(command) => stretch_in(command, shown),
        Err(_) => shown,
    }
}

/// Returns how a screen is to be drawn by a line that can be read.
fn drawing_in(command: &Command<'_>) -> Option<Drawing>
    ensures { result ≡ drawing_in (command_view command.now) }
{
    match command {
        Command::Draw(drawing) => Some(*drawing),
        _ => None,
    }
}

/// Returns how a screen is to be drawn by a line.
fn drawing_by(asked: &Result<Command<'_>, Slip<'_>>) -> Option<Drawing>
    ensures { result ≡ drawing_by (asked_view asked.now) }
{
    match asked {
        Ok(command) => drawing_in(command),
        Err(_) => None,
    }
}

/// Returns what a screen shows that is drawn so again.
fn redrawn(drawing: Drawing, view: View) -> View
    ensures { IsRedrawn drawing view result }
{
    let mut drawn = view;
    match drawing {
        Drawing::More => drawn.skipped = next_skipped(view),
        Drawing::Clear => drawn.skipped = 0,
        Drawing::Size { columns, rows } => {
            drawn.size = Size::within(columns, rows);
            drawn.skipped = 0;
        }
    }
    drawn
}

/// Returns what a screen shows after any other line that was served.
fn served_view(asked: &Result<Command<'_>, Slip<'_>>, mon: &MonState, view: View) -> View
    ensures { result ≡ served_view (asked_view asked.now) mon.now view }
{
    View {
        size: view.size,
        stretch: stretch_by(asked, view.stretch),
        regs: mon.session.regs(),
        cycles: Some(mon.session.cycles()),
        skipped: 0,
    }
}

/// Returns what a screen shows after a line.
fn view_by(asked: &Result<Command<'_>, Slip<'_>>, mon: &MonState, view: View) -> View
    ensures { IsViewBy (drawing_by (asked_view asked.now)) (asked_view asked.now) mon.now view
        result }
{
    match drawing_by(asked) {
        Some(drawing) => redrawn(drawing, view),
        None => served_view(asked, mon, view),
    }
}

/// Returns what a screen shows after a line, if one is drawn.
pub fn view_after(
    asked: &Result<Command<'_>, Slip<'_>>,
    mon: &MonState,
    view: Option<View>,
) -> Option<View>
    ensures { IsViewAfter (asked_view asked.now) mon.now view result }
{
    match view {
        Some(view) => Some(view_by(asked, mon, view)),
        None => None,
    }
}

/// Returns whether the answer that a screen shows has lines on no page so far.
pub fn has_pages(view: Option<View>, answered: &[u8]) -> bool
    ensures { result ≡ has_pages_of view answered.now }
{
    match view {
        Some(view) => has_more(view, answered),
        None => false,
    }
}

/// Returns the line that a typed one stands for: where an answer has further pages, an empty one
/// turns the page, and `q` leaves the answer.
pub fn meant(has_pages: bool, line: &[u8]) -> &[u8]
    ensures { result.now ≡ meant_by has_pages line.now }
{
    if !has_pages {
        return line;
    }
    let more: &[u8] = b"screen more";
    let clear: &[u8] = b"screen clear";
    match line {
        [] => more,
        [byte] => { if *byte == b'q' { clear } else { line } }
        _ => line,
    }
}
