//! Lines that go to where a line of a source begins: forwards by a run, or back.

ghost use Rattle.std.specs.Prelude.{◌≡◌, ◌++◌, IfOk, OnOk, length};
ghost use Rattle.std.specs.Option.{option_copied, option_to_list};
ghost use Rattle.line_steps.specs.Back.{events_to_line, gone_back};
ghost use Rattle.mon_session.specs.Course.{KeepsStops, ShowsOnly, course_of};
ghost use Rattle.mon_by_line.specs.ByLine.{back_here_text, back_text, came_text, here_text, is_met};
ghost use Rattle.mon_by_line.specs.ByLine.{known_text, line_arrival, line_at, line_back_text};
ghost use Rattle.mon_by_line.specs.ByLine.{line_end_text, line_run_text, line_start, line_starts};
ghost use Rattle.mon_by_line.specs.ByLine.{no_lines, place_of, ran_to_line, row_here, run_by_line_text};
ghost use Rattle.mon_by_line.specs.ByLine.{source_text, undone_if_held, undone_to_line};
ghost use Rattle.mon_steps.specs.RunLines.{KeepsWatches, arrived, stand_of, watches_of};
ghost use Rattle.mon_steps.specs.RunTexts.{begun_at};

use crate::line_runs::line;
use formatting::push_text;
use line_steps::{FileLine, LineStart, back_by_line};
use mon_instructions::push_line_text;
use mon_runs::{EndWhy, Ended};
use mon_session::MonState;
use mon_steps::wording::{BACK_AT_OLDEST, EVENT_UNDONE, EVENTS_UNDONE, HERE, NONE_HELD};
use mon_steps::{Begun, push_after, show_end, show_since, tell_also_undone, tell_ended};
use mon_texts::wording::NO_SOURCE;
use source_map::{Places, Row};
use std::alloc::{AllocError, Global};

/// Returns where the line of a row begins, if it begins with the row's bytes.
fn line_start(row: Row) -> Option<LineStart>
    ensures { result ≡ line_start row }
{
    if row.begins_line {
        Some(LineStart {
            address: row.address,
            line: FileLine {
                file: row.file,
                line: row.line,
            },
        })
    } else {
        None
    }
}

/// Appends where a line begins, if one does.
fn push_start(starts: &mut Vec<LineStart>, start: Option<LineStart>) -> Result<(), AllocError>
    ensures { OnOk result (starts.new.items ≡ starts.old.items ++ option_to_list start) }
{
    if let Some(start) = start {
        starts.push(start)?;
    }
    Ok(())
}

/// Returns where the lines of rows begin.
pub fn line_starts(alloc: Global, rows: &[Row]) -> Result<Vec<LineStart>, AllocError>
    ensures { IfOk result (λ starts. starts.items ≡ line_starts rows.now) }
{
    let mut starts = Vec::new(alloc);
    for row in rows {
        push_start(&mut starts, line_start(*row))?;
    }
    Ok(starts)
}

/// Returns the line whose row stands at an address, if one does.
pub fn line_at(places: &Places, address: u16) -> Option<FileLine>
    ensures { result ≡ line_at places.now.lines address }
{
    match places.row_at(address) {
        Some(row) => Some(FileLine {
            file: row.file,
            line: row.line,
        }),
        None => None,
    }
}

/// Appends the text of a line, if it is known.
fn push_known(text: &mut Vec<u8>, line: Option<&[u8]>) -> Result<(), AllocError>
    ensures { OnOk result (text.new.items ≡ text.old.items
        ++ known_text (option_copied line.entry)) }
{
    let Some(line) = line else {
        return Ok(());
    };
    push_text(text, "  ")?;
    push_line_text(text, line)?;
    push_text(text, "\n")
}

/// Appends the text of a row's line, if there is a row and the text is known.
fn push_source(text: &mut Vec<u8>, places: &Places, row: Option<Row>) -> Result<(), AllocError>
    ensures { OnOk result (text.new.items ≡ text.old.items ++ source_text places.now row) }
{
    match row {
        Some(row) => push_known(text, places.text_of(row.file, row.line)),
        None => Ok(()),
    }
}

/// Appends the line of a row, if there is one.
fn push_place_of(text: &mut Vec<u8>, places: &Places, row: Option<Row>) -> Result<(), AllocError>
    ensures { OnOk result (text.new.items ≡ text.old.items ++ place_of places.now row) }
{
    match row {
        Some(row) => places.push_site(text, row),
        None => Ok(()),
    }
}

/// Returns the row at the program counter, if there is one.
fn row_here(mon: &MonState) -> Option<Row>
    ensures { result ≡ row_here mon.now.session.current mon.now.places }
{
    mon.places.row_at(mon.session.regs().pc)
}

/// Says at which line the session is.
fn say_here(mon: &mut MonState) -> Result<(), AllocError>
    ensures shows { ShowsOnly mon.old mon.new }
    ensures text { OnOk result (mon.new.text.items ≡ mon.old.text.items
        ++ here_text mon.old.session.current mon.old.places) }
{
    let row = row_here(mon);
    push_text(&mut mon.text, HERE)?;
    push_place_of(&mut mon.text, &mon.places, row)
}

/// Shows the text of the line at which the session is, if it is known.
fn show_source(mon: &mut MonState) -> Result<(), AllocError>
    ensures shows { ShowsOnly mon.old mon.new }
    ensures text { OnOk result (mon.new.text.items ≡ mon.old.text.items
        ++ source_text mon.old.places (row_here mon.old.session.current mon.old.places)) }
{
    let row = row_here(mon);
    push_source(&mut mon.text, &mon.places, row)
}

/// Says that a run came to a line, and shows its text.
fn say_came(mon: &mut MonState, did: u64) -> Result<(), AllocError>
    ensures shows { ShowsOnly mon.old mon.new }
    ensures text { OnOk result (mon.new.text.items ≡ mon.old.text.items
        ++ came_text mon.old.session.current mon.old.places did) }
{
    say_here(mon)?;
    push_after(&mut mon.text, did)?;
    show_source(mon)
}

/// Returns whether a run has met its goal.
fn is_met(why: EndWhy) -> bool
    ensures { result ≡ is_met why }
{
    matches!(why, EndWhy::Met)
}

/// Says how a run to a line has ended, and shows where.
fn show_line_end(mon: &mut MonState, end: Ended, begun: Begun) -> Result<(), AllocError>
    ensures shows { ShowsOnly mon.old mon.new }
    ensures text { OnOk result (mon.new.text.items ≡ mon.old.text.items
        ++ line_end_text mon.old.places begun
        (end, (mon.old.session, mon.old.stops.breaks.items))) }
{
    if !is_met(end.why) {
        return show_end(mon, end, begun);
    }
    say_came(mon, end.did)?;
    show_since(mon, begun)
}

/// Runs to where another line begins than the one at the program counter, and notes the steps.
/// `starts` says where lines begin.
fn make_line_run(mon: &mut MonState, starts: &[LineStart]) -> Ended
    ensures stand { stand_of mon.new
        ≡ arrived (line_arrival starts.now mon.old.places (watches_of mon.old) (stand_of mon.old))
        (stand_of mon.old) }
    ensures end { result
        ≡ (line_arrival starts.now mon.old.places (watches_of mon.old) (stand_of mon.old)).0 }
    ensures session { mon.new.session
        ≡ (line_arrival starts.now mon.old.places (watches_of mon.old) (stand_of mon.old)).1.0 }
    ensures text { mon.new.text ≡ mon.old.text }
    ensures watches { KeepsWatches mon.old mon.new }
{
    let from = line_at(&mon.places, mon.session.regs().pc);
    let end = line(&mut mon.session, &mut mon.stops, starts, from);
    mon.events.note_steps(end.did);
    end
}

/// Runs to where another line begins, and says how that ended.
fn go_to_line(mon: &mut MonState, starts: &[LineStart]) -> Result<(), AllocError>
    ensures stand { stand_of mon.new
        ≡ arrived (line_arrival starts.now mon.old.places (watches_of mon.old) (stand_of mon.old))
        (stand_of mon.old) }
    ensures watches { KeepsWatches mon.old mon.new }
    ensures text { OnOk result (mon.new.text.items ≡ mon.old.text.items
        ++ line_end_text mon.old.places (begun_at (stand_of mon.old))
        (line_arrival starts.now mon.old.places (watches_of mon.old) (stand_of mon.old))) }
{
    let begun = Begun::at(mon);
    let end = make_line_run(mon, starts);
    show_line_end(mon, end, begun)
}

/// Runs to where another line begins, and says how that ended. Where the program has ended before,
/// it says that first.
fn run_by_line(mon: &mut MonState, starts: &[LineStart]) -> Result<(), AllocError>
    ensures stand { OnOk result (stand_of mon.new
        ≡ arrived (line_arrival starts.now mon.old.places (watches_of mon.old) (stand_of mon.old))
        (stand_of mon.old)) }
    ensures watches { KeepsWatches mon.old mon.new }
    ensures text { OnOk result (mon.new.text.items ≡ mon.old.text.items
        ++ run_by_line_text starts.now (watches_of mon.old) mon.old.places
        (stand_of mon.old)) }
{
    tell_ended(mon)?;
    go_to_line(mon, starts)
}

/// Says that no lines are known.
fn say_no_lines(mon: &mut MonState) -> Result<(), AllocError>
    ensures shows { ShowsOnly mon.old mon.new }
    ensures text { OnOk result (mon.new.text.items ≡ mon.old.text.items ++ no_lines) }
{
    mon.say(NO_SOURCE)?;
    mon.say("\n")
}

/// Runs to where another line of the source begins, and says how that ended. Where the program has
/// ended before, it says that first.
///
/// Errors: `AllocError` if an allocation fails, before the run or after it.
pub fn run_to_line(mon: &mut MonState, alloc: Global) -> Result<(), AllocError>
    ensures stand { OnOk result (stand_of mon.new
        ≡ ran_to_line mon.old.places (watches_of mon.old) (stand_of mon.old)) }
    ensures watches { KeepsWatches mon.old mon.new }
    ensures text { OnOk result (mon.new.text.items ≡ mon.old.text.items
        ++ line_run_text (watches_of mon.old) mon.old.places (stand_of mon.old)) }
{
    if !mon.places.has_lines() {
        return say_no_lines(mon);
    }
    let starts = line_starts(alloc, mon.places.rows())?;
    run_by_line(mon, starts.as_slice())
}

/// Undoes as many events as lead back to where a line begins, and notes them. Returns how many
/// those are.
fn go_back_to_line(mon: &mut MonState, starts: &[LineStart]) -> u32
    ensures count { result ≡ events_to_line starts.now mon.old.session }
    ensures session { mon.new.session ≡ gone_back result mon.old.session }
    ensures course { course_of mon.new ≡ undone_to_line starts.now (course_of mon.old) }
    ensures stops { KeepsStops mon.old mon.new }
    ensures text { mon.new.text ≡ mon.old.text }
{
    let count = back_by_line(&mut mon.session, starts);
    mon.events.note_undone(count);
    count
}

/// Says at which line the session is, how many events were undone, and shows the state before them.
fn tell_back_here(mon: &mut MonState, count: u32) -> Result<(), AllocError>
    ensures shows { ShowsOnly mon.old mon.new }
    ensures text { OnOk result (mon.new.text.items ≡ mon.old.text.items
        ++ back_here_text count mon.old.session.current mon.old.places) }
{
    say_here(mon)?;
    mon.say(", ")?;
    mon.count(count as u64, EVENT_UNDONE, EVENTS_UNDONE)?;
    show_source(mon)?;
    mon.show(None)
}

/// Says where the way back has ended. `count` events were undone, of `held` that were held.
fn tell_back(mon: &mut MonState, count: u32, held: u32) -> Result<(), AllocError>
    ensures shows { ShowsOnly mon.old mon.new }
    ensures text { OnOk result (mon.new.text.items ≡ mon.old.text.items
        ++ back_text count held mon.old.session.current mon.old.places) }
{
    if count != held {
        return tell_back_here(mon, count);
    }
    mon.say(BACK_AT_OLDEST)?;
    tell_also_undone(mon, count)
}

/// Goes back to where a line begins, or to the oldest state held, and says so.
fn undo_by_line(mon: &mut MonState, starts: &[LineStart]) -> Result<(), AllocError>
    ensures course { course_of mon.new ≡ undone_to_line starts.now (course_of mon.old) }
    ensures stops { KeepsStops mon.old mon.new }
    ensures text { OnOk result (mon.new.text.items ≡ mon.old.text.items
        ++ back_text (events_to_line starts.now mon.old.session)
        (length mon.old.session.earlier)
        (undone_to_line starts.now (course_of mon.old)).0.current mon.old.places) }
{
    let held = mon.session.held();
    let count = go_back_to_line(mon, starts);
    tell_back(mon, count, held)
}

/// Goes back to the last earlier state held at which a line of the source begins, and that is
/// within no call that has returned since, or to the oldest state held. Says so.
///
/// Errors: `AllocError` if an allocation fails, before the events are undone or after it.
pub fn undo_to_line(mon: &mut MonState, alloc: Global) -> Result<(), AllocError>
    ensures course { OnOk result
        (course_of mon.new ≡ undone_if_held mon.old.places (course_of mon.old)) }
    ensures stops { KeepsStops mon.old mon.new }
    ensures text { OnOk result (mon.new.text.items ≡ mon.old.text.items
        ++ line_back_text mon.old.places (course_of mon.old)) }
{
    if !mon.places.has_lines() {
        return say_no_lines(mon);
    }
    if mon.session.held() == 0 {
        return mon.say(NONE_HELD);
    }
    let starts = line_starts(alloc, mon.places.rows())?;
    undo_by_line(mon, starts.as_slice())
}
