//! Runs to where another line of a source begins.

ghost use Rattle.std.specs.Prelude.{◌≡◌, ◌&&◌, is_some, not};
ghost use Rattle.line_steps.specs.Lines.{begun, is_other};
ghost use Rattle.model.specs.Run.{after_steps};
ghost use Rattle.mon_by_line.specs.LineRuns.{line_run};
ghost use Rattle.mon_runs.specs.PastBreaks.{most_steps};

use line_steps::{FileLine, LineStart, begun, call_begun, call_open, is_other};
use mon_runs::{EndWhy, Ended, Goal, MOST_STEPS, Session, Stops, make_step};

/// Returns whether another line than `line` begins at the current state, and the run is within no
/// call.
fn is_at_line(
    session: &Session,
    lines: &[LineStart],
    line: Option<FileLine>,
    call: Option<u8>,
) -> bool
    ensures { result ≡ (not (is_some call)
        && is_other line (begun lines.now session.now.current)) }
{
    !call.is_some() && is_other(line, begun(session, lines))
}

/// Makes up to `limit` steps, each of which is looked at, until one leads to where another line
/// than `line` begins within no call of the run, or ends the run.
fn lead_to_line(
    session: &mut Session,
    stops: &mut Stops,
    lines: &[LineStart],
    line: Option<FileLine>,
    limit: u32,
) -> Ended
    ensures steps { session.new ≡ after_steps result.did session.old }
    ensures run { line_run lines.now line limit stops.old.watches.items
        (session.old, stops.old.breaks.items)
        ≡ (result, (session.new, stops.new.breaks.items)) }
    ensures watches { stops.new.watches ≡ stops.old.watches }
    ensures changes { stops.new.changes ≡ stops.old.changes }
{
    let mut call = None;
    for done in 0..limit {
        let within = call_begun(call, session);
        let made = make_step(session, stops, Goal::Rest, None);
        if let Some(why) = made.why {
            return Ended {
                did: done as u64 + made.did as u64,
                why,
                from: Some(made.from),
            };
        }
        call = call_open(within, session);
        if is_at_line(session, lines, line, call) {
            return Ended {
                did: done as u64 + 1,
                why: EndWhy::Met,
                from: None,
            };
        }
    }
    Ended {
        did: limit as u64,
        why: EndWhy::Many,
        from: None,
    }
}

/// Runs to the first later state at which another line than `line` begins, and that is within no
/// call of the run. Ends before where `go` does.
pub fn line(
    session: &mut Session,
    stops: &mut Stops,
    lines: &[LineStart],
    line: Option<FileLine>,
) -> Ended
    ensures steps { session.new ≡ after_steps result.did session.old }
    ensures run { line_run lines.now line most_steps stops.old.watches.items
        (session.old, stops.old.breaks.items)
        ≡ (result, (session.new, stops.new.breaks.items)) }
    ensures watches { stops.new.watches ≡ stops.old.watches }
    ensures changes { stops.new.changes ≡ stops.old.changes }
{
    lead_to_line(session, stops, lines, line, MOST_STEPS)
}
