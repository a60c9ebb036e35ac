//! Forwards by lines.

ghost use Rattle.std.specs.Prelude.{◌≡◌, ◌≤◌, ◌&&◌, ◌||◌, not, is_some};
ghost use Rattle.model.specs.Run.{after_steps, run_end};
ghost use Rattle.line_steps.specs.Forwards.{is_limit, steps_to_line};
ghost use Rattle.line_steps.specs.Lines.{begun, is_other};

use crate::calls::{call_begun, call_open};
use crate::lines::{FileLine, LineStart, begun, is_other};
use debugger::{RunEnd, Session, Why};

/// Returns whether a run ends because as many steps were made as it was to make.
fn is_limit(why: Why) -> bool
    ensures { result ≡ is_limit why }
{
    match why {
        Why::Limit => true,
        Why::Break(_) | Why::Watch(_) | Why::Refused(_) => false,
    }
}

/// Makes one step.
#[tactic(auto, using(crate::proofs::Steps::one_at_most))]
fn step_once(session: &mut Session) -> RunEnd
    ensures end { result ≡ run_end 1 session.old }
    ensures after { session.new ≡ after_steps result.did session.old }
    ensures within { result.did ≤ 1 }
{
    session.run(1)
}

/// Returns whether a run ends with its last step: another line begins at the current state, and the
/// run is within no call, or the step ended a run of the session for this reason.
fn is_end(
    session: &Session,
    lines: &[LineStart],
    from: Option<FileLine>,
    call: Option<u8>,
    why: Why,
) -> bool
    ensures { result ≡ (is_other from (begun lines.now session.now.current)
        && not (is_some call) || not (is_limit why)) }
{
    is_other(from, begun(session, lines)) && !call.is_some() || !is_limit(why)
}

/// Runs as many steps as lead to the first later state at which a line begins other than `from`,
/// and that is within no call of the run; at most `limit`. The run ends before where a run of the
/// session does: at its watches and breakpoints, and at a step that is refused. Does not allocate.
pub fn run_by_line(
    session: &mut Session,
    lines: &[LineStart],
    from: Option<FileLine>,
    limit: u32,
) -> RunEnd
    ensures end { result
        ≡ run_end (steps_to_line lines.now from limit session.old) session.old }
    ensures after { session.new ≡ after_steps result.did session.old }
{
    let mut call = None;
    for done in 0..limit {
        let begun = call_begun(call, session);
        let end = step_once(session);
        if end.did == 0 {
            return RunEnd {
                did: done,
                why: end.why,
            };
        }
        call = call_open(begun, session);
        if is_end(session, lines, from, call, end.why) {
            return RunEnd {
                did: done + 1,
                why: end.why,
            };
        }
    }
    RunEnd {
        did: limit,
        why: Why::Limit,
    }
}
