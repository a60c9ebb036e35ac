//! Runs of so many steps that go on past a break whose tests do not hold.

ghost use Rattle.std.specs.Prelude.{◌≡◌, ◌<◌, IfNone, None};
ghost use Rattle.model.specs.Run.{after_steps, run_end};
ghost use Rattle.mon_runs.specs.Looked.{after_stretch};
ghost use Rattle.mon_runs.specs.PastBreaks.{run_past, why_of_stretch};

use crate::ended::{EndWhy, Ended};
use crate::looked::is_end;
use crate::stops::Stops;
use debugger::{Session, Why};

/// How a stretch ended: how many steps it made, and why the run ends, if it does.
#[derive(Clone, Copy)]
struct Stretch {
    did: u32,
    why: Option<Why>,
}

/// Runs up to `left` steps, to the end of a stretch.
fn make_stretch(session: &mut Session, stops: &mut Stops, left: u32) -> Stretch
    ensures steps { session.new ≡ after_steps result.did session.old }
    ensures did { result.did ≡ (run_end left session.old).did }
    ensures part { IfNone result.why ((0 < result.did) × (result.did < left)) }
    ensures why { result.why ≡ why_of_stretch left (session.old, stops.old.breaks.items) }
    ensures after { (session.new, stops.new.breaks.items)
        ≡ after_stretch None left (session.old, stops.old.breaks.items) }
    ensures watches { stops.new.watches ≡ stops.old.watches }
    ensures changes { stops.new.changes ≡ stops.old.changes }
{
    let end = session.run(left);
    let why = if is_end(session, stops, None, end.why) {
        Some(end.why)
    } else if end.did == 0 || end.did >= left {
        Some(Why::Limit)
    } else {
        None
    };
    Stretch { did: end.did, why }
}

/// Runs so many steps, and on after each break whose tests do not hold.
pub fn run_on(session: &mut Session, stops: &mut Stops, count: u32) -> Ended
    ensures steps { session.new ≡ after_steps result.did session.old }
    ensures run { run_past count count (session.old, stops.old.breaks.items)
        ≡ (result, (session.new, stops.new.breaks.items)) }
    ensures watches { stops.new.watches ≡ stops.old.watches }
    ensures changes { stops.new.changes ≡ stops.old.changes }
{
    let mut left = count;
    let mut did = 0u64;
    for _ in 0..count {
        let made = make_stretch(session, stops, left);
        did += made.did as u64;
        if let Some(why) = made.why {
            return Ended {
                did,
                why: EndWhy::Stopped(why),
                from: None,
            };
        }
        left -= made.did;
    }
    Ended {
        did,
        why: EndWhy::Many,
        from: None,
    }
}
