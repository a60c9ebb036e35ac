//! What lines say of how a run has ended.

ghost use Rattle.std.specs.Prelude.{◌≡◌, ◌++◌, OnOk};
ghost use Rattle.mon_session.specs.Course.{ShowsOnly, course_of};
ghost use Rattle.mon_steps.specs.RunLines.{HasRun};
ghost use Rattle.mon_steps.specs.RunTexts.{begun_of, here_text, is_there, shown_end_at_text};
ghost use Rattle.mon_steps.specs.RunTexts.{shown_end_text, since_text};
ghost use Rattle.mon_steps.specs.Reasons.{after_text, end_line};
ghost use Rattle.mon_steps.specs.Strays.{ended_text};
ghost use Rattle.mon_instructions.specs.Places.{place_text};

use crate::reasons::{push_after, push_end};
use crate::source_lines::push_line_here;
use crate::strays::push_ended;
use crate::wording::HERE;
use formatting::push_text;
use mon_instructions::push_place;
use mon_runs::{EndWhy, Ended, Why};
use mon_session::MonState;
use source_map::Places;
use std::alloc::AllocError;

/// What is noted of a state in which a run begins: its cycles, and how many bytes of output it has.
#[derive(Clone, Copy)]
pub struct Begun {
    cycles: u64,
    output: u32,
}

impl Begun {
    /// Notes the current state.
    pub fn at(mon: &MonState) -> Begun
        ensures { result ≡ begun_of mon.now.session.current }
    {
        Begun {
            cycles: mon.session.cycles(),
            output: mon.session.output_len(),
        }
    }
}

/// Says how a run has ended.
pub fn tell_end(mon: &mut MonState, end: Ended) -> Result<(), AllocError>
    ensures shows { ShowsOnly mon.old mon.new }
    ensures text { OnOk result (mon.new.text.items ≡ mon.old.text.items
        ++ end_line mon.old.session.current mon.old.places end) }
{
    push_end(&mut mon.text, &mon.session, &mon.places, end)
}

/// Says that the program has ended, if a BRK comes next that has no handler.
#[tactic(auto, using(crate::proofs::Chains::run_none))]
pub fn tell_ended(mon: &mut MonState) -> Result<(), AllocError>
    ensures shows { ShowsOnly mon.old mon.new }
    ensures course { HasRun (course_of mon.old) (course_of mon.new) }
    ensures text { OnOk result (mon.new.text.items ≡ mon.old.text.items
        ++ ended_text mon.old.session.current mon.old.places) }
{
    push_ended(&mut mon.text, &mon.session, &mon.places)
}

/// Shows what the program put out since a run began, and the state.
pub fn show_since(mon: &mut MonState, begun: Begun) -> Result<(), AllocError>
    ensures shows { ShowsOnly mon.old mon.new }
    ensures text { OnOk result (mon.new.text.items ≡ mon.old.text.items
        ++ since_text mon.old.session.current mon.old.places.names begun) }
{
    mon.show_output(begun.output)?;
    mon.show(Some(begun.cycles))
}

/// Says how a run has ended, and shows where.
pub fn show_end(mon: &mut MonState, end: Ended, begun: Begun) -> Result<(), AllocError>
    ensures shows { ShowsOnly mon.old mon.new }
    ensures text { OnOk result (mon.new.text.items ≡ mon.old.text.items
        ++ shown_end_text mon.old.session.current mon.old.places end begun) }
{
    tell_end(mon, end)?;
    show_since(mon, begun)
}

/// Returns whether a run ended at a break at an address.
fn is_there(why: EndWhy, address: u16) -> bool
    ensures { result ≡ is_there address why }
{
    match why {
        EndWhy::Stopped(Why::Break(at)) => at == address,
        _ => false,
    }
}

/// Appends the place that a run came to, and after how many steps.
fn push_place_after(
    text: &mut Vec<u8>,
    places: &Places,
    at: u16,
    did: u64,
) -> Result<(), AllocError>
    ensures { OnOk result (text.new.items ≡ text.old.items
        ++ (place_text places.now.names at ++ after_text did)) }
{
    push_place(text, places, at)?;
    push_after(text, did)
}

/// Says that a run came to the address that was asked for, and shows the line of the source there.
fn say_here(mon: &mut MonState, address: u16, did: u64) -> Result<(), AllocError>
    ensures shows { ShowsOnly mon.old mon.new }
    ensures text { OnOk result (mon.new.text.items ≡ mon.old.text.items
        ++ here_text mon.old.session.current mon.old.places address did) }
{
    push_text(&mut mon.text, HERE)?;
    push_place_after(&mut mon.text, &mon.places, address, did)?;
    push_line_here(&mut mon.text, &mon.session, &mon.places)
}

/// Says how a run to an address has ended, and shows where.
pub fn show_end_at(
    mon: &mut MonState,
    end: Ended,
    address: u16,
    begun: Begun,
) -> Result<(), AllocError>
    ensures shows { ShowsOnly mon.old mon.new }
    ensures text { OnOk result (mon.new.text.items ≡ mon.old.text.items
        ++ shown_end_at_text address mon.old.session.current mon.old.places end begun) }
{
    if !is_there(end.why, address) {
        return show_end(mon, end, begun);
    }
    say_here(mon, address, end.did)?;
    show_since(mon, begun)
}
