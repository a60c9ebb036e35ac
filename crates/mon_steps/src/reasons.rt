//! Why a run has ended, and after how many steps.

ghost use Rattle.std.specs.Prelude.{◌≡◌, ◌++◌, OnOk};
ghost use Rattle.model.specs.declared.run_end.Why.TheVariants.{Watch};
ghost use Rattle.mon_steps.specs.Reasons.{after_text, break_text, change_text, end_line, steps_text};
ghost use Rattle.mon_steps.specs.Reasons.{stop_text, why_text};
ghost use Rattle.mon_instructions.specs.Places.{place_text};

use crate::source_lines::push_line_here;
use crate::strays::push_unserved;
use crate::wording::{
    AFTER, AND_IS_NOW, DONE, IS_NOW, NO_STOP, RETURNED, STEP, STEPS, STUCK, WAITS, WAS, WATCH,
    WATCHED_READ, WATCHED_WRITE,
};
use formatting::{push_byte, push_count, push_text};
use mon_instructions::push_place;
use mon_runs::{EndWhy, Ended, RegisterChange, Session, Why};
use mon_session::push_fault;
use mon_texts::wording::BREAK_AT;
use mon_texts::{push_number, push_register};
use source_map::Places;
use std::alloc::AllocError;

/// Appends how many steps were made.
fn push_steps(text: &mut Vec<u8>, count: u64) -> Result<(), AllocError>
    ensures { OnOk result (text.new.items ≡ text.old.items ++ steps_text count) }
{
    push_count(text, count)?;
    push_text(text, if count == 1 { STEP } else { STEPS })
}

/// Appends after how many steps a run has ended, and ends the line.
pub fn push_after(text: &mut Vec<u8>, count: u64) -> Result<(), AllocError>
    ensures { OnOk result (text.new.items ≡ text.old.items ++ after_text count) }
{
    push_text(text, AFTER)?;
    push_steps(text, count)?;
    push_text(text, "\n")
}

/// Appends what a watched byte is now.
fn push_watched(
    text: &mut Vec<u8>,
    session: &Session,
    places: &Places,
    address: u16,
) -> Result<(), AllocError>
    ensures { OnOk result (text.new.items ≡ text.old.items
        ++ stop_text session.now.current.bus.memory places.now.names (Watch address)) }
{
    push_text(text, WATCH)?;
    push_place(text, places, address)?;
    push_text(text, IS_NOW)?;
    push_byte(text, session.peek(address))
}

/// Appends where the break is at which a run has stopped.
fn push_at(text: &mut Vec<u8>, places: &Places, address: u16) -> Result<(), AllocError>
    ensures { OnOk result (text.new.items ≡ text.old.items
        ++ break_text places.now.names address) }
{
    push_text(text, BREAK_AT)?;
    push_place(text, places, address)
}

/// Appends what has stopped a run.
fn push_stop(
    text: &mut Vec<u8>,
    session: &Session,
    places: &Places,
    why: Why,
) -> Result<(), AllocError>
    ensures { OnOk result (text.new.items ≡ text.old.items
        ++ stop_text session.now.current.bus.memory places.now.names why) }
{
    match why {
        Why::Break(address) => push_at(text, places, address),
        Why::Watch(address) => push_watched(text, session, places, address),
        Why::Limit => push_text(text, DONE),
        Why::Refused(fault) => push_fault(text, places, fault),
    }
}

/// Appends words, and a place behind them.
fn push_words_at(
    text: &mut Vec<u8>,
    places: &Places,
    words: &str,
    address: u16,
) -> Result<(), AllocError>
    ensures { OnOk result (text.new.items ≡ text.old.items
        ++ (words.now ++ place_text places.now.names address)) }
{
    push_text(text, words)?;
    push_place(text, places, address)
}

/// Appends what a watched register was, and what it is now.
#[tactic(auto, unfolding(crate::specs::Reasons::change_text))]
fn push_change(text: &mut Vec<u8>, change: RegisterChange) -> Result<(), AllocError>
    ensures { OnOk result (text.new.items ≡ text.old.items ++ change_text change) }
{
    push_text(text, WATCH)?;
    push_register(text, change.register)?;
    push_text(text, WAS)?;
    push_number(text, change.before)?;
    push_text(text, AND_IS_NOW)?;
    push_number(text, change.after)
}

/// Appends why a run has ended, whose last step was made at `from`, if that is known.
fn push_why(
    text: &mut Vec<u8>,
    session: &Session,
    places: &Places,
    from: Option<u16>,
    why: EndWhy,
) -> Result<(), AllocError>
    ensures { OnOk result (text.new.items ≡ text.old.items
        ++ why_text session.now.current places.now from why) }
{
    match why {
        EndWhy::Met => push_text(text, RETURNED),
        EndWhy::Stopped(why) => push_stop(text, session, places, why),
        EndWhy::Many => push_text(text, NO_STOP),
        EndWhy::Read(at) => push_words_at(text, places, WATCHED_READ, at),
        EndWhy::Written(at) => push_words_at(text, places, WATCHED_WRITE, at),
        EndWhy::Changed(change) => push_change(text, change),
        EndWhy::Stuck => push_text(text, STUCK),
        EndWhy::NoHandler => push_unserved(text, places, from, session.regs().pc),
        EndWhy::Waits => push_text(text, WAITS),
    }
}

/// Appends the line that says how a run has ended, and the line of the source that it led to.
pub fn push_end(
    text: &mut Vec<u8>,
    session: &Session,
    places: &Places,
    end: Ended,
) -> Result<(), AllocError>
    ensures ok { OnOk result (text.new.items ≡ text.old.items
        ++ end_line session.now.current places.now end) }
{
    push_why(text, session, places, end.from, end.why)?;
    push_after(text, end.did)?;
    push_line_here(text, session, places)
}
