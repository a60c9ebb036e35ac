//! What a session of `mon` has: the machine, its events, its stops, its places, what is shown at
//! each stop, and the text that is to be written.

ghost use Rattle.std.specs.Prelude.{◌≡◌, ◌++◌, [], Err, IfErr, IfOk, Ok, OnErr, OnOk, codes, drop, false, is_ok};
ghost use Rattle.std.specs.Prelude.{take};
ghost use Rattle.model.specs.Event.{event_of};
ghost use Rattle.model.specs.State.{State};
ghost use Rattle.mon_session.specs.Course.{KeepsStops, ShowsOnly, course_of, happened};
ghost use Rattle.mon_session.specs.EventTexts.{count_text, entry_text, event_text, rejected_text};
ghost use Rattle.mon_session.specs.EventTexts.{row_or_entry, shown_text};
ghost use Rattle.mon_instructions.specs.Instructions.{instruction_line};
ghost use Rattle.mon_instructions.specs.Listed.{listed_len, listed_line};
ghost use Rattle.mon_instructions.specs.Made.{made_line, made_row};
ghost use Rattle.mon_instructions.specs.Stores.{stores_text};
ghost use Rattle.mon_texts.specs.Screen.{output_since};

use crate::Events;
use crate::faults::push_fault;
use crate::wording::INTERRUPT;
use formatting::{push_count, push_text};
use model::EventFault;
use mon_instructions::{push_listed, push_made_row, push_next, push_place, push_row, push_stores};
use mon_runs::{Event, Session, Stops};
use mon_texts::{push_output_since, push_state};
use source_map::Places;
use std::alloc::{AllocError, Global};

/// A session with what a person needs of it.
#[derive(Drop)]
pub struct MonState {
    pub session: Session,
    pub events: Events,
    pub stops: Stops,
    pub places: Places,
    /// The addresses whose bytes are shown at each stop, each once.
    pub displays: Vec<u16>,
    pub text: Vec<u8>,
}

/// Appends where the interrupt leads that a step has entered.
fn push_entry(text: &mut Vec<u8>, places: &Places, pc: u16) -> Result<(), AllocError>
    ensures { OnOk result (text.new.items ≡ text.old.items ++ entry_text places.now.names pc) }
{
    push_text(text, INTERRUPT)?;
    push_place(text, places, pc)?;
    push_text(text, "\n")?;
    Ok(())
}

impl MonState {
    /// Makes a state for a session that holds `history` events.
    ///
    /// Errors: `AllocError` if an allocation fails.
    pub fn new(
        alloc: Global,
        session: Session,
        places: Places,
        history: u32,
    ) -> Result<MonState, AllocError>
        ensures session { IfOk result (λ mon. mon.session ≡ session) }
        ensures events { IfOk result
            (λ mon. mon.events ≡ record { made = []; undone = []; room = history }) }
        ensures breaks { IfOk result (λ mon. mon.stops.breaks.items ≡ []) }
        ensures watches { IfOk result (λ mon. mon.stops.watches.items ≡ []) }
        ensures changes { IfOk result (λ mon. mon.stops.changes.items ≡ []) }
        ensures places { IfOk result (λ mon. mon.places ≡ places) }
        ensures displays { IfOk result (λ mon. mon.displays.items ≡ []) }
        ensures text { IfOk result (λ mon. mon.text.items ≡ []) }
    {
        Ok(MonState {
            session,
            events: Events::new(alloc, history)?,
            stops: Stops::new(alloc),
            places,
            displays: Vec::new(alloc),
            text: Vec::new(alloc),
        })
    }

    /// Appends words to the text.
    ///
    /// Errors: `AllocError` if an allocation fails.
    pub fn say(&mut self, words: &str) -> Result<(), AllocError>
        ensures shows { ShowsOnly self.old self.new }
        ensures text { OnOk result (self.new.text.items ≡ self.old.text.items ++ words.now) }
    {
        push_text(&mut self.text, words)
    }

    /// Appends a number and the words behind it: `one` where it is 1, otherwise `more`.
    ///
    /// Errors: `AllocError` if an allocation fails.
    pub fn count(&mut self, number: u64, one: &str, more: &str) -> Result<(), AllocError>
        ensures shows { ShowsOnly self.old self.new }
        ensures text { OnOk result (self.new.text.items ≡ self.old.text.items
            ++ count_text number one.now more.now) }
    {
        push_count(&mut self.text, number)?;
        self.say(if number == 1 { one } else { more })
    }

    /// Appends the registers and the instruction that comes next. With a count of cycles before, it
    /// also appends how many there were since.
    ///
    /// Errors: `AllocError` if an allocation fails.
    pub fn show(&mut self, cycles_before: Option<u64>) -> Result<(), AllocError>
        ensures shows { ShowsOnly self.old self.new }
        ensures text { OnOk result (self.new.text.items ≡ self.old.text.items
            ++ shown_text self.old.session.current self.old.places.names cycles_before) }
    {
        push_state(&mut self.text, &self.session, &self.places, cycles_before)?;
        push_next(&mut self.text, &self.session, &self.places)
    }

    /// Appends what the program put out since the output had so many bytes.
    ///
    /// Errors: `AllocError` if an allocation fails.
    pub fn show_output(&mut self, from: u32) -> Result<(), AllocError>
        ensures shows { ShowsOnly self.old self.new }
        ensures text { OnOk result (self.new.text.items ≡ self.old.text.items
            ++ output_since from self.old.session.current.bus.out) }
    {
        push_output_since(&mut self.text, &self.session, from)
    }

    /// Appends the instruction at an address.
    ///
    /// Errors: `AllocError` if an allocation fails.
    pub fn show_row(&mut self, address: u16) -> Result<(), AllocError>
        ensures shows { ShowsOnly self.old self.new }
        ensures text { OnOk result (self.new.text.items ≡ self.old.text.items
            ++ instruction_line self.old.session.current self.old.places address) }
    {
        push_row(&mut self.text, &self.session, &self.places, address)
    }

    /// Appends the instruction or the data at an address, and returns how many bytes that has, 1 to
    /// 3.
    ///
    /// Errors: `AllocError` if an allocation fails.
    pub fn show_listed(&mut self, address: u16) -> Result<u8, AllocError>
        ensures shows { ShowsOnly self.old self.new }
        ensures text { OnOk result (self.new.text.items ≡ self.old.text.items
            ++ listed_line self.old.session.current self.old.places address) }
        ensures len { IfOk result
            (λ len. len ≡ listed_len self.old.session.current self.old.places.lines address) }
    {
        push_listed(&mut self.text, &self.session, &self.places, address)
    }

    /// Appends the row of the instruction that comes next, and leaves it open.
    ///
    /// Errors: `AllocError` if an allocation fails.
    pub fn begin_row(&mut self) -> Result<(), AllocError>
        ensures shows { ShowsOnly self.old self.new }
        ensures text { OnOk result (self.new.text.items ≡ self.old.text.items
            ++ made_row self.old.session.current self.old.places
            self.old.session.current.regs.pc) }
    {
        let pc = self.session.regs().pc;
        push_made_row(&mut self.text, &self.session, &self.places, pc)
    }

    /// Appends the row of the instruction that comes next.
    ///
    /// Errors: `AllocError` if an allocation fails.
    pub fn show_next(&mut self) -> Result<(), AllocError>
        ensures shows { ShowsOnly self.old self.new }
        ensures text { OnOk result (self.new.text.items ≡ self.old.text.items
            ++ made_line self.old.session.current self.old.places
            self.old.session.current.regs.pc) }
    {
        self.begin_row()?;
        self.say("\n")
    }

    /// Ends a row by addresses, each with what a store has left there.
    ///
    /// Errors: `AllocError` if an allocation fails.
    pub fn end_row(&mut self, stores: &[u16]) -> Result<(), AllocError>
        ensures shows { ShowsOnly self.old self.new }
        ensures text { OnOk result (self.new.text.items ≡ self.old.text.items
            ++ (stores_text self.old.session.current.bus stores.now ++ codes "\n")) }
    {
        push_stores(&mut self.text, &self.session, stores)?;
        self.say("\n")
    }

    /// Appends why an event was rejected.
    ///
    /// Errors: `AllocError` if an allocation fails.
    pub fn reject(&mut self, fault: EventFault) -> Result<(), AllocError>
        ensures shows { ShowsOnly self.old self.new }
        ensures text { OnOk result (self.new.text.items ≡ self.old.text.items
            ++ rejected_text self.old.places.names fault) }
    {
        push_fault(&mut self.text, &self.places, fault)?;
        self.say("\n")
    }

    /// Replaces the text from the byte `length` on by the place that an interrupt leads to, if the
    /// last step was its entry.
    ///
    /// Errors: `AllocError` if an allocation fails.
    pub fn tell_entry(&mut self, length: usize, is_entry: bool) -> Result<(), AllocError>
        ensures shows { ShowsOnly self.old self.new }
        ensures text { OnOk result (self.new.text.items ≡ take length self.old.text.items
            ++ row_or_entry is_entry self.old.session.current self.old.places.names
            (drop length self.old.text.items)) }
    {
        if is_entry {
            self.text.truncate(length);
            return push_entry(&mut self.text, &self.places, self.session.regs().pc);
        }
        Ok(())
    }

    /// Makes an event that is no step. Errors: those of the session; nothing is changed then.
    fn make(&mut self, event: Event) -> Result<(), EventFault>
        ensures course { course_of self.new ≡ happened event (course_of self.old) }
        ensures ok { OnOk result ((state : State)
            × (event_of self.old.session.current event ≡ Ok state)) }
        ensures fault { IfErr result
            (λ fault. event_of self.old.session.current event ≡ Err fault) }
        ensures text { self.new.text ≡ self.old.text }
        ensures stops { KeepsStops self.old self.new }
    {
        self.session.event(event)?;
        self.events.note(event);
        Ok(())
    }

    /// Makes an event that is no step, and returns whether it was accepted. If it was rejected, the
    /// text says why, and nothing else has changed.
    ///
    /// Errors: `AllocError` if an allocation for that text fails.
    #[tactic(auto, unfolding(crate::specs::EventTexts::event_text))]
    pub fn happen(&mut self, event: Event) -> Result<bool, AllocError>
        ensures course { course_of self.new ≡ happened event (course_of self.old) }
        ensures accepted { IfOk result
            (λ is_accepted. is_accepted ≡ is_ok (event_of self.old.session.current event)) }
        ensures memory { OnErr result (is_ok (event_of self.old.session.current event) ≡ false) }
        ensures text { OnOk result (self.new.text.items ≡ self.old.text.items
            ++ event_text self.old.places.names event (course_of self.old) []) }
        ensures stops { KeepsStops self.old self.new }
    {
        match self.make(event) {
            Ok(()) => Ok(true),
            Err(fault) => {
                self.reject(fault)?;
                Ok(false)
            }
        }
    }
}
