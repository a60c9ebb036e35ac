//! What a trace gathers while its program runs.

ghost use Rattle.std.specs.Prelude.{◌≡◌, ◌⊎◌, [], ◌∷◌, ◌++◌, Err, IfErr, IfOk, OnErr, OnOk};
ghost use Rattle.std.specs.Prelude.{option_map, true};
ghost use Rattle.model.specs.Writers.{AppendsFront, Writes};
ghost use Rattle.arguments.specs.declared.refusal.Refusal.{Refusal};
ghost use Rattle.arguments_play.specs.Trace.{trace_view};
ghost use Rattle.word_trace.specs.Gathered.{Gathers, TouchesNoOther, ahead_of, counted, counted_here};
ghost use Rattle.word_trace.specs.Gathered.{counted_step, findings, gathered, has_no_rows, is_told};
ghost use Rattle.word_trace.specs.Gathered.{marked};
ghost use Rattle.word_trace.specs.Gathered.{none_gathered, noted_here, passed, reads_text, row_text};
ghost use Rattle.word_trace.specs.Gathered.{text_at_end};
ghost use Rattle.word_trace.specs.Gathered.{text_of_step, told, with_all_written, with_reads};
ghost use Rattle.word_trace.specs.Gathered.{with_told, with_written};

use crate::notes::{Ahead, code_of, entry_reads, is_touched_written, left_at, look_ahead};
use crate::sheet::Sheet;
use accesses::{Addresses, Count, Moment, Tally, Written};
use arguments::Refusal;
use arguments_play::TraceWords;
use debugger::Session;
use std::alloc::{AllocError, Global};
use std::io::Write;
use trace_rows::{Finding, Part, Sites, Step, push_counts, push_finding, push_step};

/// What a trace gathers: rows, and with the words that ask for it the visits and cycles of each
/// address, and which addresses were ever written.
#[derive(Drop)]
pub struct Tracer<'a> {
    words: &'a TraceWords<'a>,
    sites: Sites,
    sheet: Sheet,
    tally: Option<Tally>,
    written: Option<Written>,
    entries: Count,
    all: Count,
}

/// Counts one visit more.
fn add(count: &mut Count, cycles: u64)
    ensures { count.new ≡ counted count.old cycles }
{
    count.visits = count.visits.saturating_add(1);
    count.cycles = count.cycles.saturating_add(cycles);
}

impl<'a> Tracer<'a> {
    /// Makes a tracer with nothing gathered. `written` has the addresses where the file has a byte,
    /// if reads of others are asked for.
    ///
    /// Errors: `OutOfMemory` if an allocation fails.
    pub fn new(
        alloc: Global,
        words: &'a TraceWords<'a>,
        sites: Sites,
        written: Option<Written>,
    ) -> Result<Tracer<'a>, Refusal>
        ensures gathered { IfOk result
            (λ t. gathered t ≡ none_gathered (trace_view words.now) sites written) }
        ensures sheet { IfOk result (λ t. t.sheet.text.items ≡ []) }
        ensures fault { IfErr result (λ refusal. refusal ≡ Refusal.OutOfMemory) }
    {
        let tally = if words.counts {
            Some(Tally::new(alloc).map_err(|_| Refusal::OutOfMemory)?)
        } else {
            None
        };
        let none = Count {
            visits: 0,
            cycles: 0,
        };
        Ok(Tracer {
            words,
            sites,
            sheet: Sheet::new(alloc),
            tally,
            written,
            entries: none,
            all: none,
        })
    }

    /// Returns what is known of the next step, as far as this trace asks for it.
    pub fn look_ahead(&self, session: &Session) -> Ahead
        ensures { result ≡ ahead_of (gathered self.now) session.now.current }
    {
        look_ahead(session, self.words.shows_stores || self.written.is_some())
    }

    /// Counts a step: an interrupt entry by itself, any other at the address of its instruction.
    pub fn count(&mut self, is_entry: bool, address: u16, cycles: u64)
        ensures counted { gathered self.new
            ≡ counted_step is_entry address cycles (gathered self.old) }
        ensures sheet { self.new.sheet ≡ self.old.sheet }
    {
        add(&mut self.all, cycles);
        if is_entry {
            add(&mut self.entries, cycles);
        } else if let Some(tally) = &mut self.tally {
            tally.note(address, cycles);
        }
    }

    /// Returns what was counted by address, if that is asked for.
    pub fn tally(&self) -> Option<&Tally>
        ensures { option_map (λ tally. tally.now) result ≡ self.now.tally }
    {
        self.tally.as_ref()
    }

    /// Returns whether no row is asked for: counts or unwritten memory are, in its place.
    pub fn has_no_rows(&self) -> bool
        ensures { result ≡ has_no_rows (trace_view self.now.words.now) }
    {
        self.words.counts || self.words.finds_unwritten
    }

    /// Returns whether all that the next instruction touches counts as written, if reads of other
    /// addresses are looked for.
    pub fn touches_no_other(&self, session: &Session) -> bool
        ensures { result ≡ true → TouchesNoOther self.now.written session.now.current }
    {
        match &self.written {
            None => true,
            Some(written) => is_touched_written(session, written),
        }
    }

    /// Returns whether a read is told: of an address where nobody ever wrote.
    fn is_told(&self, session: &Session, address: u16) -> bool
        ensures { result ≡ is_told session.now.current.bus.map self.now.written address }
    {
        match &self.written {
            None => false,
            Some(written) => !session.is_port(address) && !written.contains(address),
        }
    }

    /// Notes that a byte was put at an address.
    fn note_written(&mut self, address: u16)
        ensures marked { gathered self.new
            ≡ marked (with_written self.old.written address) (gathered self.old) }
        ensures sheet { self.new.sheet ≡ self.old.sheet }
    {
        if let Some(written) = &mut self.written {
            written.note(address);
        }
    }

    /// Appends a row for an address that a step has read, if nobody ever wrote there. It counts as
    /// written from then on.
    ///
    /// Errors: `AllocError` if an allocation fails.
    fn tell_read(
        &mut self,
        session: &Session,
        moment: &Moment,
        finding: Finding,
    ) -> Result<(), AllocError>
        ensures written { OnOk result (self.new.written ≡ with_told session.now.current.bus.map
            self.old.written (finding.address ∷ [])) }
        ensures text { OnOk result (self.new.sheet.text.items ≡ self.old.sheet.text.items
            ++ findings session.now.current self.old.sites moment.now finding.step finding.part
            (told session.now.current.bus.map self.old.written (finding.address ∷ []))) }
        ensures rest { gathered self.new ≡ marked self.new.written (gathered self.old) }
    {
        if !self.is_told(session, finding.address) {
            return Ok(());
        }
        self.note_written(finding.address);
        push_finding(&mut self.sheet.text, session, &self.sites, moment, finding)
    }

    /// Appends a row for each of the addresses that a step has read where nobody ever wrote. Each
    /// address is told once.
    ///
    /// Errors: `AllocError` if an allocation fails.
    fn tell_unwritten(
        &mut self,
        session: &Session,
        moment: &Moment,
        addresses: &Addresses,
        part: Part,
    ) -> Result<(), AllocError>
        ensures written { OnOk result (self.new.written ≡ with_told session.now.current.bus.map
            self.old.written addresses.now.items) }
        ensures text { OnOk result (self.new.sheet.text.items ≡ self.old.sheet.text.items
            ++ findings session.now.current self.old.sites moment.now self.old.all.visits part
            (told session.now.current.bus.map self.old.written addresses.now.items)) }
        ensures rest { gathered self.new ≡ marked self.new.written (gathered self.old) }
    {
        let step = self.all.visits;
        for address in addresses.as_slice() {
            let finding = Finding {
                step,
                address: *address,
                part,
            };
            self.tell_read(session, moment, finding)?;
        }
        Ok(())
    }

    /// Appends a row for each of the addresses that a step has read where nobody ever wrote: for an
    /// interrupt entry of its vector, otherwise of its instruction, and then of its data.
    ///
    /// Errors: `AllocError` if an allocation fails.
    fn tell_reads(
        &mut self,
        session: &Session,
        ahead: &Ahead,
        is_entry: bool,
    ) -> Result<(), AllocError>
        ensures written { OnOk result (self.new.written
            ≡ with_reads is_entry session.now.current.bus.map ahead.now self.old.written) }
        ensures text { OnOk result (self.new.sheet.text.items ≡ self.old.sheet.text.items
            ++ reads_text is_entry session.now.current self.old.sites self.old.all.visits ahead.now
            self.old.written) }
        ensures rest { gathered self.new ≡ marked self.new.written (gathered self.old) }
    {
        let moment = &ahead.moment;
        if is_entry {
            return self.tell_unwritten(session, moment, &entry_reads(), Part::Vector);
        }
        self.tell_unwritten(session, moment, &code_of(moment), Part::Code)?;
        self.tell_unwritten(session, moment, &ahead.reads, Part::Data)
    }

    /// Notes that a step has left bytes at addresses.
    fn note_stores(&mut self, stores: &Addresses)
        ensures marked { gathered self.new
            ≡ marked (with_all_written self.old.written stores.now.items) (gathered self.old) }
        ensures sheet { self.new.sheet ≡ self.old.sheet }
    {
        if let Some(written) = &mut self.written {
            written.note_all(stores);
        }
    }

    /// Appends the row of a step, unless counts or unwritten memory are asked for in its place.
    ///
    /// Errors: `AllocError` if an allocation fails.
    fn push_row(&mut self, session: &Session, step: &Step) -> Result<(), AllocError>
        ensures text { OnOk result (self.new.sheet.text.items ≡ self.old.sheet.text.items
            ++ row_text (trace_view self.old.words.now) session.now.current self.old.sites
            step.now) }
        ensures same { gathered self.new ≡ gathered self.old }
    {
        if self.words.counts || self.words.finds_unwritten {
            return Ok(());
        }
        let shows_stores = self.words.shows_stores;
        push_step(
            &mut self.sheet.text,
            session,
            &self.sites,
            step,
            shows_stores,
        )
    }

    /// Notes a step that was made before the trace began: where it stored, and nothing else. The
    /// session is in the state after the step.
    pub fn pass(&mut self, session: &Session, ahead: Ahead)
        ensures passed { gathered self.new
            ≡ passed session.now.current ahead (gathered self.old) }
        ensures sheet { self.new.sheet ≡ self.old.sheet }
    {
        let is_entry = ahead.moment.was_entered(session);
        let stores = left_at(session, &self.words.file, is_entry, &ahead);
        self.note_stores(&stores);
    }

    /// Counts a step that was made, looks for what it has read where nobody ever wrote, and appends
    /// its row, as the words ask for. The session is in the state after the step.
    ///
    /// Errors: `AllocError` if an allocation fails.
    fn gather(&mut self, session: &Session, ahead: Ahead) -> Result<(), AllocError>
        ensures counted { gathered self.new ≡ marked self.new.written
            (counted_here session.now.current ahead (gathered self.old)) }
        ensures noted { OnOk result (gathered self.new
            ≡ noted_here session.now.current ahead (gathered self.old)) }
        ensures text { OnOk result (self.new.sheet.text.items ≡ self.old.sheet.text.items
            ++ text_of_step session.now.current ahead (gathered self.old)) }
    {
        let is_entry = ahead.moment.was_entered(session);
        let cycles = session.cycles().saturating_sub(ahead.moment.cycles);
        self.count(is_entry, ahead.moment.regs.pc, cycles);
        self.tell_reads(session, &ahead, is_entry)?;
        let stores = left_at(session, &self.words.file, is_entry, &ahead);
        self.note_stores(&stores);
        let step = Step {
            moment: ahead.moment,
            is_entry,
            stores,
        };
        self.push_row(session, &step)
    }

    /// Notes a step that was made, and writes what was gathered if it is enough. The session is in
    /// the state after the step. After an error the sheet is empty.
    ///
    /// Errors: `OutOfMemory` if an allocation fails, `Write` if what was gathered cannot be
    /// written.
    pub fn note<O: Write>(
        &mut self,
        session: &Session,
        ahead: Ahead,
        output: &mut O,
    ) -> Result<(), Refusal>
        ensures noted { OnOk result (gathered self.new
            ≡ noted_here session.now.current ahead (gathered self.old)) }
        ensures gathered { OnOk result (Gathers (O.contents output.old) (O.contents output.new)
            self.old.sheet.text.items self.new.sheet.text.items
            (text_of_step session.now.current ahead (gathered self.old))) }
        ensures cut { OnErr result (AppendsFront (O.contents output.old) (O.contents output.new)
            (self.old.sheet.text.items
            ++ text_of_step session.now.current ahead (gathered self.old))) }
        ensures emptied { OnErr result (self.new.sheet.text.items ≡ []) }
        ensures fault { OnErr result ((result ≡ Err Refusal.OutOfMemory)
            ⊎ (result ≡ Err Refusal.Write)) }
    {
        let row = self.gather(session, ahead);
        self.sheet.end_row(row, output)
    }

    /// Appends the counts to what was gathered, if they are asked for.
    ///
    /// Errors: `OutOfMemory` if an allocation fails.
    fn tell_counts(&mut self, alloc: Global) -> Result<(), Refusal>
        ensures text { OnOk result (self.new.sheet.text.items
            ≡ text_at_end (gathered self.old) self.old.sheet.text.items) }
        ensures same { gathered self.new ≡ gathered self.old }
        ensures fault { OnErr result (result ≡ Err Refusal.OutOfMemory) }
    {
        if let Some(tally) = &self.tally {
            let text = &mut self.sheet.text;
            push_counts(text, alloc, &self.sites, tally, self.entries, self.all).map_err(
                |_| Refusal::OutOfMemory,
            )?;
        }
        Ok(())
    }

    /// Writes what was gathered, and the counts if they are asked for.
    ///
    /// Errors: `OutOfMemory` if an allocation fails, `Write` if it cannot be written.
    pub fn finish<O: Write>(&mut self, alloc: Global, output: &mut O) -> Result<(), Refusal>
        ensures writes { Writes (O.contents output.old) (O.contents output.new)
            (text_at_end (gathered self.old) self.old.sheet.text.items) result }
        ensures same { gathered self.new ≡ gathered self.old }
        ensures fault { OnErr result ((result ≡ Err Refusal.OutOfMemory)
            ⊎ (result ≡ Err Refusal.Write)) }
    {
        self.tell_counts(alloc)?;
        self.sheet.write_all(output)
    }

    /// Writes what was gathered of a trace that is cut short, or a beginning of it: no counts.
    #[tactic(auto, using(crate::proofs::Gathering::writes_front))]
    pub fn write_cut<O: Write>(&mut self, output: &mut O)
        ensures { AppendsFront (O.contents output.old) (O.contents output.new)
            self.old.sheet.text.items }
    {
        let _ = self.sheet.write_all(output);
    }
}
