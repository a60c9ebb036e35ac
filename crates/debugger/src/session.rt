//! A session.

ghost use Rattle.std.specs.Prelude.{◌≡◌, ◌≢◌, ◌+◌, ◌-◌, ◌<◌, ◌≤◌, ◌⊎◌, ◌++◌, ◌∷◌, [], true, false};
ghost use Rattle.std.specs.Prelude.{length, take, slice_get, slice_index, OnOk, IfOk, IfErr};
ghost use Rattle.std.specs.Prelude.{IsErrOf, IsOk, Ok, Err};
ghost use Rattle.model.specs.State.{has_port_byte, is_port, IsState, State};
ghost use Rattle.model.specs.Event.{event_of, start};
ghost use Rattle.model.specs.Step.{entry_due};
ghost use Rattle.model.specs.Undo.{CanRestore, bus_before, Undoes};
ghost use Rattle.model.specs.Session.{with_state, new_session};
ghost use Rattle.model.specs.Back.{back_of, without_last};
ghost use Rattle.model.specs.Run.{run_end, after_steps};
ghost use Rattle.model.specs.Breakpoints.{break_set, break_cleared, watch_set, watch_cleared};
ghost use Rattle.cpu.specs.PlainRuns.{AllPlain, AllPlainButLast, RanPlainly};
ghost use Rattle.debugger.specs.Pages.{TellsPages};
ghost use Rattle.debugger.specs.Replay.{IsHistory, held_states};
ghost use Rattle.debugger.specs.Running.{RunsTo, StepsTo};
ghost use Rattle.debugger.specs.Trail.{HasRoom};

use crate::address_table::AddressTable;
use crate::course::{Course, go_back, new_course, note_event, note_step, run_plainly, run_quietly};
use crate::pages::Pages;
use crate::stops::{Stretch, break_at, stop_after};
use crate::trail::happen;
use bus::{Bus, BusFault, Image, MapSpec};
use cpu::{Machine, PlainRun};
use model::{Event, EventFault, Profile, Regs, RunEnd, SessionFault, Why};
use std::alloc::Global;
use std::marker::Model;

/// A machine, and the events that lead to its earlier states from checkpoints before them. Source:
/// mos65.
#[derive(Drop)]
pub struct Session {
    machine: Machine,
    trail: Course,
    pages: Pages,
    replayed: u32,
    breaks: AddressTable,
    watches: AddressTable,
}

impl Model for Session {
    ghost use Rattle.std.specs.Prelude.{◌<◌, ◌%◌, length};
    ghost use Rattle.model.specs.Session.{Session as SessionView};
    ghost use Rattle.debugger.specs.Pages.{TellsPages};
    ghost use Rattle.debugger.specs.Replay.{IsHistory, held_states};
    ghost use Rattle.debugger.specs.Trail.{HasRoom};

    ghost Value = { SessionView };

    ghost view = { λ s. record {
      earlier = held_states s.trail.held s.trail.kept.items s.trail.events.items s.machine;
      current = s.machine;
      history = s.trail.history;
      breaks = s.breaks;
      watches = s.watches;
      number = length s.trail.events.items % 1024;
      replayed = s.replayed;
    } };

    ghost invariant = { λ s. HasRoom s.trail
        × IsHistory 1024 s.trail.kept.items s.trail.events.items s.machine × (s.replayed < 1024)
        × TellsPages s.pages s.trail.kept.items s.trail.spare.items s.machine.bus.memory };
}

impl Session {
    /// Makes a session whose only state is the start of a machine with this map and image. It holds
    /// up to `history` earlier states, 1,048,576 at most, and allocates all room that events need.
    ///
    /// Errors: `PortAddress` if the image has a byte at a port address, `OutOfMemory` if an
    /// allocation fails.
    pub fn new(
        alloc: Global,
        map: MapSpec,
        image: &Image,
        history: u32,
    ) -> Result<Session, SessionFault>
        requires { history ≤ 1048576 }
        ensures ok { IfOk result (λ session. session ≡ new_session history (start map image.now)) }
        ensures room { OnOk result (has_port_byte map image.now ≡ false) }
        ensures port { IsErrOf result SessionFault.PortAddress
            → has_port_byte map image.now ≡ true }
        ensures only { IfErr result
            (λ fault. (fault ≡ SessionFault.PortAddress) ⊎ (fault ≡ SessionFault.OutOfMemory)) }
    {
        let machine = match Machine::new(alloc, map, image) {
            Ok(machine) => machine,
            Err(BusFault::PortAddress) => return Err(SessionFault::PortAddress),
            Err(_) => return Err(SessionFault::OutOfMemory),
        };
        let Ok(trail) = new_course(alloc, &machine, history) else {
            return Err(SessionFault::OutOfMemory);
        };
        let Ok(breaks) = AddressTable::new(alloc) else {
            return Err(SessionFault::OutOfMemory);
        };
        let Ok(watches) = AddressTable::new(alloc) else {
            return Err(SessionFault::OutOfMemory);
        };
        Ok(Session {
            machine,
            trail,
            pages: Pages::new(),
            replayed: 0,
            breaks,
            watches,
        })
    }

    /// Makes one event. An accepted event is held until it is older than the last `history` events.
    /// Does not allocate.
    ///
    /// Errors: those of the machine's call for the event, or `BadLength` if a patch counts more
    /// than three bytes; nothing changes.
    #[inline(always)]
    pub fn event(&mut self, event: Event) -> Result<(), EventFault>
        ensures ok { OnOk result ((state : State) × (event_of self.old.current event ≡ Ok state)
            × (self.new ≡ with_state self.old state)) }
        ensures err { IfErr result
            (λ fault. (event_of self.old.current event ≡ Err fault) × (self.new ≡ self.old)) }
    {
        let now = self.pages.now;
        match happen(
            &mut self.machine,
            self.watches.map(),
            &mut self.pages.stamps,
            now,
            event,
        ) {
            Ok(()) => {
                note_event(&mut self.trail, &self.machine, &mut self.pages, event);
                Ok(())
            }
            Err(fault) => Err(fault),
        }
    }

    /// Makes steps until one changes a watched byte of memory, one leads to a breakpoint, `count`
    /// are made, or one is refused, which is not counted. If several of these come after one step,
    /// the reason is the first of them. Does not allocate. Source: mos65.
    pub fn run(&mut self, count: u32) -> RunEnd
        ensures end { result ≡ run_end count self.old }
        ensures after { self.new ≡ after_steps result.did self.old }
    {
        let mut did = 0;
        while did < count {
            match self.run_on(count - did) {
                Ok(stretch) => match stretch.why {
                    None => did += stretch.steps,
                    Some(why) => {
                        return RunEnd {
                            did: did + stretch.steps,
                            why,
                        };
                    }
                },
                Err(fault) => {
                    return RunEnd {
                        did,
                        why: Why::Refused(fault),
                    };
                }
            }
        }
        RunEnd {
            did: count,
            why: Why::Limit,
        }
    }

    /// Makes the first steps of a run, one at least, and returns why it ends with the last of them,
    /// if it does.
    fn run_on(&mut self, limit: u32) -> Result<Stretch, EventFault>
        requires { 0 < limit }
        ensures within { IfOk result (λ stretch. stretch.steps ≤ limit) }
        ensures steps { RunsTo self.old result self.new }
    {
        let stops = self.breaks.map();
        let ran = run_quietly(
            &mut self.trail,
            &mut self.machine,
            &mut self.pages,
            limit,
            stops,
            self.watches.map(),
        );
        if ran.stopped {
            let why = break_at(self.machine.pc(), &self.breaks);
            return Ok(Stretch {
                steps: ran.steps,
                why,
            });
        }
        if ran.steps == limit {
            return Ok(Stretch {
                steps: limit,
                why: None,
            });
        }
        match self.slow_step() {
            Ok(why) => Ok(Stretch {
                steps: ran.steps + 1,
                why,
            }),
            Err(_) if ran.steps > 0 => Ok(Stretch {
                steps: ran.steps,
                why: None,
            }),
            Err(fault) => Err(fault),
        }
    }

    /// Makes one step of a run by itself, and returns why the run ends with it, if it does.
    #[inline(never)]
    fn slow_step(&mut self) -> Result<Option<Why>, EventFault>
        ensures { StepsTo self.old result self.new }
    {
        let mut change = self.machine.begin_change();
        let made = self.machine.step_noting(&mut change);
        self.machine
            .stamp(&change, &mut self.pages.stamps, self.pages.now);
        match made {
            Ok(()) => {
                let why = stop_after(&self.machine, &self.watches, &self.breaks, &change);
                note_step(&mut self.trail, &self.machine, &mut self.pages);
                Ok(why)
            }
            Err(fault) => Err(fault),
        }
    }

    /// Makes plain steps, at most `limit`, until one cannot be made plainly, of which nothing is
    /// done then, or one leads to an address whose byte of `stops` is not 0; `stopped` is true in
    /// the second case. The session's breakpoints and watches do not end it. Does not allocate.
    ///
    /// A plain step is no interrupt entry and no BRK. It reads no byte of the port, stores only at
    /// addresses that are not the port's and whose byte of `marks` is 0, and is no jump and no
    /// branch to itself. A step that stores in ROM, one that clears I while an IRQ is asked for,
    /// and one that is made near the end of the cycle count may be declined too. Source: mos65.
    pub fn run_plainly(&mut self, limit: u32, stops: &[u8], marks: &[u8]) -> PlainRun
        requires stops { length stops.now ≡ 65536 }
        requires marks { length marks.now ≡ 65536 }
        ensures within { result.steps ≤ limit }
        ensures session { self.new ≡ after_steps result.steps self.old }
        ensures on { result.stopped ≡ false
            → AllPlain stops.now marks.now result.steps self.old.current self.new.current }
        ensures last { 0 < result.steps → AllPlainButLast stops.now marks.now result.steps
            result.from self.old.current self.new.current }
        ensures some { result.stopped ≡ true → 0 < result.steps }
        ensures stop { result.stopped ≡ true
            → slice_index stops.now self.new.current.regs.pc ≢ 0 }
    {
        let mut ran = PlainRun {
            steps: 0,
            stopped: false,
            from: 0,
        };
        let mut goes_on = true;
        while ran.steps < limit && !ran.stopped && goes_on {
            let most = self.trail.quiet_count().max(1).min(limit - ran.steps);
            let more = self.run_plainly_on(most, stops, marks);
            if more.steps == 0 {
                return ran;
            }
            ran = PlainRun {
                steps: ran.steps + more.steps,
                ..more
            };
            goes_on = more.steps == most;
        }
        ran
    }

    /// Makes the first steps of such a run: none if none can be made. No more are made than lead to
    /// the next step that makes a checkpoint or drops the oldest part, or that step by itself.
    fn run_plainly_on(&mut self, limit: u32, stops: &[u8], marks: &[u8]) -> PlainRun
        requires limit { 0 < limit }
        requires stops { length stops.now ≡ 65536 }
        requires marks { length marks.now ≡ 65536 }
        ensures within { result.steps ≤ limit }
        ensures session { self.new ≡ after_steps result.steps self.old }
        ensures ran { RanPlainly stops.now marks.now result self.old.current self.new.current }
    {
        if self.trail.quiet_count() == 0 {
            return self.step_plainly(stops, marks);
        }
        run_plainly(
            &mut self.trail,
            &mut self.machine,
            &mut self.pages,
            limit,
            stops,
            marks,
        )
    }

    /// Makes one step of such a run by itself, if one can be made.
    #[inline(never)]
    fn step_plainly(&mut self, stops: &[u8], marks: &[u8]) -> PlainRun
        requires stops { length stops.now ≡ 65536 }
        requires marks { length marks.now ≡ 65536 }
        ensures within { result.steps ≤ 1 }
        ensures session { self.new ≡ after_steps result.steps self.old }
        ensures ran { RanPlainly stops.now marks.now result self.old.current self.new.current }
    {
        let now = self.pages.now;
        let ran = self
            .machine
            .run_plainly(1, stops, marks, &mut self.pages.stamps, now);
        if ran.steps == 0 {
            return ran;
        }
        note_step(&mut self.trail, &self.machine, &mut self.pages);
        ran
    }

    /// Undoes the last `count` events. The machine, its memory, its cycle count and the console are
    /// then exactly as they were before those events; breakpoints and watches stay. Does not
    /// allocate. Source: mos65.
    ///
    /// Errors: `NoHistory { held }` if fewer than `count` events are held; nothing changes.
    pub fn back(&mut self, count: u32) -> Result<(), SessionFault>
        ensures ok { OnOk result (back_of count self.old ≡ Ok self.new) }
        ensures err { IfErr result
            (λ fault. (back_of count self.old ≡ Err fault) × (self.new ≡ self.old)) }
    {
        let held = self.held();
        if count > held {
            return Err(SessionFault::NoHistory { held });
        }
        if count > 0 {
            self.replayed = go_back(
                &mut self.trail,
                &mut self.machine,
                self.watches.map(),
                &mut self.pages,
                count,
            );
        }
        Ok(())
    }

    /// Returns how many events the last successful `back` of at least one event has replayed, which
    /// is the number of the state that it reached; 0 before that.
    pub fn replayed(&self) -> u32
        ensures number { result ≡ self.now.replayed }
        ensures within { result < 1024 }
    {
        self.replayed
    }

    /// Returns how many events can be undone.
    pub fn held(&self) -> u32
        ensures held { result ≡ length self.now.earlier }
        ensures within { result ≤ self.now.history }
    {
        self.trail.held_count()
    }

    /// Sets a breakpoint.
    ///
    /// Errors, in this order: `AlreadySet`; `TableFull` if 256 are set; `OutOfMemory` if an
    /// allocation fails. Nothing changes.
    #[tactic(auto, unfolding(model::specs::Breakpoints::break_set))]
    pub fn set_break(&mut self, address: u16) -> Result<(), SessionFault>
        ensures ok { OnOk result (break_set address self.old ≡ Ok self.new) }
        ensures err { IfErr result (λ fault. (self.new ≡ self.old)
            × (fault ≢ SessionFault.OutOfMemory → break_set address self.old ≡ Err fault)) }
        ensures memory { IsErrOf result SessionFault.OutOfMemory
            → IsOk (break_set address self.old) }
    {
        self.breaks.set(address)
    }

    /// Clears a breakpoint.
    ///
    /// Errors: `NotSet` if it is not set; nothing changes.
    #[tactic(auto, unfolding(model::specs::Breakpoints::break_cleared))]
    pub fn clear_break(&mut self, address: u16) -> Result<(), SessionFault>
        ensures ok { OnOk result (break_cleared address self.old ≡ Ok self.new) }
        ensures err { IfErr result
            (λ fault. (break_cleared address self.old ≡ Err fault) × (self.new ≡ self.old)) }
    {
        self.breaks.clear(address)
    }

    /// Sets a watch.
    ///
    /// Errors, in this order: `PortAddress` at a port address; `AlreadySet`; `TableFull` if 256 are
    /// set; `OutOfMemory` if an allocation fails. Nothing changes.
    #[tactic(auto, unfolding(model::specs::Breakpoints::watch_set))]
    pub fn set_watch(&mut self, address: u16) -> Result<(), SessionFault>
        ensures ok { OnOk result (watch_set address self.old ≡ Ok self.new) }
        ensures err { IfErr result (λ fault. (self.new ≡ self.old)
            × (fault ≢ SessionFault.OutOfMemory → watch_set address self.old ≡ Err fault)) }
        ensures memory { IsErrOf result SessionFault.OutOfMemory
            → IsOk (watch_set address self.old) }
    {
        if self.machine.is_port(address) {
            return Err(SessionFault::PortAddress);
        }
        self.watches.set(address)
    }

    /// Clears a watch.
    ///
    /// Errors: `NotSet` if it is not set; nothing changes.
    #[tactic(auto, unfolding(model::specs::Breakpoints::watch_cleared))]
    pub fn clear_watch(&mut self, address: u16) -> Result<(), SessionFault>
        ensures ok { OnOk result (watch_cleared address self.old ≡ Ok self.new) }
        ensures err { IfErr result
            (λ fault. (watch_cleared address self.old ≡ Err fault) × (self.new ≡ self.old)) }
    {
        self.watches.clear(address)
    }

    /// Returns how many breakpoints are set.
    pub fn break_count(&self) -> u32
        ensures { result ≡ length self.now.breaks }
    {
        self.breaks.len()
    }

    /// Returns the breakpoint at an index in the order of setting, counted from 0.
    pub fn break_at(&self, index: u32) -> Option<u16>
        ensures { result ≡ slice_get self.now.breaks index }
    {
        self.breaks.at(index)
    }

    /// Returns the processor's profile.
    pub fn profile(&self) -> Profile
        ensures { result ≡ self.now.current.bus.map.profile }
    {
        self.machine.profile()
    }

    /// Returns whether an address is one of the port's four.
    pub fn is_port(&self, address: u16) -> bool
        ensures { result ≡ is_port self.now.current.bus.map address }
    {
        self.machine.is_port(address)
    }

    /// Returns the registers of the current state.
    pub fn regs(&self) -> Regs
        ensures { result ≡ self.now.current.regs }
    {
        self.machine.regs()
    }

    /// Returns the current state's bus, to look at.
    pub fn bus(&self) -> &Bus
        ensures { result.now ≡ self.now.current.bus }
    {
        self.machine.bus()
    }

    /// Returns the current state's cycles since load.
    pub fn cycles(&self) -> u64
        ensures { result ≡ self.now.current.cycles }
    {
        self.machine.cycles()
    }

    /// Returns a byte of the current state's memory without a bus read: 0 at a port address.
    pub fn peek(&self, address: u16) -> u8
        ensures value { result ≡ slice_index self.now.current.bus.memory address }
        ensures within { address < length self.now.current.bus.memory }
        ensures size { length self.now.current.bus.memory ≡ 65536 }
    {
        self.machine.peek(address)
    }

    /// Returns how many bytes the current state's output holds, 0 to 65,536.
    pub fn output_len(&self) -> u32
        ensures { result ≡ length self.now.current.bus.out }
    {
        self.machine.output_len()
    }

    /// Returns the byte of the current state's output at an index, counted from 0.
    pub fn output_at(&self, index: u32) -> Option<u8>
        ensures { result ≡ slice_get self.now.current.bus.out index }
    {
        self.machine.output_at(index)
    }

    /// Returns how many more bytes of input may be handed in at the current state.
    pub fn input_room(&self) -> u32
        ensures { result + length self.now.current.bus.given ≡ 65536 }
    {
        self.machine.input_room()
    }

    /// Returns how many bytes of input were handed in up to the current state, 0 to 65,536, taken
    /// ones included.
    pub fn input_len(&self) -> u32
        ensures { result ≡ length self.now.current.bus.given }
    {
        self.machine.input_len()
    }

    /// Returns the byte of the current state's input at an index, counted from 0.
    pub fn input_at(&self, index: u32) -> Option<u8>
        ensures { result ≡ slice_get self.now.current.bus.given index }
    {
        self.machine.input_at(index)
    }

    /// Returns the level of the IRQ line in the current state.
    pub fn irq(&self) -> bool
        ensures { result ≡ self.now.current.irq }
    {
        self.machine.irq()
    }

    /// Returns whether an NMI is pending in the current state.
    pub fn nmi_is_pending(&self) -> bool
        ensures { result ≡ self.now.current.nmi }
    {
        self.machine.nmi_is_pending()
    }

    /// Returns whether the next step is an interrupt entry: an NMI is pending, or an IRQ is asked
    /// for and I is 0.
    pub fn entry_is_due(&self) -> bool
        ensures { result ≡ entry_due self.now.current }
    {
        self.machine.entry_is_due()
    }

    /// States the invariant of every current state: a bus of 65,536 bytes, registers of 8 and 16
    /// bits, and a cycle count of 64 bits. A law for proofs: it does nothing.
    pub fn is_state(&self)
        ensures { IsState self.now.current }
    {
        self.machine.is_state();
    }
}
