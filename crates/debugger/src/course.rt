//! The trail of a session, with the last steps of a run only counted: they are noted together,
//! before anything else happens.

ghost use Rattle.std.specs.Prelude.{◌≡◌, ◌+◌, ◌-◌, ◌*◌, ◌<◌, ◌≤◌, ◌++◌, ◌∷◌, ◌%◌, [], min, length};
ghost use Rattle.std.specs.Prelude.{take, IfOk, IfErr, ℕ, List, true, false};
ghost use Rattle.model.specs.State.{State};
ghost use Rattle.model.specs.Run.{after_steps};
ghost use Rattle.model.specs.declared.event.Event.TheVariants.{Step};
ghost use Rattle.circular_buffer.specs.Buffer.{buffer};
ghost use Rattle.model.specs.Checkpoint.{checkpoint_of};
ghost use Rattle.debugger.specs.Course.{IsQuiet, with_steps};
ghost use Rattle.debugger.specs.Pages.{TellsPages};
ghost use Rattle.debugger.specs.Replay.{Follows, IsHistory, held_states};
ghost use Rattle.debugger.specs.Running.{session_of};
ghost use Rattle.debugger.specs.Trail.{HasRoom, IsNoted};
ghost use Rattle.cpu.specs.PlainRuns.{RanPlainly};
ghost use Rattle.cpu.specs.Running.{AllButLast, AllGoOn};

use crate::pages::Pages;
use crate::trail;
use crate::trail::{PART, Trail};
use cpu::{Machine, PlainRun, QuickRun};
use model::{Event, SessionFault};
use std::alloc::Global;
use std::marker::Model;

/// As many steps as may be noted together.
const STEPS: [Event; PART] = [Event::Step; PART];

/// A trail, and steps after it.
#[derive(Drop)]
pub struct Course {
    trail: Trail,
    /// How many steps come after the trail.
    steps: u32,
    /// How many steps more may come before one that makes a checkpoint or lets the oldest part go.
    quiet: u32,
}

impl Model for Course {
    ghost use Rattle.debugger.specs.declared.trail.Trail as declared;
    ghost use Rattle.debugger.specs.Course.{IsQuiet, with_steps};
    ghost use Rattle.debugger.specs.Trail.{HasRoom};

    ghost Value = { declared.Trail };

    ghost view = { λ c. with_steps c.trail c.steps };

    ghost invariant = { λ c. HasRoom (with_steps c.trail c.steps) × IsQuiet c.trail c.steps
        c.quiet };
}

/// Makes the course of a machine to which nothing has happened yet. It allocates all the room that
/// events need.
///
/// Errors: `OutOfMemory` if an allocation fails.
pub fn new_course(alloc: Global, machine: &Machine, history: u32) -> Result<Course, SessionFault>
    requires { history ≤ 1048576 }
    ensures room { IfOk result (λ course. HasRoom course) }
    ensures size { IfOk result (λ course. course.history ≡ history) }
    ensures history { IfOk result
        (λ course. IsHistory 1024 course.kept.items course.events.items machine.now) }
    ensures none { IfOk result (λ course. length course.events.items ≡ 0) }
    ensures states { IfOk result
        (λ course. held_states course.held course.kept.items course.events.items machine.now ≡ []) }
    ensures first { IfOk result (λ course. course.kept.items ≡ checkpoint_of machine.now ∷ []) }
    ensures only { IfErr result (λ fault. fault ≡ SessionFault.OutOfMemory) }
{
    match trail::new_trail(alloc, machine, history) {
        Ok(trail) => Ok(Course {
            trail,
            steps: 0,
            quiet: 0,
        }),
        Err(fault) => Err(fault),
    }
}

impl Course {
    /// Returns how many of the last events can be undone.
    pub fn held_count(&self) -> u32
        ensures { result ≡ self.now.held }
    {
        let held = self.trail.held + self.steps;
        held.min(self.trail.history)
    }

    /// Returns how many steps may come before one that makes a checkpoint or drops the oldest part.
    #[inline(always)]
    pub fn quiet_count(&self) -> u32
        ensures { IsQuiet self.now 0 result }
    {
        self.quiet
    }
}

/// Undoes the last `count` events: goes back to the last checkpoint that is not later, and makes
/// the events from there on again. Returns how many these were. All pages may have changed
/// afterwards.
pub fn go_back(
    course: &mut Course,
    machine: &mut Machine,
    watches: &[u8],
    pages: &mut Pages,
    count: u32,
) -> u32
    requires watches { length watches.now ≡ 65536 }
    requires held { count ≤ course.old.held }
    requires history { IsHistory 1024 course.old.kept.items course.old.events.items machine.old }
    ensures room { HasRoom course.new }
    ensures size { course.new.history ≡ course.old.history }
    ensures history { IsHistory 1024 course.new.kept.items course.new.events.items machine.new }
    ensures states { held_states course.new.held course.new.kept.items course.new.events.items
        machine.new ++ machine.new ∷ []
        ≡ take (course.old.held - count + 1) (held_states course.old.held course.old.kept.items
        course.old.events.items machine.old ++ machine.old ∷ []) }
    ensures number { result ≡ length course.new.events.items % 1024 }
    ensures fewer { length course.new.events.items + count ≡ length course.old.events.items }
    ensures pages { TellsPages pages.new course.new.kept.items course.new.spare.items
        machine.new.bus.memory }
{
    settle(&mut course.trail, course.steps);
    course.steps = 0;
    course.quiet = 0;
    trail::rewind(&mut course.trail, machine, watches, pages, count)
}

/// Notes an accepted event, which led to the machine's state.
#[inline(always)]
pub fn note_event(course: &mut Course, machine: &Machine, pages: &mut Pages, event: Event)
    requires { TellsPages pages.old course.old.kept.items course.old.spare.items
        machine.now.bus.memory }
    ensures room { HasRoom course.new }
    ensures size { course.new.history ≡ course.old.history }
    ensures number { length course.new.events.items % 1024
        ≡ (length course.old.events.items % 1024 + 1) % 1024 }
    ensures noted { (before : State)
        → IsHistory 1024 course.old.kept.items course.old.events.items before
        → Follows before event machine.now → IsNoted course.old course.new before machine.now }
    ensures pages { TellsPages pages.new course.new.kept.items course.new.spare.items
        machine.now.bus.memory }
{
    if let Event::Step = event {
        return note_step(course, machine, pages);
    }
    note_apart(course, machine, pages, event);
}

/// Notes the same at once.
#[inline(never)]
fn note_apart(course: &mut Course, machine: &Machine, pages: &mut Pages, event: Event)
    requires { TellsPages pages.old course.old.kept.items course.old.spare.items
        machine.now.bus.memory }
    ensures room { HasRoom course.new }
    ensures size { course.new.history ≡ course.old.history }
    ensures number { length course.new.events.items % 1024
        ≡ (length course.old.events.items % 1024 + 1) % 1024 }
    ensures noted { (before : State)
        → IsHistory 1024 course.old.kept.items course.old.events.items before
        → Follows before event machine.now → IsNoted course.old course.new before machine.now }
    ensures pages { TellsPages pages.new course.new.kept.items course.new.spare.items
        machine.now.bus.memory }
{
    settle(&mut course.trail, course.steps);
    course.steps = 0;
    trail::append_event(&mut course.trail, machine, pages, event);
    course.quiet = quiet_steps(&course.trail);
}

/// Notes a step, which led to the machine's state.
#[inline(always)]
pub fn note_step(course: &mut Course, machine: &Machine, pages: &mut Pages)
    requires { TellsPages pages.old course.old.kept.items course.old.spare.items
        machine.now.bus.memory }
    ensures room { HasRoom course.new }
    ensures size { course.new.history ≡ course.old.history }
    ensures number { length course.new.events.items % 1024
        ≡ (length course.old.events.items % 1024 + 1) % 1024 }
    ensures noted { (before : State)
        → IsHistory 1024 course.old.kept.items course.old.events.items before
        → Follows before Step machine.now → IsNoted course.old course.new before machine.now }
    ensures pages { TellsPages pages.new course.new.kept.items course.new.spare.items
        machine.now.bus.memory }
{
    if course.quiet == 0 {
        note_apart(course, machine, pages, Event::Step);
        return;
    }
    course.quiet -= 1;
    course.steps += 1;
}

/// Makes steps as `Machine::quick_run` does, none of which makes a checkpoint or drops the oldest
/// part.
#[inline(always)]
pub fn run_quietly(
    course: &mut Course,
    machine: &mut Machine,
    pages: &mut Pages,
    limit: u32,
    stops: &[u8],
    watches: &[u8],
) -> QuickRun
    requires stops { length stops.now ≡ 65536 }
    requires watches { length watches.now ≡ 65536 }
    requires history { IsHistory 1024 course.old.kept.items course.old.events.items machine.old }
    requires pages { TellsPages pages.old course.old.kept.items course.old.spare.items
        machine.old.bus.memory }
    ensures within { result.steps ≤ limit }
    ensures on { result.stopped ≡ false
        → AllGoOn stops.now watches.now result.steps machine.old machine.new }
    ensures last { result.stopped ≡ true
        → AllButLast stops.now watches.now result.steps machine.old machine.new }
    ensures room { HasRoom course.new }
    ensures history { IsHistory 1024 course.new.kept.items course.new.events.items machine.new }
    ensures steps { (breaks watched : List ℕ) (replayed : ℕ)
        → session_of course.new machine.new breaks watched replayed
        ≡ after_steps result.steps (session_of course.old machine.old breaks watched replayed) }
    ensures pages { TellsPages pages.new course.new.kept.items course.new.spare.items
        machine.new.bus.memory }
{
    let most = limit.min(course.quiet);
    let now = pages.now;
    let ran = machine.quick_run(most, stops, watches, &mut pages.stamps, now);
    course.quiet -= ran.steps;
    course.steps += ran.steps;
    ran
}

/// Makes steps as `Machine::run_plainly` does, none of which makes a checkpoint or drops the oldest
/// part.
#[inline(always)]
pub fn run_plainly(
    course: &mut Course,
    machine: &mut Machine,
    pages: &mut Pages,
    limit: u32,
    stops: &[u8],
    marks: &[u8],
) -> PlainRun
    requires stops { length stops.now ≡ 65536 }
    requires marks { length marks.now ≡ 65536 }
    requires history { IsHistory 1024 course.old.kept.items course.old.events.items machine.old }
    requires pages { TellsPages pages.old course.old.kept.items course.old.spare.items
        machine.old.bus.memory }
    ensures within { result.steps ≤ limit }
    ensures ran { RanPlainly stops.now marks.now result machine.old machine.new }
    ensures room { HasRoom course.new }
    ensures history { IsHistory 1024 course.new.kept.items course.new.events.items machine.new }
    ensures steps { (breaks watched : List ℕ) (replayed : ℕ)
        → session_of course.new machine.new breaks watched replayed
        ≡ after_steps result.steps (session_of course.old machine.old breaks watched replayed) }
    ensures pages { TellsPages pages.new course.new.kept.items course.new.spare.items
        machine.new.bus.memory }
{
    let most = limit.min(course.quiet);
    let now = pages.now;
    let ran = machine.run_plainly(most, stops, marks, &mut pages.stamps, now);
    course.quiet -= ran.steps;
    course.steps += ran.steps;
    ran
}

/// Notes some steps, none of which makes a checkpoint or drops the oldest part.
#[inline(never)]
fn settle(trail: &mut Trail, steps: u32)
    requires few { steps ≤ 1024 }
    requires room { length trail.old.events.items + steps ≤ trail.old.events.capacity }
    requires size { trail.old.held + steps < 2000000 }
    ensures { trail.new ≡ with_steps trail.old steps }
{
    let all = &STEPS;
    trail.events.fill_from_slice(&all[..steps as usize]);
    let held = trail.held + steps;
    trail.held = held.min(trail.history);
}

/// Returns how many steps may come before one that makes a checkpoint or drops the oldest part.
fn quiet_steps(trail: &Trail) -> u32
    requires { HasRoom trail.now }
    ensures { IsQuiet trail.now 0 result }
{
    let part = (PART - 1 - trail.events.len() % PART) as u32;
    let room = (trail.held as usize + PART - 1 - trail.events.len()) as u32;
    part.min(room)
}
