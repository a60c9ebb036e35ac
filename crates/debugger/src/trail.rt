//! The events that led to the current state, and checkpoints along them.

ghost use Rattle.std.specs.Prelude.{◌≡◌, ◌+◌, ◌-◌, ◌*◌, ◌/◌, ◌%◌, ◌<◌, ◌≤◌, ◌++◌, ◌∷◌, [], min};
ghost use Rattle.std.specs.Prelude.{length, take, drop, Some, Ok, Err, OnOk, IfOk, IfErr, List, ℕ};
ghost use Rattle.model.specs.State.{State};
ghost use Rattle.model.specs.Event.{event_of};
ghost use Rattle.model.specs.declared.event.Event.TheVariants.{Step};
ghost use Rattle.model.specs.Session.{keep_last};
ghost use Rattle.model.specs.Undo.{Undoes};
ghost use Rattle.model.specs.Checkpoint.{Checkpoint as CheckpointView, CanPutBack, checkpoint_of, state_at};
ghost use Rattle.circular_buffer.specs.Buffer.{last_item};
ghost use Rattle.bus.specs.Pages.{StaySame};
ghost use Rattle.debugger.specs.Pages.{TellsPages};
ghost use Rattle.debugger.specs.Replay.{AllFollow, Follows, IsHistory, held_states, state_after};
ghost use Rattle.debugger.specs.Replay.{base_of};
ghost use Rattle.debugger.specs.Trail.{HasRoom, IsNoted, DropsOldest, SavesCheckpoint};

use crate::pages::Pages;
use bus::{Stamps, stamp_all};
use circular_buffer::HeapCircularBuffer;
use cpu::{Checkpoint, Machine};
use model::{Event, EventFault, SessionFault, Undo};
use std::alloc::Global;

/// How many events lie between two checkpoints (mos65).
pub const PART: usize = 1024;

/// Events with the checkpoints along them, the oldest first: one at the first event, and one after
/// each 1,024th.
#[derive(Drop)]
pub struct Trail {
    pub events: HeapCircularBuffer<Event>,
    pub kept: HeapCircularBuffer<Checkpoint>,
    /// Checkpoints that are not in use.
    pub spare: HeapCircularBuffer<Checkpoint>,
    /// How many of the last events can be gone back over.
    pub held: u32,
    /// How many there may be.
    pub history: u32,
}

/// Makes an event. Pages that it changes get the stamp `now`. A step that stores at an address
/// whose byte of `watches` is not 0 takes longer.
///
/// Errors: those of the machine's call for the event; nothing changes.
#[inline(always)]
pub fn happen(
    machine: &mut Machine,
    watches: &[u8],
    stamps: &mut Stamps,
    now: u32,
    event: Event,
) -> Result<(), EventFault>
    requires { length watches.now ≡ 65536 }
    ensures ok { OnOk result (Follows machine.old event machine.new) }
    ensures err { IfErr result
        (λ fault. (event_of machine.old event ≡ Err fault) × (machine.new ≡ machine.old)) }
    ensures same { StaySame now stamps.old stamps.new machine.old.bus.memory
        machine.new.bus.memory }
{
    if let Event::Step = event {
        return make_step(machine, watches, stamps, now);
    }
    stamp_all(stamps, now);
    match happen_apart(machine, event) {
        Ok(_) => Ok(()),
        Err(fault) => Err(fault),
    }
}

/// Makes a step without a record, by the jump if it can.
#[inline(always)]
fn make_step(
    machine: &mut Machine,
    watches: &[u8],
    stamps: &mut Stamps,
    now: u32,
) -> Result<(), EventFault>
    requires { length watches.now ≡ 65536 }
    ensures ok { OnOk result (Follows machine.old Step machine.new) }
    ensures err { IfErr result
        (λ fault. (event_of machine.old Step ≡ Err fault) × (machine.new ≡ machine.old)) }
    ensures same { StaySame now stamps.old stamps.new machine.old.bus.memory
        machine.new.bus.memory }
{
    if machine.quick_step(watches, stamps, now) {
        return Ok(());
    }
    let mut change = machine.begin_change();
    let made = machine.step_noting(&mut change);
    machine.stamp(&change, stamps, now);
    made
}

/// Makes any event, and returns the record that leads back.
#[inline(never)]
#[tactic(auto, unfolding(model::specs::Event::event_of))]
fn happen_apart(machine: &mut Machine, event: Event) -> Result<Undo, EventFault>
    ensures ok { OnOk result (event_of machine.old event ≡ Ok machine.new) }
    ensures err { IfErr result
        (λ fault. (event_of machine.old event ≡ Err fault) × (machine.new ≡ machine.old)) }
    ensures undo { IfOk result (λ undo. Undoes undo machine.old machine.new) }
{
    match event {
        Event::Step => machine.step(),
        Event::Reset => machine.reset(),
        Event::Irq(level) => machine.set_irq(level),
        Event::Nmi => machine.nmi(),
        Event::Set(setting) => machine.set_register(setting),
        Event::Patch { count, .. } if count > 3 => Err(EventFault::BadLength),
        Event::Patch {
            address,
            bytes,
            count,
        } => machine.patch(address, &bytes[..count as usize]),
        Event::Input(byte) => machine.give_input(byte),
    }
}

/// Makes the events from one place to another again. The stamps say nothing afterwards.
fn replay(
    machine: &mut Machine,
    watches: &[u8],
    stamps: &mut Stamps,
    events: &HeapCircularBuffer<Event>,
    from: usize,
    to: usize,
)
    requires watches { length watches.now ≡ 65536 }
    requires order { from ≤ to }
    requires within { to ≤ length events.now.items }
    ensures { (base : State) → AllFollow base events.now.items → machine.old ≡ state_after base
        (take from events.now.items) → machine.new ≡ state_after base (take to events.now.items) }
{
    for index in from..to {
        if let Some(event) = events.get(index) {
            let _ = happen(machine, watches, stamps, 0, *event);
        }
    }
}

/// Puts the machine back to the last of some checkpoints.
fn return_to_last(machine: &mut Machine, kept: &HeapCircularBuffer<Checkpoint>)
    requires { (c : CheckpointView) → last_item kept.now.items ≡ Some c
        → CanPutBack c.bus machine.old.bus }
    ensures { (c : CheckpointView) → last_item kept.now.items ≡ Some c
        → machine.new ≡ state_at c machine.old }
{
    if let Some(checkpoint) = kept.back() {
        machine.restore(checkpoint);
    }
}

/// Moves the checkpoints past the first `count` to the spare ones.
fn put_aside(
    kept: &mut HeapCircularBuffer<Checkpoint>,
    spare: &mut HeapCircularBuffer<Checkpoint>,
    count: usize,
)
    requires few { count ≤ length kept.old.items }
    requires room { length kept.old.items + length spare.old.items ≤ spare.old.capacity }
    ensures kept { kept.new.items ≡ take count kept.old.items }
    ensures spare { length kept.new.items + length spare.new.items
        ≡ length kept.old.items + length spare.old.items }
    ensures kept_room { kept.new.capacity ≡ kept.old.capacity }
    ensures spare_room { spare.new.capacity ≡ spare.old.capacity }
{
    while kept.len() > count {
        if let Some(checkpoint) = kept.pop_back() {
            spare.push_back(checkpoint);
        }
    }
}

/// Undoes the last `count` events: goes back to the last checkpoint that is not later, and makes
/// the events from there on again. Returns how many these were. All pages may have changed
/// afterwards.
pub fn rewind(
    trail: &mut Trail,
    machine: &mut Machine,
    watches: &[u8],
    pages: &mut Pages,
    count: u32,
) -> u32
    requires watches { length watches.now ≡ 65536 }
    requires room { HasRoom trail.old }
    requires held { count ≤ trail.old.held }
    requires history { IsHistory 1024 trail.old.kept.items trail.old.events.items machine.old }
    ensures room { HasRoom trail.new }
    ensures size { trail.new.history ≡ trail.old.history }
    ensures history { IsHistory 1024 trail.new.kept.items trail.new.events.items machine.new }
    ensures states { held_states trail.new.held trail.new.kept.items trail.new.events.items
        machine.new
        ++ machine.new ∷ [] ≡ take (trail.old.held - count + 1) (held_states trail.old.held
        trail.old.kept.items trail.old.events.items machine.old ++ machine.old ∷ []) }
    ensures number { result ≡ length trail.new.events.items % 1024 }
    ensures fewer { length trail.new.events.items + count ≡ length trail.old.events.items }
    ensures pages { TellsPages pages.new trail.new.kept.items trail.new.spare.items
        machine.new.bus.memory }
{
    let target = trail.events.len() - count as usize;
    let place = target / PART;
    put_aside(&mut trail.kept, &mut trail.spare, place + 1);
    return_to_last(machine, &trail.kept);
    replay(
        machine,
        watches,
        &mut pages.stamps,
        &trail.events,
        place * PART,
        target,
    );
    stamp_all(&mut pages.stamps, pages.now);
    pages.spare = 0;
    trail.events.truncate_back(target);
    trail.held -= count;
    (target % PART) as u32
}

/// Notes an accepted event, which led to the machine's state.
#[inline(always)]
pub fn append_event(trail: &mut Trail, machine: &Machine, pages: &mut Pages, event: Event)
    requires room { HasRoom trail.old }
    requires pages { TellsPages pages.old trail.old.kept.items trail.old.spare.items
        machine.now.bus.memory }
    ensures room { HasRoom trail.new }
    ensures size { trail.new.history ≡ trail.old.history }
    ensures number { length trail.new.events.items % 1024
        ≡ (length trail.old.events.items % 1024 + 1) % 1024 }
    ensures noted { (before : State) → IsHistory 1024 trail.old.kept.items trail.old.events.items
        before → Follows before event machine.now → IsNoted trail.old trail.new before machine.now }
    ensures pages { TellsPages pages.new trail.new.kept.items trail.new.spare.items
        machine.now.bus.memory }
{
    trail.events.push_back(event);
    trail.held = one_more(trail.held, trail.history);
    drop_oldest(trail, pages);
    save_checkpoint(trail, machine, pages);
}

/// Returns one more, but not more than a limit.
#[inline(always)]
fn one_more(held: u32, limit: u32) -> u32
    requires { held ≤ limit }
    ensures { result ≡ min (held + 1) limit }
{
    if held < limit { held + 1 } else { held }
}

/// Drops the oldest 1,024 events and their checkpoint once `back` can no longer reach them.
#[inline(always)]
fn drop_oldest(trail: &mut Trail, pages: &mut Pages)
    requires kept { 0 < length trail.old.kept.items }
    requires few_kept { length trail.old.kept.items ≤ 1026 }
    requires room { length trail.old.spare.items < trail.old.spare.capacity }
    ensures few { length trail.old.events.items < trail.old.held + 1024 → trail.new ≡ trail.old }
    ensures many { trail.old.held + 1024 ≤ length trail.old.events.items
        → DropsOldest trail.old trail.new }
    ensures pages { (memory : List ℕ)
        → TellsPages pages.old trail.old.kept.items trail.old.spare.items memory
        → TellsPages pages.new trail.new.kept.items trail.new.spare.items memory }
{
    if trail.events.len() < trail.held as usize + PART {
        return;
    }
    let rest = trail.events.len() - PART;
    trail.events.truncate_front(rest);
    let count = trail.kept.len() as u32;
    if let Some(checkpoint) = trail.kept.pop_front() {
        trail.spare.push_back(checkpoint);
        pages.spare = pages.now.saturating_sub(count - 1);
    }
}

/// Makes a checkpoint of the machine's state if one is due.
#[inline(always)]
fn save_checkpoint(trail: &mut Trail, machine: &Machine, pages: &mut Pages)
    requires pages { TellsPages pages.old trail.old.kept.items trail.old.spare.items
        machine.now.bus.memory }
    requires spare { length trail.old.events.items % 1024 ≡ 0 → 0 < length trail.old.spare.items }
    requires room { length trail.old.events.items % 1024 ≡ 0
        → length trail.old.kept.items < trail.old.kept.capacity }
    ensures none { 0 < length trail.old.events.items % 1024 → trail.new ≡ trail.old }
    ensures one { length trail.old.events.items % 1024 ≡ 0
        → SavesCheckpoint trail.old trail.new (checkpoint_of machine.now) }
    ensures pages { TellsPages pages.new trail.new.kept.items trail.new.spare.items
        machine.now.bus.memory }
{
    if trail.events.len() % PART != 0 {
        return;
    }
    if let Some(mut checkpoint) = trail.spare.pop_back() {
        machine.save_pages(&mut checkpoint, &pages.stamps, pages.spare);
        trail.kept.push_back(checkpoint);
        pages.spare = 0;
        pages.now = pages.now.saturating_add(1);
    }
}

/// Makes the trail of a machine to which nothing has happened yet. It allocates all the room that
/// events need.
///
/// Errors: `OutOfMemory` if an allocation fails.
pub fn new_trail(alloc: Global, machine: &Machine, history: u32) -> Result<Trail, SessionFault>
    requires { history ≤ 1048576 }
    ensures room { IfOk result (λ trail. HasRoom trail) }
    ensures size { IfOk result (λ trail. trail.history ≡ history) }
    ensures history { IfOk result
        (λ trail. IsHistory 1024 trail.kept.items trail.events.items machine.now) }
    ensures none { IfOk result (λ trail. length trail.events.items ≡ 0) }
    ensures states { IfOk result
        (λ trail. held_states trail.held trail.kept.items trail.events.items machine.now ≡ []) }
    ensures first { IfOk result (λ trail. trail.kept.items ≡ checkpoint_of machine.now ∷ []) }
    ensures only { IfErr result (λ fault. fault ≡ SessionFault.OutOfMemory) }
{
    let size = history as usize / PART + 2;
    let Ok(events) = HeapCircularBuffer::with_capacity(alloc, history as usize + PART) else {
        return Err(SessionFault::OutOfMemory);
    };
    let Ok(mut kept) = HeapCircularBuffer::with_capacity(alloc, size) else {
        return Err(SessionFault::OutOfMemory);
    };
    let Ok(mut first) = Checkpoint::new(alloc) else {
        return Err(SessionFault::OutOfMemory);
    };
    machine.save(&mut first);
    kept.push_back(first);
    let Ok(spare) = checkpoints(alloc, size) else {
        return Err(SessionFault::OutOfMemory);
    };
    Ok(Trail {
        events,
        kept,
        spare,
        held: 0,
        history,
    })
}

/// Makes empty checkpoints, one fewer than there is room for.
fn checkpoints(alloc: Global, size: usize) -> Result<HeapCircularBuffer<Checkpoint>, SessionFault>
    requires { 0 < size }
    ensures count { IfOk result (λ spare. length spare.items + 1 ≡ size) }
    ensures room { IfOk result (λ spare. spare.capacity ≡ size) }
{
    let Ok(mut spare) = HeapCircularBuffer::with_capacity(alloc, size) else {
        return Err(SessionFault::OutOfMemory);
    };
    for _ in 1..size {
        match Checkpoint::new(alloc) {
            Ok(checkpoint) => {
                spare.push_back(checkpoint);
            }
            Err(_) => return Err(SessionFault::OutOfMemory),
        }
    }
    Ok(spare)
}
