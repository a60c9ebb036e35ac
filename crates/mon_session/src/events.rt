//! Events that were made, and those after them that were undone.

ghost use Rattle.std.specs.Prelude.{◌≡◌, ◌+◌, ◌-◌, ◌≤◌, ◌++◌, [], IfOk, length, take, drop};
ghost use Rattle.std.specs.Prelude.{replicate, slice_get};
ghost use Rattle.circular_buffer.specs.Buffer.{buffer, keep_last};
ghost use Rattle.model.specs.declared.event.Event.TheVariants.{Step};
ghost use Rattle.mon_session.specs.Events.{with_event, with_redone, with_steps, with_undone};

use circular_buffer::HeapCircularBuffer;
use model::Event;
use std::alloc::{AllocError, Global};
use std::marker::Model;

/// The last events that were made, and those after them that were undone.
#[derive(Drop)]
pub struct Events {
    made: HeapCircularBuffer<Event>,
    undone: HeapCircularBuffer<Event>,
}

impl Model for Events {
    ghost use Rattle.std.specs.Prelude.{◌≡◌, ◌+◌, ◌^◌, ◌<◌, ◌≤◌, length};
    ghost use Rattle.mon_session.specs.Events.{Kept};

    ghost Value = { Kept };

    ghost view = { λ e. record {
      made = e.made.items;
      undone = e.undone.items;
      room = e.made.capacity;
    } };

    ghost invariant = { λ e. (length e.made.items + length e.undone.items ≤ e.made.capacity)
        × (e.undone.capacity ≡ e.made.capacity) × (e.made.capacity < 2 ^ 32) };
}

/// Appends `count` steps. The oldest events are dropped where there is no room.
fn push_steps(made: &mut HeapCircularBuffer<Event>, count: u64)
    requires { length made.old.items ≤ made.old.capacity }
    ensures { made.new ≡ buffer
        (keep_last made.old.capacity (made.old.items ++ replicate count Step)) made.old.capacity }
{
    for _ in 0..count {
        let _ = made.push_back(Event::Step);
    }
}

/// Moves the event at the end of one ring, if there is one, to the front of another.
fn move_one(made: &mut HeapCircularBuffer<Event>, undone: &mut HeapCircularBuffer<Event>)
    requires { length made.old.items + length undone.old.items ≤ undone.old.capacity }
    ensures rest { made.new ≡ buffer
        (take (length made.old.items - 1) made.old.items) made.old.capacity }
    ensures moved { undone.new ≡ buffer
        (drop (length made.old.items - 1) made.old.items ++ undone.old.items)
        undone.old.capacity }
{
    if let Some(event) = made.pop_back() {
        let _ = undone.push_front(event);
    }
}

/// Moves the last `count` events of one ring to the front of another, or all if there are fewer.
fn move_last(
    made: &mut HeapCircularBuffer<Event>,
    undone: &mut HeapCircularBuffer<Event>,
    count: u32,
)
    requires { length made.old.items + length undone.old.items ≤ undone.old.capacity }
    ensures rest { made.new ≡ buffer
        (take (length made.old.items - count) made.old.items) made.old.capacity }
    ensures moved { undone.new ≡ buffer
        (drop (length made.old.items - count) made.old.items ++ undone.old.items)
        undone.old.capacity }
{
    for _ in 0..count {
        move_one(made, undone);
    }
}

impl Events {
    /// Makes an empty record, which keeps the last `room` events.
    ///
    /// The only error is that an allocation failed.
    pub fn new(alloc: Global, room: u32) -> Result<Events, AllocError>
        ensures { IfOk result (λ e. e ≡ record { made = []; undone = []; room = room }) }
    {
        Ok(Events {
            made: HeapCircularBuffer::with_capacity(alloc, room as usize)?,
            undone: HeapCircularBuffer::with_capacity(alloc, room as usize)?,
        })
    }

    /// Notes an event that was made. Those that were undone before it are forgotten. Does not
    /// allocate.
    pub fn note(&mut self, event: Event)
        ensures { self.new ≡ with_event event self.old }
    {
        self.undone.clear();
        let _ = self.made.push_back(event);
    }

    /// Notes steps that were made. Does not allocate.
    pub fn note_steps(&mut self, count: u64)
        ensures { self.new ≡ with_steps count self.old }
    {
        if count == 0 {
            return;
        }
        self.undone.clear();
        let most = count.min(self.made.capacity() as u64);
        push_steps(&mut self.made, most);
    }

    /// Notes that the last `count` events were undone, or all that are kept if there are fewer.
    /// Does not allocate.
    pub fn note_undone(&mut self, count: u32)
        ensures { self.new ≡ with_undone count self.old }
    {
        move_last(&mut self.made, &mut self.undone, count);
    }

    /// Returns how many undone events can be made again.
    pub fn undone(&self) -> u32
        ensures { result ≡ length self.now.undone }
    {
        self.undone.len() as u32
    }

    /// Takes the next event that can be made again, which counts as made then. Does not allocate.
    pub fn next(&mut self) -> Option<Event>
        ensures event { result ≡ slice_get self.old.undone 0 }
        ensures kept { self.new ≡ with_redone self.old }
    {
        let event = self.undone.pop_front()?;
        let _ = self.made.push_back(event);
        Some(event)
    }
}
