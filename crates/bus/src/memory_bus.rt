//! Memory, ROM and the port.

ghost use Rattle.std.specs.Prelude.{◌≡◌, ◌==◌, ◌+◌, ◌-◌, ◌<◌, ◌≤◌, ◌↔◌, length, slice_index};
ghost use Rattle.std.specs.Prelude.{slice_get, slice_set, IsErr, OnOk, OnErr, IfErr, IfOk, Some};
ghost use Rattle.std.specs.Prelude.{true, false, not, ◌||◌, ◌&&◌, ◌++◌, ◌∷◌, [], if◌then◌else◌, ℕ};
ghost use Rattle.std.specs.Prelude.{List};
ghost use Rattle.std.specs.List.{list_all};
ghost use Rattle.model.specs.State.{console_size, is_port, is_rom, byte_read, after_read};
ghost use Rattle.model.specs.State.{overflows, after_write, bus_with_byte, input_waits, loaded_bus};
ghost use Rattle.model.specs.State.{has_port_byte, AreBytes, IsBus};
ghost use Rattle.model.specs.Event.{meets_port, bus_with_patch};
ghost use Rattle.model.specs.Image.{empty_image};
ghost use Rattle.model.specs.Undo.{CanRestore, bus_before, cells_of, put_cells};
ghost use Rattle.model.specs.Checkpoint.{saved_of, bus_at, CanPutBack};
ghost use Rattle.bus.specs.Memory.{zeros};
ghost use Rattle.bus.specs.Pages.{AreSameBelow, Stores};

use crate::pages::{Stamps, copy_pages, stamp_page};
use crate::saved_bus::SavedBus;
use circular_buffer::HeapCircularBuffer;
use memory_map::{Image, MapSpec};
use model::{BusFault, Change, Profile};
use std::alloc::{AllocError, Global};
use std::marker::Model;

/// Memory of 65,536 bytes, 0 at the port's addresses, with a console and a control byte, 0 or 1, at
/// the port. Source: mos65.
#[derive(Drop)]
pub struct Bus {
    map: MapSpec,
    memory: Vec<u8>,
    given: HeapCircularBuffer<u8>,
    taken: u32,
    out: HeapCircularBuffer<u8>,
    control: bool,
}

impl Model for Bus {
    ghost use Rattle.std.specs.Prelude.{◌≡◌, ◌≤◌, ℕ, true, length, slice_index};
    ghost use Rattle.model.specs.State as model;
    ghost use Rattle.model.specs.State.{is_port};

    ghost Value = { model.Bus };

    ghost view = { λ b. record {
      map = b.map;
      memory = b.memory.items;
      given = b.given.items;
      taken = b.taken;
      out = b.out.items;
      control = b.control;
    } };

    ghost invariant = { λ b. (length b.memory.items ≡ 65536) × (b.given.capacity ≡ 65536)
        × (b.out.capacity ≡ 65536) × (b.taken ≤ length b.given.items)
        × (length b.given.items ≤ 65536) × (length b.out.items ≤ 65536) × (512 ≤ b.map.port)
        × ((k : ℕ) → is_port b.map k ≡ true → slice_index b.memory.items k ≡ 0) };
}

impl Bus {
    /// Makes a bus whose memory is all 0, with an empty console and a control byte of 0. It
    /// allocates all the room that the bus will need.
    ///
    /// Errors: `OutOfMemory` if an allocation fails.
    #[tactic(auto, unfolding(model::specs::State::loaded_bus))]
    pub fn new(alloc: Global, map: MapSpec) -> Result<Bus, BusFault>
        ensures ok { IfOk result (λ bus. bus ≡ loaded_bus map empty_image) }
        ensures map { IfOk result (λ bus. bus.map ≡ map) }
        ensures only { IfErr result (λ fault. fault ≡ BusFault.OutOfMemory) }
    {
        let Ok(memory) = zeros(alloc, 65536) else {
            return Err(BusFault::OutOfMemory);
        };
        let Ok(given) = HeapCircularBuffer::with_capacity(alloc, 65536) else {
            return Err(BusFault::OutOfMemory);
        };
        let Ok(out) = HeapCircularBuffer::with_capacity(alloc, 65536) else {
            return Err(BusFault::OutOfMemory);
        };
        Ok(Bus {
            map,
            memory,
            given,
            taken: 0,
            out,
            control: false,
        })
    }

    /// Puts an image into memory, 0 where it has no byte, empties the console and clears the
    /// control byte.
    ///
    /// Errors: `PortAddress` if the image has a byte at a port address; nothing changes.
    #[tactic(auto, unfolding(model::specs::State::loaded_bus))]
    pub fn load(&mut self, image: &Image) -> Result<(), BusFault>
        ensures ok { OnOk result (self.new ≡ loaded_bus self.old.map image.now) }
        ensures err { OnErr result (self.new ≡ self.old) }
        ensures port { IsErr result ↔ (has_port_byte self.old.map image.now ≡ true) }
        ensures only { IfErr result (λ fault. fault ≡ BusFault.PortAddress) }
    {
        if self.map.meets(image) {
            return Err(BusFault::PortAddress);
        }
        image.fill(&mut self.memory);
        self.given.truncate_back(0);
        self.out.truncate_back(0);
        self.taken = 0;
        self.control = false;
        Ok(())
    }

    /// Returns a byte of memory without a bus read: 0 at a port address.
    #[inline(always)]
    pub fn peek(&self, address: u16) -> u8
        ensures value { result ≡ slice_index self.now.memory address }
        ensures within { address < length self.now.memory }
        ensures size { length self.now.memory ≡ 65536 }
    {
        let place = address as usize;
        self.memory[place]
    }

    /// States the invariant of every bus: memory of 65,536 bytes, 0 at the port's addresses, and a
    /// console within its room. A law for proofs: it does nothing.
    pub fn is_bus(&self)
        ensures { IsBus self.now }
    {
        self.map.is_map();
        are_bytes(self.memory.as_slice());
        let (given, given_after) = self.given.as_slices();
        are_bytes(given);
        are_bytes(given_after);
        let (out, out_after) = self.out.as_slices();
        are_bytes(out);
        are_bytes(out_after);
    }

    /// Reads a byte as the processor does. At base+1 it takes the next byte of input; base+2 gives
    /// whether input waits, base+3 the control byte, base+0 gives 0, and any other address gives
    /// memory. Source: mos65.
    #[tactic(auto, unfolding(model::specs::State::byte_read, model::specs::State::after_read, model::specs::State::is_port))]
    pub fn read(&mut self, address: u16) -> u8
        ensures value { result ≡ byte_read self.old address }
        ensures after { self.new ≡ after_read self.old address }
    {
        if !self.map.is_port(address) {
            return self.memory[address as usize];
        }
        let port = self.map.port();
        let waits = self.input_waits();
        let address = address as u32;
        if address == port + 1 {
            self.take_input()
        } else if address == port + 2 {
            waits as u8
        } else if address == port + 3 {
            self.control as u8
        } else {
            0
        }
    }

    /// Stores a byte as the processor does. At base+0 it goes to the output, at base+3 its
    /// remainder by 2 becomes the control byte; base+1, base+2 and ROM ignore it; any other address
    /// is memory.
    ///
    /// Errors: `ConsoleFull` if it would be the output's 65,537th byte; nothing changes.
    pub fn write(&mut self, address: u16, value: u8) -> Result<(), BusFault>
        ensures ok { OnOk result (self.new ≡ after_write self.old address value) }
        ensures err { OnErr result (self.new ≡ self.old) }
        ensures full { IsErr result ↔ (overflows self.old address ≡ true) }
        ensures only { IfErr result (λ fault. fault ≡ BusFault.ConsoleFull) }
    {
        if self.overflows(address) {
            return Err(BusFault::ConsoleFull);
        }
        self.put(address, value);
        Ok(())
    }

    /// Puts a byte of a patch into memory, ROM included.
    ///
    /// Errors: `PortAddress` at a port address; nothing changes.
    pub fn poke(&mut self, address: u16, value: u8) -> Result<(), BusFault>
        ensures ok { OnOk result (self.new ≡ bus_with_byte self.old address value) }
        ensures err { OnErr result (self.new ≡ self.old) }
        ensures port { IsErr result ↔ (is_port self.old.map address ≡ true) }
        ensures only { IfErr result (λ fault. fault ≡ BusFault.PortAddress) }
    {
        if self.map.is_port(address) {
            return Err(BusFault::PortAddress);
        }
        self.set(address, value);
        Ok(())
    }

    /// Appends a byte to the input. A change that could be put back before still can, and gives the
    /// same. Source: mos65.
    ///
    /// Errors: `InputFull` if 65,536 bytes were handed in, taken ones included; nothing changes.
    pub fn give(&mut self, byte: u8) -> Result<(), BusFault>
        ensures ok { OnOk result (self.new ≡ record self.old {
          given = self.old.given ++ byte ∷ [];
        }) }
        ensures err { OnErr result (self.new ≡ self.old) }
        ensures full { IsErr result ↔ (console_size ≤ length self.old.given) }
        ensures only { IfErr result (λ fault. fault ≡ BusFault.InputFull) }
        ensures undo { (change : Change) → CanRestore change self.old
            → bus_before change self.new ≡ bus_before change self.old }
        ensures fits { (change : Change) → CanRestore change self.old → CanRestore change self.new }
    {
        match self.given.try_push_back(byte) {
            Ok(()) => Ok(()),
            Err(_) => Err(BusFault::InputFull),
        }
    }

    /// Returns whether one of some bytes from an address on would stand at the port. None of them
    /// may reach past 65535.
    pub fn meets_port(&self, address: u16, bytes: &[u8]) -> bool
        requires { address + length bytes.now ≤ 65536 }
        ensures { result ≡ meets_port self.now.map address bytes.now }
    {
        for i in 0..bytes.len() {
            if self.map.is_port(address + i as u16) {
                return true;
            }
        }
        false
    }

    /// Returns how many bytes the output holds, 0 to 65,536.
    pub fn output_len(&self) -> u32
        ensures { result ≡ length self.now.out }
    {
        self.out.len() as u32
    }

    /// Returns the output's byte at an index, counted from 0.
    pub fn output_at(&self, index: u32) -> Option<u8>
        ensures { result ≡ slice_get self.now.out index }
    {
        self.out.get(index as usize).copied()
    }

    /// Returns how many more bytes of input may be handed in: 65,536 less all that were, taken ones
    /// included.
    pub fn input_room(&self) -> u32
        ensures { result + length self.now.given ≡ 65536 }
    {
        65536 - self.given.len() as u32
    }

    /// Returns how many bytes of input were handed in, 0 to 65,536, taken ones included.
    pub fn input_len(&self) -> u32
        ensures { result ≡ length self.now.given }
    {
        self.given.len() as u32
    }

    /// Returns the byte of the input that was handed in at an index, counted from 0.
    pub fn input_at(&self, index: u32) -> Option<u8>
        ensures { result ≡ slice_get self.now.given index }
    {
        self.given.get(index as usize).copied()
    }

    /// Returns the processor's profile.
    #[inline(always)]
    pub fn profile(&self) -> Profile
        ensures { result ≡ self.now.map.profile }
    {
        self.map.profile()
    }

    /// Returns whether the address is one of the port's four.
    #[inline(always)]
    pub fn is_port(&self, address: u16) -> bool
        ensures { result ≡ is_port self.now.map address }
    {
        self.map.is_port(address)
    }

    /// Returns whether a read at this address takes a byte of the input, if one waits. Any other
    /// read changes nothing.
    #[inline(always)]
    #[tactic(auto, unfolding(model::specs::State::after_read))]
    pub fn takes_input(&self, address: u16) -> bool
        ensures exact { result ≡ (address == self.now.map.port + 1) }
        ensures kept { result ≡ false → after_read self.now address ≡ self.now }
    {
        address as u32 == self.map.port() + 1
    }

    /// Returns how many bytes of input were taken.
    pub fn taken(&self) -> u32
        ensures { result ≡ self.now.taken }
    {
        self.taken
    }

    /// Returns whether the control byte is 1.
    #[inline(always)]
    pub fn control(&self) -> bool
        ensures { result ≡ self.now.control }
    {
        self.control
    }

    /// Returns whether the port asks for an interrupt: the control byte is 1 and input waits.
    /// Source: mos65.
    #[inline(always)]
    pub fn asks_irq(&self) -> bool
        ensures { result ≡ (self.now.control && input_waits self.now) }
    {
        self.control && self.input_waits()
    }

    /// Clears the control byte, as a reset does. A change that could be put back before still can,
    /// and gives the same. Source: mos65.
    #[inline(always)]
    pub fn clear_control(&mut self)
        ensures after { self.new ≡ record self.old { control = false } }
        ensures undo { (change : Change) → bus_before change self.new ≡ bus_before change self.old }
        ensures fits { (change : Change) → CanRestore change self.old → CanRestore change self.new }
    {
        self.control = false;
    }

    /// Returns whether a byte of input waits.
    #[inline(always)]
    fn input_waits(&self) -> bool
        ensures { result ≡ input_waits self.now }
    {
        (self.taken as usize) < self.given.len()
    }

    /// Takes the next byte of input, or returns 0 if none waits.
    fn take_input(&mut self) -> u8
        ensures value { result
            ≡ (if input_waits self.old then slice_index self.old.given self.old.taken else 0) }
        ensures after { self.new ≡ (if input_waits self.old
            then record self.old { taken = self.old.taken + 1 } else self.old) }
    {
        match self.given.get(self.taken as usize) {
            None => 0,
            Some(byte) => {
                let byte = *byte;
                self.taken += 1;
                byte
            }
        }
    }

    /// Returns whether a store at this address would append to an output of 65,536 bytes.
    #[inline(always)]
    #[tactic(auto, unfolding(model::specs::State::overflows))]
    pub fn overflows(&self, address: u16) -> bool
        ensures { result ≡ overflows self.now address }
    {
        address as u32 == self.map.port() && self.out.len() >= 65536
    }

    /// Returns whether a store at this address changes memory.
    #[inline(always)]
    pub fn is_plain(&self, address: u16) -> bool
        ensures { result ≡ not (is_port self.now.map address || is_rom self.now.map address) }
    {
        !(self.map.is_port(address) || self.map.is_rom(address))
    }

    /// Stores a byte as the processor does, where the output has room.
    #[tactic(auto, unfolding(model::specs::State::after_write, model::specs::State::overflows, model::specs::State::is_port))]
    fn put(&mut self, address: u16, value: u8)
        requires { overflows self.old address ≡ false }
        ensures { self.new ≡ after_write self.old address value }
    {
        if self.is_plain(address) {
            self.set(address, value);
        } else if address as u32 == self.map.port() {
            let _ = self.out.try_push_back(value);
        } else if address as u32 == self.map.port() + 3 {
            self.control = value % 2 == 1;
        }
    }

    /// Puts a byte into memory.
    #[inline(always)]
    fn set(&mut self, address: u16, value: u8)
        requires { is_port self.old.map address ≡ false }
        ensures { self.new ≡ bus_with_byte self.old address value }
    {
        self.memory[address as usize] = value;
    }

    /// Returns an empty change, which puts the bus back to what it is now.
    #[inline(always)]
    #[tactic(auto, unfolding(model::specs::Undo::bus_before, model::specs::Undo::spares_port))]
    pub fn begin_change(&self) -> Change
        ensures undo { bus_before result self.now ≡ self.now }
        ensures fits { CanRestore result self.now }
        ensures count { result.count ≡ 0 }
    {
        Change {
            cells: [(0, 0); 3],
            count: 0,
            taken: self.taken,
            given_len: self.given.len() as u32,
            out_len: self.out.len() as u32,
            control: self.control,
        }
    }

    /// Returns whether a change can be put back here.
    #[tactic(auto, unfolding(model::specs::Undo::spares_port))]
    pub fn can_restore(&self, change: &Change) -> bool
        ensures { (result ≡ true) ↔ CanRestore change.now self.now }
    {
        if change.count > 3 || change.taken > change.given_len {
            return false;
        }
        if change.given_len as usize > self.given.len()
            || change.out_len as usize > self.out.len()
        {
            return false;
        }
        spares_port(&self.map, &change.cells[..change.count as usize])
    }

    /// Puts back what a change holds: its bytes in their order, ROM included, the number of bytes
    /// taken and the control byte. It cuts both lists of the console to their old lengths.
    #[tactic(auto, unfolding(model::specs::Undo::bus_before))]
    pub fn restore(&mut self, change: Change)
        requires { CanRestore change self.old }
        ensures { self.new ≡ bus_before change self.old }
    {
        put_cells(&mut self.memory, &change.cells[..change.count as usize]);
        self.given.truncate_back(change.given_len as usize);
        self.out.truncate_back(change.out_len as usize);
        self.taken = change.taken;
        self.control = change.control;
    }

    /// Saves what leads back to this bus. Does not allocate.
    pub fn save(&self, into: &mut SavedBus)
        ensures { into.new ≡ saved_of self.now }
    {
        into.memory.copy_from_slice(&self.memory);
        into.map = Some(self.map);
        self.save_counts(into);
    }

    /// Saves the same, but copies only the pages whose stamp is at least `since`. In all other
    /// pages memory has to be what `into` holds. Does not allocate.
    pub fn save_pages(&self, into: &mut SavedBus, stamps: &Stamps, since: u32)
        requires { AreSameBelow since stamps.now into.old.memory self.now.memory }
        ensures { into.new ≡ saved_of self.now }
    {
        copy_pages(&mut into.memory, &self.memory, stamps, since);
        into.map = Some(self.map);
        self.save_counts(into);
    }

    /// Saves the rest, once memory and map are saved.
    #[tactic(auto, unfolding(model::specs::Checkpoint::saved_of))]
    fn save_counts(&self, into: &mut SavedBus)
        requires memory { into.old.memory ≡ self.now.memory }
        requires map { into.old.map ≡ Some self.now.map }
        ensures { into.new ≡ saved_of self.now }
    {
        into.taken = self.taken;
        into.given_len = self.given.len() as u32;
        into.out_len = self.out.len() as u32;
        into.control = self.control;
    }

    /// Puts back what was saved, and cuts both lists of the console to their old lengths. Does not
    /// allocate.
    #[tactic(auto, unfolding(model::specs::Checkpoint::bus_at))]
    pub fn restore_saved(&mut self, old: &SavedBus)
        requires { CanPutBack old.now self.old }
        ensures { self.new ≡ bus_at old.now self.old }
    {
        self.memory.copy_from_slice(&old.memory);
        self.given.truncate_back(old.given_len as usize);
        self.out.truncate_back(old.out_len as usize);
        self.taken = old.taken;
        self.control = old.control;
    }

    /// Stores a byte in the stack's page, where neither port nor ROM can stand. The change notes
    /// the byte that was there.
    #[inline(always)]
    pub fn push(&mut self, change: &mut Change, s: u8, value: u8)
        requires count { change.old.count < 3 }
        requires fits { CanRestore change.old self.old }
        ensures after { self.new ≡ bus_with_byte self.old (256 + s) value }
        ensures count { change.new.count ≡ change.old.count + 1 }
        ensures undo { bus_before change.new self.new ≡ bus_before change.old self.old }
        ensures fits { CanRestore change.new self.new }
    {
        let address = 256 + s as u16;
        let old = self.peek(address);
        *change = noting(*change, address, old);
        self.set_low(address, value);
    }

    /// Stores a byte as the processor does, where the output has room. The change notes the byte of
    /// memory that was there; it holds the console's lengths and the control byte already.
    pub fn store(&mut self, change: &mut Change, address: u16, value: u8)
        requires room { overflows self.old address ≡ false }
        requires count { change.old.count < 3 }
        requires fits { CanRestore change.old self.old }
        ensures after { self.new ≡ after_write self.old address value }
        ensures count { change.new.count ≤ change.old.count + 1 }
        ensures undo { bus_before change.new self.new ≡ bus_before change.old self.old }
        ensures fits { CanRestore change.new self.new }
    {
        if self.is_plain(address) {
            let old = self.peek(address);
            *change = noting(*change, address, old);
        }
        self.put(address, value);
    }

    /// Stores a byte as the processor does, at an address where that changes memory. Its page gets
    /// the stamp `now`.
    #[inline(always)]
    pub fn store_plain(&mut self, address: u16, value: u8, stamps: &mut Stamps, now: u32)
        requires { not (is_port self.old.map address || is_rom self.old.map address) ≡ true }
        ensures after { self.new ≡ after_write self.old address value }
        ensures stores { (watches : List ℕ) → slice_index watches address ≡ 0
            → Stores watches now stamps.old stamps.new self.old self.new }
    {
        stamp_page(stamps, now, address);
        self.set(address, value);
    }

    /// Stores a byte in the stack's page, where neither port nor ROM can stand. The page gets the
    /// stamp `now`.
    #[inline(always)]
    pub fn push_plain(&mut self, s: u8, value: u8, stamps: &mut Stamps, now: u32)
        ensures after { self.new ≡ bus_with_byte self.old (256 + s) value }
        ensures stores { (watches : List ℕ) → slice_index watches (256 + s) ≡ 0
            → Stores watches now stamps.old stamps.new self.old self.new }
    {
        let place = 256 + s as u16;
        stamp_page(stamps, now, place);
        self.set_low(place, value);
    }

    /// Puts the bytes of a patch into memory, ROM included. None of them may reach past 65535 or
    /// stand at the port. The change notes the bytes that were there.
    pub fn patch(&mut self, change: &mut Change, address: u16, bytes: &[u8])
        requires end { address + length bytes.now ≤ 65536 }
        requires plain { meets_port self.old.map address bytes.now ≡ false }
        requires count { change.old.count + length bytes.now ≤ 3 }
        requires fits { CanRestore change.old self.old }
        ensures after { self.new ≡ bus_with_patch address bytes.now self.old }
        ensures undo { bus_before change.new self.new ≡ bus_before change.old self.old }
        ensures fits { CanRestore change.new self.new }
    {
        for (i, byte) in bytes.iter().enumerate() {
            self.patch_byte(change, address + i as u16, *byte);
        }
    }

    /// Puts a byte into memory, ROM included, but not at the port. The change notes the byte that
    /// was there.
    fn patch_byte(&mut self, change: &mut Change, address: u16, value: u8)
        requires plain { is_port self.old.map address ≡ false }
        requires count { change.old.count < 3 }
        requires fits { CanRestore change.old self.old }
        ensures after { self.new ≡ bus_with_byte self.old address value }
        ensures count { change.new.count ≡ change.old.count + 1 }
        ensures undo { bus_before change.new self.new ≡ bus_before change.old self.old }
        ensures fits { CanRestore change.new self.new }
    {
        let old = self.peek(address);
        *change = noting(*change, address, old);
        self.set(address, value);
    }

    /// Puts a byte into memory below $0200, where neither port nor ROM can stand.
    #[inline(always)]
    #[tactic(auto, unfolding(model::specs::State::is_port))]
    fn set_low(&mut self, address: u16, value: u8)
        requires { address < 512 }
        ensures after { self.new ≡ bus_with_byte self.old address value }
        ensures port { is_port self.old.map address ≡ false }
    {
        self.memory[address as usize] = value;
    }
}

/// Returns whether none of some cells stands at the port.
fn spares_port(map: &MapSpec, cells: &[(u16, u8)]) -> bool
    ensures { result ≡ list_all (λ cell. not (is_port map.now cell.0)) cells.now }
{
    for (address, _) in cells {
        if map.is_port(*address) {
            return false;
        }
    }
    true
}

/// Puts bytes into a memory, in their order.
fn put_cells(memory: &mut Vec<u8>, cells: &[(u16, u8)])
    requires { length memory.old.items ≡ 65536 }
    ensures { memory.new.items ≡ put_cells cells.now memory.old.items }
{
    for (address, byte) in cells {
        memory[*address as usize] = *byte;
    }
}

/// Returns the change with one cell more, before the others.
fn noting(change: Change, address: u16, old: u8) -> Change
    requires { change.count < 3 }
    ensures cells { cells_of result ≡ (address, old) ∷ cells_of change }
    ensures count { result.count ≡ change.count + 1 }
    ensures rest { (result.taken ≡ change.taken) × (result.given_len ≡ change.given_len)
        × (result.out_len ≡ change.out_len) × (result.control ≡ change.control) }
{
    let cells = [(address, old), change.cells[0], change.cells[1]];
    Change {
        cells,
        count: change.count + 1,
        ..change
    }
}

/// Makes a memory of this size that is all 0.
#[tactic(auto, unfolding(crate::specs::Memory::zeros))]
fn zeros(alloc: Global, size: usize) -> Result<Vec<u8>, AllocError>
    ensures zeros { IfOk result (λ memory. memory.items ≡ zeros size) }
    ensures len { IfOk result (λ memory. length memory.items ≡ size) }
    ensures clear { IfOk result (λ memory. (k : ℕ) → slice_index memory.items k ≡ 0) }
{
    vec![in alloc; 0u8; size]
}

/// States that each of some bytes is below 256, as their type says. A law for proofs: it does
/// nothing.
fn are_bytes(bytes: &[u8])
    ensures { AreBytes bytes.now }
{}
