//! The bytes that a memory is filled with.

ghost use Rattle.std.specs.Prelude.{◌≡◌, ◌+◌, ◌≤◌, length, IfOk, IfErr, Some, slice_set};
ghost use Rattle.model.specs.Image.{empty_image, cell_at, with_bytes, IsImage};
ghost use Rattle.model.specs.State.{memory_of};

use model::BusFault;
use std::alloc::Global;
use std::marker::Model;

/// A byte or nothing at each of the 65,536 addresses. Source: mos65.
#[derive(Drop)]
pub struct Image {
    cells: Vec<Option<u8>>,
}

impl Model for Image {
    ghost use Rattle.std.specs.Prelude.{ℕ, List, Option};
    ghost use Rattle.model.specs.Image.{IsImage};

    ghost Value = { List (Option ℕ) };

    ghost view = { λ i. i.cells.items };

    ghost invariant = { λ i. IsImage i.cells.items };
}

impl Image {
    /// Makes an image with no byte anywhere. It allocates all its room, so no later call allocates.
    ///
    /// Errors: `OutOfMemory` if an allocation fails.
    pub fn new(alloc: Global) -> Result<Image, BusFault>
        ensures empty { IfOk result (λ image. image ≡ empty_image) }
        ensures only { IfErr result (λ fault. fault ≡ BusFault.OutOfMemory) }
    {
        let mut cells = Vec::with_capacity(alloc, 65536).map_err(|_| BusFault::OutOfMemory)?;
        for _ in 0..65536u32 {
            cells.push(None).map_err(|_| BusFault::OutOfMemory)?;
        }
        Ok(Image { cells })
    }

    /// Returns the 65,536 cells in the order of their addresses.
    pub fn cells(&self) -> &[Option<u8>]
        ensures same { result.now ≡ self.now }
        ensures image { IsImage self.now }
    {
        self.cells.as_slice()
    }

    /// Returns the byte at an address, or `None` if the image has none there.
    pub fn get(&self, address: u16) -> Option<u8>
        ensures { result ≡ cell_at self.now address }
    {
        self.cells[address as usize]
    }

    /// Puts a byte at an address, in place of what was there.
    pub fn put(&mut self, address: u16, byte: u8)
        ensures { self.new ≡ slice_set self.old address (Some byte) }
    {
        self.cells[address as usize] = Some(byte);
    }

    /// Puts bytes from an address on, none of them past 65535.
    pub fn store(&mut self, address: u16, bytes: &[u8])
        requires { address + length bytes.now ≤ 65536 }
        ensures { self.new ≡ with_bytes self.old address bytes.now }
    {
        for (i, byte) in bytes.iter().enumerate() {
            self.cells[address as usize + i] = Some(*byte);
        }
    }

    /// Fills memory with the bytes, and with 0 where there is none.
    pub fn fill(&self, memory: &mut Vec<u8>)
        requires { length memory.old.items ≡ 65536 }
        ensures filled { memory.new.items ≡ memory_of self.now }
        ensures len { length memory.new.items ≡ 65536 }
    {
        for address in 0..65536usize {
            memory[address] = self.cells[address].unwrap_or(0);
        }
    }
}
