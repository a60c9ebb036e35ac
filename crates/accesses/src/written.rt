//! Which addresses were ever written.

ghost use Rattle.std.specs.Prelude.{◌≡◌, IfOk, false, length, slice_set, true};
ghost use Rattle.accesses.specs.Writing.{AreMarks, bytes_in, everywhere, is_written};
ghost use Rattle.accesses.specs.Writing.{or_everywhere, with_bytes};

use crate::Addresses;
use memory_map::Image;
use std::alloc::{AllocError, Global};
use std::marker::Model;

/// Which of the 65,536 addresses have a byte that somebody put there: the image, or a store.
#[derive(Drop)]
pub struct Written {
    /// For each address 0 where one is, and otherwise 1.
    marks: Vec<u8>,
}

impl Model for Written {
    ghost use Rattle.std.specs.Prelude.{◌≡◌, Bool, List, length, map};
    ghost use Rattle.accesses.specs.Writing.{is_unmarked};

    ghost Value = { List Bool };

    ghost view = { λ w. map is_unmarked w.marks.items };

    ghost invariant = { λ w. length w.marks.items ≡ 65536 };
}

impl Written {
    /// Returns the addresses where an image has a byte. It allocates all its room, so no later call
    /// allocates.
    ///
    /// Errors: `AllocError` if an allocation fails.
    pub fn of_image(alloc: Global, image: &Image) -> Result<Written, AllocError>
        ensures { IfOk result (λ w. w ≡ bytes_in image.now) }
    {
        let marks = image
            .cells()
            .iter()
            .map(|cell| cell.is_none() as u8)
            .collect(alloc)?;
        Ok(Written { marks })
    }

    /// Notes that a byte was put at an address.
    pub fn note(&mut self, address: u16)
        ensures { self.new ≡ slice_set self.old address true }
    {
        self.marks[address as usize] = 0;
    }

    /// Forgets that a byte was put at an address.
    pub fn forget(&mut self, address: u16)
        ensures { self.new ≡ slice_set self.old address false }
    {
        self.marks[address as usize] = 1;
    }

    /// Returns whether a byte was ever put at an address.
    pub fn contains(&self, address: u16) -> bool
        ensures { result ≡ is_written self.now address }
    {
        self.marks[address as usize] == 0
    }

    /// Returns a byte for each of the 65,536 addresses: 0 where a byte was ever put, and not 0
    /// where none was.
    pub fn marks(&self) -> &[u8]
        ensures size { length result.now ≡ 65536 }
        ensures cells { length self.now ≡ 65536 }
        ensures marks { AreMarks result.now self.now }
    {
        self.marks.as_slice()
    }

    /// Notes that a byte was put at each of these addresses.
    pub fn note_all(&mut self, addresses: &Addresses)
        ensures { self.new ≡ with_bytes self.old addresses.now.items }
    {
        for address in addresses.as_slice() {
            self.note(*address);
        }
    }

    /// Returns the same addresses once more.
    ///
    /// Errors: `AllocError` if an allocation fails.
    pub fn copied(&self, alloc: Global) -> Result<Written, AllocError>
        ensures { IfOk result (λ w. w ≡ self.now) }
    {
        let marks = Vec::from_slice(alloc, self.marks.as_slice())?;
        Ok(Written { marks })
    }

    /// Makes each address count as written.
    fn fill(&mut self)
        ensures { self.new ≡ everywhere }
    {
        self.marks.fill(0);
    }

    /// Returns these addresses, or all where each is to count as written.
    pub fn or_everywhere(self, is_everywhere: bool) -> Written
        ensures { result ≡ or_everywhere is_everywhere self }
    {
        let mut written = self;
        if is_everywhere {
            written.fill();
        }
        written
    }
}
