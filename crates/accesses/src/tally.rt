//! Visits and cycles by address.

ghost use Rattle.std.specs.Prelude.{◌≡◌, IfOk, length};
ghost use Rattle.accesses.specs.Tallies.{count_at, no_counts, noted};

use std::alloc::{AllocError, Global};
use std::marker::Model;

/// How often something was done, and how many cycles it took in all. Each number stays at the
/// highest of 64 bits once it is reached.
#[derive(Clone, Copy, Debug, PartialEq, Eq)]
pub struct Count {
    pub visits: u64,
    pub cycles: u64,
}

/// The visits and the cycles of the instructions at each of the 65,536 addresses.
#[derive(Drop)]
pub struct Tally {
    visits: Vec<u64>,
    cycles: Vec<u64>,
}

impl Model for Tally {
    ghost use Rattle.std.specs.Prelude.{◌≡◌, length};
    ghost use Rattle.accesses.specs.Tallies.{Counts};

    ghost Value = { Counts };

    ghost view = { λ t. record { visits = t.visits.items; cycles = t.cycles.items } };

    ghost invariant = { λ t. (length t.visits.items ≡ 65536) × (length t.cycles.items ≡ 65536) };
}

/// Returns a number of 0 for each of the 65,536 addresses.
fn zeros(alloc: Global) -> Result<Vec<u64>, AllocError>
    ensures zeros { IfOk result (λ zeros. zeros.items ≡ no_counts) }
    ensures size { IfOk result (λ zeros. length zeros.items ≡ 65536) }
{
    let mut zeros = Vec::with_capacity(alloc, 65536)?;
    for _ in 0..65536u32 {
        zeros.push(0)?;
    }
    Ok(zeros)
}

impl Tally {
    /// Makes a tally of nothing. It allocates all its room, so no later call allocates.
    ///
    /// Errors: `AllocError` if an allocation fails.
    pub fn new(alloc: Global) -> Result<Tally, AllocError>
        ensures { IfOk result (λ t. t ≡ record { visits = no_counts; cycles = no_counts }) }
    {
        let visits = zeros(alloc)?;
        let cycles = zeros(alloc)?;
        Ok(Tally { visits, cycles })
    }

    /// Counts one visit of an address, which took so many cycles.
    pub fn note(&mut self, address: u16, cycles: u64)
        ensures { self.new ≡ noted self.old address cycles }
    {
        let at = address as usize;
        self.visits[at] = self.visits[at].saturating_add(1);
        self.cycles[at] = self.cycles[at].saturating_add(cycles);
    }

    /// Returns the visits of an address, and the cycles that they took.
    pub fn at(&self, address: u16) -> Count
        ensures { result ≡ count_at self.now address }
    {
        let at = address as usize;
        Count {
            visits: self.visits[at],
            cycles: self.cycles[at],
        }
    }
}
