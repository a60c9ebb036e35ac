//! What an event records so that it can be undone.

ghost use Rattle.std.specs.Prelude.{◌≡◌, slice_get};
ghost use Rattle.model.specs.Undo.{cells_of};

use crate::registers::Regs;

/// What restores a bus: up to three memory cells with their old bytes, the newest first; how much
/// input had been taken; the lengths of both lists of the console; and the port's control byte.
#[derive(Clone, Copy, Debug, PartialEq, Eq)]
pub struct Change {
    pub cells: [(u16, u8); 3],
    /// How many of the cells are in use, 0 to 3.
    pub count: u8,
    pub taken: u32,
    pub given_len: u32,
    pub out_len: u32,
    /// Whether the control byte was 1.
    pub control: bool,
}

/// What restores a machine to its state before an event.
#[derive(Clone, Copy, Debug, PartialEq, Eq)]
pub struct Undo {
    pub regs: Regs,
    pub irq: bool,
    pub nmi: bool,
    pub cycles: u64,
    pub change: Change,
}

impl Undo {
    /// Returns the record's cell at an index, counted from 0: an address and its old byte.
    ///
    /// The newest cell comes first. Returns `None` past the last cell in use.
    #[tactic(auto, using(crate::proofs::Cells::cell_within, crate::proofs::Cells::cell_past))]
    pub fn cell(&self, index: u8) -> Option<(u16, u8)>
        ensures { result ≡ slice_get (cells_of self.now.change) index }
    {
        if index < self.change.count {
            self.change.cells.get(index as usize).copied()
        } else {
            None
        }
    }
}
