//! What is known of a state before its next step.

ghost use Rattle.std.specs.Prelude.{◌≡◌};
ghost use Rattle.accesses.specs.Footprint.{reads_here, stores_here};
ghost use Rattle.accesses.specs.Moments.{entry_stores, moment_of};
ghost use Rattle.page_data.specs.Steps.{IsAhead, cells_of};

use accesses::{Addresses, Moment, entry_stores, moment_of, reads_here, stores_here};
use arrayvec::ArrayVec;
use debugger::Session;

/// At most three addresses, each with the byte of memory there.
pub type Cells = ArrayVec<(u16, u8), 3>;

/// What is known of a state before its next step: what is about to happen, and the bytes where the
/// step may store.
#[derive(Drop)]
pub struct Ahead {
    pub moment: Moment,
    /// How many bytes were put out.
    pub shown: u32,
    /// What the instruction reads.
    pub reads: Addresses,
    /// Where the instruction stores.
    pub stores: Cells,
    /// Where an interrupt entry pushes.
    pub pushes: Cells,
}

/// Returns addresses with the bytes of memory there.
pub fn cells_of(session: &Session, addresses: &Addresses) -> Cells
    ensures { result.items ≡ cells_of session.now.current.bus.memory addresses.now.items }
{
    let mut cells = Cells::new();
    for address in addresses.as_slice() {
        let byte = session.peek(*address);
        let _ = cells.try_push((*address, byte));
    }
    cells
}

/// Returns what is known of the next step.
pub fn look_ahead(session: &Session) -> Ahead
    ensures { IsAhead result session.now.current }
{
    let moment = moment_of(session);
    Ahead {
        moment,
        shown: session.output_len(),
        reads: reads_here(session),
        stores: cells_of(session, &stores_here(session)),
        pushes: cells_of(session, &entry_stores(moment.regs.s)),
    }
}
