//! Pages of memory, and stamps that tell which of them changed.

ghost use Rattle.std.specs.Prelude.{◌≡◌, ◌<◌, ◌≤◌, ◌/◌, length, slice_index, slice_set, ℕ, List};
ghost use Rattle.model.specs.Undo.{cells_of, put_cells};
ghost use Rattle.bus.specs.Pages.{AreSameBelow, SparesPage, StaySame};

use model::Change;

/// For each page of memory, 256 bytes, the number that was current when a byte of it last changed.
pub type Stamps = [u32; 256];

/// Copies the pages whose stamp is at least `since`. The others are the same in both already, so
/// both memories are equal afterwards.
pub(crate) fn copy_pages(into: &mut [u8], from: &[u8], stamps: &Stamps, since: u32)
    requires into_size { length into.old ≡ 65536 }
    requires from_size { length from.now ≡ 65536 }
    requires same { AreSameBelow since stamps.now into.old from.now }
    ensures { into.new ≡ from.now }
{
    for page in 0..256usize {
        if stamps[page] >= since {
            copy_page(into, from, page);
        }
    }
}

/// Copies one page.
#[inline(always)]
fn copy_page(into: &mut [u8], from: &[u8], page: usize)
    requires into_size { length into.old ≡ 65536 }
    requires from_size { length from.now ≡ 65536 }
    requires page { page < 256 }
    ensures size { length into.new ≡ 65536 }
    ensures copied { (k : ℕ) → k / 256 ≡ page → slice_index into.new k ≡ slice_index from.now k }
    ensures kept { (k : ℕ) → slice_index into.old k ≡ slice_index from.now k
        → slice_index into.new k ≡ slice_index from.now k }
{
    let start = page * 256;
    into[start..start + 256].copy_from_slice(&from[start..start + 256]);
}

/// Gives each page in which a step stored the stamp `now`; the change notes where that was. A
/// memory that agreed with the memory before the step, in all pages with a lower stamp, still
/// agrees.
#[inline(always)]
pub fn stamp_pages(stamps: &mut Stamps, now: u32, change: &Change)
    requires { change.now.count ≤ 3 }
    ensures { (memory : List ℕ)
        → StaySame now stamps.old stamps.new (put_cells (cells_of change.now) memory) memory }
{
    stamp_cells(stamps, now, change);
}

/// Stamps the pages of a change's cells. A page whose stamp is lower afterwards has none of the
/// cells, and has its old stamp.
#[inline(always)]
fn stamp_cells(stamps: &mut Stamps, now: u32, change: &Change)
    requires { change.now.count ≤ 3 }
    ensures kept { (page : ℕ) → slice_index stamps.new page < now
        → slice_index stamps.new page ≡ slice_index stamps.old page }
    ensures others { (page : ℕ) → slice_index stamps.new page < now
        → SparesPage (cells_of change.now) page }
{
    for (place, _) in &change.cells[..change.count as usize] {
        stamps[(*place >> 8) as usize] = now;
    }
}

/// Gives the page of an address the stamp `now`.
#[inline(always)]
pub(crate) fn stamp_page(stamps: &mut Stamps, now: u32, address: u16)
    ensures { stamps.new ≡ slice_set stamps.old (address / 256) now }
{
    stamps[(address >> 8) as usize] = now;
}

/// Gives all pages the stamp `now`. No page has a lower one then, so nothing is claimed of any.
pub fn stamp_all(stamps: &mut Stamps, now: u32)
    ensures { (since : ℕ) → since ≤ now → (xs ys : List ℕ) → AreSameBelow since stamps.new xs ys }
{
    *stamps = [now; 256];
}
