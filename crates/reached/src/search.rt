//! The search for what control can reach.

ghost use Rattle.std.specs.Prelude.{◌≡◌, ◌<◌, [], length, IfOk, IfSome, OnOk};
ghost use Rattle.reached.specs.Reached.{IsReached};
ghost use Rattle.reached.specs.Search.{AreUnset, IsSearch, seen_of, with_address};

use crate::inline::Inline;
use crate::ways::ways_at;
use bus::Image;
use model::Profile;
use source_forms::Mark;
use std::alloc::{AllocError, Global};

/// The addresses that were found: a flag for each address, and these addresses in order.
#[derive(Drop)]
struct Search {
    flags: Vec<bool>,
    found: Vec<u16>,
}

/// Returns flags of which none is set. The only error is that a request for memory was refused.
fn no_flags(alloc: Global) -> Result<Vec<bool>, AllocError>
    ensures { IfOk result (λ flags. AreUnset 65536 flags.items) }
{
    let mut flags = Vec::with_capacity(alloc, 65536)?;
    for _ in 0..65536u32 {
        flags.push(false)?;
    }
    Ok(flags)
}

impl Search {
    /// Returns a search that has found nothing. The only error is that a request for memory was
    /// refused.
    fn new(alloc: Global) -> Result<Search, AllocError>
        ensures flags { IfOk result (λ s. AreUnset 65536 s.flags.items) }
        ensures found { IfOk result (λ s. s.found.items ≡ []) }
    {
        Ok(Search {
            flags: no_flags(alloc)?,
            found: Vec::new(alloc),
        })
    }

    /// Finds one address more, if it is there and was not found before. The only error is that a
    /// request for memory was refused.
    fn find(&mut self, address: Option<u16>) -> Result<(), AllocError>
        requires { length self.old.flags.items ≡ 65536 }
        ensures found { OnOk result (seen_of self.new ≡ with_address (seen_of self.old) address) }
        // That every address is one, said of this one.
        ensures small { IfSome address (λ a. a < 65536) }
    {
        if let Some(address) = address {
            if !self.flags[address as usize] {
                self.flags[address as usize] = true;
                self.found.push(address)?;
            }
        }
        Ok(())
    }

    /// Finds the starts, and then where control goes from each address that is found. The only
    /// error is that a request for memory was refused.
    fn explore(
        &mut self,
        profile: Profile,
        cells: &[Option<u8>],
        marks: &[Mark],
        routines: &[Inline],
        starts: &[u16],
    ) -> Result<(), AllocError>
        requires size { length cells.now ≡ 65536 }
        requires flags { AreUnset 65536 self.old.flags.items }
        requires found { self.old.found.items ≡ [] }
        ensures { OnOk result (IsSearch profile cells.now marks.now routines.now starts.now
            (length starts.now) (length self.new.found.items) (seen_of self.new)) }
    {
        for start in starts {
            self.find(Some(*start))?;
        }
        let mut at = 0usize;
        while at < self.found.len() {
            let ways = ways_at(profile, cells, marks, routines, self.found[at]);
            self.find(ways.target)?;
            self.find(ways.next)?;
            at += 1;
        }
        Ok(())
    }
}

/// Returns a flag for each address: whether control reaches it from the starts by branches, jumps
/// and calls, as far as instructions stand whole in the image and are marked as code. A call comes
/// back, behind its data where its routine is among those that have some; an indirect jump, BRK,
/// RTI and RTS lead nowhere. The only error is that a request for memory was refused. Source:
/// mos65.
pub fn reached(
    alloc: Global,
    profile: Profile,
    image: &Image,
    marks: &[Mark],
    routines: &[Inline],
    starts: &[u16],
) -> Result<Vec<bool>, AllocError>
    ensures { IfOk result
        (λ flags. IsReached profile image.now marks.now routines.now starts.now flags.items) }
{
    let cells = image.cells();
    let mut search = Search::new(alloc)?;
    search.explore(profile, cells, marks, routines, starts)?;
    Ok(search.flags)
}
