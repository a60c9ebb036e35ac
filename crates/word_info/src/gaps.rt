//! The gaps between ranges.

ghost use Rattle.std.specs.Prelude.{◌≡◌};
ghost use Rattle.word_info.specs.Facts.{gap_size, larger_gap, largest_gap};
ghost use Rattle.word_info.specs.Steps.{with_gap};

use crate::ranges::Range;

/// The addresses between two ranges.
#[derive(Clone, Copy)]
pub struct Gap {
    /// The last address before the gap.
    pub after: u16,
    /// The first address after the gap.
    pub before: u16,
}

impl Gap {
    /// Returns how many addresses lie in the gap.
    pub fn size(&self) -> u16
        ensures { result ≡ gap_size self.now }
    {
        self.before.saturating_sub(self.after).saturating_sub(1)
    }
}

/// Returns the larger of two gaps, and the first of two that are equal.
fn larger_gap(best: Option<Gap>, gap: Gap) -> Option<Gap>
    ensures { result ≡ larger_gap best gap }
{
    match best {
        None => Some(gap),
        Some(best) => {
            if best.size() < gap.size() {
                Some(gap)
            } else {
                Some(best)
            }
        }
    }
}

/// Returns the larger of a gap and that before a range, if a range before it ends at an address.
fn with_gap(best: Option<Gap>, last: Option<u16>, high: Range) -> Option<Gap>
    ensures { result ≡ with_gap best last high }
{
    match last {
        None => best,
        Some(last) => larger_gap(
            best,
            Gap {
                after: last,
                before: high.first,
            },
        ),
    }
}

/// Returns the first of the largest gaps between ranges, if there are two ranges.
#[tactic(auto, unfolding(crate::specs::Facts::largest_gap))]
pub fn largest_gap(ranges: &[Range]) -> Option<Gap>
    ensures { result ≡ largest_gap ranges.now }
{
    let mut best = None;
    let mut last = None;
    for high in ranges {
        best = with_gap(best, last, *high);
        last = Some(high.last);
    }
    best
}
