//! Columns in units of UTF-16.

ghost use Rattle.std.specs.Prelude.{◌≡◌, ◌≤◌, length, min, sum_by};
ghost use Rattle.lsp_messages.specs.Columns.{column_of, most, units_before, units_of};

/// Returns how many units of UTF-16 a byte of UTF-8 begins.
fn units_of(byte: u8) -> u64
    ensures { result ≡ units_of byte }
{
    if byte >= 240 {
        2
    } else if byte >= 128 && byte < 192 {
        0
    } else {
        1
    }
}

/// Returns how many units of UTF-16 stand before a byte of a line, by its index.
#[tactic(auto, using(std::proofs::lemmas::List::take_min))]
pub fn character_of(line: &[u8], start: usize) -> u64
    ensures { result ≡ units_before start line.now }
{
    let mut count = 0u64;
    for byte in &line[..start.min(line.len())] {
        count = count.saturating_add(units_of(*byte));
    }
    count
}

/// Returns the index of the character of a line before which so many units of UTF-16 stand at
/// least, or how many bytes the line has.
#[tactic(auto, using(crate::proofs::ColumnSteps::at_end))]
pub fn column_of(line: &[u8], character: u64) -> usize
    ensures column { result ≡ column_of character line.now }
    ensures within { result ≤ length line.now }
{
    let mut left = character;
    for (index, byte) in line.iter().enumerate() {
        let units = units_of(*byte);
        // A character begins here, and no unit is left to stand before it.
        if left == 0 && units > 0 {
            return index;
        }
        left = left.saturating_sub(units);
    }
    line.len()
}
