//! How many cells a screen has.

ghost use Rattle.std.specs.Prelude.{◌≡◌, ◌≤◌};
ghost use Rattle.mon_screen.specs.Limits.{limited};

/// The size of a screen in cells: 80 to 250 columns, 24 to 100 rows.
#[derive(Clone, Copy, Debug, PartialEq, Eq)]
pub struct Size {
    pub columns: u8,
    pub rows: u8,

    ghost wide: { 80 ≤ columns },
    ghost not_wider: { columns ≤ 250 },
    ghost high: { 24 ≤ rows },
    ghost not_higher: { rows ≤ 100 },
}

/// Returns a number, or the nearest one from the least to the most.
fn limited(least: u8, most: u8, number: u32) -> u8
    requires { least ≤ most }
    ensures value { result ≡ limited least most number }
    ensures above { least ≤ result }
    ensures below { result ≤ most }
{
    if number < least as u32 {
        least
    } else {
        number.min(most as u32) as u8
    }
}

impl Size {
    /// Returns the size with so many columns and rows, or the nearest one that a screen can have.
    pub fn within(columns: u32, rows: u32) -> Size
        ensures columns { result.columns ≡ limited 80 250 columns }
        ensures rows { result.rows ≡ limited 24 100 rows }
    {
        Size {
            columns: limited(80, 250, columns),
            rows: limited(24, 100, rows),
        }
    }
}
